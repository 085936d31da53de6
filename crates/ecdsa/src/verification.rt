//! The verification (SEC 1, 4.1.4).
ghost use Rattle.std.specs.Prelude.{◌≡◌, ℕ, ◌+◌, ◌-◌, ◌*◌, ◌%◌, ◌^◌, ◌<◌, ◌≤◌, ◌==◌, true, false, length, MatchOption};
ghost use Rattle.modular.specs.Numbers.{value};
ghost use Rattle.ecdsa.specs.Signature.{number_of_octets, ecdsa_sig_value};
ghost use Rattle.ecdsa.specs.Curves.{base_point, combination};
ghost use Rattle.ecdsa.specs.Ecdsa.{accepts, has_abscissa, is_in_range, is_point, is_signature, leftmost_bits, public_key};
ghost use Rattle.ecdsa.specs.Fields.{modulus_of};
ghost use Rattle.ecdsa.specs.Elements.{number, IsElement, AreElements, affine_of, point_of, IsPoint};

use crate::affine::{Coordinates, CurvePoint, add};
use crate::field::{Element, Field};
use crate::jacobian::coordinates_of;
use crate::key::read_key;
use crate::multiple::{multiple_of, scaled_sum};
use crate::octets::{load, load_first};
use crate::parameters::Parameters;
use crate::signature::read_signature;

/// The number of these octets, where it is from 1 to n - 1.
fn number_in_range<const N: usize>(parameters: &Parameters<N>, octets: &[u8]) -> Option<[u64; N]>
    ensures { MatchOption result (is_in_range parameters.now.curve (number_of_octets octets.now) ≡ false)
        (λ limbs. (value limbs ≡ number_of_octets octets.now) × (is_in_range parameters.now.curve (number_of_octets octets.now) ≡ true)) }
{
    let Some(limbs) = load(octets) else {
        return None;
    };
    if modular::is_zero(&limbs) || !modular::is_below(&limbs, &parameters.base_order) {
        return None;
    }
    Some(limbs)
}

/// G.
fn generator<const N: usize>(parameters: &Parameters<N>, field: &Field<'_, N>) -> Coordinates<N>
    requires { field.now.modulus.limbs.now ≡ parameters.now.prime }
    ensures elements { AreElements (modulus_of field.now) result }
    ensures point { affine_of (modulus_of field.now) result ≡ base_point parameters.now.curve }
{
    Coordinates {
        x: field.element_of(&parameters.generator_x),
        y: field.element_of(&parameters.generator_y),
    }
}

/// [u1]G + [u2]Q, by the coordinates x and y of each.
fn sum_of_points<const N: usize>(
    parameters: &Parameters<N>,
    field: &Field<'_, N>,
    u1: &[u64; N],
    u2: &[u64; N],
    key: &Coordinates<N>,
) -> CurvePoint<N>
    requires prime { field.now.modulus.limbs.now ≡ parameters.now.prime }
    requires elements { AreElements (modulus_of field.now) key.now }
    ensures point { IsPoint (modulus_of field.now) result }
    ensures sum { point_of (modulus_of field.now) result
        ≡ combination parameters.now.curve (value u1.now) (value u2.now) (affine_of (modulus_of field.now) key.now) }
{
    let base = generator(parameters, field);
    let first = multiple_of(field, &base, u1, parameters.digits);
    let second = multiple_of(field, key, u2, parameters.digits);
    add(field, &first, &second)
}

/// [u1]G + [u2]Q of a point Q of the curve.
fn sum_of_multiples<const N: usize>(
    parameters: &Parameters<N>,
    field: &Field<'_, N>,
    u1: &[u64; N],
    u2: &[u64; N],
    key: &Coordinates<N>,
) -> CurvePoint<N>
    requires prime { field.now.modulus.limbs.now ≡ parameters.now.prime }
    requires elements { AreElements (modulus_of field.now) key.now }
    requires on_curve { is_point parameters.now.curve (affine_of (modulus_of field.now) key.now) ≡ true }
    ensures point { IsPoint (modulus_of field.now) result }
    ensures sum { point_of (modulus_of field.now) result
        ≡ combination parameters.now.curve (value u1.now) (value u2.now) (affine_of (modulus_of field.now) key.now) }
{
    let base = generator(parameters, field);
    let both = add(field, &CurvePoint::Affine(base), &CurvePoint::Affine(*key));
    let CurvePoint::Affine(both) = both else {
        return sum_of_points(parameters, field, u1, u2, key);
    };
    let Some(scaled) = scaled_sum(field, &base, key, &both, u1, u2, parameters.digits) else {
        return CurvePoint::Infinity;
    };
    let Some(found) = coordinates_of(field, &scaled) else {
        return sum_of_points(parameters, field, u1, u2, key);
    };
    CurvePoint::Affine(found)
}

/// Whether x of a point is, modulo n, an element of the integers modulo n.
fn is_abscissa<const N: usize>(
    parameters: &Parameters<N>,
    field: &Field<'_, N>,
    scalars: &Field<'_, N>,
    point: &CurvePoint<N>,
    r: &Element<N>,
) -> bool
    requires order { scalars.now.modulus.limbs.now ≡ parameters.now.base_order }
    requires point { IsPoint (modulus_of field.now) point.now }
    requires element { IsElement (modulus_of scalars.now) r.now }
    ensures { result ≡ has_abscissa parameters.now.curve (number (modulus_of scalars.now) r.now)
        (point_of (modulus_of field.now) point.now) }
{
    match point {
        CurvePoint::Infinity => false,
        CurvePoint::Affine(point) => {
            scalars.is_same(&scalars.element_of(&field.limbs_of(&point.x)), r)
        }
    }
}

/// Steps 4 to 8 of the verification, for a digest's number e and a signature r and s in range.
fn is_accepted<const N: usize>(
    parameters: &Parameters<N>,
    field: &Field<'_, N>,
    e: &[u64; N],
    key: &Coordinates<N>,
    r: &[u64; N],
    s: &[u64; N],
) -> bool
    requires prime { field.now.modulus.limbs.now ≡ parameters.now.prime }
    requires elements { AreElements (modulus_of field.now) key.now }
    requires on_curve { is_point parameters.now.curve (affine_of (modulus_of field.now) key.now) ≡ true }
    requires r_below { value r.now < value parameters.now.base_order }
    requires s_below { value s.now < value parameters.now.base_order }
    ensures { result ≡ accepts parameters.now.curve (value e.now) (affine_of (modulus_of field.now) key.now) (value r.now) (value s.now) }
{
    let scalars = Field::new(&parameters.base_order);
    let w = scalars.inverse(&scalars.element_of(s));
    let r = scalars.element_of(r);
    let u1 = scalars.limbs_of(&scalars.multiply(&scalars.element_of(e), &w));
    let u2 = scalars.limbs_of(&scalars.multiply(&r, &w));
    let sum = sum_of_multiples(parameters, field, &u1, &u2, key);
    is_abscissa(parameters, field, &scalars, &sum, &r)
}

/// Whether a signature is that of a digest under a public key of the curve.
pub fn verify_with<const N: usize>(
    parameters: &Parameters<N>,
    key: &[u8],
    digest: &[u8],
    signature: &[u8],
) -> bool
    requires { length digest.now ≤ 64 }
    ensures { result ≡ is_signature parameters.now.curve (leftmost_bits parameters.now.curve digest.now)
        (public_key parameters.now.curve key.now) (ecdsa_sig_value signature.now) }
{
    let field = Field::new(&parameters.prime);
    let Some(key) = read_key(parameters, &field, key) else {
        return false;
    };
    let Some(octets) = read_signature(signature) else {
        return false;
    };
    let Some(r) = number_in_range(parameters, octets.r) else {
        return false;
    };
    let Some(s) = number_in_range(parameters, octets.s) else {
        return false;
    };
    let e = load_first(digest, parameters.digest_octets);
    is_accepted(parameters, &field, &e, &key, &r, &s)
}
