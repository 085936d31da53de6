//! Public keys (SEC 1, 2.3.4 and 3.2.2.1).
ghost use Rattle.std.specs.Prelude.{◌≡◌, ℕ, ◌+◌, ◌-◌, ◌*◌, ◌%◌, ◌^◌, ◌<◌, ◌≤◌, ◌==◌, true, false, is_some, MatchOption, nat_lt};
ghost use Rattle.modular.specs.Numbers.{value};
ghost use Rattle.ecdsa.specs.Signature.{number_of_octets};
ghost use Rattle.ecdsa.specs.Ecdsa.{is_on_curve, is_point, valid_key, public_key};
ghost use Rattle.ecdsa.specs.Fields.{modulus_of};
ghost use Rattle.ecdsa.specs.Elements.{number, IsElement, AreElements, affine_of};

use crate::affine::Coordinates;
use crate::field::{Element, Field};
use crate::octets::load;
use crate::parameters::Parameters;

/// The coordinate of these octets, where it is below p.
fn coordinate<const N: usize>(field: &Field<'_, N>, octets: &[u8]) -> Option<Element<N>>
    ensures { MatchOption result (nat_lt (number_of_octets octets.now) (modulus_of field.now) ≡ false)
        (λ found. IsElement (modulus_of field.now) found
        × (number_of_octets octets.now < modulus_of field.now)
        × (number (modulus_of field.now) found ≡ number_of_octets octets.now)) }
{
    let limbs = load(octets)?;
    if !modular::is_below(&limbs, field.modulus.limbs) {
        return None;
    }
    Some(field.element_of(&limbs))
}

/// x³ - 3 x + b.
fn right_side<const N: usize>(
    parameters: &Parameters<N>,
    field: &Field<'_, N>,
    x: &Element<N>,
) -> Element<N>
    requires { IsElement (modulus_of field.now) x.now }
    ensures element { IsElement (modulus_of field.now) result }
    ensures number { number (modulus_of field.now) result
        ≡ (number (modulus_of field.now) x.now ^ 3
        + (modulus_of field.now - 3) * number (modulus_of field.now) x.now
        + value parameters.now.constant_term) % modulus_of field.now }
{
    let square = field.square(x);
    let cube = field.multiply(&square, x);
    let triple = field.add(&field.double(x), x);
    let difference = field.subtract(&cube, &triple);
    field.add(&difference, &field.element_of(&parameters.constant_term))
}

/// Whether a point is on the curve.
fn is_valid<const N: usize>(
    parameters: &Parameters<N>,
    field: &Field<'_, N>,
    point: &Coordinates<N>,
) -> bool
    requires prime { field.now.modulus.limbs.now ≡ parameters.now.prime }
    requires elements { AreElements (modulus_of field.now) point.now }
    ensures { result ≡ is_on_curve parameters.now.curve (number (modulus_of field.now) point.now.x)
        (number (modulus_of field.now) point.now.y) }
{
    let left = field.square(&point.y);
    field.is_same(&left, &right_side(parameters, field, &point.x))
}

/// The public key with the coordinates of these octets, where it is valid.
fn valid_point<const N: usize>(
    parameters: &Parameters<N>,
    field: &Field<'_, N>,
    x: &[u8],
    y: &[u8],
) -> Option<Coordinates<N>>
    requires { field.now.modulus.limbs.now ≡ parameters.now.prime }
    ensures { MatchOption result (valid_key parameters.now.curve (number_of_octets x.now) (number_of_octets y.now) ≡ None)
        (λ found. AreElements (modulus_of field.now) found
        × (valid_key parameters.now.curve (number_of_octets x.now) (number_of_octets y.now)
        ≡ Some (affine_of (modulus_of field.now) found))
        × (is_point parameters.now.curve (affine_of (modulus_of field.now) found) ≡ true)) }
{
    let Some(x) = coordinate(field, x) else {
        return None;
    };
    let Some(y) = coordinate(field, y) else {
        return None;
    };
    let point = Coordinates { x, y };
    if !is_valid(parameters, field, &point) {
        return None;
    }
    Some(point)
}

/// Whether these octets are a public key of the curve with the parameters, in the uncompressed form.
pub fn has_key<const N: usize>(parameters: &Parameters<N>, octets: &[u8]) -> bool
    ensures { result ≡ is_some (public_key parameters.now.curve octets.now) }
{
    let field = Field::new(&parameters.prime);
    read_key(parameters, &field, octets).is_some()
}

/// The public key of these octets, where they are in the uncompressed form and it is valid.
#[tactic(auto, unfolding(crate::specs::Ecdsa::public_key))]
pub fn read_key<const N: usize>(
    parameters: &Parameters<N>,
    field: &Field<'_, N>,
    octets: &[u8],
) -> Option<Coordinates<N>>
    requires { field.now.modulus.limbs.now ≡ parameters.now.prime }
    ensures { MatchOption result (public_key parameters.now.curve octets.now ≡ None)
        (λ found. AreElements (modulus_of field.now) found
        × (public_key parameters.now.curve octets.now ≡ Some (affine_of (modulus_of field.now) found))
        × (is_point parameters.now.curve (affine_of (modulus_of field.now) found) ≡ true)) }
{
    let [form, coordinates @ ..] = octets else {
        return None;
    };
    let count = parameters.octets;
    if *form != 0x04 || coordinates.len() != 2 * count {
        return None;
    }
    valid_point(
        parameters,
        field,
        &coordinates[..count],
        &coordinates[count..],
    )
}
