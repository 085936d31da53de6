//! Jacobian coordinates, X, Y and Z for x = X / Z² and y = Y / Z³: a sum in them takes no inverse.
ghost use Rattle.std.specs.Prelude.{◌≡◌, ⊤, ℕ, ◌+◌, ◌-◌, ◌*◌, ◌%◌, ◌<◌, MatchOption};
ghost use Rattle.modular.specs.Numbers.{value};
ghost use Rattle.ecdsa.specs.Group.{Point, add, next};
ghost use Rattle.ecdsa.specs.Fields.{modulus_of};
ghost use Rattle.ecdsa.specs.Elements.{number, IsElement, AreElements, affine_of, ScaledElements, ScaledFor, IsSumBy, OptionElements, OptionFor};

use crate::affine::{Coordinates, third_on_line};
use crate::field::{Element, Field};

/// A point's Jacobian coordinates.
#[derive(Clone, Copy)]
pub struct Jacobian<const N: usize> {
    /// X.
    pub x: Element<N>,
    /// Y.
    pub y: Element<N>,
    /// Z.
    pub z: Element<N>,
}

/// The slope of the tangent, scaled: 3 X² - 3 Z⁴, of Z².
fn scaled_tangent<const N: usize>(
    field: &Field<'_, N>,
    x: &Element<N>,
    zz: &Element<N>,
) -> Element<N>
    requires x_element { IsElement (modulus_of field.now) x.now }
    requires zz_element { IsElement (modulus_of field.now) zz.now }
    ensures element { IsElement (modulus_of field.now) result }
    ensures number { (number (modulus_of field.now) result
        + 3 * (number (modulus_of field.now) zz.now * number (modulus_of field.now) zz.now)) % modulus_of field.now
        ≡ 3 * (number (modulus_of field.now) x.now * number (modulus_of field.now) x.now) % modulus_of field.now }
{
    let product = field.multiply(&field.subtract(x, zz), &field.add(x, zz));
    field.add(&field.double(&product), &product)
}

/// Twice a point.
fn double<const N: usize>(field: &Field<'_, N>, point: &Jacobian<N>) -> Jacobian<N>
    requires { ScaledElements (modulus_of field.now) point.now }
    ensures elements { ScaledElements (modulus_of field.now) result }
    ensures stands { (P : Point) → ScaledFor (modulus_of field.now) point.now P
        → ScaledFor (modulus_of field.now) result (add (modulus_of field.now) (modulus_of field.now - 3) P P) }
{
    let slope = scaled_tangent(field, &point.x, &field.square(&point.z));
    let yy = field.square(&point.y);
    let xyy = field.multiply(&point.x, &yy);
    let x = field.double(&field.double(&xyy));
    let yyyy = field.square(&yy);
    let y = field.double(&field.double(&field.double(&yyyy)));
    let third = third_on_line(field, &slope, &Coordinates { x, y }, &x);
    let z = field.double(&field.multiply(&point.y, &point.z));
    Jacobian {
        x: third.x,
        y: third.y,
        z,
    }
}

/// The sum of a point and another, whose x times Z² and y times Z³ of the first are `x` and `y`.
fn add_scaled<const N: usize>(
    field: &Field<'_, N>,
    point: &Jacobian<N>,
    x: &Element<N>,
    y: &Element<N>,
) -> Jacobian<N>
    requires elements { ScaledElements (modulus_of field.now) point.now }
    requires x_element { IsElement (modulus_of field.now) x.now }
    requires y_element { IsElement (modulus_of field.now) y.now }
    ensures elements { ScaledElements (modulus_of field.now) result }
    ensures stands { IsSumBy (modulus_of field.now) point.now (number (modulus_of field.now) x.now)
        (number (modulus_of field.now) y.now) result }
{
    let run = field.subtract(x, &point.x);
    let rise = field.subtract(y, &point.y);
    let square = field.square(&run);
    let cube = field.multiply(&square, &run);
    let x = field.multiply(&point.x, &square);
    let y = field.multiply(&point.y, &cube);
    let other_x = field.add(&cube, &x);
    let third = third_on_line(field, &rise, &Coordinates { x, y }, &other_x);
    let z = field.multiply(&point.z, &run);
    Jacobian {
        x: third.x,
        y: third.y,
        z,
    }
}

/// The sum of a point and another, which is not at infinity.
fn add_affine<const N: usize>(
    field: &Field<'_, N>,
    point: &Jacobian<N>,
    other: &Coordinates<N>,
) -> Jacobian<N>
    requires elements { ScaledElements (modulus_of field.now) point.now }
    requires other_elements { AreElements (modulus_of field.now) other.now }
    ensures elements { ScaledElements (modulus_of field.now) result }
    ensures stands { (P : Point) → ScaledFor (modulus_of field.now) point.now P
        → ScaledFor (modulus_of field.now) result
        (add (modulus_of field.now) (modulus_of field.now - 3) P (affine_of (modulus_of field.now) other.now)) }
{
    let zz = field.square(&point.z);
    let zzz = field.multiply(&zz, &point.z);
    let x = field.multiply(&other.x, &zz);
    let y = field.multiply(&other.y, &zzz);
    add_scaled(field, point, &x, &y)
}

/// The coordinates x and y of a point; none where Z has no inverse.
pub fn coordinates_of<const N: usize>(
    field: &Field<'_, N>,
    point: &Jacobian<N>,
) -> Option<Coordinates<N>>
    requires { ScaledElements (modulus_of field.now) point.now }
    ensures elements { MatchOption result ⊤ (λ found. AreElements (modulus_of field.now) found) }
    ensures same { MatchOption result ⊤ (λ found. (P : Point) → ScaledFor (modulus_of field.now) point.now P
        → affine_of (modulus_of field.now) found ≡ P) }
{
    let inverse = field.inverse(&point.z);
    if !field.is_same(&field.multiply(&point.z, &inverse), &field.one()) {
        return None;
    }
    let square = field.square(&inverse);
    let cube = field.multiply(&square, &inverse);
    let x = field.multiply(&point.x, &square);
    let y = field.multiply(&point.y, &cube);
    Some(Coordinates { x, y })
}

/// Twice a point, and another more where `is_added`: a step of a multiplication. `None` is the
/// point at infinity.
pub fn step<const N: usize>(
    field: &Field<'_, N>,
    sum: Option<Jacobian<N>>,
    other: &Coordinates<N>,
    is_added: bool,
) -> Option<Jacobian<N>>
    requires elements { OptionElements {N = N} (modulus_of field.now) sum }
    requires other_elements { AreElements (modulus_of field.now) other.now }
    ensures elements { OptionElements {N = N} (modulus_of field.now) result }
    ensures stands { (P : Point) → OptionFor {N = N} (modulus_of field.now) sum.entry P
        → OptionFor {N = N} (modulus_of field.now) result
        (next (modulus_of field.now) (modulus_of field.now - 3) is_added P (affine_of (modulus_of field.now) other.now)) }
{
    let Some(point) = sum else {
        if !is_added {
            return None;
        }
        return Some(Jacobian {
            x: other.x,
            y: other.y,
            z: field.one(),
        });
    };
    let twice = double(field, &point);
    if !is_added {
        return Some(twice);
    }
    Some(add_affine(field, &twice, other))
}
