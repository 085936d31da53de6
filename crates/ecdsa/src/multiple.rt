//! The multiples of a point (SEC 1, 2.2.1).
ghost use Rattle.std.specs.Prelude.{◌≡◌, ⊤, ℕ, ◌-◌, ◌*◌, ◌/◌, ◌%◌, ◌^◌, ◌<◌, ◌≤◌, ◌==◌, ◌||◌, length, slice_index, MatchOption};
ghost use Rattle.modular.specs.Numbers.{value};
ghost use Rattle.ecdsa.specs.Group.{add as sum_of, multiple, IsChosen, IsCurve, IsOn};
ghost use Rattle.ecdsa.specs.Fields.{modulus_of};
ghost use Rattle.ecdsa.specs.Elements.{AreElements, affine_of, point_of, IsPoint, OptionElements, OptionFor};

use crate::affine::{Coordinates, CurvePoint, add};
use crate::field::Field;
use crate::jacobian::{Jacobian, coordinates_of, step};

/// Whether the binary digit of a number at a place, counted from the lowest, is 1.
fn digit(limbs: &[u64], place: usize) -> bool
    requires place { place < 64 * length limbs.now }
    requires limbs { (k : ℕ) → slice_index limbs.now k < 2 ^ 64 }
    ensures { result ≡ (value limbs.now / 2 ^ place % 2 == 1) }
{
    (limbs[place / 64] >> (place % 64)) % 2 == 1
}

/// The multiple of a point by a number of so many binary digits, in Jacobian coordinates; `None`
/// is the point at infinity.
fn scaled_multiple<const N: usize>(
    field: &Field<'_, N>,
    point: &Coordinates<N>,
    factor: &[u64],
    digits: usize,
) -> Option<Jacobian<N>>
    requires elements { AreElements (modulus_of field.now) point.now }
    requires digits { digits ≤ 64 * length factor.now }
    ensures elements { OptionElements {N = N} (modulus_of field.now) result }
    ensures stands { OptionFor {N = N} (modulus_of field.now) result
        (multiple (modulus_of field.now) (modulus_of field.now - 3) digits (value factor.now)
        (affine_of (modulus_of field.now) point.now)) }
{
    let mut sum = None;
    for place in (0..digits).rev() {
        sum = step(field, sum, point, digit(factor, place));
    }
    sum
}

/// Whether one of two digits is 1.
fn either(first: bool, second: bool) -> bool
    ensures { result ≡ (first || second) }
{
    first || second
}

/// What is added at a place of a sum of two multiples, by the points' digits there: the first point, the
/// second or both; any where no digit is 1.
fn chosen<const N: usize>(
    field: &Field<'_, N>,
    first: &Coordinates<N>,
    second: &Coordinates<N>,
    both: &Coordinates<N>,
    by_first: bool,
    by_second: bool,
) -> Coordinates<N>
    requires first_elements { AreElements (modulus_of field.now) first.now }
    requires second_elements { AreElements (modulus_of field.now) second.now }
    requires both_elements { AreElements (modulus_of field.now) both.now }
    requires sum { affine_of (modulus_of field.now) both.now
        ≡ sum_of (modulus_of field.now) (modulus_of field.now - 3) (affine_of (modulus_of field.now) first.now) (affine_of (modulus_of field.now) second.now) }
    ensures elements { AreElements (modulus_of field.now) result }
    ensures chosen { IsChosen (modulus_of field.now) (modulus_of field.now - 3) by_first by_second
        (affine_of (modulus_of field.now) first.now) (affine_of (modulus_of field.now) second.now) (affine_of (modulus_of field.now) result) }
{
    if !by_first {
        return *second;
    }
    if !by_second {
        return *first;
    }
    *both
}

/// The sum of the multiples of two points by numbers of so many binary digits, in one pass, in Jacobian
/// coordinates; `None` is the point at infinity. `both` is the points' sum.
pub fn scaled_sum<const N: usize>(
    field: &Field<'_, N>,
    first: &Coordinates<N>,
    second: &Coordinates<N>,
    both: &Coordinates<N>,
    first_factor: &[u64],
    second_factor: &[u64],
    digits: usize,
) -> Option<Jacobian<N>>
    requires first_elements { AreElements (modulus_of field.now) first.now }
    requires second_elements { AreElements (modulus_of field.now) second.now }
    requires both_elements { AreElements (modulus_of field.now) both.now }
    requires sum { affine_of (modulus_of field.now) both.now
        ≡ sum_of (modulus_of field.now) (modulus_of field.now - 3) (affine_of (modulus_of field.now) first.now) (affine_of (modulus_of field.now) second.now) }
    requires first_digits { digits ≤ 64 * length first_factor.now }
    requires second_digits { digits ≤ 64 * length second_factor.now }
    ensures elements { OptionElements {N = N} (modulus_of field.now) result }
    ensures stands { (b : ℕ) → IsCurve (modulus_of field.now) (modulus_of field.now - 3) b
        → IsOn (modulus_of field.now) (modulus_of field.now - 3) b (affine_of (modulus_of field.now) first.now)
        → IsOn (modulus_of field.now) (modulus_of field.now - 3) b (affine_of (modulus_of field.now) second.now)
        → OptionFor {N = N} (modulus_of field.now) result (sum_of (modulus_of field.now) (modulus_of field.now - 3)
        (multiple (modulus_of field.now) (modulus_of field.now - 3) digits (value first_factor.now) (affine_of (modulus_of field.now) first.now))
        (multiple (modulus_of field.now) (modulus_of field.now - 3) digits (value second_factor.now) (affine_of (modulus_of field.now) second.now))) }
{
    let mut sum = None;
    for place in (0..digits).rev() {
        let by_first = digit(first_factor, place);
        let by_second = digit(second_factor, place);
        let other = chosen(field, first, second, both, by_first, by_second);
        let is_added = either(by_first, by_second);
        sum = step(field, sum, &other, is_added);
    }
    sum
}

/// The same by coordinates alone, which takes an inverse for each sum.
fn affine_multiple<const N: usize>(
    field: &Field<'_, N>,
    point: &Coordinates<N>,
    factor: &[u64],
    digits: usize,
) -> CurvePoint<N>
    requires elements { AreElements (modulus_of field.now) point.now }
    requires digits { digits ≤ 64 * length factor.now }
    ensures point { IsPoint (modulus_of field.now) result }
    ensures multiple { point_of (modulus_of field.now) result
        ≡ multiple (modulus_of field.now) (modulus_of field.now - 3) digits (value factor.now)
        (affine_of (modulus_of field.now) point.now) }
{
    let mut sum = CurvePoint::Infinity;
    for place in (0..digits).rev() {
        sum = add(field, &sum, &sum);
        if digit(factor, place) {
            sum = add(field, &sum, &CurvePoint::Affine(*point));
        }
    }
    sum
}

/// The multiple of a point by a number of so many binary digits.
pub fn multiple_of<const N: usize>(
    field: &Field<'_, N>,
    point: &Coordinates<N>,
    factor: &[u64],
    digits: usize,
) -> CurvePoint<N>
    requires elements { AreElements (modulus_of field.now) point.now }
    requires digits { digits ≤ 64 * length factor.now }
    ensures point { IsPoint (modulus_of field.now) result }
    ensures multiple { point_of (modulus_of field.now) result
        ≡ multiple (modulus_of field.now) (modulus_of field.now - 3) digits (value factor.now)
        (affine_of (modulus_of field.now) point.now) }
{
    let Some(scaled) = scaled_multiple(field, point, factor, digits) else {
        return CurvePoint::Infinity;
    };
    // Z has an inverse for each curve here, since p is prime; that isn't proved.
    let Some(found) = coordinates_of(field, &scaled) else {
        return affine_multiple(field, point, factor, digits);
    };
    CurvePoint::Affine(found)
}
