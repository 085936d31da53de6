//! The group of a curve's points, by their coordinates x and y (SEC 1, 2.2.1). Its coefficient a is -3.
ghost use Rattle.std.specs.Prelude.{◌≡◌, ℕ, ◌+◌, ◌-◌, ◌*◌, ◌%◌, ◌<◌};
ghost use Rattle.modular.specs.Numbers.{value};
ghost use Rattle.ecdsa.specs.Group.{line_x, line_y, chord, tangent, add};
ghost use Rattle.ecdsa.specs.Fields.{modulus_of};
ghost use Rattle.ecdsa.specs.Elements.{number, IsElement, AreElements, point_of, IsPoint, affine_of};

use crate::field::{Element, Field};

/// The coordinates of a point.
#[derive(Clone, Copy)]
pub struct Coordinates<const N: usize> {
    /// x.
    pub x: Element<N>,
    /// y.
    pub y: Element<N>,
}

/// A point of a curve.
#[derive(Clone, Copy)]
pub enum CurvePoint<const N: usize> {
    /// The point at infinity.
    Infinity,
    /// The point with these coordinates.
    Affine(Coordinates<N>),
}

/// The sum of a point and one with this x, where they are on a line of this slope.
pub fn third_on_line<const N: usize>(
    field: &Field<'_, N>,
    slope: &Element<N>,
    point: &Coordinates<N>,
    other_x: &Element<N>,
) -> Coordinates<N>
    requires slope_element { IsElement (modulus_of field.now) slope.now }
    requires elements { AreElements (modulus_of field.now) point.now }
    requires x_element { IsElement (modulus_of field.now) other_x.now }
    ensures elements { AreElements (modulus_of field.now) result }
    ensures x { number (modulus_of field.now) result.x
        ≡ line_x (modulus_of field.now) (number (modulus_of field.now) slope.now)
        (number (modulus_of field.now) point.now.x) (number (modulus_of field.now) other_x.now) }
    ensures y { number (modulus_of field.now) result.y
        ≡ line_y (modulus_of field.now) (number (modulus_of field.now) slope.now)
        (number (modulus_of field.now) point.now.x) (number (modulus_of field.now) point.now.y)
        (number (modulus_of field.now) result.x) }
{
    let square = field.square(slope);
    let x = field.subtract(&field.subtract(&square, &point.x), other_x);
    let run = field.subtract(&point.x, &x);
    let y = field.subtract(&field.multiply(slope, &run), &point.y);
    Coordinates { x, y }
}

/// The slope of the line through two points with different x.
fn chord<const N: usize>(
    field: &Field<'_, N>,
    first: &Coordinates<N>,
    second: &Coordinates<N>,
) -> Element<N>
    requires first_elements { AreElements (modulus_of field.now) first.now }
    requires second_elements { AreElements (modulus_of field.now) second.now }
    ensures element { IsElement (modulus_of field.now) result }
    ensures number { number (modulus_of field.now) result
        ≡ chord (modulus_of field.now) (number (modulus_of field.now) first.now.x) (number (modulus_of field.now) first.now.y)
        (number (modulus_of field.now) second.now.x) (number (modulus_of field.now) second.now.y) }
{
    let rise = field.subtract(&second.y, &first.y);
    let run = field.subtract(&second.x, &first.x);
    field.multiply(&rise, &field.inverse(&run))
}

/// The element of the number 3.
fn three<const N: usize>(field: &Field<'_, N>) -> Element<N>
    ensures element { IsElement (modulus_of field.now) result }
    ensures number { number (modulus_of field.now) result ≡ 3 }
{
    let one = field.one();
    field.add(&field.double(&one), &one)
}

/// The slope of the tangent at a point whose y is not 0.
fn tangent<const N: usize>(field: &Field<'_, N>, point: &Coordinates<N>) -> Element<N>
    requires { AreElements (modulus_of field.now) point.now }
    ensures element { IsElement (modulus_of field.now) result }
    ensures number { number (modulus_of field.now) result
        ≡ tangent (modulus_of field.now) (modulus_of field.now - 3)
        (number (modulus_of field.now) point.now.x) (number (modulus_of field.now) point.now.y) }
{
    let three = three(field);
    let square = field.square(&point.x);
    let rise = field.subtract(&field.multiply(&three, &square), &three);
    let run = field.double(&point.y);
    field.multiply(&rise, &field.inverse(&run))
}

/// The sum of two points.
pub fn add<const N: usize>(
    field: &Field<'_, N>,
    first: &CurvePoint<N>,
    second: &CurvePoint<N>,
) -> CurvePoint<N>
    requires first_point { IsPoint (modulus_of field.now) first.now }
    requires second_point { IsPoint (modulus_of field.now) second.now }
    ensures point { IsPoint (modulus_of field.now) result }
    ensures sum { point_of (modulus_of field.now) result
        ≡ add (modulus_of field.now) (modulus_of field.now - 3) (point_of (modulus_of field.now) first.now) (point_of (modulus_of field.now) second.now) }
{
    match (first, second) {
        (CurvePoint::Infinity, _) => *second,
        (_, CurvePoint::Infinity) => *first,
        (CurvePoint::Affine(first), CurvePoint::Affine(second)) => {
            add_affine(field, first, second)
        }
    }
}

/// The sum of two points that are not at infinity.
fn add_affine<const N: usize>(
    field: &Field<'_, N>,
    first: &Coordinates<N>,
    second: &Coordinates<N>,
) -> CurvePoint<N>
    requires first_elements { AreElements (modulus_of field.now) first.now }
    requires second_elements { AreElements (modulus_of field.now) second.now }
    ensures point { IsPoint (modulus_of field.now) result }
    ensures sum { point_of (modulus_of field.now) result
        ≡ add (modulus_of field.now) (modulus_of field.now - 3) (affine_of (modulus_of field.now) first.now) (affine_of (modulus_of field.now) second.now) }
{
    let slope = if !field.is_same(&first.x, &second.x) {
        chord(field, first, second)
    } else if field.is_zero(&field.add(&first.y, &second.y)) {
        return CurvePoint::Infinity;
    } else {
        tangent(field, first)
    };
    CurvePoint::Affine(third_on_line(field, &slope, first, &second.x))
}
