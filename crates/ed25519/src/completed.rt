//! Points as sums give them, before the last products (RFC 8032, 5.1.4): the next sum needs only some of these.
ghost use Rattle.std.specs.Prelude.{◌≡◌, Bool};
ghost use Rattle.ed25519.specs.Elements.{residue, coordinates, completed_coordinates, IsAddend};
ghost use Rattle.ed25519.specs.Extended.{Coordinates, extended_add, extended_double, extended_next};

use crate::element::Element;
use crate::point::ExtendedPoint;

/// A point with z = 1 as it is added to others: y - x, y + x and 2 * d * t.
#[derive(Clone, Copy)]
pub struct Addend {
    pub difference: Element,
    pub sum: Element,
    pub product: Element,
}

/// The point with x = e * f, y = g * h, z = f * g and t = e * h.
#[derive(Clone, Copy)]
pub struct Completed {
    pub e: Element,
    pub f: Element,
    pub g: Element,
    pub h: Element,
}

impl Completed {
    /// The neutral point.
    pub const NEUTRAL: Completed = Completed {
        e: Element::ZERO,
        f: Element::ONE,
        g: Element::ONE,
        h: Element::ONE,
    };

    /// The point with its coordinates.
    pub fn point(&self) -> ExtendedPoint
        ensures { coordinates result ≡ completed_coordinates self.now }
    {
        ExtendedPoint {
            x: self.e.multiply(&self.f),
            y: self.g.multiply(&self.h),
            z: self.f.multiply(&self.g),
            t: self.e.multiply(&self.h),
        }
    }

    /// Twice the point.
    fn double(&self) -> Completed
        ensures { completed_coordinates result ≡ extended_double (completed_coordinates self.now) }
    {
        let x = self.e.multiply(&self.f);
        let y = self.g.multiply(&self.h);
        let z = self.f.multiply(&self.g);
        let a = x.square();
        let b = y.square();
        let half = z.square();
        let c = half.add(&half);
        let h = a.add(&b);
        let e = h.subtract(&x.add(&y).square());
        let g = a.subtract(&b);
        let f = c.add(&g);
        Completed { e, f, g, h }
    }

    /// The sum with a point.
    fn add(&self, addend: &Addend) -> Completed
        ensures { (P : Coordinates) → IsAddend addend.now P
            → completed_coordinates result ≡ extended_add (completed_coordinates self.now) P }
    {
        let point = self.point();
        let a = point.y.subtract(&point.x).multiply(&addend.difference);
        let b = point.y.add(&point.x).multiply(&addend.sum);
        let c = point.t.multiply(&addend.product);
        let d = point.z.add(&point.z);
        let e = b.subtract(&a);
        let f = d.subtract(&c);
        let g = d.add(&c);
        let h = b.add(&a);
        Completed { e, f, g, h }
    }

    /// Twice the point, and another one more where `odd` is true.
    pub fn next(&self, addend: &Addend, odd: bool) -> Completed
        ensures { (P : Coordinates) → IsAddend addend.now P
            → completed_coordinates result ≡ extended_next (completed_coordinates self.now) P odd }
    {
        let double = self.double();
        if odd { double.add(addend) } else { double }
    }
}
