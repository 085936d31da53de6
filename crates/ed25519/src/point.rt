//! The points of edwards25519 in extended homogeneous coordinates (RFC 8032, 5.1.4).
ghost use Rattle.std.specs.Prelude.{◌≡◌, ℕ, ◌*◌, ◌≤◌, Bool, length};
ghost use Rattle.modular.specs.Numbers.{value};
ghost use Rattle.ed25519.specs.Elements.{residue, coordinates, IsAddend};
ghost use Rattle.ed25519.specs.Curve.{Point};
ghost use Rattle.ed25519.specs.Extended.{Coordinates, extended, extended_add, extended_multiple, is_same_extended};

use crate::completed::{Addend, Completed};
use crate::element::Element;
use crate::limbs::digit_is_one;

/// 2 * d (RFC 8032, 5.1).
const TWICE_D: Element = Element {
    limbs: [
        0xebd6_9b94_26b2_f159,
        0x00e0_149a_8283_b156,
        0x198e_80f2_eef3_d130,
        0x2406_d9dc_56df_fce7,
    ],
};

/// A point: (x / z, y / z), and t / z is the product of these two.
#[derive(Clone, Copy)]
pub struct ExtendedPoint {
    pub x: Element,
    pub y: Element,
    pub z: Element,
    pub t: Element,
}

impl ExtendedPoint {
    /// B (RFC 8032, 5.1).
    pub const BASE: ExtendedPoint = ExtendedPoint {
        x: Element {
            limbs: [
                0xc956_2d60_8f25_d51a,
                0x692c_c760_9525_a7b2,
                0xc0a4_e231_fdd6_dc5c,
                0x2169_36d3_cd6e_53fe,
            ],
        },
        y: Element {
            limbs: [
                0x6666_6666_6666_6658,
                0x6666_6666_6666_6666,
                0x6666_6666_6666_6666,
                0x6666_6666_6666_6666,
            ],
        },
        z: Element::ONE,
        t: Element {
            limbs: [
                0x6dde_8ab3_a5b7_dda3,
                0x20f0_9f80_7751_52f5,
                0x66ea_4e8e_64ab_e37d,
                0x6787_5f0f_d78b_7665,
            ],
        },
    };

    /// The point with these coordinates.
    pub fn at(x: &Element, y: &Element) -> ExtendedPoint
        ensures { coordinates result ≡ extended (record { x = residue x.now; y = residue y.now }) }
    {
        ExtendedPoint {
            x: *x,
            y: *y,
            z: Element::ONE,
            t: x.multiply(y),
        }
    }

    /// The sum (RFC 8032, 5.1.4).
    pub fn add(&self, other: &ExtendedPoint) -> ExtendedPoint
        ensures { coordinates result ≡ extended_add (coordinates self.now) (coordinates other.now) }
    {
        let a = self
            .y
            .subtract(&self.x)
            .multiply(&other.y.subtract(&other.x));
        let b = self.y.add(&self.x).multiply(&other.y.add(&other.x));
        let c = self.t.multiply(&TWICE_D).multiply(&other.t);
        let half = self.z.multiply(&other.z);
        let d = half.add(&half);
        let e = b.subtract(&a);
        let f = d.subtract(&c);
        let g = d.add(&c);
        let h = b.add(&a);
        ExtendedPoint {
            x: e.multiply(&f),
            y: g.multiply(&h),
            z: f.multiply(&g),
            t: e.multiply(&h),
        }
    }

    /// What a sum takes of the point.
    fn addend(&self) -> Addend
        requires { residue self.now.z ≡ 1 }
        ensures { IsAddend result (coordinates self.now) }
    {
        Addend {
            difference: self.y.subtract(&self.x),
            sum: self.y.add(&self.x),
            product: self.t.multiply(&TWICE_D),
        }
    }

    /// The multiple of a point with z = 1, whose factor is the lowest binary digits, so many, of what the
    /// limbs write.
    pub fn multiple(&self, factor: &[u64], digits: usize) -> ExtendedPoint
        requires one { residue self.now.z ≡ 1 }
        requires digits { digits ≤ 64 * length factor.now }
        ensures { coordinates result ≡ extended_multiple digits (value factor.now) (coordinates self.now) }
    {
        let addend = self.addend();
        let mut sum = Completed::NEUTRAL;
        for i in (0..digits).rev() {
            sum = sum.next(&addend, digit_is_one(factor, i));
        }
        sum.point()
    }

    /// Whether both are the same point.
    pub fn is_same(&self, other: &ExtendedPoint) -> bool
        ensures { result ≡ is_same_extended (coordinates self.now) (coordinates other.now) }
    {
        if !self
            .x
            .multiply(&other.z)
            .is_same(&other.x.multiply(&self.z))
        {
            return false;
        }
        self.y
            .multiply(&other.z)
            .is_same(&other.y.multiply(&self.z))
    }
}
