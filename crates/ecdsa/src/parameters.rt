//! The parameters of the curves (SEC 1, 3.1.1), by the limbs of their numbers, the lowest first.
#![tactic(auto, unfolding(modular::specs::Numbers::value, modular::specs::Numbers::limbs_end, crate::specs::Curves::field_prime, crate::specs::Curves::coefficient_b, crate::specs::Curves::base_x, crate::specs::Curves::base_y, crate::specs::Curves::order))]

ghost use Rattle.std.specs.Prelude.{◌≡◌, ℕ, ◌+◌, ◌-◌, ◌*◌, ◌%◌, ◌<◌, ◌≤◌};
ghost use Rattle.modular.specs.Numbers.{value, limbs_end};
ghost use Rattle.ecdsa.specs.Curves.{field_prime, coefficient_b, base_x, base_y, order, field_octets, order_bits};
ghost use Rattle.ecdsa.specs.declared.Curve.{Curve};

use crate::Curve;

/// The parameters of a curve.
#[derive(Clone, Copy)]
pub struct Parameters<const N: usize> {
    /// Whose they are.
    pub curve: Curve,
    /// p.
    pub prime: [u64; N],
    /// b.
    pub constant_term: [u64; N],
    /// x of G.
    pub generator_x: [u64; N],
    /// y of G.
    pub generator_y: [u64; N],
    /// n.
    pub base_order: [u64; N],
    /// The number of octets of a coordinate.
    pub octets: usize,
    /// The number of binary digits of n.
    pub digits: usize,
    /// The most octets of a digest that are taken.
    pub digest_octets: usize,
    ghost few: { N ≤ 16 },
    ghost prime_is: { value prime ≡ field_prime curve },
    ghost constant_term_is: { value constant_term ≡ coefficient_b curve },
    ghost generator_x_is: { value generator_x ≡ base_x curve },
    ghost generator_y_is: { value generator_y ≡ base_y curve },
    ghost generator_x_below: { value generator_x < value prime },
    ghost generator_y_below: { value generator_y < value prime },
    ghost base_order_is: { value base_order ≡ order curve },
    ghost prime_above_three: { 3 < value prime },
    ghost prime_odd: { value prime % 2 ≡ 1 },
    ghost base_order_fits: { value base_order < limbs_end N },
    ghost order_above_three: { 3 < value base_order },
    ghost order_odd: { value base_order % 2 ≡ 1 },
    ghost octets_are: { octets ≡ field_octets curve },
    ghost octets_fit: { octets ≤ 8 * N },
    ghost digits_are: { digits ≡ order_bits curve },
    ghost digits_fit: { digits ≤ 64 * N },
    ghost digest_octets_fit: { digest_octets ≤ 8 * N },
    ghost digest_octets_are: { (count : ℕ) → count ≤ 64 → 8 * count - digits ≡ 8 * (count - digest_octets) },
}

/// The parameters of P-256 (SP 800-186, 3.2.1).
pub fn p256() -> Parameters<4>
    ensures { result.curve ≡ Curve.P256 }
{
    Parameters {
        curve: Curve::P256,
        prime: [
            0xFFFF_FFFF_FFFF_FFFF,
            0x0000_0000_FFFF_FFFF,
            0x0000_0000_0000_0000,
            0xFFFF_FFFF_0000_0001,
        ],
        constant_term: [
            0x3BCE_3C3E_27D2_604B,
            0x651D_06B0_CC53_B0F6,
            0xB3EB_BD55_7698_86BC,
            0x5AC6_35D8_AA3A_93E7,
        ],
        generator_x: [
            0xF4A1_3945_D898_C296,
            0x7703_7D81_2DEB_33A0,
            0xF8BC_E6E5_63A4_40F2,
            0x6B17_D1F2_E12C_4247,
        ],
        generator_y: [
            0xCBB6_4068_37BF_51F5,
            0x2BCE_3357_6B31_5ECE,
            0x8EE7_EB4A_7C0F_9E16,
            0x4FE3_42E2_FE1A_7F9B,
        ],
        base_order: [
            0xF3B9_CAC2_FC63_2551,
            0xBCE6_FAAD_A717_9E84,
            0xFFFF_FFFF_FFFF_FFFF,
            0xFFFF_FFFF_0000_0000,
        ],
        octets: 32,
        digits: 256,
        digest_octets: 32,
    }
}

/// The parameters of P-384 (SP 800-186, 3.2.1).
pub fn p384() -> Parameters<6>
    ensures { result.curve ≡ Curve.P384 }
{
    Parameters {
        curve: Curve::P384,
        prime: [
            0x0000_0000_FFFF_FFFF,
            0xFFFF_FFFF_0000_0000,
            0xFFFF_FFFF_FFFF_FFFE,
            0xFFFF_FFFF_FFFF_FFFF,
            0xFFFF_FFFF_FFFF_FFFF,
            0xFFFF_FFFF_FFFF_FFFF,
        ],
        constant_term: [
            0x2A85_C8ED_D3EC_2AEF,
            0xC656_398D_8A2E_D19D,
            0x0314_088F_5013_875A,
            0x181D_9C6E_FE81_4112,
            0x988E_056B_E3F8_2D19,
            0xB331_2FA7_E23E_E7E4,
        ],
        generator_x: [
            0x3A54_5E38_7276_0AB7,
            0x5502_F25D_BF55_296C,
            0x59F7_41E0_8254_2A38,
            0x6E1D_3B62_8BA7_9B98,
            0x8EB1_C71E_F320_AD74,
            0xAA87_CA22_BE8B_0537,
        ],
        generator_y: [
            0x7A43_1D7C_90EA_0E5F,
            0x0A60_B1CE_1D7E_819D,
            0xE9DA_3113_B5F0_B8C0,
            0xF8F4_1DBD_289A_147C,
            0x5D9E_98BF_9292_DC29,
            0x3617_DE4A_9626_2C6F,
        ],
        base_order: [
            0xECEC_196A_CCC5_2973,
            0x581A_0DB2_48B0_A77A,
            0xC763_4D81_F437_2DDF,
            0xFFFF_FFFF_FFFF_FFFF,
            0xFFFF_FFFF_FFFF_FFFF,
            0xFFFF_FFFF_FFFF_FFFF,
        ],
        octets: 48,
        digits: 384,
        digest_octets: 48,
    }
}

/// The parameters of P-521 (SP 800-186, 3.2.1).
pub fn p521() -> Parameters<9>
    ensures { result.curve ≡ Curve.P521 }
{
    Parameters {
        curve: Curve::P521,
        prime: [
            0xFFFF_FFFF_FFFF_FFFF,
            0xFFFF_FFFF_FFFF_FFFF,
            0xFFFF_FFFF_FFFF_FFFF,
            0xFFFF_FFFF_FFFF_FFFF,
            0xFFFF_FFFF_FFFF_FFFF,
            0xFFFF_FFFF_FFFF_FFFF,
            0xFFFF_FFFF_FFFF_FFFF,
            0xFFFF_FFFF_FFFF_FFFF,
            0x0000_0000_0000_01FF,
        ],
        constant_term: [
            0xEF45_1FD4_6B50_3F00,
            0x3573_DF88_3D2C_34F1,
            0x1652_C0BD_3BB1_BF07,
            0x5619_3951_EC7E_937B,
            0xB8B4_8991_8EF1_09E1,
            0xA2DA_725B_99B3_15F3,
            0x929A_21A0_B685_40EE,
            0x953E_B961_8E1C_9A1F,
            0x0000_0000_0000_0051,
        ],
        generator_x: [
            0xF97E_7E31_C2E5_BD66,
            0x3348_B3C1_856A_429B,
            0xFE1D_C127_A2FF_A8DE,
            0xA14B_5E77_EFE7_5928,
            0xF828_AF60_6B4D_3DBA,
            0x9C64_8139_053F_B521,
            0x9E3E_CB66_2395_B442,
            0x858E_06B7_0404_E9CD,
            0x0000_0000_0000_00C6,
        ],
        generator_y: [
            0x88BE_9476_9FD1_6650,
            0x353C_7086_A272_C240,
            0xC550_B901_3FAD_0761,
            0x97EE_7299_5EF4_2640,
            0x17AF_BD17_273E_662C,
            0x98F5_4449_579B_4468,
            0x5C8A_5FB4_2C7D_1BD9,
            0x3929_6A78_9A3B_C004,
            0x0000_0000_0000_0118,
        ],
        base_order: [
            0xBB6F_B71E_9138_6409,
            0x3BB5_C9B8_899C_47AE,
            0x7FCC_0148_F709_A5D0,
            0x5186_8783_BF2F_966B,
            0xFFFF_FFFF_FFFF_FFFA,
            0xFFFF_FFFF_FFFF_FFFF,
            0xFFFF_FFFF_FFFF_FFFF,
            0xFFFF_FFFF_FFFF_FFFF,
            0x0000_0000_0000_01FF,
        ],
        octets: 66,
        digits: 521,
        digest_octets: 65,
    }
}
