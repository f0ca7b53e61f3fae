// Points of the curve.

ghost use Rattle.std.specs.Prelude.{◌≡◌, ◌+◌, ◌*◌, ◌%◌, ◌<◌, ◌↔◌, IsTrue, Some};
ghost use Rattle.ecdsa_signatures.specs.Curve.{prime, generator, IsOnCurve};
ghost use Rattle.ecdsa_signatures.specs.private.Coordinates.{value, point_of, IsReduced};

use crate::curve::{EllipticCurve, LIMBS};
use crate::field::{add, is_same, times};

/// The coordinates of a point, the lowest limb first. The point at infinity has none.
#[derive(Clone, Copy)]
pub(crate) struct AffinePoint {
    pub(crate) x: [u64; LIMBS],
    pub(crate) y: [u64; LIMBS],
}

// G.
pub(crate) fn base_point(curve: EllipticCurve) -> AffinePoint
    ensures reduced { IsReduced curve (Some result) }
    ensures value { point_of curve (Some result) ≡ generator curve }
{
    match curve {
        EllipticCurve::P256 => AffinePoint {
            x: [
                0xf4a1_3945_d898_c296,
                0x7703_7d81_2deb_33a0,
                0xf8bc_e6e5_63a4_40f2,
                0x6b17_d1f2_e12c_4247,
                0x0000_0000_0000_0000,
                0x0000_0000_0000_0000,
                0x0000_0000_0000_0000,
                0x0000_0000_0000_0000,
                0x0000_0000_0000_0000,
            ],
            y: [
                0xcbb6_4068_37bf_51f5,
                0x2bce_3357_6b31_5ece,
                0x8ee7_eb4a_7c0f_9e16,
                0x4fe3_42e2_fe1a_7f9b,
                0x0000_0000_0000_0000,
                0x0000_0000_0000_0000,
                0x0000_0000_0000_0000,
                0x0000_0000_0000_0000,
                0x0000_0000_0000_0000,
            ],
        },
        EllipticCurve::P384 => AffinePoint {
            x: [
                0x3a54_5e38_7276_0ab7,
                0x5502_f25d_bf55_296c,
                0x59f7_41e0_8254_2a38,
                0x6e1d_3b62_8ba7_9b98,
                0x8eb1_c71e_f320_ad74,
                0xaa87_ca22_be8b_0537,
                0x0000_0000_0000_0000,
                0x0000_0000_0000_0000,
                0x0000_0000_0000_0000,
            ],
            y: [
                0x7a43_1d7c_90ea_0e5f,
                0x0a60_b1ce_1d7e_819d,
                0xe9da_3113_b5f0_b8c0,
                0xf8f4_1dbd_289a_147c,
                0x5d9e_98bf_9292_dc29,
                0x3617_de4a_9626_2c6f,
                0x0000_0000_0000_0000,
                0x0000_0000_0000_0000,
                0x0000_0000_0000_0000,
            ],
        },
        EllipticCurve::P521 => AffinePoint {
            x: [
                0xf97e_7e31_c2e5_bd66,
                0x3348_b3c1_856a_429b,
                0xfe1d_c127_a2ff_a8de,
                0xa14b_5e77_efe7_5928,
                0xf828_af60_6b4d_3dba,
                0x9c64_8139_053f_b521,
                0x9e3e_cb66_2395_b442,
                0x858e_06b7_0404_e9cd,
                0x0000_0000_0000_00c6,
            ],
            y: [
                0x88be_9476_9fd1_6650,
                0x353c_7086_a272_c240,
                0xc550_b901_3fad_0761,
                0x97ee_7299_5ef4_2640,
                0x17af_bd17_273e_662c,
                0x98f5_4449_579b_4468,
                0x5c8a_5fb4_2c7d_1bd9,
                0x3929_6a78_9a3b_c004,
                0x0000_0000_0000_0118,
            ],
        },
    }
}

pub(crate) fn is_on_curve(curve: EllipticCurve, x: &[u64; LIMBS], y: &[u64; LIMBS]) -> bool
    requires x { value curve x.now < prime curve }
    requires y { value curve y.now < prime curve }
    ensures { IsTrue result ↔ IsOnCurve curve (value curve x.now) (value curve y.now) }
{
    let square = times(curve, y, y);
    let left = add(curve, &add(curve, &add(curve, &square, x), x), x);
    let cube = times(curve, &times(curve, x, x), x);
    let right = add(curve, &cube, &curve.coefficient());
    is_same(curve, &left, &right)
}
