// Arithmetic modulo p with numbers in Montgomery's form. A function that ends in `_on` is compiled
// into the one without it, once for each curve, with the numbers of the curve.

ghost use Rattle.std.specs.Prelude.{◌≡◌, ◌+◌, ◌*◌, ◌%◌, ◌<◌, ◌↔◌, IsTrue};
ghost use Rattle.ecdsa_signatures.specs.Curve.{prime};
ghost use Rattle.ecdsa_signatures.specs.private.Coordinates.{value};
ghost use Rattle.ecdsa_signatures.specs.private.Forms.{held};

use crate::curve::{EllipticCurve, LIMBS};
use crate::field;
use modular_arithmetic::{limb, montgomery};

#[inline(always)]
fn times_on(curve: EllipticCurve, a: &[u64; LIMBS], b: &[u64; LIMBS]) -> [u64; LIMBS]
    requires { value curve b.now < prime curve }
    ensures below { value curve result < prime curve }
    ensures held { held curve result ≡ (held curve a.now * held curve b.now) % prime curve }
{
    let p = curve.prime();
    montgomery(a, b, &p.number, p.inverse, curve.limbs())
}

pub(crate) fn times(curve: EllipticCurve, a: &[u64; LIMBS], b: &[u64; LIMBS]) -> [u64; LIMBS]
    requires { value curve b.now < prime curve }
    ensures below { value curve result < prime curve }
    ensures held { held curve result ≡ (held curve a.now * held curve b.now) % prime curve }
{
    match curve {
        EllipticCurve::P256 => times_on(EllipticCurve::P256, a, b),
        EllipticCurve::P384 => times_on(EllipticCurve::P384, a, b),
        EllipticCurve::P521 => times_on(EllipticCurve::P521, a, b),
    }
}

pub(crate) fn square(curve: EllipticCurve, a: &[u64; LIMBS]) -> [u64; LIMBS]
    requires { value curve a.now < prime curve }
    ensures below { value curve result < prime curve }
    ensures held { held curve result ≡ (held curve a.now * held curve a.now) % prime curve }
{
    times(curve, a, a)
}

#[inline(always)]
fn add_on(curve: EllipticCurve, a: &[u64; LIMBS], b: &[u64; LIMBS]) -> [u64; LIMBS]
    requires a { value curve a.now < prime curve }
    requires b { value curve b.now < prime curve }
    ensures below { value curve result < prime curve }
    ensures held { held curve result ≡ (held curve a.now + held curve b.now) % prime curve }
{
    field::add(curve, a, b)
}

pub(crate) fn add(curve: EllipticCurve, a: &[u64; LIMBS], b: &[u64; LIMBS]) -> [u64; LIMBS]
    requires a { value curve a.now < prime curve }
    requires b { value curve b.now < prime curve }
    ensures below { value curve result < prime curve }
    ensures held { held curve result ≡ (held curve a.now + held curve b.now) % prime curve }
{
    match curve {
        EllipticCurve::P256 => add_on(EllipticCurve::P256, a, b),
        EllipticCurve::P384 => add_on(EllipticCurve::P384, a, b),
        EllipticCurve::P521 => add_on(EllipticCurve::P521, a, b),
    }
}

#[inline(always)]
fn minus_on(curve: EllipticCurve, a: &[u64; LIMBS], b: &[u64; LIMBS]) -> [u64; LIMBS]
    requires a { value curve a.now < prime curve }
    requires b { value curve b.now < prime curve }
    ensures below { value curve result < prime curve }
    ensures held { (held curve result + held curve b.now) % prime curve ≡ held curve a.now }
{
    field::minus(curve, a, b)
}

// a - b.
pub(crate) fn minus(curve: EllipticCurve, a: &[u64; LIMBS], b: &[u64; LIMBS]) -> [u64; LIMBS]
    requires a { value curve a.now < prime curve }
    requires b { value curve b.now < prime curve }
    ensures below { value curve result < prime curve }
    ensures held { (held curve result + held curve b.now) % prime curve ≡ held curve a.now }
{
    match curve {
        EllipticCurve::P256 => minus_on(EllipticCurve::P256, a, b),
        EllipticCurve::P384 => minus_on(EllipticCurve::P384, a, b),
        EllipticCurve::P521 => minus_on(EllipticCurve::P521, a, b),
    }
}

pub(crate) fn is_same(curve: EllipticCurve, a: &[u64; LIMBS], b: &[u64; LIMBS]) -> bool
    requires a { value curve a.now < prime curve }
    requires b { value curve b.now < prime curve }
    ensures { IsTrue result ↔ (held curve a.now ≡ held curve b.now) }
{
    field::is_same(curve, a, b)
}

#[inline(always)]
pub(crate) fn is_zero(curve: EllipticCurve, a: &[u64; LIMBS]) -> bool
    requires { value curve a.now < prime curve }
    ensures { IsTrue result ↔ (held curve a.now ≡ 0) }
{
    field::is_zero(curve, a)
}

pub(crate) fn to_form(curve: EllipticCurve, a: &[u64; LIMBS]) -> [u64; LIMBS]
    requires { value curve a.now < prime curve }
    ensures below { value curve result < prime curve }
    ensures held { held curve result ≡ value curve a.now }
{
    times(curve, a, &curve.prime().square)
}

pub(crate) fn from_form(curve: EllipticCurve, a: &[u64; LIMBS]) -> [u64; LIMBS]
    requires { value curve a.now < prime curve }
    ensures { value curve result ≡ held curve a.now }
{
    times(curve, &limb(1), a)
}
