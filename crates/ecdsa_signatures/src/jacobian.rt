// Points in Jacobian coordinates: x is X / Z ^ 2, and y is Y / Z ^ 3. So a sum needs no division.

ghost use Rattle.std.specs.Prelude.{◌≡◌, ◌*◌, ◌%◌, ◌<◌, ◌↔◌, IsTrue, Some, ℕ};
ghost use Rattle.ecdsa_signatures.specs.Curve.{prime, order, Point, Infinity, Affine, sum};
ghost use Rattle.ecdsa_signatures.specs.Curve.{multiples};
ghost use Rattle.ecdsa_signatures.specs.Signature.{HasX};
ghost use Rattle.ecdsa_signatures.specs.private.Coordinates.{value, point_of, IsReduced};
ghost use Rattle.ecdsa_signatures.specs.private.Forms.{held, AreBelow, StandsFor, form_point};
ghost use Rattle.ecdsa_signatures.specs.private.Forms.{AreAddends, chosen};

use crate::curve::{EllipticCurve, LIMBS};
use crate::field;
use crate::form::{add, from_form, is_same, is_zero, minus, square, times, to_form};
use crate::point::AffinePoint;
use crate::scalar::with_order;
use modular_arithmetic::{is_bit_set, limb};

/// The coordinates, each in Montgomery's form. Z is 0 for the point at infinity.
#[derive(Clone, Copy)]
pub(crate) struct JacobianPoint {
    pub(crate) x: [u64; LIMBS],
    pub(crate) y: [u64; LIMBS],
    pub(crate) z: [u64; LIMBS],
}

fn infinity(curve: EllipticCurve) -> JacobianPoint
    ensures below { AreBelow curve result }
    ensures point { StandsFor curve result Infinity }
{
    let _curve = curve;
    JacobianPoint {
        x: [0; LIMBS],
        y: [0; LIMBS],
        z: [0; LIMBS],
    }
}

// The point with coordinates in Montgomery's form.
fn with_affine(curve: EllipticCurve, q: &AffinePoint) -> JacobianPoint
    requires { IsReduced curve (Some q.now) }
    ensures below { AreBelow curve result }
    ensures point { StandsFor curve result (Affine (held curve q.now.x) (held curve q.now.y)) }
{
    JacobianPoint {
        x: q.x,
        y: q.y,
        z: to_form(curve, &limb(1)),
    }
}

// 2 p.
fn double(curve: EllipticCurve, p: &JacobianPoint) -> JacobianPoint
    requires { AreBelow curve p.now }
    ensures below { AreBelow curve result }
    ensures point { (q : Point) → StandsFor curve p.now q
        → StandsFor curve result (sum (prime curve) q q) }
{
    let delta = square(curve, &p.z);
    let gamma = square(curve, &p.y);
    let beta = times(curve, &p.x, &gamma);
    let lower = minus(curve, &p.x, &delta);
    let upper = add(curve, &p.x, &delta);
    let part = times(curve, &lower, &upper);
    let twice = add(curve, &part, &part);
    let alpha = add(curve, &twice, &part);
    let beta_2 = add(curve, &beta, &beta);
    let beta_4 = add(curve, &beta_2, &beta_2);
    let beta_8 = add(curve, &beta_4, &beta_4);
    let alpha_square = square(curve, &alpha);
    let x = minus(curve, &alpha_square, &beta_8);
    let across = times(curve, &p.y, &p.z);
    let z = add(curve, &across, &across);
    let gamma_2 = add(curve, &gamma, &gamma);
    let fourth = square(curve, &gamma_2);
    let last = add(curve, &fourth, &fourth);
    let rest = minus(curve, &beta_4, &x);
    let slope = times(curve, &alpha, &rest);
    let y = minus(curve, &slope, &last);
    JacobianPoint { x, y, z }
}

// p + q, for a q with coordinates in Montgomery's form.
fn add_affine(curve: EllipticCurve, p: &JacobianPoint, q: &AffinePoint) -> JacobianPoint
    requires p { AreBelow curve p.now }
    requires q { IsReduced curve (Some q.now) }
    ensures below { AreBelow curve result }
    ensures point { (a : Point) → StandsFor curve p.now a → StandsFor curve result
        (sum (prime curve) a (Affine (held curve q.now.x) (held curve q.now.y))) }
{
    if is_zero(curve, &p.z) {
        return with_affine(curve, q);
    }
    let z_square = square(curve, &p.z);
    let z_cube = times(curve, &p.z, &z_square);
    let u = times(curve, &q.x, &z_square);
    let s = times(curve, &q.y, &z_cube);
    let h = minus(curve, &u, &p.x);
    let r = minus(curve, &s, &p.y);
    if is_zero(curve, &h) {
        if is_zero(curve, &r) {
            return double(curve, p);
        }
        return infinity(curve);
    }
    let h_square = square(curve, &h);
    let h_cube = times(curve, &h, &h_square);
    let v = times(curve, &p.x, &h_square);
    let twice = add(curve, &v, &v);
    let both = add(curve, &h_cube, &twice);
    let r_square = square(curve, &r);
    let x = minus(curve, &r_square, &both);
    let rest = minus(curve, &v, &x);
    let across = times(curve, &p.y, &h_cube);
    let slope = times(curve, &r, &rest);
    let y = minus(curve, &slope, &across);
    let z = times(curve, &p.z, &h);
    JacobianPoint { x, y, z }
}

// A point with its coordinates in Montgomery's form.
fn in_form(curve: EllipticCurve, p: &AffinePoint) -> AffinePoint
    requires { IsReduced curve (Some p.now) }
    ensures reduced { IsReduced curve (Some result) }
    ensures x { held curve result.x ≡ value curve p.now.x }
    ensures y { held curve result.y ≡ value curve p.now.y }
{
    AffinePoint {
        x: to_form(curve, &p.x),
        y: to_form(curve, &p.y),
    }
}

// The point by its own coordinates, in Montgomery's form.
fn affine(curve: EllipticCurve, p: &JacobianPoint) -> Option<AffinePoint>
    requires { AreBelow curve p.now }
    ensures reduced { IsReduced curve result }
    ensures value { (a : Point) → StandsFor curve p.now a → form_point curve result ≡ a }
{
    if is_zero(curve, &p.z) {
        return None;
    }
    let z = from_form(curve, &p.z);
    let number = field::invert(curve, &z);
    let inverse = to_form(curve, &number);
    let inverse_square = square(curve, &inverse);
    let inverse_cube = times(curve, &inverse, &inverse_square);
    let x = times(curve, &p.x, &inverse_square);
    let y = times(curve, &p.y, &inverse_cube);
    Some(AffinePoint { x, y })
}

/// Two points and their sum, whose coordinates are in Montgomery's form. The point at infinity has
/// none.
#[derive(Drop)]
pub(crate) struct Addends {
    first: AffinePoint,
    second: AffinePoint,
    both: Option<AffinePoint>,
}

// p and q with their sum.
fn with_sum(curve: EllipticCurve, p: &AffinePoint, q: &AffinePoint) -> Addends
    requires p { IsReduced curve (Some p.now) }
    requires q { IsReduced curve (Some q.now) }
    ensures all { AreAddends curve result }
    ensures first { form_point curve (Some result.first) ≡ point_of curve (Some p.now) }
    ensures second { form_point curve (Some result.second) ≡ point_of curve (Some q.now) }
{
    let first = in_form(curve, p);
    let second = in_form(curve, q);
    let start = with_affine(curve, &first);
    let total = add_affine(curve, &start, &second);
    let both = affine(curve, &total);
    Addends {
        first,
        second,
        both,
    }
}

// p + q, for a q with coordinates in Montgomery's form, or none.
fn add_option(curve: EllipticCurve, p: &JacobianPoint, q: &Option<AffinePoint>) -> JacobianPoint
    requires p { AreBelow curve p.now }
    requires q { IsReduced curve q.now }
    ensures below { AreBelow curve result }
    ensures point { (a : Point) → StandsFor curve p.now a → StandsFor curve result
        (sum (prime curve) a (form_point curve q.now)) }
{
    match q {
        None => *p,
        Some(q) => add_affine(curve, p, q),
    }
}

// What is added for two bits: the first point, the second, both or none.
fn chosen(points: &Addends, is_first: bool, is_second: bool) -> Option<AffinePoint>
    ensures { result ≡ chosen points.now is_first is_second }
{
    match (is_first, is_second) {
        (true, true) => points.both,
        (true, false) => Some(points.first),
        (false, true) => Some(points.second),
        (false, false) => None,
    }
}

// u times p and v times q, by doubling and adding.
pub(crate) fn multiples(
    curve: EllipticCurve,
    u: &[u64; LIMBS],
    v: &[u64; LIMBS],
    p: &AffinePoint,
    q: &AffinePoint,
) -> JacobianPoint
    requires p { IsReduced curve (Some p.now) }
    requires q { IsReduced curve (Some q.now) }
    ensures below { AreBelow curve result }
    ensures point { StandsFor curve result (multiples curve (value curve u.now) (value curve v.now)
        (point_of curve (Some p.now)) (point_of curve (Some q.now))) }
{
    let points = with_sum(curve, p, q);
    let mut total = infinity(curve);
    let len = curve.limbs();
    let mut i = 8 * curve.coordinate_size();
    while i > 0 {
        i -= 1;
        let doubled = double(curve, &total);
        let point = chosen(&points, is_bit_set(u, len, i), is_bit_set(v, len, i));
        total = add_option(curve, &doubled, &point);
    }
    total
}

// Whether a is x / z, for an x and a z in Montgomery's form.
fn is_quotient(curve: EllipticCurve, a: &[u64; LIMBS], x: &[u64; LIMBS], z: &[u64; LIMBS]) -> bool
    requires a { value curve a.now < prime curve }
    requires x { value curve x.now < prime curve }
    requires z { value curve z.now < prime curve }
    ensures { IsTrue result
        ↔ ((value curve a.now * held curve z.now) % prime curve ≡ held curve x.now) }
{
    let form = to_form(curve, a);
    let product = times(curve, &form, z);
    is_same(curve, &product, x)
}

// Whether the point is not that at infinity, and its x modulo n is r: whether x is r or r + n.
pub(crate) fn has_x(curve: EllipticCurve, p: &JacobianPoint, r: &[u64; LIMBS]) -> bool
    requires p { AreBelow curve p.now }
    requires r { value curve r.now < order curve }
    ensures { (a : Point) → StandsFor curve p.now a
        → (IsTrue result ↔ HasX (order curve) a (value curve r.now)) }
{
    if is_zero(curve, &p.z) {
        return false;
    }
    let z_square = square(curve, &p.z);
    if is_quotient(curve, r, &p.x, &z_square) {
        return true;
    }
    match with_order(curve, r) {
        None => false,
        Some(above) => is_quotient(curve, &above, &p.x, &z_square),
    }
}
