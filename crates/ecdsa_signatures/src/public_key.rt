//! A public key, and the check of a signature by it.

ghost use Rattle.std.specs.Fmt.{DisplaysOnOk, WritesStyledOnOk};
ghost use Rattle.std.specs.Fmt.{decimal, formatter_spec, spec_alternate, styled_decimal};
ghost use Rattle.std.specs.Prelude.{⊤, ◌≡◌, ◌+◌, ◌*◌, ◌%◌, ◌<◌, ◌≤◌, ◌↔◌, ◌++◌};
ghost use Rattle.std.specs.Prelude.{IsTrue, Some, false, length, take};
ghost use Rattle.modular_arithmetic.specs.Octets.{number};
ghost use Rattle.ecdsa_signatures.specs.Curve.{prime, order, coordinate_size};
ghost use Rattle.ecdsa_signatures.specs.KeyText.{coordinate_text, curve_text, key_text};
ghost use Rattle.ecdsa_signatures.specs.PublicKey.{PublicKey, key_of};
ghost use Rattle.ecdsa_signatures.specs.Signature.{IsSignature, HasX, e_of, found_point};
ghost use Rattle.ecdsa_signatures.specs.private.Coordinates.{value, point_of, IsReduced};

use crate::curve::{EllipticCurve, LIMBS, OCTETS};
use crate::field::is_below_prime;
use crate::jacobian::{has_x, multiples};
use crate::key_error::EcdsaKeyError;
use crate::point::{AffinePoint, base_point, is_on_curve};
use crate::scalar::{invert, is_in_range, times};
use modular_arithmetic::{choose, number, write_octets};
use sha2::{Digest, Sha256, Sha384, Sha512};
use std::alloc::AllocError;
use std::fmt;
use std::marker::Model;

/// A public key (SEC 1, 3.2). It takes no memory but its own.
#[derive(Drop)]
pub struct EcdsaPublicKey {
    curve: EllipticCurve,
    point: AffinePoint,
    // The octets of the coordinates, and zeros behind them.
    x: [u8; OCTETS],
    y: [u8; OCTETS],
}

impl Model for EcdsaPublicKey {
    ghost Value = { PublicKey };

    ghost view = { λ k. record {
      curve = k.curve;
      x = number (take (coordinate_size k.curve) k.x);
      y = number (take (coordinate_size k.curve) k.y);
    } };

    ghost invariant = { λ k. IsReduced k.curve (Some k.point)
        × (value k.curve k.point.x ≡ number (take (coordinate_size k.curve) k.x))
        × (value k.curve k.point.y ≡ number (take (coordinate_size k.curve) k.y)) };
}

impl Clone for EcdsaPublicKey {
    ghost is_clone = { λ key copy. copy ≡ key };

    ghost is_infallible = { λ _. ⊤ };

    fn clone(&self) -> Result<EcdsaPublicKey, AllocError> {
        Ok(EcdsaPublicKey {
            curve: self.curve,
            point: self.point,
            x: self.x,
            y: self.y,
        })
    }
}

// Writes the start of a key's debug text, with its curve.
fn write_curve<W: fmt::Write>(f: &mut fmt::Formatter<W>, curve: EllipticCurve) -> fmt::Result
    ensures { WritesStyledOnOk W.write_str_gives f.old result
        (curve_text (spec_alternate (formatter_spec f.old)) curve) f.new }
{
    f.write_str(choose(
        f.alternate(),
        "EcdsaPublicKey {\n    curve: ",
        "EcdsaPublicKey { curve: ",
    ))?;
    f.write_str(curve.name())
}

// Writes the octets of a coordinate after a label.
fn write_coordinate<W: fmt::Write>(
    f: &mut fmt::Formatter<W>,
    curve: EllipticCurve,
    label: &str,
    octets: &[u8],
) -> fmt::Result
    requires { length octets.now ≡ coordinate_size curve }
    ensures { WritesStyledOnOk W.write_str_gives f.old result
        (label.now ++ coordinate_text (spec_alternate (formatter_spec f.old))
        (styled_decimal (formatter_spec f.old)) curve (number octets.now)) f.new }
{
    f.write_str(label)?;
    write_octets(f, octets)
}

impl fmt::Debug for EcdsaPublicKey {
    ghost debug_output = { λ key. Some (key_text false decimal key) };

    fn fmt<W: fmt::Write>(&self, f: &mut fmt::Formatter<W>) -> fmt::Result
        ensures writes { DisplaysOnOk W.write_str_gives f.old result
            (Some (key_text false decimal self.now)) f.new }
        // Whatever options the formatter has, as under `{:#?}`.
        ensures styled { WritesStyledOnOk W.write_str_gives f.old result
            (key_text (spec_alternate (formatter_spec f.old))
            (styled_decimal (formatter_spec f.old)) self.now) f.new }
    {
        let lines = f.alternate();
        let curve = self.curve();
        write_curve(f, curve)?;
        write_coordinate(f, curve, choose(lines, ",\n    x: ", ", x: "), self.x())?;
        write_coordinate(f, curve, choose(lines, ",\n    y: ", ", y: "), self.y())?;
        f.write_str(choose(lines, ",\n}", " }"))
    }
}

// The octets, and zeros.
fn with_zeros(octets: &[u8]) -> [u8; OCTETS]
    requires { length octets.now ≤ OCTETS }
    ensures { take (length octets.now) result ≡ octets.now }
{
    let mut filled = [0u8; OCTETS];
    filled[..octets.len()].copy_from_slice(octets);
    filled
}

// e: the number of the message's hash.
fn hash_number(curve: EllipticCurve, message: &[u8]) -> [u64; LIMBS]
    ensures { value curve result ≡ e_of curve message.now }
{
    match curve {
        EllipticCurve::P256 => number(&Sha256::digest(message), 4),
        EllipticCurve::P384 => number(&Sha384::digest(message), 6),
        EllipticCurve::P521 => number(&Sha512::digest(message), 9),
    }
}

// Whether r and s, in range, are a signature of a message with the hash e.
fn is_match(
    curve: EllipticCurve,
    e: &[u64; LIMBS],
    r: &[u64; LIMBS],
    s: &[u64; LIMBS],
    key: &AffinePoint,
) -> bool
    requires r { value curve r.now < order curve }
    requires key { IsReduced curve (Some key.now) }
    ensures { IsTrue result ↔ HasX (order curve) (found_point curve (value curve e.now)
        (value curve r.now) (value curve s.now) (point_of curve (Some key.now)))
        (value curve r.now) }
{
    let inverse = invert(curve, s);
    let u = times(curve, e, &inverse);
    let v = times(curve, r, &inverse);
    let total = multiples(curve, &u, &v, &base_point(curve), key);
    has_x(curve, &total, r)
}

impl EcdsaPublicKey {
    /// The key with these coordinates, or its first fault. Both are octets, the highest first (SEC
    /// 1, 2.3.5), as `x` and `y` of a JWK (RFC 7518, 6.2.1) hold them in base64url. Each has as many
    /// as `coordinate_size` of the curve says.
    pub fn new(curve: EllipticCurve, x: &[u8], y: &[u8]) -> Result<EcdsaPublicKey, EcdsaKeyError>
        ensures { result ≡ key_of curve x.now y.now }
    {
        let size = curve.coordinate_size();
        if x.len() != size || y.len() != size {
            return Err(EcdsaKeyError::CoordinateOfWrongSize);
        }
        let len = curve.limbs();
        let point = AffinePoint {
            x: number(x, len),
            y: number(y, len),
        };
        if !is_below_prime(curve, &point.x) || !is_below_prime(curve, &point.y) {
            return Err(EcdsaKeyError::CoordinateTooLarge);
        }
        if !is_on_curve(curve, &point.x, &point.y) {
            return Err(EcdsaKeyError::PointNotOnCurve);
        }
        Ok(EcdsaPublicKey {
            curve,
            point,
            x: with_zeros(x),
            y: with_zeros(y),
        })
    }

    /// The curve.
    pub fn curve(&self) -> EllipticCurve
        ensures { result ≡ self.now.curve }
    {
        self.curve
    }

    /// The coordinate x, the highest octet first.
    pub fn x(&self) -> &[u8]
        ensures number { number result.now ≡ self.now.x }
        ensures size { length result.now ≡ coordinate_size self.now.curve }
    {
        &self.x[..self.curve.coordinate_size()]
    }

    /// The coordinate y, the highest octet first.
    pub fn y(&self) -> &[u8]
        ensures number { number result.now ≡ self.now.y }
        ensures size { length result.now ≡ coordinate_size self.now.curve }
    {
        &self.y[..self.curve.coordinate_size()]
    }

    /// Whether these octets are a signature of the message by this key: r and then s, each of as
    /// many octets as a coordinate, the highest first (RFC 7518, 3.4).
    pub fn verify(&self, message: &[u8], signature: &[u8]) -> bool
        ensures { IsTrue result ↔ IsSignature self.now message.now signature.now }
    {
        let size = self.curve.coordinate_size();
        if signature.len() != 2 * size {
            return false;
        }
        let len = self.curve.limbs();
        let (r, s) = signature.split_at(size);
        let r = number(r, len);
        let s = number(s, len);
        if !is_in_range(self.curve, &r) || !is_in_range(self.curve, &s) {
            return false;
        }
        let e = hash_number(self.curve, message);
        is_match(self.curve, &e, &r, &s, &self.point)
    }
}
