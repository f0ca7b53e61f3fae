//! A public key, and the check of a signature with it.

ghost use Rattle.std.specs.Fmt.{DisplaysOnOk, WritesStyledOnOk};
ghost use Rattle.std.specs.Fmt.{decimal, formatter_spec, spec_alternate, styled_decimal};
ghost use Rattle.std.specs.Prelude.{
  ⊤,
  ◌≡◌,
  ◌+◌,
  ◌*◌,
  ◌%◌,
  ◌^◌,
  ◌<◌,
  ◌≤◌,
  ◌↔◌,
  length,
  slice_index,
  take,
  IsTrue,
  MatchOption,
  Some,
  false,
  nat_eq,
  nat_lt,
  nat_le,
};
ghost use Rattle.modular_arithmetic.specs.Octets.{number};
ghost use Rattle.rsa_signatures.specs.KeyText.{key_text, modulus_text};
ghost use Rattle.rsa_signatures.specs.Octets.{HasBits, HasOctets};
ghost use Rattle.rsa_signatures.specs.PublicKey.{PublicKey, key_of, least_modulus, modulus_limit};
ghost use Rattle.rsa_signatures.specs.Signature.{IsSignature};
ghost use Rattle.rsa_signatures.specs.private.KeyFields.{IsKey};

use crate::key_error::RsaKeyError;
use crate::octets::{LIMBS, OCTETS, with_zeros};
use crate::signature_scheme::SignatureScheme;
use modular_arithmetic::{
    choose, is_less, limb, negated_inverse, number, power, weight_square, write_octets,
};
use std::alloc::AllocError;
use std::fmt;
use std::marker::Model;

/// A public key (RFC 8017, 3.1) of 2048 to 8192 bits. It allocates nothing.
#[derive(Drop)]
pub struct RsaPublicKey {
    n: [u64; LIMBS],
    octets: [u8; OCTETS],
    square: [u64; LIMBS],
    inverse: u64,
    exponent: u64,
    size: usize,
    bits: usize,
    len: usize,
}

impl Model for RsaPublicKey {
    ghost Value = { PublicKey };

    ghost view = { λ k. record {
      modulus = number (take k.size k.octets);
      exponent = k.exponent;
    } };

    ghost invariant = { λ k. IsKey k.n k.octets k.square k.inverse k.size k.bits k.len };
}

impl Clone for RsaPublicKey {
    ghost is_clone = { λ key copy. copy ≡ key };

    ghost is_infallible = { λ _. ⊤ };

    fn clone(&self) -> Result<RsaPublicKey, AllocError> {
        Ok(RsaPublicKey {
            n: self.n,
            octets: self.octets,
            square: self.square,
            inverse: self.inverse,
            exponent: self.exponent,
            size: self.size,
            bits: self.bits,
            len: self.len,
        })
    }
}

// Writes the start of a key's debug text, with the octets of its modulus.
fn write_modulus<W: fmt::Write>(f: &mut fmt::Formatter<W>, octets: &[u8]) -> fmt::Result
    requires { 0 < slice_index octets.now 0 }
    ensures { WritesStyledOnOk W.write_str_gives f.old result
        (modulus_text (spec_alternate (formatter_spec f.old))
        (styled_decimal (formatter_spec f.old)) (number octets.now)) f.new }
{
    f.write_str(choose(
        f.alternate(),
        "RsaPublicKey {\n    modulus: ",
        "RsaPublicKey { modulus: ",
    ))?;
    write_octets(f, octets)
}

impl fmt::Debug for RsaPublicKey {
    ghost debug_output = { λ key. Some (key_text false decimal key) };

    fn fmt<W: fmt::Write>(&self, f: &mut fmt::Formatter<W>) -> fmt::Result
        ensures writes { DisplaysOnOk W.write_str_gives f.old result
            (Some (key_text false decimal self.now)) f.new }
        // Whatever options the formatter has, as under `{:#?}`.
        ensures styled { WritesStyledOnOk W.write_str_gives f.old result
            (key_text (spec_alternate (formatter_spec f.old))
            (styled_decimal (formatter_spec f.old)) self.now) f.new }
    {
        let lines = f.alternate();
        write_modulus(f, self.modulus())?;
        f.write_str(choose(lines, ",\n    exponent: ", ", exponent: "))?;
        fmt::Display::fmt(&self.exponent(), f)?;
        f.write_str(choose(lines, ",\n}", " }"))
    }
}

// The octets without the leading zeros.
fn significant(bytes: &[u8]) -> &[u8]
    ensures number { number result.now ≡ number bytes.now }
    ensures first { 0 < length result.now → 0 < slice_index result.now 0 }
{
    let mut start = 0;
    while start < bytes.len() && bytes[start] == 0 {
        start += 1;
    }
    &bytes[start..]
}

// The exponent that the octets hold; `None` if it is 2 ^ 64 or more.
fn exponent_from_octets(bytes: &[u8]) -> Option<u64>
    ensures { MatchOption result (2 ^ 64 ≤ number bytes.now) (λ e. e ≡ number bytes.now) }
{
    let mut exponent = 0u64;
    for byte in bytes {
        if exponent >= 0x100_0000_0000_0000 {
            return None;
        }
        exponent = exponent * 256 + *byte as u64;
    }
    Some(exponent)
}

fn is_short(bytes: &[u8]) -> bool
    requires { 0 < length bytes.now → 0 < slice_index bytes.now 0 }
    ensures { result ≡ nat_lt (number bytes.now) least_modulus }
{
    bytes.len() < 256 || bytes.len() == 256 && bytes[0] < 128
}

fn is_long(bytes: &[u8]) -> bool
    requires { 0 < length bytes.now → 0 < slice_index bytes.now 0 }
    ensures { result ≡ nat_le modulus_limit (number bytes.now) }
{
    bytes.len() > 1024
}

// How many bits the number has that the octets hold.
fn bits(bytes: &[u8]) -> usize
    requires some { 0 < length bytes.now }
    requires most { length bytes.now ≤ OCTETS }
    requires first { 0 < slice_index bytes.now 0 }
    ensures has_bits { HasBits (number bytes.now) result }
    ensures least { 8 * length bytes.now < result + 8 }
    ensures most { result ≤ 8 * length bytes.now }
{
    8 * bytes.len() - bytes[0].leading_zeros() as usize
}

impl RsaPublicKey {
    /// The key with this modulus and this exponent, or its first fault. Both are octets, the
    /// highest first (RFC 8017, 4.2), as `n` and `e` of a JWK (RFC 7518, 6.3.1) hold them in
    /// base64url. Leading zeros are ignored.
    pub fn new(modulus: &[u8], exponent: &[u8]) -> Result<RsaPublicKey, RsaKeyError>
        ensures { result ≡ key_of (number modulus.now) (number exponent.now) }
    {
        let bytes = significant(modulus);
        if is_short(bytes) {
            return Err(RsaKeyError::ModulusTooSmall);
        }
        if is_long(bytes) {
            return Err(RsaKeyError::ModulusTooLarge);
        }
        let size = bytes.len();
        let len = size.div_ceil(8);
        let n = number(bytes, len);
        if n[0] % 2 == 0 {
            return Err(RsaKeyError::ModulusEven);
        }
        let Some(exponent) = exponent_from_octets(exponent) else {
            return Err(RsaKeyError::ExponentTooLarge);
        };
        if exponent < 3 {
            return Err(RsaKeyError::ExponentTooSmall);
        }
        if exponent % 2 == 0 {
            return Err(RsaKeyError::ExponentEven);
        }
        let square = weight_square(&n, len);
        Ok(RsaPublicKey {
            inverse: negated_inverse(n[0]),
            n,
            octets: with_zeros(bytes),
            square,
            exponent,
            size,
            bits: bits(bytes),
            len,
        })
    }

    /// The octets of the modulus, the highest first, without leading zeros.
    pub fn modulus(&self) -> &[u8]
        ensures number { number result.now ≡ self.now.modulus }
        ensures first { 0 < slice_index result.now 0 }
    {
        &self.octets[..self.size]
    }

    /// The exponent.
    pub fn exponent(&self) -> u64
        ensures { result ≡ self.now.exponent }
    {
        self.exponent
    }

    /// The size of the modulus in octets, which is also that of a signature.
    pub fn size(&self) -> usize
        ensures { HasOctets self.now.modulus result }
    {
        self.size
    }

    /// Whether these octets are a signature of the message by this key.
    pub fn verify(&self, scheme: SignatureScheme, message: &[u8], signature: &[u8]) -> bool
        ensures { IsTrue result
            ↔ IsSignature scheme self.now.modulus self.now.exponent message.now signature.now }
    {
        if signature.len() != self.size {
            return false;
        }
        let len = self.len;
        let signed = number(signature, len);
        if !is_less(&signed, &self.n, len) {
            return false;
        }
        let representative = power(
            &signed,
            &limb(self.exponent),
            64 - self.exponent.leading_zeros() as usize,
            &self.n,
            &self.square,
            self.inverse,
            len,
        );
        scheme.is_encoded(message, &representative, self.size, self.bits, len)
    }
}
