//! A key, and the codes that are made and checked with it.

ghost use Rattle.std.specs.Fmt.{DisplaysOnOk, WritesStyledOnOk};
ghost use Rattle.std.specs.Prelude.{◌≡◌, ◌<◌, ◌≤◌, ◌↔◌, IsTrue, Some, codes};
ghost use Rattle.hash_functions.specs.HashFunction.{hash_size};
ghost use Rattle.hmac_signatures.specs.Hmac.{hmac};
ghost use Rattle.hmac_signatures.specs.SecretKey.{SecretKey, key_of};

use crate::authentication_code::AuthenticationCode;
use crate::hmac::{hmac, is_same};
use crate::key_error::HmacKeyError;
use hash_functions::HashFunction;
use std::fmt;
use std::marker::Model;

/// A secret key for HMAC with one hash function: for `HS256`, `HS384` or `HS512` of RFC 7518, 3.2.
/// It borrows the octets, and `{:?}` does not show them.
#[derive(Drop)]
pub struct HmacKey<'a> {
    hash: HashFunction,
    octets: &'a [u8],
}

impl<'a> Model for HmacKey<'a> {
    ghost Value = { SecretKey };

    ghost view = { λ key. record {
      hash = key.hash;
      octets = key.octets.now;
    } };
}

impl<'a> HmacKey<'a> {
    /// The key of these octets for this hash function. They have to be as long as a digest or
    /// longer.
    pub fn new(hash: HashFunction, octets: &'a [u8]) -> Result<HmacKey<'a>, HmacKeyError>
        ensures { result ≡ key_of hash octets.now }
    {
        if octets.len() < hash.size() {
            return Err(HmacKeyError::TooShort);
        }
        Ok(HmacKey { hash, octets })
    }

    /// The hash function.
    pub fn hash(&self) -> HashFunction
        ensures { result ≡ self.now.hash }
    {
        self.hash
    }

    /// The code of a message.
    pub fn sign(&self, message: &[u8]) -> AuthenticationCode
        ensures { result ≡ hmac self.now.hash self.now.octets message.now }
    {
        AuthenticationCode::new(hmac(self.hash, self.octets, message), self.hash.size())
    }

    /// Whether these octets are the whole code of the message. If the lengths agree, every octet
    /// is compared, even after a difference, so that the time should not show where they differ.
    /// The contract says nothing about time.
    pub fn verify(&self, message: &[u8], signature: &[u8]) -> bool
        ensures { IsTrue result
            ↔ (signature.now ≡ hmac self.now.hash self.now.octets message.now) }
    {
        let code = self.sign(message);
        let code = code.as_octets();
        signature.len() == code.len() && is_same(signature, code)
    }
}

impl<'a> fmt::Debug for HmacKey<'a> {
    ghost debug_output = { λ _. Some (codes "HmacKey([redacted])") };

    fn fmt<W: fmt::Write>(&self, f: &mut fmt::Formatter<W>) -> fmt::Result
        ensures writes { DisplaysOnOk W.write_str_gives f.old result
            (Some (codes "HmacKey([redacted])")) f.new }
        // Whatever options the formatter has, as under `{:#?}`.
        ensures styled { WritesStyledOnOk W.write_str_gives f.old result
            (codes "HmacKey([redacted])") f.new }
    {
        f.write_str("HmacKey([redacted])")
    }
}
