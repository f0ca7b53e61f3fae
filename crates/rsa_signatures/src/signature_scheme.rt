//! The signature schemes.

ghost use Rattle.std.specs.Prelude.{◌≡◌, ℕ, ◌*◌, ◌≤◌, ◌↔◌, IsTrue};
ghost use Rattle.rsa_signatures.specs.Octets.{HasBits};
ghost use Rattle.rsa_signatures.specs.Signature.{IsEncoded};
ghost use Rattle.modular_arithmetic.specs.Limbs.{value_below};

use crate::octets::LIMBS;
use crate::pkcs1::is_pkcs1;
use crate::pss::is_pss;
use hash_functions::HashFunction;

/// How a signature is made of a message (RFC 8017, 8).
#[derive(Clone, Copy, Debug, PartialEq, Eq, Drop)]
pub enum SignatureScheme {
    /// RSASSA-PKCS1-v1_5 (8.2): `RS256`, `RS384` and `RS512` of RFC 7518, 3.3.
    Pkcs1v15(HashFunction),
    /// RSASSA-PSS (8.1) with MGF1 over the same hash function, and a salt as long as its digest:
    /// `PS256`, `PS384` and `PS512` of RFC 7518, 3.5.
    Pss(HashFunction),
}

impl SignatureScheme {
    // Whether the representative is an encoding of the message as a number.
    pub(crate) fn is_encoded(
        self,
        message: &[u8],
        representative: &[u64; LIMBS],
        size: usize,
        bits: usize,
        len: usize,
    ) -> bool
        requires len { len ≤ LIMBS }
        requires size { 256 ≤ size }
        requires fits { size ≤ 8 * len }
        requires least { 2041 ≤ bits }
        requires most { bits ≤ 8192 }
        ensures { (n : ℕ) → HasBits n bits → (IsTrue result
            ↔ IsEncoded self n size message.now (value_below representative.now len)) }
    {
        match self {
            SignatureScheme::Pkcs1v15(hash) => is_pkcs1(hash, message, representative, size, len),
            SignatureScheme::Pss(hash) => is_pss(hash, message, representative, bits, len),
        }
    }
}
