//! The hash functions that signatures are made with.

ghost use Rattle.std.specs.Prelude.{◌≡◌, ◌≤◌, ◌++◌, length, take};
ghost use Rattle.hash_functions.specs.HashFunction.{block_size, hash_size, digest_of};

use sha2::{Digest, Sha256, Sha384, Sha512};

/// A hash function of FIPS 180-4 that RFC 8017, B.1, recommends, and that RFC 7518, 3.1, uses.
#[derive(Clone, Copy, Debug, PartialEq, Eq, Drop)]
pub enum HashFunction {
    /// SHA-256: a digest of 32 octets, and blocks of 64.
    Sha256,
    /// SHA-384: a digest of 48 octets, and blocks of 128.
    Sha384,
    /// SHA-512: a digest of 64 octets, and blocks of 128.
    Sha512,
}

// The octets, followed by zeros.
fn with_zeros(octets: &[u8]) -> [u8; 64]
    requires { length octets.now ≤ 64 }
    ensures { take (length octets.now) result ≡ octets.now }
{
    let mut filled = [0u8; 64];
    filled[..octets.len()].copy_from_slice(octets);
    filled
}

impl HashFunction {
    /// The size of a digest in octets.
    pub fn size(self) -> usize
        ensures value { result ≡ hash_size self }
        ensures least { 32 ≤ result }
        ensures most { result ≤ 64 }
    {
        match self {
            HashFunction::Sha256 => 32,
            HashFunction::Sha384 => 48,
            HashFunction::Sha512 => 64,
        }
    }

    /// The size in octets of the blocks that a message is hashed in.
    pub fn block_size(self) -> usize
        ensures value { result ≡ block_size self }
        ensures least { 64 ≤ result }
        ensures most { result ≤ 128 }
    {
        match self {
            HashFunction::Sha256 => 64,
            HashFunction::Sha384 | HashFunction::Sha512 => 128,
        }
    }

    /// The digest of a message that is given in three parts. It is the first `size` octets of the
    /// result; the others mean nothing.
    pub fn digest(self, first: &[u8], second: &[u8], third: &[u8]) -> [u8; 64]
        ensures { take (hash_size self) result
            ≡ digest_of self (first.now ++ second.now ++ third.now) }
    {
        match self {
            HashFunction::Sha256 => {
                let hasher = Sha256::new_with_prefix(first);
                with_zeros(&hasher.chain_update(second).chain_update(third).finalize())
            }
            HashFunction::Sha384 => {
                let hasher = Sha384::new_with_prefix(first);
                with_zeros(&hasher.chain_update(second).chain_update(third).finalize())
            }
            HashFunction::Sha512 => {
                let hasher = Sha512::new_with_prefix(first);
                with_zeros(&hasher.chain_update(second).chain_update(third).finalize())
            }
        }
    }
}
