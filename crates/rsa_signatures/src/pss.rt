// The check of an encoding for RSASSA-PSS (RFC 8017, 9.1.2).

ghost use Rattle.std.specs.Prelude.{
  ◌≡◌,
  ℕ,
  ◌+◌,
  ◌-◌,
  ◌*◌,
  ◌/◌,
  ◌%◌,
  ◌^◌,
  ◌<◌,
  ◌≤◌,
  ◌++◌,
  ◌∷◌,
  [],
  ◌↔◌,
  length,
  take,
  replicate,
  slice_index,
  IsTrue,
  EachIndex,
};
ghost use Rattle.hash_functions.specs.HashFunction.{digest_of, hash_size};
ghost use Rattle.rsa_signatures.specs.Octets.{HasBits, octets_of};
ghost use Rattle.rsa_signatures.specs.Pss.{
  IsPssEncoding,
  IsPssRepresentative,
  block_size,
  data_block,
  mgf1,
  exclusive_or,
};
ghost use Rattle.modular_arithmetic.specs.Limbs.{value_below};

use crate::octets::{LIMBS, OCTETS, octets_of};
use hash_functions::HashFunction;

// A block of MGF1's mask (RFC 8017, B.2.1): the first `hash.size()` octets of the result.
fn mask_block(hash: HashFunction, seed: &[u8], counter: usize) -> [u8; 64]
    requires { counter < 2 ^ 32 }
    ensures { take (hash_size hash) result ≡ digest_of hash (seed.now ++ octets_of 4 counter) }
{
    hash.digest(seed, &(counter as u32).to_be_bytes(), &[])
}

// The block that octet i of the mask is in. `before` is the block of the octet before it.
fn block_at(hash: HashFunction, seed: &[u8], i: usize, before: [u8; 64]) -> [u8; 64]
    requires i { i < 2 ^ 32 }
    requires before { (i % hash_size hash ≡ 0 → ⊥) → take (hash_size hash) before
        ≡ digest_of hash (seed.now ++ octets_of 4 (i / hash_size hash)) }
    ensures { take (hash_size hash) result
        ≡ digest_of hash (seed.now ++ octets_of 4 (i / hash_size hash)) }
{
    if i % hash.size() == 0 {
        mask_block(hash, seed, i / hash.size())
    } else {
        before
    }
}

// The octets without MGF1's mask (exclusive or): the first octets of the result.
fn without_mask(hash: HashFunction, seed: &[u8], masked: &[u8]) -> [u8; OCTETS]
    requires { length masked.now ≤ OCTETS }
    ensures { take (length masked.now) result
        ≡ exclusive_or masked.now (mgf1 hash seed.now (length masked.now)) }
{
    let size = hash.size();
    let mut block = [0u8; 64];
    let mut octets = [0u8; OCTETS];
    for i in 0..masked.len() {
        block = block_at(hash, seed, i, block);
        octets[i] = masked[i] ^ block[i % size];
    }
    octets
}

// The limit that the first octet of an encoding is below if its first `unused` bits are zero.
fn first_limit(unused: usize) -> u16
    requires { unused < 8 }
    ensures { result ≡ 2 ^ (8 - unused) }
{
    1 << (8 - unused)
}

// The data block (DB) of an encoding: the first octets of the result.
fn data_block(hash: HashFunction, unused: usize, em: &[u8]) -> [u8; OCTETS]
    requires least { 130 ≤ length em.now }
    requires most { length em.now ≤ OCTETS }
    requires unused { unused < 8 }
    ensures { take (block_size hash em.now) result ≡ data_block hash unused em.now }
{
    let size = em.len() - hash.size() - 1;
    let seed = &em[size..size + hash.size()];
    let mut octets = without_mask(hash, seed, &em[..size]);
    octets[0] = (octets[0] as u16 % first_limit(unused)) as u8;
    octets
}

fn is_zero(octets: &[u8]) -> bool
    ensures { IsTrue result ↔ EachIndex octets.now (λ k. slice_index octets.now k ≡ 0) }
{
    octets.iter().all(|octet| *octet == 0)
}

// Whether the octets are zeros and a final 0x01 (step 10).
fn is_padding(octets: &[u8]) -> bool
    requires { 0 < length octets.now }
    ensures { IsTrue result
        ↔ (octets.now ≡ replicate (length octets.now - 1) 0 ++ 0x01 ∷ []) }
{
    let last = octets.len() - 1;
    is_zero(&octets[..last]) && octets[last] == 1
}

// Whether `found` is the digest of eight zeros, the message's digest and the salt (steps 12 to 14).
fn is_salted_digest(hash: HashFunction, message: &[u8], salt: &[u8], found: &[u8]) -> bool
    ensures { IsTrue result
        ↔ (found.now
        ≡ digest_of hash (replicate 8 0 ++ digest_of hash message.now ++ salt.now)) }
{
    let digest = hash.digest(message, &[], &[]);
    let expected = hash.digest(&[0; 8], &digest[..hash.size()], salt);
    found == &expected[..hash.size()]
}

// Whether an encoding ends in 0xbc, and its unused bits are zero (steps 4 and 6).
fn has_ends(unused: usize, em: &[u8]) -> bool
    requires least { 130 ≤ length em.now }
    requires unused { unused < 8 }
    ensures { IsTrue result ↔ ((slice_index em.now (length em.now - 1) ≡ 0xbc)
        × (slice_index em.now 0 < 2 ^ (8 - unused))) }
{
    em[em.len() - 1] == 0xbc && (em[0] as u16) < first_limit(unused)
}

fn is_encoding(hash: HashFunction, unused: usize, message: &[u8], em: &[u8]) -> bool
    requires least { 130 ≤ length em.now }
    requires most { length em.now ≤ OCTETS }
    requires unused { unused < 8 }
    ensures { IsTrue result ↔ IsPssEncoding hash unused message.now em.now }
{
    let size = em.len() - hash.size() - 1;
    let octets = data_block(hash, unused, em);
    let (padding, salt) = octets[..size].split_at(size - hash.size());
    let found = &em[size..size + hash.size()];
    has_ends(unused, em) && is_padding(padding) && is_salted_digest(hash, message, salt, found)
}

// Whether the representative is an encoding of the message as a number. `bits` is the number of
// bits of the modulus.
pub(crate) fn is_pss(
    hash: HashFunction,
    message: &[u8],
    representative: &[u64; LIMBS],
    bits: usize,
    len: usize,
) -> bool
    requires len { len ≤ LIMBS }
    requires least { 2041 ≤ bits }
    requires most { bits ≤ 8192 }
    ensures { (n : ℕ) → HasBits n bits → (IsTrue result
        ↔ IsPssRepresentative hash n message.now (value_below representative.now len)) }
{
    let size = (bits - 1 + 7) / 8;
    let octets = octets_of(representative, len);
    let (front, em) = octets.split_at(OCTETS - size);
    is_zero(front) && is_encoding(hash, 8 * size - (bits - 1), message, em)
}
