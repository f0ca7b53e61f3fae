// HMAC (RFC 2104, 2).

ghost use Rattle.std.specs.Prelude.{
  ◌≡◌,
  ◌-◌,
  ◌≤◌,
  ◌++◌,
  ◌↔◌,
  length,
  map,
  replicate,
  take,
  bit_xor,
  IsTrue,
};
ghost use Rattle.hash_functions.specs.HashFunction.{block_size, hash_size, digest_of};
ghost use Rattle.hmac_signatures.specs.Hmac.{hmac, hmac_of_block, zero_filled};

use hash_functions::HashFunction;

const LARGEST_BLOCK: usize = 128;

// The key, filled with zeros to the largest block, with `with` exclusive-ored to each octet.
fn padded_key(key: &[u8], with: u8) -> [u8; LARGEST_BLOCK]
    requires { length key.now ≤ LARGEST_BLOCK }
    ensures { result ≡ map (λ octet. bit_xor octet with)
        (key.now ++ replicate (LARGEST_BLOCK - length key.now) 0) }
{
    let mut block = [with; LARGEST_BLOCK];
    for i in 0..key.len() {
        block[i] = key[i] ^ with;
    }
    block
}

// The digest of the padded key followed by the text: the first octets of the result.
fn digest_after_key(hash: HashFunction, key: &[u8], with: u8, text: &[u8]) -> [u8; 64]
    requires { length key.now ≤ block_size hash }
    ensures { take (hash_size hash) result ≡ digest_of hash
        (map (λ octet. bit_xor octet with) (zero_filled hash key.now) ++ text.now) }
{
    let padded = padded_key(key, with);
    hash.digest(&padded[..hash.block_size()], text, &[])
}

// The HMAC by a key of at most one block: the first octets of the result.
fn hmac_of_block(hash: HashFunction, key: &[u8], text: &[u8]) -> [u8; 64]
    requires { length key.now ≤ block_size hash }
    ensures { take (hash_size hash) result
        ≡ hmac_of_block hash (zero_filled hash key.now) text.now }
{
    let inner = digest_after_key(hash, key, 0x36, text);
    digest_after_key(hash, key, 0x5c, &inner[..hash.size()])
}

// The HMAC of a text: the first octets of the result.
pub(crate) fn hmac(hash: HashFunction, key: &[u8], text: &[u8]) -> [u8; 64]
    ensures { take (hash_size hash) result ≡ hmac hash key.now text.now }
{
    if key.len() > hash.block_size() {
        let digest = hash.digest(key, &[], &[]);
        hmac_of_block(hash, &digest[..hash.size()], text)
    } else {
        hmac_of_block(hash, key, text)
    }
}

// Whether both are the same. It looks at every octet, even after a difference.
pub(crate) fn is_same(a: &[u8], b: &[u8]) -> bool
    requires { length a.now ≡ length b.now }
    ensures { IsTrue result ↔ (a.now ≡ b.now) }
{
    let mut differences = 0u8;
    for i in 0..a.len() {
        differences |= a[i] ^ b[i];
    }
    differences == 0
}
