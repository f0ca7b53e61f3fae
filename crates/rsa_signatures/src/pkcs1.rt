// The encoding of a message for RSASSA-PKCS1-v1_5 (RFC 8017, 9.2).

ghost use Rattle.std.specs.Prelude.{◌≡◌, ◌+◌, ◌*◌, ◌≤◌, ◌++◌, ◌↔◌, length, IsTrue};
ghost use Rattle.modular_arithmetic.specs.Octets.{number};
ghost use Rattle.rsa_signatures.specs.Pkcs1.{digest_prefix, with_padding, pkcs1_encoded};
ghost use Rattle.modular_arithmetic.specs.Limbs.{value_below};

use crate::octets::{LIMBS, push_repeated};
use hash_functions::HashFunction;
use modular_arithmetic::{is_equal, push_all};

fn digest_prefix(hash: HashFunction) -> [u8; 19]
    ensures { result ≡ digest_prefix hash }
{
    match hash {
        HashFunction::Sha256 => [
            0x30, 0x31, 0x30, 0x0d, 0x06, 0x09, 0x60, 0x86, 0x48, 0x01, 0x65, 0x03, 0x04, 0x02,
            0x01, 0x05, 0x00, 0x04, 0x20,
        ],
        HashFunction::Sha384 => [
            0x30, 0x41, 0x30, 0x0d, 0x06, 0x09, 0x60, 0x86, 0x48, 0x01, 0x65, 0x03, 0x04, 0x02,
            0x02, 0x05, 0x00, 0x04, 0x30,
        ],
        HashFunction::Sha512 => [
            0x30, 0x51, 0x30, 0x0d, 0x06, 0x09, 0x60, 0x86, 0x48, 0x01, 0x65, 0x03, 0x04, 0x02,
            0x03, 0x05, 0x00, 0x04, 0x40,
        ],
    }
}

// The number of `prefix` and `digest` padded to `size` octets.
fn padded_number(prefix: &[u8], digest: &[u8], size: usize, len: usize) -> [u64; LIMBS]
    requires len { len ≤ LIMBS }
    requires size { length prefix.now + length digest.now + 3 ≤ size }
    requires fits { size ≤ 8 * len }
    ensures { value_below result len ≡ number (with_padding size (prefix.now ++ digest.now)) }
{
    let mut limbs = [0u64; LIMBS];
    push_all(&mut limbs, len, &[0x00, 0x01]);
    push_repeated(
        &mut limbs,
        len,
        0xff,
        size - (prefix.len() + digest.len()) - 3,
    );
    push_all(&mut limbs, len, &[0x00]);
    push_all(&mut limbs, len, prefix);
    push_all(&mut limbs, len, digest);
    limbs
}

// Whether the representative is the encoded message as a number.
pub(crate) fn is_pkcs1(
    hash: HashFunction,
    message: &[u8],
    representative: &[u64; LIMBS],
    size: usize,
    len: usize,
) -> bool
    requires len { len ≤ LIMBS }
    requires size { 256 ≤ size }
    requires fits { size ≤ 8 * len }
    ensures { IsTrue result
        ↔ (value_below representative.now len ≡ number (pkcs1_encoded hash size message.now)) }
{
    let digest = hash.digest(message, &[], &[]);
    let digest = &digest[..hash.size()];
    let expected = padded_number(&digest_prefix(hash), digest, size, len);
    is_equal(representative, &expected, len)
}
