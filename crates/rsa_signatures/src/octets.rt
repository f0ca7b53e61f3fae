// Numbers from octets, the highest first (RFC 8017, 4.2).

ghost use Rattle.std.specs.Prelude.{◌≡◌, ℕ, ◌+◌, ◌-◌, ◌*◌, ◌%◌, ◌^◌, ◌<◌, ◌≤◌, length, replicate, slice_index, take};
ghost use Rattle.modular_arithmetic.specs.Octets.{number, number_onto};
ghost use Rattle.modular_arithmetic.specs.Limbs.{AreLimbs, limb_weight, value_below};

use modular_arithmetic::push;

// How many limbs 8192 bits take.
pub(crate) const LIMBS: usize = 128;

// How many octets 8192 bits take.
pub(crate) const OCTETS: usize = 1024;

pub(crate) fn push_repeated(limbs: &mut [u64; LIMBS], len: usize, octet: u8, count: usize)
    requires len { len ≤ LIMBS }
    requires limbs { AreLimbs limbs.old len }
    ensures limbs { AreLimbs limbs.new len }
    ensures value { value_below limbs.new len % limb_weight len
        ≡ number_onto (value_below limbs.old len) (replicate count octet) % limb_weight len }
{
    for i in 0..count {
        push(limbs, len, octet);
    }
}

// The octets, followed by zeros.
pub(crate) fn with_zeros(octets: &[u8]) -> [u8; OCTETS]
    requires { length octets.now ≤ OCTETS }
    ensures { take (length octets.now) result ≡ octets.now }
{
    let mut filled = [0u8; OCTETS];
    filled[..octets.len()].copy_from_slice(octets);
    filled
}

// Writes a limb to the 8 octets before `end`.
fn put(octets: &mut [u8; OCTETS], end: usize, limb: u64)
    requires low { 8 ≤ end }
    requires high { end ≤ OCTETS }
    requires zeros { (k : ℕ) → k < end → slice_index octets.old k ≡ 0 }
    ensures number { number octets.new ≡ number octets.old + limb * 256 ^ (OCTETS - end) }
    ensures zeros { (k : ℕ) → k < end - 8 → slice_index octets.new k ≡ 0 }
{
    let mut rest = limb;
    for i in 0..8 {
        octets[end - 1 - i] = (rest & 0xff) as u8;
        rest >>= 8;
    }
}

// The octets of a number (RFC 8017, 4.1), the highest first, with leading zeros.
pub(crate) fn octets_of(limbs: &[u64; LIMBS], len: usize) -> [u8; OCTETS]
    requires { len ≤ LIMBS }
    ensures { number result ≡ value_below limbs.now len }
{
    let mut octets = [0u8; OCTETS];
    for i in 0..len {
        put(&mut octets, OCTETS - 8 * i, limbs[i]);
    }
    octets
}
