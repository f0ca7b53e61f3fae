// Arithmetic modulo p.

ghost use Rattle.std.specs.Prelude.{◌≡◌, ℕ, ◌+◌, ◌-◌, ◌*◌, ◌%◌, ◌^◌, ◌<◌, ◌≤◌, ◌↔◌, IsTrue};
ghost use Rattle.std.specs.Prelude.{Some, None, nat_le, if◌then◌else◌};
ghost use Rattle.modular_arithmetic.specs.Limbs.{value_below};
ghost use Rattle.eddsa_signatures.specs.Field.{prime, plus, minus, times, power};
ghost use Rattle.eddsa_signatures.specs.Form.{held};

use modular_arithmetic::{add_mul, is_bit_set, is_equal, is_less, limb, montgomery, reduce};
use std::marker::Model;

/// The limbs of a number modulo p.
pub(crate) const LIMBS: usize = 4;

// p.
const PRIME: [u64; LIMBS] = [
    0xffff_ffff_ffff_ffed,
    0xffff_ffff_ffff_ffff,
    0xffff_ffff_ffff_ffff,
    0x7fff_ffff_ffff_ffff,
];

// The square of the weight above the limbs, modulo p.
const SQUARE: [u64; LIMBS] = [1444, 0, 0, 0];

// What p is multiplied by to be -1 modulo 2 ^ 64.
const INVERSE: u64 = 0x86bc_a1af_286b_ca1b;

/// A number below p in Montgomery's form, the lowest limb first.
#[derive(Drop)]
pub(crate) struct Residue {
    limbs: [u64; LIMBS],
}

impl Model for Residue {
    ghost Value = { ℕ };

    ghost view = { λ r. held r.limbs };

    ghost invariant = { λ r. value_below r.limbs 4 < prime };
}

// The sum of two numbers modulo p.
fn reduced_sum(a: &[u64; LIMBS], b: &[u64; LIMBS]) -> Residue
    requires { value_below a.now 4 + value_below b.now 4 < 2 * prime }
    ensures { result ≡ (held a.now + held b.now) % prime }
{
    let mut limbs = *a;
    let top = add_mul(&mut limbs, LIMBS, b, 1);
    reduce(&mut limbs, top, &PRIME, LIMBS);
    Residue { limbs }
}

// p - a.
fn rest(a: &[u64; LIMBS]) -> [u64; LIMBS]
    requires { value_below a.now 4 ≤ prime }
    ensures { value_below result 4 ≡ prime - value_below a.now 4 }
{
    let mut limbs = PRIME;
    modular_arithmetic::subtract(&mut limbs, LIMBS, a);
    limbs
}

// The product of two numbers in Montgomery's form.
fn form_product(a: &[u64; LIMBS], b: &[u64; LIMBS]) -> [u64; LIMBS]
    requires { value_below b.now 4 < prime }
    ensures below { value_below result 4 < prime }
    ensures held { held result ≡ (held a.now * held b.now) % prime }
{
    montgomery(a, b, &PRIME, INVERSE, LIMBS)
}

// The form of the number that the limbs hold.
fn form(limbs: &[u64; LIMBS]) -> Residue
    requires { value_below limbs.now 4 < prime }
    ensures { result ≡ value_below limbs.now 4 }
{
    Residue {
        limbs: form_product(limbs, &SQUARE),
    }
}

impl Residue {
    // The number that these limbs hold.
    pub(crate) fn constant(limbs: [u64; LIMBS]) -> Residue
        requires { value_below limbs 4 < prime }
        ensures { result ≡ value_below limbs 4 }
    {
        form(&limbs)
    }

    // The number as limbs.
    fn number(&self) -> [u64; LIMBS]
        ensures { value_below result 4 ≡ self.now }
    {
        form_product(&limb(1), &self.limbs)
    }

    // The number that the limbs hold, if it is below p.
    pub(crate) fn new(limbs: &[u64; LIMBS]) -> Option<Residue>
        ensures { result ≡ (if nat_le prime (value_below limbs.now 4) then None
            else Some (value_below limbs.now 4)) }
    {
        if is_less(limbs, &PRIME, LIMBS) {
            Some(form(limbs))
        } else {
            None
        }
    }

    pub(crate) fn small(x: u64) -> Residue
        ensures { result ≡ x }
    {
        form(&limb(x))
    }

    pub(crate) fn copied(&self) -> Residue
        ensures { result ≡ self.now }
    {
        Residue { limbs: self.limbs }
    }

    pub(crate) fn is_same(&self, other: &Residue) -> bool
        ensures { IsTrue result ↔ (self.now ≡ other.now) }
    {
        is_equal(&self.limbs, &other.limbs, LIMBS)
    }

    pub(crate) fn is_odd(&self) -> bool
        ensures { IsTrue result ↔ (self.now % 2 ≡ 1) }
    {
        is_bit_set(&self.number(), LIMBS, 0)
    }

    pub(crate) fn plus(&self, other: &Residue) -> Residue
        ensures { result ≡ plus self.now other.now }
    {
        reduced_sum(&self.limbs, &other.limbs)
    }

    pub(crate) fn minus(&self, other: &Residue) -> Residue
        ensures { result ≡ minus self.now other.now }
    {
        reduced_sum(&self.limbs, &rest(&other.limbs))
    }

    pub(crate) fn times(&self, other: &Residue) -> Residue
        ensures { result ≡ times self.now other.now }
    {
        Residue {
            limbs: form_product(&self.limbs, &other.limbs),
        }
    }

    // The number to the power of an exponent of at most so many bits.
    pub(crate) fn power(&self, exponent: &[u64; LIMBS], bits: usize) -> Residue
        requires bits { bits ≤ 256 }
        requires exponent { value_below exponent.now 4 < 2 ^ bits }
        ensures { result ≡ power self.now (value_below exponent.now 4) }
    {
        let raised = modular_arithmetic::power(
            &self.number(),
            exponent,
            bits,
            &PRIME,
            &SQUARE,
            INVERSE,
            LIMBS,
        );
        form(&raised)
    }
}
