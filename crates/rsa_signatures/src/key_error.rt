//! Why a public key is refused.

ghost use Rattle.std.specs.Prelude.{◌≡◌, Some};
ghost use Rattle.rsa_signatures.specs.ErrorTexts.{key_error_text};

use std::fmt;

/// The first fault of a public key. The faults are looked for in the order of these variants.
#[derive(Clone, Copy, Debug, PartialEq, Eq, Drop)]
pub enum RsaKeyError {
    /// The modulus has fewer than 2048 bits, which RFC 7518, 3.3 and 3.5, requires.
    ModulusTooSmall,
    /// The modulus has more than 8192 bits. This crate sets the limit: a larger key would make each
    /// check slow.
    ModulusTooLarge,
    /// The modulus is even, so it is no product of odd primes (RFC 8017, 3.1).
    ModulusEven,
    /// The exponent is 2 ^ 64 or more. This crate sets the limit, for the same reason. So an
    /// exponent that is accepted is below the modulus, as RFC 8017, 3.1, requires.
    ExponentTooLarge,
    /// The exponent is less than 3 (RFC 8017, 3.1).
    ExponentTooSmall,
    /// The exponent is even, so it has a factor in common with λ(n) (RFC 8017, 3.1).
    ExponentEven,
}

impl RsaKeyError {
    fn text(self) -> &'static str
        ensures { result.now ≡ key_error_text self }
    {
        match self {
            RsaKeyError::ModulusTooSmall => "the modulus has fewer than 2048 bits",
            RsaKeyError::ModulusTooLarge => "the modulus has more than 8192 bits",
            RsaKeyError::ModulusEven => "the modulus is even",
            RsaKeyError::ExponentTooLarge => "the exponent has more than 64 bits",
            RsaKeyError::ExponentTooSmall => "the exponent is less than 3",
            RsaKeyError::ExponentEven => "the exponent is even",
        }
    }
}

impl fmt::Display for RsaKeyError {
    ghost output = { λ error. Some (key_error_text error) };

    ghost styled_output = { λ error _. Some (key_error_text error) };

    fn fmt<W: fmt::Write>(&self, f: &mut fmt::Formatter<W>) -> fmt::Result {
        f.write_str(self.text())
    }
}

impl std::error::Error for RsaKeyError {}
