//! Why a key is refused.

ghost use Rattle.std.specs.Prelude.{◌≡◌, Some};
ghost use Rattle.hmac_signatures.specs.ErrorTexts.{key_error_text};

use std::fmt;

/// Why a key is refused.
#[derive(Clone, Copy, Debug, PartialEq, Eq, Drop)]
pub enum HmacKeyError {
    /// The key is shorter than a digest of the hash function (RFC 7518, 3.2).
    TooShort,
}

impl HmacKeyError {
    fn text(self) -> &'static str
        ensures { result.now ≡ key_error_text self }
    {
        match self {
            HmacKeyError::TooShort => "the key is shorter than a digest",
        }
    }
}

impl fmt::Display for HmacKeyError {
    ghost output = { λ error. Some (key_error_text error) };

    ghost styled_output = { λ error _. Some (key_error_text error) };

    fn fmt<W: fmt::Write>(&self, f: &mut fmt::Formatter<W>) -> fmt::Result {
        f.write_str(self.text())
    }
}

impl std::error::Error for HmacKeyError {}
