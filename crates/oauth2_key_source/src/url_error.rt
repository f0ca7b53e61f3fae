//! Why a text is no URL of keys.

use std::fmt;

/// Why keys are not asked for at a text.
#[derive(Clone, Copy, Debug, PartialEq, Eq)]
pub enum KeySetUrlError {
    /// It is no URL.
    NotUrl,
    /// Its scheme is not `https`. With a loopback host `http` will do.
    NotHttps,
    /// Memory ran out.
    Memory,
}

impl fmt::Display for KeySetUrlError {
    ghost use Rattle.std.specs.Prelude.{Some};
    ghost use Rattle.oauth2_key_source.specs.ErrorTexts.{url_error_text};

    ghost output = { λ error. Some (url_error_text error) };

    ghost styled_output = { λ error _. Some (url_error_text error) };

    fn fmt<W: fmt::Write>(&self, f: &mut fmt::Formatter<W>) -> fmt::Result {
        f.write_str(match self {
            KeySetUrlError::NotUrl => "URL of the keys is not a URL",
            KeySetUrlError::NotHttps => "URL of the keys is not an https URL",
            KeySetUrlError::Memory => "Out of memory",
        })
    }
}

impl std::error::Error for KeySetUrlError {}
