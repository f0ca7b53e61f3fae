//! Why a signature is refused.

ghost use Rattle.std.specs.Prelude.{Some};
ghost use Rattle.oauth2_keys.specs.ErrorTexts.{signature_error_text};

use crate::key_error::KeyError;
use oauth2_types::display::write_display;
use std::fmt;

/// Why the signature of an ID token is refused.
#[derive(Clone, Copy, Debug, PartialEq, Eq, Drop)]
pub enum SignatureError {
    /// The token's algorithm is not the registered one.
    OtherAlgorithm,
    /// The token's header has the member `crit`, which names extensions that have to be understood.
    /// This crate understands none (RFC 7515, 4.1.11).
    CriticalExtension,
    /// No key of the set is for the token.
    NoKey,
    /// Several keys of the set are for the token, and it does not say which one signed it.
    AmbiguousKey,
    /// The key that the token names (`kid`) cannot be used.
    UnusableKey(KeyError),
    /// The client's secret is shorter than a digest of the algorithm (RFC 7518, 3.2).
    ShortSecret,
    /// The signature is not a signature of the token by the key or the secret.
    WrongSignature,
}

impl fmt::Display for SignatureError {
    ghost output = { λ error. Some (signature_error_text error) };

    ghost styled_output = { λ error _. Some (signature_error_text error) };

    fn fmt<W: fmt::Write>(&self, f: &mut fmt::Formatter<W>) -> fmt::Result {
        match self {
            SignatureError::OtherAlgorithm => {
                f.write_str("the algorithm is not the registered one")
            }
            SignatureError::CriticalExtension => f.write_str(
                "the header has an extension that has to be understood",
            ),
            SignatureError::NoKey => f.write_str("no key of the set is for the token"),
            SignatureError::AmbiguousKey => {
                f.write_str("several keys of the set are for the token")
            }
            SignatureError::UnusableKey(error) => write_display(
                f,
                format_args!("the key of the token is of no use: {error}"),
            ),
            SignatureError::ShortSecret => f.write_str("the secret is shorter than a digest"),
            SignatureError::WrongSignature => f.write_str("the signature is wrong"),
        }
    }
}

impl std::error::Error for SignatureError {}
