//! Why a token is not verified.

use crate::source_error::KeySourceError;
use oauth2_codes::BasicErrorResponse;
use oauth2_keys::SignatureError;
use oauth2_types::display::write_display;
use std::fmt;

/// Why a token is not verified by the keys of a source.
#[derive(Debug, Drop)]
pub enum VerifyError<RE, T = BasicErrorResponse> {
    /// There are no keys to verify it by.
    Keys(KeySourceError<RE, T>),
    /// By the keys that the source keeps its signature is refused.
    Signature(SignatureError),
}

impl<RE, T: fmt::Display> fmt::Display for VerifyError<RE, T> {
    ghost use Rattle.oauth2_key_source.specs.ErrorTexts.{verify_error_text};

    ghost output = { verify_error_text T.output };

    ghost styled_output = { λ error _. verify_error_text T.output error };

    fn fmt<W: fmt::Write>(&self, f: &mut fmt::Formatter<W>) -> fmt::Result {
        match self {
            VerifyError::Keys(error) => write_display(f, error),
            VerifyError::Signature(error) => write_display(f, error),
        }
    }
}

impl<RE, T> std::error::Error for VerifyError<RE, T>
where
    RE: fmt::Debug + Drop,
    T: fmt::Debug + fmt::Display + Drop,
{}
