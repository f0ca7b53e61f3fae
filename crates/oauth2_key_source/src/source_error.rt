//! Why a source of keys hands out none.

use crate::key_set_error::KeySetError;
use jiff::Timestamp;
use oauth2_codes::BasicErrorResponse;
use oauth2_types::display::write_display;
use std::fmt;

/// Why a source has no keys to use.
#[derive(Debug, Drop)]
pub enum KeySourceError<RE, T = BasicErrorResponse> {
    /// The error of the request for a key set. An older set is still kept.
    Request(KeySetError<RE, T>),
    /// No request is made before this moment, which is `None` if it is out of the range of
    /// `Timestamp`.
    Waits(Option<Timestamp>),
}

impl<RE, T: fmt::Display> fmt::Display for KeySourceError<RE, T> {
    ghost use Rattle.oauth2_key_source.specs.ErrorTexts.{source_error_text};

    ghost output = { source_error_text T.output };

    ghost styled_output = { λ error _. source_error_text T.output error };

    fn fmt<W: fmt::Write>(&self, f: &mut fmt::Formatter<W>) -> fmt::Result {
        match self {
            KeySourceError::Request(error) => write_display(f, error),
            KeySourceError::Waits(_) => {
                f.write_str("no keys to use, and none are asked for yet")
            }
        }
    }
}

impl<RE, T> std::error::Error for KeySourceError<RE, T>
where
    RE: fmt::Debug + Drop,
    T: fmt::Debug + fmt::Display + Drop,
{}
