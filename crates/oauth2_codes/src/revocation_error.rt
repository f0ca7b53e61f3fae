//! The codes of error responses to a revocation (RFC 7009, section 2.2.1).

ghost use Rattle.std.specs.Prelude.{◌≡◌, ℕ, List, Ok, Some, string_bytes};
ghost use Rattle.std.specs.Fmt.{DisplaysOnOk, WritesStyledOnOk};
ghost use Rattle.serde_json.specs.Data.{string};
ghost use Rattle.oauth2_codes.specs.ErrorCodes.{RevocationErrorCode, revocation_error_code};
ghost use Rattle.oauth2_codes.specs.ErrorCodes.{revocation_error_code_of};
ghost use Rattle.oauth2_codes.specs.ErrorCodes.{revocation_error_code_text};
ghost use Rattle.oauth2_codes.specs.ErrorCodes.{revocation_error_code_reading};
ghost use Rattle.oauth2_codes.specs.ErrorCodes.{revocation_error_canonical};

use crate::basic_error::BasicErrorResponseType;
use crate::error_traits::ErrorResponseType;
use oauth2_json::{FromJson, ReadError, ToJson, WriteError};
use oauth2_types::TryClone;
use serde_json::Value;
use std::alloc::{AllocError, Global};
use std::convert::AsStr;
use std::fmt;

/// The code of a revocation endpoint's error, written as its text.
#[derive(PartialEq, Eq, Drop)]
pub enum RevocationErrorResponseType {
    /// The server does not revoke tokens of this type.
    UnsupportedTokenType,
    /// A code of RFC 6749, section 5.2, or any other text.
    Basic(BasicErrorResponseType),
}

impl RevocationErrorResponseType {
    // The variant that the text names. Case matters.
    fn from_text(text: String) -> RevocationErrorResponseType
        ensures { revocation_error_code result ≡ revocation_error_code_of (string_bytes text) }
    {
        match text.as_str() {
            "unsupported_token_type" => RevocationErrorResponseType::UnsupportedTokenType,
            _ => RevocationErrorResponseType::Basic(BasicErrorResponseType::from_text(text)),
        }
    }
}

impl AsStr for RevocationErrorResponseType {
    ghost text = { λ e. revocation_error_code_text (revocation_error_code e) };

    fn as_str(&self) -> &str {
        match self {
            RevocationErrorResponseType::UnsupportedTokenType => "unsupported_token_type",
            RevocationErrorResponseType::Basic(error) => error.as_str(),
        }
    }
}

impl FromJson for RevocationErrorResponseType {
    ghost Meaning = { RevocationErrorCode };

    ghost meaning = { revocation_error_code };

    ghost reading = { revocation_error_code_reading };

    fn from_json(alloc: Global, value: Value) -> Result<RevocationErrorResponseType, ReadError> {
        Ok(RevocationErrorResponseType::from_text(String::from_json(alloc, value)?))
    }
}

impl ToJson for RevocationErrorResponseType {
    ghost writing = { λ e. Ok (string (revocation_error_code_text (revocation_error_code e))) };

    fn to_json(&self, alloc: Global) -> Result<Value, WriteError> {
        Ok(Value::try_from_str(alloc, self.as_str())?)
    }
}

impl TryClone for RevocationErrorResponseType {
    ghost Seen = { RevocationErrorCode };

    ghost seen = { revocation_error_code };

    fn try_clone(&self, alloc: Global) -> Result<RevocationErrorResponseType, AllocError> {
        match self {
            RevocationErrorResponseType::UnsupportedTokenType => Ok(
                RevocationErrorResponseType::UnsupportedTokenType,
            ),
            RevocationErrorResponseType::Basic(error) => Ok(RevocationErrorResponseType::Basic(
                error.try_clone(alloc)?,
            )),
        }
    }
}

impl fmt::Display for RevocationErrorResponseType {
    ghost output = { λ e. Some (revocation_error_code_text (revocation_error_code e)) };

    ghost styled_output = { λ e _. Some (revocation_error_code_text (revocation_error_code e)) };

    fn fmt<W: fmt::Write>(&self, f: &mut fmt::Formatter<W>) -> fmt::Result {
        f.write_str(self.as_str())
    }
}

impl fmt::Debug for RevocationErrorResponseType {
    ghost debug_output = { λ e. Some (revocation_error_code_text (revocation_error_code e)) };

    fn fmt<W: fmt::Write>(&self, f: &mut fmt::Formatter<W>) -> fmt::Result
        ensures writes { DisplaysOnOk W.write_str_gives f.old result
            (Some (revocation_error_code_text (revocation_error_code self.now))) f.new }
        // The formatter's options, such as those of `{:#?}`, change nothing.
        ensures styled { WritesStyledOnOk W.write_str_gives f.old result
            (revocation_error_code_text (revocation_error_code self.now)) f.new }
    {
        fmt::Display::fmt(self, f)
    }
}

impl ErrorResponseType for RevocationErrorResponseType {}

/// Writing what was read from a text returns that text (`text`). What is written of a variant reads
/// back as the variant that its text names (`back`), which reads back as itself (`once`).
pub fn revocation_error_laws()
    ensures text { (s : List ℕ) → revocation_error_code_text (revocation_error_code_of s) ≡ s }
    ensures back { (c : RevocationErrorCode)
        → revocation_error_code_reading (string (revocation_error_code_text c))
        ≡ Ok (revocation_error_canonical c) }
    ensures once { (c : RevocationErrorCode)
        → revocation_error_canonical (revocation_error_canonical c)
        ≡ revocation_error_canonical c }
{}
