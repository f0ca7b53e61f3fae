//! The codes of error responses (RFC 6749, section 5.2).

ghost use Rattle.std.specs.Prelude.{◌≡◌, ℕ, List, Ok, Some, string_bytes};
ghost use Rattle.std.specs.Fmt.{DisplaysOnOk, WritesStyledOnOk};
ghost use Rattle.serde_json.specs.Data.{string};
ghost use Rattle.oauth2_codes.specs.ErrorCodes.{ErrorCode, error_code, error_code_of};
ghost use Rattle.oauth2_codes.specs.ErrorCodes.{error_code_text, error_code_reading};
ghost use Rattle.oauth2_codes.specs.ErrorCodes.{error_canonical};

use crate::error_traits::ErrorResponseType;
use oauth2_json::{FromJson, ReadError, ToJson, WriteError};
use oauth2_types::TryClone;
use serde_json::Value;
use std::alloc::{AllocError, Global};
use std::convert::AsStr;
use std::fmt;

/// The code of a token endpoint's error, written as its text.
#[derive(PartialEq, Eq, Drop)]
pub enum BasicErrorResponseType {
    /// The client's authentication failed.
    InvalidClient,
    /// The grant or the refresh token is invalid, expired, revoked or another client's.
    InvalidGrant,
    /// A parameter is missing, repeated or malformed.
    InvalidRequest,
    /// The scope is invalid, unknown or wider than was granted.
    InvalidScope,
    /// This client may not use this grant.
    UnauthorizedClient,
    /// The server does not know this grant.
    UnsupportedGrantType,
    /// Any other code, with its text.
    Extension(String),
}

impl BasicErrorResponseType {
    // The variant that the text names. Case matters.
    pub(crate) fn from_text(text: String) -> BasicErrorResponseType
        ensures { error_code result ≡ error_code_of (string_bytes text) }
    {
        match text.as_str() {
            "invalid_client" => BasicErrorResponseType::InvalidClient,
            "invalid_grant" => BasicErrorResponseType::InvalidGrant,
            "invalid_request" => BasicErrorResponseType::InvalidRequest,
            "invalid_scope" => BasicErrorResponseType::InvalidScope,
            "unauthorized_client" => BasicErrorResponseType::UnauthorizedClient,
            "unsupported_grant_type" => BasicErrorResponseType::UnsupportedGrantType,
            _ => BasicErrorResponseType::Extension(text),
        }
    }
}

impl AsStr for BasicErrorResponseType {
    ghost text = { λ e. error_code_text (error_code e) };

    fn as_str(&self) -> &str {
        match self {
            BasicErrorResponseType::InvalidClient => "invalid_client",
            BasicErrorResponseType::InvalidGrant => "invalid_grant",
            BasicErrorResponseType::InvalidRequest => "invalid_request",
            BasicErrorResponseType::InvalidScope => "invalid_scope",
            BasicErrorResponseType::UnauthorizedClient => "unauthorized_client",
            BasicErrorResponseType::UnsupportedGrantType => "unsupported_grant_type",
            BasicErrorResponseType::Extension(text) => text.as_str(),
        }
    }
}

impl FromJson for BasicErrorResponseType {
    ghost Meaning = { ErrorCode };

    ghost meaning = { error_code };

    ghost reading = { error_code_reading };

    fn from_json(alloc: Global, value: Value) -> Result<BasicErrorResponseType, ReadError> {
        Ok(BasicErrorResponseType::from_text(String::from_json(alloc, value)?))
    }
}

impl ToJson for BasicErrorResponseType {
    ghost writing = { λ e. Ok (string (error_code_text (error_code e))) };

    fn to_json(&self, alloc: Global) -> Result<Value, WriteError> {
        Ok(Value::try_from_str(alloc, self.as_str())?)
    }
}

impl TryClone for BasicErrorResponseType {
    ghost Seen = { ErrorCode };

    ghost seen = { error_code };

    fn try_clone(&self, alloc: Global) -> Result<BasicErrorResponseType, AllocError> {
        match self {
            BasicErrorResponseType::InvalidClient => Ok(BasicErrorResponseType::InvalidClient),
            BasicErrorResponseType::InvalidGrant => Ok(BasicErrorResponseType::InvalidGrant),
            BasicErrorResponseType::InvalidRequest => Ok(BasicErrorResponseType::InvalidRequest),
            BasicErrorResponseType::InvalidScope => Ok(BasicErrorResponseType::InvalidScope),
            BasicErrorResponseType::UnauthorizedClient => Ok(
                BasicErrorResponseType::UnauthorizedClient,
            ),
            BasicErrorResponseType::UnsupportedGrantType => Ok(
                BasicErrorResponseType::UnsupportedGrantType,
            ),
            BasicErrorResponseType::Extension(text) => Ok(BasicErrorResponseType::Extension(
                text.try_clone(alloc)?,
            )),
        }
    }
}

impl fmt::Display for BasicErrorResponseType {
    ghost output = { λ e. Some (error_code_text (error_code e)) };

    ghost styled_output = { λ e _. Some (error_code_text (error_code e)) };

    fn fmt<W: fmt::Write>(&self, f: &mut fmt::Formatter<W>) -> fmt::Result {
        f.write_str(self.as_str())
    }
}

impl fmt::Debug for BasicErrorResponseType {
    ghost debug_output = { λ e. Some (error_code_text (error_code e)) };

    fn fmt<W: fmt::Write>(&self, f: &mut fmt::Formatter<W>) -> fmt::Result
        ensures writes { DisplaysOnOk W.write_str_gives f.old result
            (Some (error_code_text (error_code self.now))) f.new }
        // The formatter's options, such as those of `{:#?}`, change nothing.
        ensures styled { WritesStyledOnOk W.write_str_gives f.old result
            (error_code_text (error_code self.now)) f.new }
    {
        fmt::Display::fmt(self, f)
    }
}

impl ErrorResponseType for BasicErrorResponseType {}

/// Writing what was read from a text returns that text (`text`). What is written of a variant reads
/// back as the variant that its text names (`back`), which reads back as itself (`once`).
pub fn basic_error_laws()
    ensures text { (s : List ℕ) → error_code_text (error_code_of s) ≡ s }
    ensures back { (c : ErrorCode)
        → error_code_reading (string (error_code_text c)) ≡ Ok (error_canonical c) }
    ensures once { (c : ErrorCode)
        → error_canonical (error_canonical c) ≡ error_canonical c }
{}
