//! The codes of the authorization endpoint's errors (RFC 6749, section 4.1.2.1).

ghost use Rattle.std.specs.Prelude.{◌≡◌, ℕ, List, Ok, Some, string_bytes};
ghost use Rattle.serde_json.specs.Data.{string};
ghost use Rattle.std.specs.Fmt.{DisplaysOnOk, WritesStyledOnOk};
ghost use Rattle.oauth2_codes.specs.AuthorizationCodes.{AuthorizationErrorCode};
ghost use Rattle.oauth2_codes.specs.AuthorizationCodes.{authorization_error_code};
ghost use Rattle.oauth2_codes.specs.AuthorizationCodes.{authorization_error_code_of};
ghost use Rattle.oauth2_codes.specs.AuthorizationCodes.{authorization_error_code_text};
ghost use Rattle.oauth2_codes.specs.AuthorizationCodes.{authorization_error_code_reading};
ghost use Rattle.oauth2_codes.specs.AuthorizationCodes.{authorization_error_canonical};

use crate::error_traits::ErrorResponseType;
use oauth2_json::{FromJson, ReadError, ToJson, WriteError};
use oauth2_types::TryClone;
use serde_json::Value;
use std::alloc::{AllocError, Global};
use std::convert::AsStr;
use std::fmt;

/// The code of an authorization endpoint's error, written as its text.
#[derive(PartialEq, Eq, Drop)]
pub enum AuthorizationErrorResponseType {
    /// The resource owner or the server denied the request.
    AccessDenied,
    /// A parameter is missing, repeated or malformed.
    InvalidRequest,
    /// The scope is invalid, unknown or malformed.
    InvalidScope,
    /// The server met an unexpected condition.
    ServerError,
    /// The server is overloaded or under maintenance.
    TemporarilyUnavailable,
    /// This client may not request an authorization code by this method.
    UnauthorizedClient,
    /// The server does not issue an authorization code by this method.
    UnsupportedResponseType,
    /// Any other code, with its text.
    Extension(String),
}

impl AuthorizationErrorResponseType {
    /// The variant that the text names. Case matters; any other text becomes an `Extension`.
    pub fn from_text(text: String) -> AuthorizationErrorResponseType
        ensures { authorization_error_code result
            ≡ authorization_error_code_of (string_bytes text) }
    {
        match text.as_str() {
            "access_denied" => AuthorizationErrorResponseType::AccessDenied,
            "invalid_request" => AuthorizationErrorResponseType::InvalidRequest,
            "invalid_scope" => AuthorizationErrorResponseType::InvalidScope,
            "server_error" => AuthorizationErrorResponseType::ServerError,
            "temporarily_unavailable" => AuthorizationErrorResponseType::TemporarilyUnavailable,
            "unauthorized_client" => AuthorizationErrorResponseType::UnauthorizedClient,
            "unsupported_response_type" => AuthorizationErrorResponseType::UnsupportedResponseType,
            _ => AuthorizationErrorResponseType::Extension(text),
        }
    }
}

impl AsStr for AuthorizationErrorResponseType {
    ghost text = { λ e. authorization_error_code_text (authorization_error_code e) };

    fn as_str(&self) -> &str {
        match self {
            AuthorizationErrorResponseType::AccessDenied => "access_denied",
            AuthorizationErrorResponseType::InvalidRequest => "invalid_request",
            AuthorizationErrorResponseType::InvalidScope => "invalid_scope",
            AuthorizationErrorResponseType::ServerError => "server_error",
            AuthorizationErrorResponseType::TemporarilyUnavailable => "temporarily_unavailable",
            AuthorizationErrorResponseType::UnauthorizedClient => "unauthorized_client",
            AuthorizationErrorResponseType::UnsupportedResponseType => "unsupported_response_type",
            AuthorizationErrorResponseType::Extension(text) => text.as_str(),
        }
    }
}

impl FromJson for AuthorizationErrorResponseType {
    ghost Meaning = { AuthorizationErrorCode };

    ghost meaning = { authorization_error_code };

    ghost reading = { authorization_error_code_reading };

    fn from_json(alloc: Global, value: Value) -> Result<AuthorizationErrorResponseType, ReadError> {
        Ok(AuthorizationErrorResponseType::from_text(String::from_json(alloc, value)?))
    }
}

impl ToJson for AuthorizationErrorResponseType {
    ghost writing = { λ e. Ok (string (authorization_error_code_text (authorization_error_code e))) };

    fn to_json(&self, alloc: Global) -> Result<Value, WriteError> {
        Ok(Value::try_from_str(alloc, self.as_str())?)
    }
}

impl TryClone for AuthorizationErrorResponseType {
    ghost Seen = { AuthorizationErrorCode };

    ghost seen = { authorization_error_code };

    fn try_clone(&self, alloc: Global) -> Result<AuthorizationErrorResponseType, AllocError> {
        match self {
            AuthorizationErrorResponseType::AccessDenied => Ok(
                AuthorizationErrorResponseType::AccessDenied,
            ),
            AuthorizationErrorResponseType::InvalidRequest => Ok(
                AuthorizationErrorResponseType::InvalidRequest,
            ),
            AuthorizationErrorResponseType::InvalidScope => Ok(
                AuthorizationErrorResponseType::InvalidScope,
            ),
            AuthorizationErrorResponseType::ServerError => Ok(
                AuthorizationErrorResponseType::ServerError,
            ),
            AuthorizationErrorResponseType::TemporarilyUnavailable => Ok(
                AuthorizationErrorResponseType::TemporarilyUnavailable,
            ),
            AuthorizationErrorResponseType::UnauthorizedClient => Ok(
                AuthorizationErrorResponseType::UnauthorizedClient,
            ),
            AuthorizationErrorResponseType::UnsupportedResponseType => Ok(
                AuthorizationErrorResponseType::UnsupportedResponseType,
            ),
            AuthorizationErrorResponseType::Extension(text) => Ok(
                AuthorizationErrorResponseType::Extension(text.try_clone(alloc)?),
            ),
        }
    }
}

impl fmt::Display for AuthorizationErrorResponseType {
    ghost output = { λ e. Some (authorization_error_code_text (authorization_error_code e)) };

    ghost styled_output = { λ e _. Some (authorization_error_code_text (authorization_error_code e)) };

    fn fmt<W: fmt::Write>(&self, f: &mut fmt::Formatter<W>) -> fmt::Result {
        f.write_str(self.as_str())
    }
}

impl fmt::Debug for AuthorizationErrorResponseType {
    ghost debug_output = { λ e. Some (authorization_error_code_text (authorization_error_code e)) };

    fn fmt<W: fmt::Write>(&self, f: &mut fmt::Formatter<W>) -> fmt::Result
        ensures writes { DisplaysOnOk W.write_str_gives f.old result
            (Some (authorization_error_code_text (authorization_error_code self.now))) f.new }
        // The formatter's options, such as those of `{:#?}`, change nothing.
        ensures styled { WritesStyledOnOk W.write_str_gives f.old result
            (authorization_error_code_text (authorization_error_code self.now)) f.new }
    {
        fmt::Display::fmt(self, f)
    }
}

impl ErrorResponseType for AuthorizationErrorResponseType {}

/// Writing what was read from a text returns that text (`text`). What is written of a variant reads
/// back as the variant that its text names (`back`), which reads back as itself (`once`).
pub fn authorization_error_laws()
    ensures text { (s : List ℕ)
        → authorization_error_code_text (authorization_error_code_of s) ≡ s }
    ensures back { (c : AuthorizationErrorCode)
        → authorization_error_code_reading (string (authorization_error_code_text c))
        ≡ Ok (authorization_error_canonical c) }
    ensures once { (c : AuthorizationErrorCode)
        → authorization_error_canonical (authorization_error_canonical c)
        ≡ authorization_error_canonical c }
{}
