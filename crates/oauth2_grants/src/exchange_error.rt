//! The codes of error responses to an exchange (RFC 8693, section 2.2.2).

ghost use Rattle.std.specs.Prelude.{◌≡◌, ℕ, List, Ok, Some, string_bytes};
ghost use Rattle.std.specs.Fmt.{DisplaysOnOk, WritesStyledOnOk};
ghost use Rattle.serde_json.specs.Data.{string};
ghost use Rattle.oauth2_grants.specs.ExchangeErrors.{ExchangeErrorCode, exchange_error_code};
ghost use Rattle.oauth2_grants.specs.ExchangeErrors.{exchange_error_code_of};
ghost use Rattle.oauth2_grants.specs.ExchangeErrors.{exchange_error_code_reading};
ghost use Rattle.oauth2_grants.specs.ExchangeErrors.{exchange_error_code_text};

use oauth2_codes::{BasicErrorResponseType, ErrorResponseType, StandardErrorResponse};
use oauth2_json::{FromJson, ReadError, ToJson, WriteError};
use oauth2_types::TryClone;
use serde_json::Value;
use std::alloc::{AllocError, Global};
use std::convert::AsStr;
use std::fmt;

/// The code of an error response to an exchange, written as its text.
#[derive(PartialEq, Eq, Drop)]
pub enum TokenExchangeErrorType {
    /// The server issues no token for one of the resources or audiences.
    InvalidTarget,
    /// A code of RFC 6749, section 5.2, or any other text.
    Basic(BasicErrorResponseType),
}

impl AsStr for TokenExchangeErrorType {
    ghost text = { λ e. exchange_error_code_text (exchange_error_code e) };

    fn as_str(&self) -> &str {
        match self {
            TokenExchangeErrorType::InvalidTarget => "invalid_target",
            TokenExchangeErrorType::Basic(error) => error.as_str(),
        }
    }
}

impl FromJson for TokenExchangeErrorType {
    ghost Meaning = { ExchangeErrorCode };

    ghost meaning = { exchange_error_code };

    ghost reading = { exchange_error_code_reading };

    fn from_json(alloc: Global, value: Value) -> Result<TokenExchangeErrorType, ReadError> {
        match value.as_str() {
            Some("invalid_target") => Ok(TokenExchangeErrorType::InvalidTarget),
            _ => Ok(TokenExchangeErrorType::Basic(BasicErrorResponseType::from_json(
                alloc, value,
            )?)),
        }
    }
}

impl ToJson for TokenExchangeErrorType {
    ghost writing = { λ e. Ok (string (exchange_error_code_text (exchange_error_code e))) };

    fn to_json(&self, alloc: Global) -> Result<Value, WriteError> {
        Ok(Value::try_from_str(alloc, self.as_str())?)
    }
}

impl TryClone for TokenExchangeErrorType {
    ghost Seen = { ExchangeErrorCode };

    ghost seen = { exchange_error_code };

    fn try_clone(&self, alloc: Global) -> Result<TokenExchangeErrorType, AllocError> {
        match self {
            TokenExchangeErrorType::InvalidTarget => Ok(TokenExchangeErrorType::InvalidTarget),
            TokenExchangeErrorType::Basic(error) => Ok(TokenExchangeErrorType::Basic(
                error.try_clone(alloc)?,
            )),
        }
    }
}

impl fmt::Display for TokenExchangeErrorType {
    ghost output = { λ e. Some (exchange_error_code_text (exchange_error_code e)) };

    ghost styled_output = { λ e _. Some (exchange_error_code_text (exchange_error_code e)) };

    fn fmt<W: fmt::Write>(&self, f: &mut fmt::Formatter<W>) -> fmt::Result {
        f.write_str(self.as_str())
    }
}

impl fmt::Debug for TokenExchangeErrorType {
    ghost debug_output = { λ e. Some (exchange_error_code_text (exchange_error_code e)) };

    fn fmt<W: fmt::Write>(&self, f: &mut fmt::Formatter<W>) -> fmt::Result
        ensures writes { DisplaysOnOk W.write_str_gives f.old result
            (Some (exchange_error_code_text (exchange_error_code self.now))) f.new }
        // The formatter's options, such as those of `{:#?}`, change nothing.
        ensures styled { WritesStyledOnOk W.write_str_gives f.old result
            (exchange_error_code_text (exchange_error_code self.now)) f.new }
    {
        fmt::Display::fmt(self, f)
    }
}

impl ErrorResponseType for TokenExchangeErrorType {}

/// An error response to an exchange (RFC 6749, section 5.2, with the code of RFC 8693).
pub type TokenExchangeErrorResponse = StandardErrorResponse<TokenExchangeErrorType>;

/// Writing what was read from a text returns that text (`text`).
pub fn exchange_error_laws()
    ensures text { (s : List ℕ) → exchange_error_code_text (exchange_error_code_of s) ≡ s }
{}
