//! The codes of error responses while a device polls (RFC 8628, section 3.5).

ghost use Rattle.std.specs.Prelude.{◌≡◌, ℕ, List, Ok, Some, string_bytes};
ghost use Rattle.std.specs.Fmt.{DisplaysOnOk, WritesStyledOnOk};
ghost use Rattle.serde_json.specs.Data.{string};
ghost use Rattle.oauth2_codes.specs.ErrorCodes.{DeviceErrorCode, device_error_code};
ghost use Rattle.oauth2_codes.specs.ErrorCodes.{device_error_code_of, device_error_code_text};
ghost use Rattle.oauth2_codes.specs.ErrorCodes.{device_error_code_reading, device_error_canonical};

use crate::basic_error::BasicErrorResponseType;
use crate::error_traits::ErrorResponseType;
use oauth2_json::{FromJson, ReadError, ToJson, WriteError};
use oauth2_types::TryClone;
use serde_json::Value;
use std::alloc::{AllocError, Global};
use std::convert::AsStr;
use std::fmt;

/// The code of an error while a device polls, written as its text.
#[derive(PartialEq, Eq, Drop)]
pub enum DeviceCodeErrorResponseType {
    /// The user has not decided yet; the poll goes on.
    AuthorizationPending,
    /// The user has not decided yet; the poll goes on, and from now on waits five seconds longer
    /// between two requests.
    SlowDown,
    /// The user refused.
    AccessDenied,
    /// The device code has expired.
    ExpiredToken,
    /// A code of RFC 6749, section 5.2, or any other text.
    Basic(BasicErrorResponseType),
}

impl DeviceCodeErrorResponseType {
    // The variant that the text names. Case matters.
    fn from_text(text: String) -> DeviceCodeErrorResponseType
        ensures { device_error_code result ≡ device_error_code_of (string_bytes text) }
    {
        match text.as_str() {
            "authorization_pending" => DeviceCodeErrorResponseType::AuthorizationPending,
            "slow_down" => DeviceCodeErrorResponseType::SlowDown,
            "access_denied" => DeviceCodeErrorResponseType::AccessDenied,
            "expired_token" => DeviceCodeErrorResponseType::ExpiredToken,
            _ => DeviceCodeErrorResponseType::Basic(BasicErrorResponseType::from_text(text)),
        }
    }
}

impl AsStr for DeviceCodeErrorResponseType {
    ghost text = { λ e. device_error_code_text (device_error_code e) };

    fn as_str(&self) -> &str {
        match self {
            DeviceCodeErrorResponseType::AuthorizationPending => "authorization_pending",
            DeviceCodeErrorResponseType::SlowDown => "slow_down",
            DeviceCodeErrorResponseType::AccessDenied => "access_denied",
            DeviceCodeErrorResponseType::ExpiredToken => "expired_token",
            DeviceCodeErrorResponseType::Basic(error) => error.as_str(),
        }
    }
}

impl FromJson for DeviceCodeErrorResponseType {
    ghost Meaning = { DeviceErrorCode };

    ghost meaning = { device_error_code };

    ghost reading = { device_error_code_reading };

    fn from_json(alloc: Global, value: Value) -> Result<DeviceCodeErrorResponseType, ReadError> {
        Ok(DeviceCodeErrorResponseType::from_text(String::from_json(alloc, value)?))
    }
}

impl ToJson for DeviceCodeErrorResponseType {
    ghost writing = { λ e. Ok (string (device_error_code_text (device_error_code e))) };

    fn to_json(&self, alloc: Global) -> Result<Value, WriteError> {
        Ok(Value::try_from_str(alloc, self.as_str())?)
    }
}

impl TryClone for DeviceCodeErrorResponseType {
    ghost Seen = { DeviceErrorCode };

    ghost seen = { device_error_code };

    fn try_clone(&self, alloc: Global) -> Result<DeviceCodeErrorResponseType, AllocError> {
        match self {
            DeviceCodeErrorResponseType::AuthorizationPending => Ok(
                DeviceCodeErrorResponseType::AuthorizationPending,
            ),
            DeviceCodeErrorResponseType::SlowDown => Ok(DeviceCodeErrorResponseType::SlowDown),
            DeviceCodeErrorResponseType::AccessDenied => Ok(
                DeviceCodeErrorResponseType::AccessDenied,
            ),
            DeviceCodeErrorResponseType::ExpiredToken => Ok(
                DeviceCodeErrorResponseType::ExpiredToken,
            ),
            DeviceCodeErrorResponseType::Basic(error) => Ok(DeviceCodeErrorResponseType::Basic(
                error.try_clone(alloc)?,
            )),
        }
    }
}

impl fmt::Display for DeviceCodeErrorResponseType {
    ghost output = { λ e. Some (device_error_code_text (device_error_code e)) };

    ghost styled_output = { λ e _. Some (device_error_code_text (device_error_code e)) };

    fn fmt<W: fmt::Write>(&self, f: &mut fmt::Formatter<W>) -> fmt::Result {
        f.write_str(self.as_str())
    }
}

impl fmt::Debug for DeviceCodeErrorResponseType {
    ghost debug_output = { λ e. Some (device_error_code_text (device_error_code e)) };

    fn fmt<W: fmt::Write>(&self, f: &mut fmt::Formatter<W>) -> fmt::Result
        ensures writes { DisplaysOnOk W.write_str_gives f.old result
            (Some (device_error_code_text (device_error_code self.now))) f.new }
        // The formatter's options, such as those of `{:#?}`, change nothing.
        ensures styled { WritesStyledOnOk W.write_str_gives f.old result
            (device_error_code_text (device_error_code self.now)) f.new }
    {
        fmt::Display::fmt(self, f)
    }
}

impl ErrorResponseType for DeviceCodeErrorResponseType {}

/// Writing what was read from a text returns that text (`text`). What is written of a variant reads
/// back as the variant that its text names (`back`), which reads back as itself (`once`).
pub fn device_code_error_laws()
    ensures text { (s : List ℕ) → device_error_code_text (device_error_code_of s) ≡ s }
    ensures back { (c : DeviceErrorCode)
        → device_error_code_reading (string (device_error_code_text c))
        ≡ Ok (device_error_canonical c) }
    ensures once { (c : DeviceErrorCode)
        → device_error_canonical (device_error_canonical c) ≡ device_error_canonical c }
{}
