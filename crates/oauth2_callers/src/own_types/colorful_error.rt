//! Error codes that are an enum: the server uses these and no others.

ghost use Rattle.std.specs.Prelude.{Some};
ghost use Rattle.oauth2_callers.specs.own_types.ColorErrors.{
  color_error_text,
  color_error_reading,
  color_error_writing,
};
ghost use Rattle.oauth2_callers.specs.declared.own_types.colorful_error.ColorfulErrorResponseType.{
  ColorfulErrorResponseType,
};

use oauth2::{ErrorResponseType, FromJson, ParseCause, ReadError, ToJson, WriteError};
use serde_json::Value;
use std::alloc::Global;
use std::convert::AsStr;
use std::fmt;

/// An error code of the server. A reply with any other error code is refused.
#[derive(Clone, Copy, Debug, PartialEq, Eq, Drop)]
pub enum ColorfulErrorResponseType {
    TooDark,
    TooLight,
    WrongColorSpace,
}

impl AsStr for ColorfulErrorResponseType {
    ghost text = { color_error_text };

    fn as_str(&self) -> &str {
        match self {
            ColorfulErrorResponseType::TooDark => "too_dark",
            ColorfulErrorResponseType::TooLight => "too_light",
            ColorfulErrorResponseType::WrongColorSpace => "wrong_color_space",
        }
    }
}

impl FromJson for ColorfulErrorResponseType {
    ghost Meaning = { ColorfulErrorResponseType };

    ghost meaning = { λ error. error };

    ghost reading = { color_error_reading };

    fn from_json(alloc: Global, value: Value) -> Result<ColorfulErrorResponseType, ReadError> {
        let text = String::from_json(alloc, value)?;
        match text.as_str() {
            "too_dark" => Ok(ColorfulErrorResponseType::TooDark),
            "too_light" => Ok(ColorfulErrorResponseType::TooLight),
            "wrong_color_space" => Ok(ColorfulErrorResponseType::WrongColorSpace),
            _ => Err(ReadError::whole(alloc, ParseCause::Refused)),
        }
    }
}

impl ToJson for ColorfulErrorResponseType {
    ghost writing = { color_error_writing };

    fn to_json(&self, alloc: Global) -> Result<Value, WriteError> {
        Ok(Value::try_from_str(alloc, self.as_str())?)
    }
}

impl fmt::Display for ColorfulErrorResponseType {
    ghost output = { λ error. Some (color_error_text error) };

    fn fmt<W: fmt::Write>(&self, f: &mut fmt::Formatter<W>) -> fmt::Result {
        f.write_str(self.as_str())
    }
}

impl ErrorResponseType for ColorfulErrorResponseType {}
