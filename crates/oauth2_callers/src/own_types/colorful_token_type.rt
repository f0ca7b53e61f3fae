//! Token types that are colors.

ghost use Rattle.oauth2_callers.specs.own_types.Colors.{color_text, color_reading, color_writing};
ghost use Rattle.oauth2_callers.specs.declared.own_types.colorful_token_type.ColorfulTokenType.{
  ColorfulTokenType,
};

use oauth2::{FromJson, ParseCause, ReadError, ToJson, TokenType, TryClone, WriteError};
use serde_json::Value;
use std::alloc::{AllocError, Global};
use std::convert::AsStr;

/// A token type that is a color. A reply with any other token type is refused.
#[derive(Clone, Copy, Debug, PartialEq, Eq, Drop)]
pub enum ColorfulTokenType {
    Green,
    Red,
}

impl AsStr for ColorfulTokenType {
    ghost text = { color_text };

    fn as_str(&self) -> &str {
        match self {
            ColorfulTokenType::Green => "green",
            ColorfulTokenType::Red => "red",
        }
    }
}

impl FromJson for ColorfulTokenType {
    ghost Meaning = { ColorfulTokenType };

    ghost meaning = { λ color. color };

    ghost reading = { color_reading };

    fn from_json(alloc: Global, value: Value) -> Result<ColorfulTokenType, ReadError> {
        let text = String::from_json(alloc, value)?;
        match text.as_str() {
            "green" => Ok(ColorfulTokenType::Green),
            "red" => Ok(ColorfulTokenType::Red),
            _ => Err(ReadError::whole(alloc, ParseCause::Refused)),
        }
    }
}

impl ToJson for ColorfulTokenType {
    ghost writing = { color_writing };

    fn to_json(&self, alloc: Global) -> Result<Value, WriteError> {
        Ok(Value::try_from_str(alloc, self.as_str())?)
    }
}

impl TryClone for ColorfulTokenType {
    ghost Seen = { ColorfulTokenType };

    ghost seen = { λ color. color };

    fn try_clone(&self, _alloc: Global) -> Result<ColorfulTokenType, AllocError> {
        Ok(*self)
    }
}

impl TokenType for ColorfulTokenType {
    ghost use Rattle.std.proofs.Common.{ap};

    ghost copies_mean_alike = { λ a b same. same };

    ghost copies_are_written_alike = { λ a b same. ap color_writing same };
}
