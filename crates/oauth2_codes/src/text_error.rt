//! Error codes that can be any text, for servers that define further codes.

ghost use Rattle.std.specs.Prelude.{◌≡◌, ℕ, List, Ok, Some, string_bytes};
ghost use Rattle.std.specs.Fmt.{DisplaysOnOk, WritesStyledOnOk};
ghost use Rattle.serde_json.specs.Data.{string};
ghost use Rattle.oauth2_json.specs.Values.{text};

use crate::error_traits::ErrorResponseType;
use oauth2_json::{FromJson, ReadError, ToJson, WriteError};
use oauth2_types::TryClone;
use serde_json::Value;
use std::alloc::{AllocError, Global};
use std::convert::AsStr;
use std::fmt;

/// An error code as the server wrote it; servers may define further codes (RFC 6749, section 8.5).
#[derive(PartialEq, Eq, Drop)]
pub struct TextErrorResponseType(pub String);

impl AsStr for TextErrorResponseType {
    ghost text = { λ e. string_bytes e.0 };

    fn as_str(&self) -> &str {
        self.0.as_str()
    }
}

impl FromJson for TextErrorResponseType {
    ghost Meaning = { List ℕ };

    ghost meaning = { λ e. string_bytes e.0 };

    ghost reading = { text };

    fn from_json(alloc: Global, value: Value) -> Result<TextErrorResponseType, ReadError> {
        Ok(TextErrorResponseType(String::from_json(alloc, value)?))
    }
}

impl ToJson for TextErrorResponseType {
    ghost writing = { λ e. Ok (string (string_bytes e.0)) };

    fn to_json(&self, alloc: Global) -> Result<Value, WriteError> {
        self.0.to_json(alloc)
    }
}

impl TryClone for TextErrorResponseType {
    ghost Seen = { List ℕ };

    ghost seen = { λ e. string_bytes e.0 };

    fn try_clone(&self, alloc: Global) -> Result<TextErrorResponseType, AllocError> {
        Ok(TextErrorResponseType(self.0.try_clone(alloc)?))
    }
}

impl fmt::Display for TextErrorResponseType {
    ghost output = { λ e. Some (string_bytes e.0) };

    ghost styled_output = { λ e _. Some (string_bytes e.0) };

    fn fmt<W: fmt::Write>(&self, f: &mut fmt::Formatter<W>) -> fmt::Result {
        f.write_str(self.as_str())
    }
}

impl fmt::Debug for TextErrorResponseType {
    ghost debug_output = { λ e. Some (string_bytes e.0) };

    fn fmt<W: fmt::Write>(&self, f: &mut fmt::Formatter<W>) -> fmt::Result
        ensures writes { DisplaysOnOk W.write_str_gives f.old result
            (Some (string_bytes self.now.0)) f.new }
        // The formatter's options, such as those of `{:#?}`, change nothing.
        ensures styled { WritesStyledOnOk W.write_str_gives f.old result
            (string_bytes self.now.0) f.new }
    {
        fmt::Display::fmt(self, f)
    }
}

impl ErrorResponseType for TextErrorResponseType {}

/// A code that is written as a JSON string reads back as the same code.
pub fn text_error_laws()
    ensures back { (s : List ℕ) → text (string s) ≡ Ok s }
{}
