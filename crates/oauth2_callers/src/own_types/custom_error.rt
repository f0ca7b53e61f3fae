//! A custom error response, in place of the standard's.

ghost use Rattle.std.specs.Prelude.{Some, ℕ, List};
ghost use Rattle.oauth2_callers.specs.own_types.CustomError.{
  custom_seen,
  custom_reading,
  custom_writing,
};

use oauth2::{ErrorResponse, FromJson, ReadError, ToJson, WriteError, members};
use serde_json::{Map, Value};
use std::alloc::Global;
use std::fmt;

/// An error response with one member, `custom_error`, which is a text.
#[derive(Debug, Drop)]
pub struct CustomErrorResponse {
    pub custom_error: String,
}

impl FromJson for CustomErrorResponse {
    ghost Meaning = { List ℕ };

    ghost meaning = { custom_seen };

    ghost reading = { custom_reading };

    fn from_json(alloc: Global, value: Value) -> Result<CustomErrorResponse, ReadError> {
        let mut members = members::of_object(alloc, value)?;
        let custom_error = members::take(&mut members, "custom_error");
        Ok(CustomErrorResponse {
            custom_error: members::needed(alloc, "custom_error", custom_error)?,
        })
    }
}

impl ToJson for CustomErrorResponse {
    ghost writing = { λ response. custom_writing (custom_seen response) };

    fn to_json(&self, alloc: Global) -> Result<Value, WriteError> {
        let mut members = Map::new(alloc);
        let custom_error = self.custom_error.to_json(alloc)?;
        members::put_some(&mut members, alloc, "custom_error", Some(custom_error))?;
        Ok(Value::Object(members))
    }
}

impl fmt::Display for CustomErrorResponse {
    ghost output = { λ response. Some (custom_seen response) };

    fn fmt<W: fmt::Write>(&self, f: &mut fmt::Formatter<W>) -> fmt::Result {
        f.write_str(self.custom_error.as_str())
    }
}

impl ErrorResponse for CustomErrorResponse {}
