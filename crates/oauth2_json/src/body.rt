//! Whole bodies of JSON.

ghost use Rattle.std.specs.Prelude.{◌≡◌, ◌≤◌, Ok, Some, false, IfOk, IfErr, string_bytes};
ghost use Rattle.serde_json.specs.Data.{Data, depth};
ghost use Rattle.serde_json.specs.Read.{read, max_depth};
ghost use Rattle.serde_json.specs.Written.{has_float, compact_text};
ghost use Rattle.oauth2_json.specs.Body.{body_reading};
ghost use Rattle.oauth2_json.specs.Reading.{ReadsAs};
ghost use Rattle.oauth2_json.specs.Writing.{RefusesAs};

use crate::read::{FromJson, ReadError};
use crate::write::{ToJson, WriteError};
use std::alloc::Global;

/// Reads a body that is one JSON value in UTF-8.
pub fn read_body<T: FromJson>(alloc: Global, bytes: &[u8]) -> Result<T, ReadError>
    ensures { ReadsAs T.meaning result (body_reading T.reading bytes.now) }
{
    T::from_body(alloc, bytes)
}

/// Writes a value as a compact JSON text.
pub fn compact<T: ToJson>(alloc: Global, value: &T) -> Result<String, WriteError>
    ensures text { IfOk result (λ s. (d : Data) × (T.writing value.now ≡ Ok d)
        × (has_float d ≡ false → string_bytes s ≡ compact_text d)
        × (depth d ≤ max_depth → read (string_bytes s) ≡ Some d)) }
    ensures refused { IfErr result (λ e. RefusesAs e (T.writing value.now)) }
{
    let json = value.to_json(alloc)?;
    Ok(json.to_string(alloc)?)
}
