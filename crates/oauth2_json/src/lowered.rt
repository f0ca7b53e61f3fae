//! Texts whose ASCII letters are lowered before they are read.

ghost use Rattle.std.specs.Prelude.{option_map};
ghost use Rattle.serde_json.specs.View.{view};
ghost use Rattle.oauth2_json.specs.Reading.{ReadsAs};
ghost use Rattle.oauth2_json.specs.Members.{needed_member, present_member};
ghost use Rattle.oauth2_json.specs.Values.{lowercase_reading};

use crate::member_readers;
use crate::read::{FromJson, ReadError};
use serde_json::Value;
use std::alloc::Global;

// A text whose ASCII letters are lowered before `T` reads it.
#[derive(Drop)]
pub(crate) struct Lowered<T>(pub(crate) T);

impl<T: FromJson> FromJson for Lowered<T> {
    ghost Meaning = { T.Meaning };

    ghost meaning = { λ t. T.meaning t.0 };

    ghost reading = { lowercase_reading T.reading };

    fn from_json(alloc: Global, value: Value) -> Result<Lowered<T>, ReadError> {
        let mut text = String::from_json(alloc, value)?;
        text.make_ascii_lowercase();
        Ok(Lowered(T::from_json(alloc, Value::String(text))?))
    }
}

/// Reads a required string after its ASCII letters are lowered.
pub fn needed_lowered<T: FromJson>(
    alloc: Global,
    name: &str,
    found: Option<Value>,
) -> Result<T, ReadError>
    ensures { ReadsAs T.meaning result
        (needed_member (lowercase_reading T.reading) name.now (option_map view found)) }
{
    let Lowered(read) = member_readers::needed::<Lowered<T>>(alloc, name, found)?;
    Ok(read)
}

/// Reads a string that may be absent, but not null, after its ASCII letters are lowered.
pub fn present_lowered<T: FromJson>(
    alloc: Global,
    name: &str,
    found: Option<Value>,
) -> Result<Option<T>, ReadError>
    ensures { ReadsAs (option_map T.meaning) result
        (present_member (lowercase_reading T.reading) name.now (option_map view found)) }
{
    match member_readers::present::<Lowered<T>>(alloc, name, found)? {
        Some(Lowered(read)) => Ok(Some(read)),
        None => Ok(None),
    }
}
