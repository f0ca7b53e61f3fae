//! Extra fields that are a struct: an optional shape and a height.

ghost use Rattle.oauth2_json.specs.Reading.{ReadsAs};
ghost use Rattle.oauth2_callers.specs.own_types.Fields.{
  Fields,
  fields_seen,
  fields_members,
  fields_reading,
  fields_writing,
  height_of,
};

use oauth2::{
    ExtraDeviceAuthorizationFields, ExtraTokenFields, FromJson, ParseCause, ReadError, ToJson,
    WriteError, members,
};
use serde_json::{Map, Value};
use std::alloc::Global;

/// The extra fields of a response: the members `shape`, which may be absent, and `height`.
#[derive(Debug, Drop)]
pub struct ColorfulFields {
    pub shape: Option<String>,
    pub height: u32,
}

fn height_of(alloc: Global, height: u64) -> Result<u32, ReadError>
    ensures { ReadsAs (λ height. height) result (height_of height) }
{
    if height <= 4_294_967_295 {
        Ok(height as u32)
    } else {
        Err(ReadError::at(alloc, "height", ParseCause::OutOfRange))
    }
}

impl FromJson for ColorfulFields {
    ghost Meaning = { Fields };

    ghost meaning = { fields_seen };

    ghost reading = { fields_reading };

    #[tactic(auto, using(oauth2_json::proofs::Objects::member_facts))]
    fn from_json(alloc: Global, value: Value) -> Result<ColorfulFields, ReadError> {
        let mut members = members::of_object(alloc, value)?;
        let shape = members::take(&mut members, "shape");
        let height = members::take(&mut members, "height");
        let shape = members::optional(alloc, "shape", shape)?;
        let height = members::needed_number(alloc, "height", height)?;
        Ok(ColorfulFields {
            shape,
            height: height_of(alloc, height)?,
        })
    }
}

impl ToJson for ColorfulFields {
    ghost writing = { λ fields. fields_writing (fields_seen fields) };

    fn to_json(&self, alloc: Global) -> Result<Value, WriteError> {
        let mut members = Map::new(alloc);
        let height = members::number_value(Some(self.height as u64));
        members::put_some(&mut members, alloc, "height", height)?;
        let shape = members::text_value(alloc, &self.shape)?;
        members::put_some(&mut members, alloc, "shape", shape)?;
        Ok(Value::Object(members))
    }
}

impl ExtraTokenFields for ColorfulFields {
    ghost writes_object = { λ fields d h. (fields_members (fields_seen fields), Prim.cc) };
}

impl ExtraDeviceAuthorizationFields for ColorfulFields {
    ghost writes_object = { λ fields d h. (fields_members (fields_seen fields), Prim.cc) };
}
