//! Helpers that write an object: the type's own members, and the extra members next to them.

ghost use Rattle.std.specs.Prelude.{◌≡◌, true, option_map, is_some, IfOk, OnOk, OnErr, map};
ghost use Rattle.serde_json.specs.Find.{get_member};
ghost use Rattle.serde_json.specs.Data.{string};
ghost use Rattle.serde_json.specs.View.{view, members_view};
ghost use Rattle.oauth2_json.specs.Members.{put_some, beside, clashes, optional_writing};
ghost use Rattle.oauth2_json.specs.Puts.{in_order};
ghost use Rattle.oauth2_json.specs.Writing.{GivesAs};

use crate::floats::members_have_float;
use crate::write::{ToJson, WriteError};
use serde_json::{Map, Value};
use std::alloc::{AllocError, Global};
use std::convert::AsStr;

fn has(members: &Map<String, Value>, name: &str) -> bool
    ensures { result ≡ is_some (get_member name.now (members_view members.now.entries)) }
{
    members.contains_key(name)
}

fn clashes(own: &[&str], members: &Map<String, Value>) -> bool
    ensures { result ≡ clashes (map (λ k. k.now) own.now) (members_view members.now.entries) }
{
    for name in own {
        if has(members, *name) {
            return true;
        }
    }
    false
}

/// Takes the members out of `extra`, to be written next to a type's own. `NameClash` if `extra` is
/// not an object or one of them has a name in `own`, `Float` if one holds a float.
pub fn beside(own: &[&str], extra: Value) -> Result<Map<String, Value>, WriteError>
    ensures { GivesAs (λ m. members_view m.entries) result
        (beside (map (λ k. k.now) own.now) (view extra)) }
{
    let Value::Object(members) = extra else {
        return Err(WriteError::NameClash);
    };
    if clashes(own, &members) {
        return Err(WriteError::NameClash);
    }
    if members_have_float(&members) {
        return Err(WriteError::Float);
    }
    Ok(members)
}

/// Puts in a member that has a value. `None` changes nothing.
pub fn put_some(
    members: &mut Map<String, Value>,
    alloc: Global,
    name: &str,
    value: Option<Value>,
) -> Result<(), AllocError>
    ensures ok { OnOk result (members_view members.new.entries
        ≡ put_some name.now (option_map view value) (members_view members.old.entries)) }
    // If the members were in byte order of their names, they still are.
    ensures ordered { OnOk result (in_order (members_view members.old.entries) ≡ true
        → in_order (members_view members.new.entries) ≡ true) }
    ensures err { OnErr result (members.new.entries ≡ members.old.entries) }
{
    match value {
        Some(value) => serde_json::put(members, alloc, name, value),
        None => Ok(()),
    }
}

/// Converts an optional text to a JSON string.
pub fn text_value<T: AsStr>(alloc: Global, text: &Option<T>) -> Result<Option<Value>, AllocError>
    ensures { IfOk result
        (λ v. option_map view v ≡ option_map string (option_map T.text text.now)) }
{
    match text {
        Some(text) => Ok(Some(Value::try_from_str(alloc, text.as_str())?)),
        None => Ok(None),
    }
}

/// Writes an optional value. `None` writes nothing.
pub fn optional_to_json<T: ToJson>(
    alloc: Global,
    value: &Option<T>,
) -> Result<Option<Value>, WriteError>
    ensures { GivesAs (option_map view) result (optional_writing T.writing value.now) }
{
    match value {
        Some(value) => Ok(Some(value.to_json(alloc)?)),
        None => Ok(None),
    }
}
