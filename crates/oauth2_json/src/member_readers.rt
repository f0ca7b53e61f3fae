//! The members of an object: taking one out, and readers for required and optional ones.

ghost use Rattle.std.specs.Prelude.{◌≡◌, option_map};
ghost use Rattle.serde_json.specs.Find.{get_member};
ghost use Rattle.serde_json.specs.View.{view, members_view};
ghost use Rattle.oauth2_json.specs.Reading.{ReadsAs, ReadsExactly, at_member};
ghost use Rattle.oauth2_json.specs.Members.{members_of_object, without, needed_member};
ghost use Rattle.oauth2_json.specs.Members.{optional_member, present_member};
ghost use Rattle.oauth2_json.specs.Members.{either_name};

use crate::read::{FromJson, ParseCause, ReadError};
use serde_json::{Map, Value};
use std::alloc::Global;

/// Returns the members of an object; any other value is `NotObject`. Allocates nothing.
pub fn of_object(alloc: Global, value: Value) -> Result<Map<String, Value>, ReadError>
    ensures { ReadsExactly (λ m. members_view m.entries) result (members_of_object (view value)) }
{
    match value {
        Value::Object(members) => Ok(members),
        _ => Err(ReadError::whole(alloc, ParseCause::NotObject)),
    }
}

/// Removes the member of that name and returns its value; `None` if there is none.
pub fn take(members: &mut Map<String, Value>, name: &str) -> Option<Value>
    ensures found { option_map view result
        ≡ get_member name.now (members_view members.old.entries) }
    ensures rest { members_view members.new.entries
        ≡ without name.now (members_view members.old.entries) }
{
    members.remove(name)
}

// Reads a member's value. A fault is reported with the member's name.
pub(crate) fn under_name<T: FromJson>(
    alloc: Global,
    name: &str,
    value: Value,
) -> Result<T, ReadError>
    ensures { ReadsAs T.meaning result (at_member name.now (T.reading (view value))) }
{
    match T::from_json(alloc, value) {
        Ok(read) => Ok(read),
        Err(error) => Err(error.under(alloc, name)),
    }
}

/// Reads a required member: absent is `Missing`, null is `WrongType`.
pub fn needed<T: FromJson>(alloc: Global, name: &str, found: Option<Value>) -> Result<T, ReadError>
    ensures { ReadsAs T.meaning result (needed_member T.reading name.now (option_map view found)) }
{
    match found {
        None => Err(ReadError::at(alloc, name, ParseCause::Missing)),
        Some(Value::Null) => Err(ReadError::at(alloc, name, ParseCause::WrongType)),
        Some(value) => under_name(alloc, name, value),
    }
}

/// Reads a member that may be absent or null; both read as `None`.
pub fn optional<T: FromJson>(
    alloc: Global,
    name: &str,
    found: Option<Value>,
) -> Result<Option<T>, ReadError>
    ensures { ReadsAs (option_map T.meaning) result
        (optional_member T.reading name.now (option_map view found)) }
{
    match found {
        None | Some(Value::Null) => Ok(None),
        Some(value) => Ok(Some(under_name(alloc, name, value)?)),
    }
}

/// Reads a member that may be absent. Null is read by `T` like any other value.
pub fn present<T: FromJson>(
    alloc: Global,
    name: &str,
    found: Option<Value>,
) -> Result<Option<T>, ReadError>
    ensures { ReadsAs (option_map T.meaning) result
        (present_member T.reading name.now (option_map view found)) }
{
    match found {
        None => Ok(None),
        Some(member) => Ok(Some(under_name(alloc, name, member)?)),
    }
}

/// Reads a required member that has one of two names. It is `BothNames` if both are present.
pub fn either_name<T: FromJson>(
    alloc: Global,
    name: &str,
    found: Option<Value>,
    other: Option<Value>,
) -> Result<T, ReadError>
    ensures { ReadsAs T.meaning result
        (either_name T.reading name.now (option_map view found) (option_map view other)) }
{
    match found {
        None => needed(alloc, name, other),
        Some(value) => match other {
            None => needed(alloc, name, Some(value)),
            Some(_) => Err(ReadError::at(alloc, name, ParseCause::BothNames)),
        },
    }
}
