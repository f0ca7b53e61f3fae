//! Converts parsed JSON values to those of `serde_json`.

ghost use Rattle.std.specs.Prelude.{◌≡◌, is_some};
ghost use Rattle.json.specs.Value.{value_view, items_view as texts_view};
ghost use Rattle.json.specs.Value.{members_view as named_view};
ghost use Rattle.serde_json.specs.Data.{no_members};
ghost use Rattle.serde_json.specs.Read.{of_json, of_items, of_members};
ghost use Rattle.serde_json.specs.View.{view, items_view, members_view};
ghost use Rattle.oauth2_json.specs.Reading.{ReadsAs};
ghost use Rattle.oauth2_body_members.specs.private.Texts.{or_not_json};

use crate::number;
use oauth2_json::{ParseCause, ReadError};
use serde_json::{Map, Value};
use std::alloc::Global;

// Converts a parsed value. A number out of range is `NotJson`.
#[cycle(owned)]
pub(crate) fn owned_value(alloc: Global, value: &json::Value<'_>) -> Result<Value, ReadError>
    ensures { ReadsAs view result (or_not_json (of_json (value_view value.now))) }
{
    match value {
        json::Value::Null => Ok(Value::Null),
        json::Value::Bool(flag) => Ok(Value::Bool(*flag)),
        json::Value::Number(text) => match number::number(*text) {
            Some(number) => Ok(Value::Number(number)),
            None => Err(ReadError::whole(alloc, ParseCause::NotJson)),
        },
        json::Value::String(text) => Ok(Value::String(String::from_str(alloc, *text)?)),
        json::Value::Array(items) => Ok(Value::Array(owned_items(alloc, items)?)),
        json::Value::Object(members) => Ok(Value::Object(owned_members(alloc, members)?)),
    }
}

#[cycle(owned)]
fn owned_items(alloc: Global, items: &Vec<json::Value<'_>>) -> Result<Vec<Value>, ReadError>
    ensures { ReadsAs (λ v. items_view v.items) result
        (or_not_json (of_items (texts_view items.now.items))) }
{
    let mut list = Vec::with_capacity(alloc, items.len())?;
    for item in items {
        list.push(owned_value(alloc, item)?)?;
    }
    Ok(list)
}

#[cycle(owned)]
fn owned_members(
    alloc: Global,
    members: &Vec<(&str, json::Value<'_>)>,
) -> Result<Map<String, Value>, ReadError>
    ensures { ReadsAs (λ m. members_view m.entries) result
        (or_not_json (of_members (named_view members.now.items) no_members)) }
{
    let mut map = Map::new(alloc);
    for member in members {
        let name = String::from_str(alloc, member.0)?;
        drop(map.insert(name, owned_value(alloc, &member.1)?)?);
    }
    Ok(map)
}

// Whether a parsed value can be converted: each number in it has to be in range.
#[cycle(is_value)]
pub(crate) fn is_value(value: &json::Value<'_>) -> bool
    ensures { is_some (of_json (value_view value.now)) ≡ result }
{
    match value {
        json::Value::Null | json::Value::Bool(_) | json::Value::String(_) => true,
        json::Value::Number(text) => number::number(*text).is_some(),
        json::Value::Array(items) => are_values(items),
        json::Value::Object(members) => have_values(members),
    }
}

#[cycle(is_value)]
fn are_values(items: &Vec<json::Value<'_>>) -> bool
    ensures { is_some (of_items (texts_view items.now.items)) ≡ result }
{
    for item in items {
        if !is_value(item) {
            return false;
        }
    }
    true
}

#[cycle(is_value)]
fn have_values(members: &Vec<(&str, json::Value<'_>)>) -> bool
    ensures { is_some (of_members (named_view members.now.items) no_members) ≡ result }
{
    for member in members {
        if !is_value(&member.1) {
            return false;
        }
    }
    true
}
