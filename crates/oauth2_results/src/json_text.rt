//! JSON texts of smaller ones.

ghost use Rattle.std.specs.Prelude.{◌≡◌, ◌++◌, IfOk, OnOk, codes, map, option_map, string_bytes};
ghost use Rattle.std.specs.List.{flat_map};
ghost use Rattle.oauth2_results.specs.Json as spec;

use oauth2_world::quoted;
use std::alloc::{AllocError, Global};

// The initial capacity of an object's text, in bytes.
const ROOM: usize = 256;

#[tactic(auto, unfolding(crate::specs::Json::member_text))]
fn push_member(alloc: Global, text: &mut String, name: &str, value: &str) -> Result<(), AllocError>
    ensures { OnOk result (string_bytes text.new
        ≡ string_bytes text.old ++ spec.member_text (name.now, value.now)) }
{
    let name = quoted(alloc, name)?;
    write!(text, "{name}:{value}")
}

// The members, each after a comma.
fn push_members(
    alloc: Global,
    text: &mut String,
    members: &[(&str, &str)],
) -> Result<(), AllocError>
    ensures { OnOk result (string_bytes text.new ≡ string_bytes text.old
        ++ flat_map (λ m. codes "," ++ spec.member_text m) (map spec.member_of members.now)) }
{
    for &(name, value) in members {
        text.push(',')?;
        push_member(alloc, text, name, value)?;
    }
    Ok(())
}

/// A JSON object with these members, in order; each value is a JSON text.
#[tactic(auto, unfolding(crate::specs::Json::object_text))]
pub fn object_text(alloc: Global, members: &[(&str, &str)]) -> Result<String, AllocError>
    ensures { IfOk result (λ s. string_bytes s
        ≡ spec.object_text (map spec.member_of members.now)) }
{
    let mut text = String::with_capacity(alloc, ROOM)?;
    text.push('{')?;
    if let Some((&(name, value), rest)) = members.split_first() {
        push_member(alloc, &mut text, name, value)?;
        push_members(alloc, &mut text, rest)?;
    }
    text.push('}')?;
    Ok(text)
}

// The items, each after a comma.
fn push_items(text: &mut String, items: &[String]) -> Result<(), AllocError>
    ensures { OnOk result (string_bytes text.new ≡ string_bytes text.old
        ++ flat_map (λ item. codes "," ++ item) (map string_bytes items.now)) }
{
    for item in items {
        text.push(',')?;
        text.push_str(item.as_str())?;
    }
    Ok(())
}

/// A JSON array with these items, in order; each is a JSON text.
#[tactic(auto, unfolding(crate::specs::Json::list_text))]
pub fn list_text(alloc: Global, items: &[String]) -> Result<String, AllocError>
    ensures { IfOk result (λ s. string_bytes s
        ≡ spec.list_text (map string_bytes items.now)) }
{
    let mut text = String::with_capacity(alloc, ROOM)?;
    text.push('[')?;
    if let Some((first, rest)) = items.split_first() {
        text.push_str(first.as_str())?;
        push_items(&mut text, rest)?;
    }
    text.push(']')?;
    Ok(text)
}
/// A text as a JSON string, or `null` if there is none.
pub fn optional_text(alloc: Global, text: &Option<String>) -> Result<String, AllocError>
    ensures { IfOk result (λ s. string_bytes s
        ≡ spec.optional_text (option_map string_bytes text.now)) }
{
    match text {
        Some(text) => quoted(alloc, text.as_str()),
        None => String::from_str(alloc, "null"),
    }
}

/// A whole number as JSON, or `null` if there is none.
pub fn optional_number(alloc: Global, number: Option<i64>) -> Result<String, AllocError>
    ensures { IfOk result (λ s. string_bytes s ≡ spec.optional_number number) }
{
    match number {
        Some(number) => number.to_string(alloc),
        None => String::from_str(alloc, "null"),
    }
}

/// A pair as a JSON array of two strings.
pub fn pair_json(alloc: Global, name: &str, value: &str) -> Result<String, AllocError>
    ensures { IfOk result (λ s. string_bytes s ≡ spec.pair_json (name.now, value.now)) }
{
    let name = quoted(alloc, name)?;
    let value = quoted(alloc, value)?;
    let items = [name, value];
    let text = list_text(alloc, &items)?;
    Ok(text)
}
