//! The members of an object in the order of its text.

ghost use Rattle.std.specs.Prelude.{◌≡◌, None, IfOk, OnOk, option_map, if◌then◌else◌};
ghost use Rattle.std.specs.Option.{option_or};
ghost use Rattle.std.specs.Str.{bytes_eq};
ghost use Rattle.serde_json.specs.Find.{get_member};
ghost use Rattle.serde_json.specs.View.{view, members_view};
ghost use Rattle.oauth2_json.specs.Members.{without};
ghost use Rattle.oauth2_body_members.specs.Object.{entry_of, list_members};
ghost use Rattle.oauth2_body_members.specs.private.Found.{found_entry, found_members};
ghost use Rattle.oauth2_body_members.specs.private.Taken.{blank_at};

use serde_json::{Map, Value};
use std::alloc::{AllocError, Global};

// A member. Its name is a slice of the body.
#[derive(Drop)]
pub(crate) struct Member<'a> {
    pub(crate) name: &'a str,
    // The text in the body that is its value, until it is copied.
    pub(crate) text: &'a str,
    // `None` until its text is copied, and after it is taken.
    pub(crate) value: Option<Value>,
}

// Copies the texts of the members that were found, so that each has its value.
pub(crate) fn with_texts<'a>(
    alloc: Global,
    found: Vec<Member<'a>>,
) -> Result<Vec<Member<'a>>, AllocError>
    ensures { IfOk result (λ list. list_members list.items ≡ found_members found.entry.items) }
{
    let mut list = found;
    for index in 0..list.len() {
        copy_text(alloc, &mut list[index])?;
    }
    Ok(list)
}

// Copies a member's text if it has no value.
fn copy_text(alloc: Global, member: &mut Member<'_>) -> Result<(), AllocError>
    ensures { OnOk result (entry_of member.new ≡ found_entry member.old) }
{
    if member.value.is_none() {
        let text = String::from_str(alloc, member.text)?;
        member.value = Some(Value::String(text));
    }
    Ok(())
}

// Takes the values of all members with that name, and returns the last one.
pub(crate) fn take(list: &mut Vec<Member<'_>>, name: &str) -> Option<Value>
    ensures found { option_map view result ≡ get_member name.now (list_members list.old.items) }
    ensures rest { list_members list.new.items ≡ without name.now (list_members list.old.items) }
{
    let mut found = None;
    for index in 0..list.len() {
        take_value(&mut list[index], name, &mut found);
    }
    found
}

// Moves the member's value to `found`, in place of an earlier one, if the member has that name.
fn take_value(member: &mut Member<'_>, name: &str, found: &mut Option<Value>)
    ensures found { option_map view found.new ≡ option_or
        (if bytes_eq member.old.name.now name.now
        then option_map view member.old.value else None)
        (option_map view found.old) }
    ensures left { member.new ≡ blank_at name.now member.old }
{
    if member.value.is_some() && member.name == name {
        *found = member.value.take();
    }
}

// Copies the names of the members that still have a value, and puts them in a map.
pub(crate) fn map_of(alloc: Global, list: Vec<Member<'_>>) -> Result<Map<String, Value>, AllocError>
    ensures { IfOk result (λ m. members_view m.entries ≡ list_members list.entry.items) }
{
    let mut map = Map::new(alloc);
    for member in list {
        let Member { name, value, .. } = member;
        if let Some(value) = value {
            let name = String::from_str(alloc, name)?;
            drop(map.insert(name, value)?);
        }
    }
    Ok(map)
}
