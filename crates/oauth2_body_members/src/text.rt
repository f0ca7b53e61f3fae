//! Reads the members of an object from the tokens of a body.

ghost use Rattle.std.specs.Prelude.{◌≡◌, ◌<◌, ◌||◌, length, map, option_map, IfOk, OnOk};
ghost use Rattle.json.specs.Json.{read_key, value, members};
ghost use Rattle.serde_json.specs.Data.{no_members};
ghost use Rattle.serde_json.specs.Read.{of_json, of_members, converted};
ghost use Rattle.oauth2_json.specs.Reading.{ReadsAs};
ghost use Rattle.oauth2_body_members.specs.Object.{has_name, KeptAs};
ghost use Rattle.oauth2_body_members.specs.private.Found.{found_value, found_members};
ghost use Rattle.oauth2_body_members.specs.private.Texts.{or_not_json, at_end, IfFound, StopsAs};

use crate::found::{in_body, member_at};
use crate::member::Member;
use crate::nested;
use json::{Error, Reader};
use oauth2_json::{ParseCause, ReadError};
use std::alloc::Global;

// How deep the value of a member may nest: the whole body nests at most 127 deep.
const DEPTH: usize = 126;

// Reads the members after the object's opening brace, to the end of the body. It keeps those with
// these names, and the others if `keeps_others`. `None` if a kept name is written with escapes.
pub(crate) fn to_end<'a>(
    alloc: Global,
    body: &'a str,
    reader: &mut Reader<'_>,
    names: &[&str],
    keeps_others: bool,
) -> Result<Option<Vec<Member<'a>>>, ReadError>
    ensures { IfFound result (λ found. KeptAs (λ list. found_members list.items)
        (map (λ k. k.now) names.now) keeps_others found
        (or_not_json (at_end (converted (λ ms. of_members ms no_members)
        (members (value 126) (length reader.old) reader.old))))) }
{
    let Some(list) = to_brace(alloc, body, reader, names, keeps_others)? else {
        return Ok(None);
    };
    if reader.next().is_some() {
        return Err(ReadError::whole(alloc, ParseCause::NotJson));
    }
    Ok(Some(list))
}

fn to_brace<'a>(
    alloc: Global,
    body: &'a str,
    reader: &mut Reader<'_>,
    names: &[&str],
    keeps_others: bool,
) -> Result<Option<Vec<Member<'a>>>, ReadError>
    ensures { IfFound result (λ found. StopsAs (λ list. found_members list.items)
        (map (λ k. k.now) names.now) keeps_others reader.new found
        (or_not_json (converted (λ ms. of_members ms no_members)
        (members (value 126) (length reader.old) reader.old)))) }
{
    let mut list = Vec::with_capacity(alloc, names.len())?;
    'members: while let Some((place, name)) = next_name(alloc, reader)? {
        if is_kept(name, names, keeps_others) {
            let Some(name) = in_body(body, place, name) else {
                return Ok(None);
            };
            let member = next_member(alloc, body, name, reader)?;
            list.push(member)?;
        } else {
            pass_value(alloc, reader)?;
        }
    }
    Ok(Some(list))
}

fn is_kept(name: &str, names: &[&str], keeps_others: bool) -> bool
    ensures { result ≡ (keeps_others || has_name name.now (map (λ k. k.now) names.now)) }
{
    if keeps_others {
        return true;
    }
    for own in names {
        if *own == name {
            return true;
        }
    }
    false
}

// The next name, and the reader's byte offset before it.
fn next_name<'a>(
    alloc: Global,
    reader: &mut Reader<'a>,
) -> Result<Option<(usize, &'a str)>, ReadError>
    ensures { ReadsAs (λ found. (option_map (λ p. p.1.now) found, reader.new)) result
        (or_not_json (read_key reader.old)) }
{
    let place = reader.offset();
    match reader.next_key() {
        Ok(Some(name)) => Ok(Some((place, name))),
        Ok(None) => Ok(None),
        Err(_) => Err(ReadError::whole(alloc, ParseCause::NotJson)),
    }
}

// Reads the next value, as that of the member with that name.
fn next_member<'a>(
    alloc: Global,
    body: &'a str,
    name: &'a str,
    reader: &mut Reader<'_>,
) -> Result<Member<'a>, ReadError>
    ensures read { ReadsAs (λ m. (found_value m, reader.new)) result
        (or_not_json (converted of_json (value 126 reader.old))) }
    ensures name { IfOk result (λ m. m.name.now ≡ name.now) }
    ensures shorter { OnOk result (length reader.new < length reader.old) }
{
    let place = reader.offset();
    match json::Value::read(alloc, reader, DEPTH) {
        Ok(value) => member_at(alloc, body, name, place, &value),
        Err(Error::OutOfMemory) => Err(ReadError::Memory),
        Err(_) => Err(ReadError::whole(alloc, ParseCause::NotJson)),
    }
}

// Skips a value that is not kept. It still has to be JSON, with each number in range.
fn pass_value(alloc: Global, reader: &mut Reader<'_>) -> Result<(), ReadError>
    ensures read { ReadsAs (λ _. reader.new) result
        (or_not_json (option_map (λ p. p.1) (converted of_json (value 126 reader.old)))) }
    ensures shorter { OnOk result (length reader.new < length reader.old) }
{
    match json::Value::read(alloc, reader, DEPTH) {
        Ok(value) => if nested::is_value(&value) {
            Ok(())
        } else {
            Err(ReadError::whole(alloc, ParseCause::NotJson))
        },
        Err(Error::OutOfMemory) => Err(ReadError::Memory),
        Err(_) => Err(ReadError::whole(alloc, ParseCause::NotJson)),
    }
}
