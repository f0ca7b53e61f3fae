//! The members of an object, from a value or from a body.

ghost use Rattle.std.specs.Prelude.{◌≡◌, IfOk, map, option_map};
ghost use Rattle.serde_json.specs.Data.{object};
ghost use Rattle.serde_json.specs.Find.{get_member};
ghost use Rattle.serde_json.specs.Read.{read};
ghost use Rattle.serde_json.specs.View.{view};
ghost use Rattle.oauth2_json.specs.Body.{body_reading, value_reading};
ghost use Rattle.oauth2_json.specs.Members.{members_of_object, without};
ghost use Rattle.oauth2_json.specs.Reading.{ReadsAs};
ghost use Rattle.oauth2_body_members.specs.Object.{object_members, KeptAs};
ghost use Rattle.oauth2_body_members.specs.private.Found.{found_members};
ghost use Rattle.oauth2_body_members.specs.private.Texts.{IfFound};

use crate::member::{self, Member};
use crate::text;
use json::{Reader, Scratch, Token};
use oauth2_json::{ParseCause, ReadError, members};
use serde_json::{Map, Value};
use std::alloc::{AllocError, Global};

#[derive(Drop)]
pub(crate) enum BodySource<'a> {
    Map(Map<String, Value>),
    List(Vec<Member<'a>>),
}

/// The members of an object. Each is looked up by its name and taken out.
#[derive(Drop)]
pub struct Object<'a> {
    source: BodySource<'a>,
}

impl<'a> Object<'a> {
    /// The members of a value, which has to be an object.
    #[tactic(auto, unfolding(crate::specs::Object::object_members))]
    pub fn of_value(alloc: Global, value: Value) -> Result<Object<'a>, ReadError>
        ensures { ReadsAs object_members result (members_of_object (view value)) }
    {
        let map = members::of_object(alloc, value)?;
        Ok(Object {
            source: BodySource::Map(map),
        })
    }

    /// Reads the members of a body, which has to be one JSON object. It keeps the members with
    /// these names, and the other members if `keeps_others`; if not, the contract doesn't cover the
    /// others. Names without escapes are not copied.
    pub fn of_body(
        alloc: Global,
        bytes: &'a [u8],
        names: &[&str],
        keeps_others: bool,
    ) -> Result<Object<'a>, ReadError>
        ensures { KeptAs object_members (map (λ k. k.now) names.now) keeps_others result
            (body_reading members_of_object bytes.now) }
    {
        match std::str::from_utf8(bytes) {
            Ok(text) => of_text(alloc, text, names, keeps_others),
            Err(_) => Err(ReadError::whole(alloc, ParseCause::NotJson)),
        }
    }

    /// Removes the member of that name and returns its value; `None` if there is none.
    #[tactic(auto, unfolding(crate::specs::Object::object_members))]
    pub fn take(&mut self, name: &str) -> Option<Value>
        ensures found { option_map view result ≡ get_member name.now (object_members self.old) }
        ensures rest { object_members self.new ≡ without name.now (object_members self.old) }
    {
        match &mut self.source {
            BodySource::Map(map) => members::take(map, name),
            BodySource::List(list) => member::take(list, name),
        }
    }

    /// The members that are left, as a JSON object.
    #[tactic(auto, unfolding(crate::specs::Object::object_members))]
    pub fn into_value(self, alloc: Global) -> Result<Value, AllocError>
        ensures { IfOk result (λ v. view v ≡ object (object_members self.entry)) }
    {
        match self.source {
            BodySource::Map(map) => Ok(Value::Object(map)),
            BodySource::List(list) => Ok(Value::Object(member::map_of(alloc, list)?)),
        }
    }
}

fn of_text<'a>(
    alloc: Global,
    text: &'a str,
    names: &[&str],
    keeps_others: bool,
) -> Result<Object<'a>, ReadError>
    ensures { KeptAs object_members (map (λ k. k.now) names.now) keeps_others result
        (value_reading members_of_object (read text.now)) }
{
    match found_in(alloc, text, names, keeps_others)? {
        Some(list) => Ok(Object {
            source: BodySource::List(member::with_texts(alloc, list)?),
        }),
        None => through_value(alloc, text),
    }
}

// The members of a text that is an object; `None` if it has to be read through a `Value`. The
// reader's buffer, as long as the text, is dropped before the members' texts are copied.
fn found_in<'a>(
    alloc: Global,
    text: &'a str,
    names: &[&str],
    keeps_others: bool,
) -> Result<Option<Vec<Member<'a>>>, ReadError>
    ensures { IfFound result (λ found. KeptAs (λ list. found_members list.items)
        (map (λ k. k.now) names.now) keeps_others found
        (value_reading members_of_object (read text.now))) }
{
    let mut scratch = Scratch::new(alloc);
    let mut reader = Reader::new(text, &mut scratch)?;
    match reader.next() {
        Some(Token::BeginObject) => text::to_end(alloc, text, &mut reader, names, keeps_others),
        _ => Ok(None),
    }
}

fn through_value<'a>(alloc: Global, text: &str) -> Result<Object<'a>, ReadError>
    ensures { ReadsAs object_members result (value_reading members_of_object (read text.now)) }
{
    match Value::from_str(alloc, text) {
        Ok(value) => Object::of_value(alloc, value),
        Err(error) => if error.is_memory() {
            Err(ReadError::Memory)
        } else {
            Err(ReadError::whole(alloc, ParseCause::NotJson))
        },
    }
}
