//! Texts that hold a list, with one space between two entries (RFC 6749, section 3.3).

ghost use Rattle.std.specs.Prelude.{◌≡◌, ◌==◌, List, IfOk, OnOk, string_bytes, [], ◌++◌, map};
ghost use Rattle.std.specs.Prelude.{codes, option_map};
ghost use Rattle.std.specs.List.{flat_map, slice_split};
ghost use Rattle.serde_json.specs.Data.{string};
ghost use Rattle.serde_json.specs.View.{view};
ghost use Rattle.oauth2_json.specs.Reading.{ReadsAs, at_member};
ghost use Rattle.oauth2_json.specs.Members.{optional_member};
ghost use Rattle.oauth2_json.specs.Values.{each_word, words_reading};
ghost use Rattle.oauth2_json.specs.Words.{joined_words};

use crate::member_readers;
use crate::read::{FromJson, ReadError};
use serde_json::Value;
use std::alloc::{AllocError, Global};
use std::convert::AsStr;

fn piece<T: FromJson>(alloc: Global, text: &str) -> Result<T, ReadError>
    ensures { ReadsAs T.meaning result (at_member [] (T.reading (string text.now))) }
{
    member_readers::under_name(alloc, "", Value::try_from_str(alloc, text)?)
}

/// Splits the text at every space, and reads each piece as a `T`.
pub fn pieces<T: FromJson + Drop>(alloc: Global, text: &str) -> Result<Vec<T>, ReadError>
    ensures { ReadsAs (λ v. map T.meaning v.items) result
        (each_word T.reading (slice_split (λ c. c == 32) text.now)) }
{
    let mut read = Vec::new(alloc);
    let mut rest = text;
    while let Some((first, later)) = rest.split_once(' ') {
        read.push(piece(alloc, first)?)?;
        rest = later;
    }
    read.push(piece(alloc, rest)?)?;
    Ok(read)
}

// The initial capacity of a joined text, in bytes.
const ROOM: usize = 64;

/// Joins the texts, with one space between two.
pub fn join_with_spaces<T: AsStr>(alloc: Global, items: &[T]) -> Result<String, AllocError>
    ensures { IfOk result (λ s. string_bytes s ≡ joined_words (map T.text items.now)) }
{
    let Some((first, rest)) = items.split_first() else {
        return Ok(String::new(alloc));
    };
    let mut text = String::with_capacity(alloc, ROOM)?;
    text.push_str(first.as_str())?;
    append_spaced(&mut text, rest)?;
    Ok(text)
}

// Appends the texts, each after a space.
fn append_spaced<T: AsStr>(text: &mut String, items: &[T]) -> Result<(), AllocError>
    ensures { OnOk result (string_bytes text.new
        ≡ string_bytes text.old ++ flat_map (λ word. codes " " ++ word) (map T.text items.now)) }
{
    for item in items {
        text.push(' ')?;
        text.push_str(item.as_str())?;
    }
    Ok(())
}

// The pieces of a text that is split at every space, each read as a `T`.
#[derive(Drop)]
pub(crate) struct Spaced<T>(pub(crate) Vec<T>);

impl<T: FromJson + Drop> FromJson for Spaced<T> {
    ghost Meaning = { List T.Meaning };

    ghost meaning = { λ s. map T.meaning s.0.items };

    ghost reading = { words_reading T.reading };

    fn from_json(alloc: Global, value: Value) -> Result<Spaced<T>, ReadError> {
        let text = String::from_json(alloc, value)?;
        Ok(Spaced(pieces(alloc, text.as_str())?))
    }
}

/// Reads a string as the list of its pieces between spaces. Absent and null read as `None`.
pub fn optional_words<T: FromJson + Drop>(
    alloc: Global,
    name: &str,
    found: Option<Value>,
) -> Result<Option<Vec<T>>, ReadError>
    ensures { ReadsAs (option_map (λ v. map T.meaning v.items)) result
        (optional_member (words_reading T.reading) name.now (option_map view found)) }
{
    match member_readers::optional::<Spaced<T>>(alloc, name, found)? {
        Some(Spaced(words)) => Ok(Some(words)),
        None => Ok(None),
    }
}

// Writes a list as one JSON string, with a space between two entries.
pub(crate) fn words_text<T: AsStr>(alloc: Global, words: &[T]) -> Result<Value, AllocError>
    ensures { IfOk result (λ v. view v ≡ string (joined_words (map T.text words.now))) }
{
    Ok(Value::String(join_with_spaces(alloc, words)?))
}

/// Converts an optional list to one JSON string, with a space between two entries.
pub fn words_value<T: AsStr>(
    alloc: Global,
    words: &Option<Vec<T>>,
) -> Result<Option<Value>, AllocError>
    ensures { IfOk result (λ v. option_map view v
        ≡ option_map (λ ps. string (joined_words ps))
        (option_map (λ v. map T.text v.items) words.now)) }
{
    match words {
        Some(words) => Ok(Some(words_text(alloc, words.as_slice())?)),
        None => Ok(None),
    }
}
