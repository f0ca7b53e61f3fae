//! Lists of texts as members. Some may be a single string, read as a list of one (RFC 7662, 2.2).

ghost use Rattle.std.specs.Prelude.{◌≡◌, ℕ, List, [], ◌∷◌, map, option_map, IfOk, string_bytes};
ghost use Rattle.serde_json.specs.Data.{array};
ghost use Rattle.serde_json.specs.View.{view, items_view};
ghost use Rattle.oauth2_json.specs.Reading.{ReadsAs};
ghost use Rattle.oauth2_json.specs.Members.{needed_member, optional_member};
ghost use Rattle.oauth2_json.specs.Values.{texts, each_text, text_list, text_items};

use crate::member_readers;
use crate::read::{FromJson, ParseCause, ReadError};
use serde_json::Value;
use std::alloc::{AllocError, Global};

// A JSON string or an array of strings.
#[derive(Drop)]
pub(crate) struct Texts(pub(crate) Vec<String>);

impl FromJson for Texts {
    ghost Meaning = { List (List ℕ) };

    ghost meaning = { λ t. map string_bytes t.0.items };

    ghost reading = { texts };

    fn from_json(alloc: Global, value: Value) -> Result<Texts, ReadError> {
        match value {
            Value::String(text) => Ok(Texts(one(alloc, text)?)),
            Value::Array(items) => Ok(Texts(each(alloc, items)?)),
            _ => Err(ReadError::whole(alloc, ParseCause::WrongType)),
        }
    }
}

fn one(alloc: Global, text: String) -> Result<Vec<String>, AllocError>
    ensures { IfOk result (λ v. map string_bytes v.items ≡ string_bytes text ∷ []) }
{
    let mut list = Vec::new(alloc);
    list.push(text)?;
    Ok(list)
}

fn each(alloc: Global, items: Vec<Value>) -> Result<Vec<String>, ReadError>
    ensures { ReadsAs (λ v. map string_bytes v.items) result (each_text (items_view items.items)) }
{
    let mut list = Vec::new(alloc);
    for item in items {
        list.push(String::from_json(alloc, item)?)?;
    }
    Ok(list)
}

fn values(alloc: Global, texts: &[String]) -> Result<Vec<Value>, AllocError>
    ensures { IfOk result (λ v. items_view v.items ≡ text_items (map string_bytes texts.now)) }
{
    let mut list = Vec::new(alloc);
    for text in texts {
        list.push(Value::try_from_str(alloc, text.as_str())?)?;
    }
    Ok(list)
}

/// Reads a string, as a list of one, or an array of strings. Absent and null read as `None`.
pub fn optional_texts(
    alloc: Global,
    name: &str,
    found: Option<Value>,
) -> Result<Option<Vec<String>>, ReadError>
    ensures { ReadsAs (option_map (λ v. map string_bytes v.items)) result
        (optional_member texts name.now (option_map view found)) }
{
    match member_readers::optional::<Texts>(alloc, name, found)? {
        Some(Texts(list)) => Ok(Some(list)),
        None => Ok(None),
    }
}

/// Reads a required member that is a string, read as a list of one, or an array of strings.
pub fn needed_texts(
    alloc: Global,
    name: &str,
    found: Option<Value>,
) -> Result<Vec<String>, ReadError>
    ensures { ReadsAs (λ v. map string_bytes v.items) result
        (needed_member texts name.now (option_map view found)) }
{
    let Texts(list) = member_readers::needed::<Texts>(alloc, name, found)?;
    Ok(list)
}

/// Reads an array of strings. Absent and null read as `None`. A single string is `WrongType`.
pub fn optional_text_list(
    alloc: Global,
    name: &str,
    found: Option<Value>,
) -> Result<Option<Vec<String>>, ReadError>
    ensures { ReadsAs (option_map (λ v. map string_bytes v.items)) result
        (optional_member text_list name.now (option_map view found)) }
{
    match found {
        Some(Value::String(_)) => Err(ReadError::at(alloc, name, ParseCause::WrongType)),
        found => optional_texts(alloc, name, found),
    }
}

/// Converts an optional list of texts to a JSON array of strings.
pub fn texts_value(alloc: Global, texts: &Option<Vec<String>>) -> Result<Option<Value>, AllocError>
    ensures { IfOk result (λ v. option_map view v
        ≡ option_map (λ ps. array (text_items ps))
        (option_map (λ t. map string_bytes t.items) texts.now)) }
{
    match texts {
        Some(texts) => Ok(Some(Value::Array(values(alloc, texts.as_slice())?))),
        None => Ok(None),
    }
}
