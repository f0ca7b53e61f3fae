//! Claims that no rule needs. If one cannot be read, that is no error: its value is kept among the
//! other claims.

ghost use Rattle.std.specs.Prelude.{◌≡◌, ℕ, ℤ, List, Option, Ok, Some, IfOk};
ghost use Rattle.std.specs.Prelude.{map, option_map, string_bytes};
ghost use Rattle.serde_json.specs.Data.{Data, array};
ghost use Rattle.serde_json.specs.View.{view, items_view};
ghost use Rattle.oauth2_json.specs.Reading.{ReadsAs};
ghost use Rattle.oauth2_json.specs.Values.{text, text_list};
ghost use Rattle.oauth2_openid.specs.Times.{time};
ghost use Rattle.oauth2_openid.specs.Reading.{unneeded_member};
ghost use Rattle.oauth2_openid.specs.private.Left.{are_texts, put_back};

use crate::numeric_date::moment_of;
use jiff::Timestamp;
use oauth2_json::{ReadError, members};
use oauth2_member_rows::ReadKind;
use serde_json::Value;
use std::alloc::{AllocError, Global};

// The value of such a claim (`said`), or the JSON value that could not be read (`left`).
#[derive(Drop)]
pub(crate) struct Unneeded<T: Drop> {
    pub(crate) said: Option<T>,
    pub(crate) left: Option<Value>,
}

// A text, if the member is one.
pub(crate) struct UnneededText;

impl ReadKind for UnneededText {
    type Value = Unneeded<String>;

    ghost Meaning = { Option (List ℕ) × Option Data };

    ghost meaning = { λ u. (option_map string_bytes u.said, option_map view u.left) };

    ghost reading = { λ name found. Ok (unneeded_member text found) };

    fn read(
        _alloc: Global,
        _name: &str,
        found: Option<Value>,
    ) -> Result<Unneeded<String>, ReadError> {
        let (said, left) = match found {
            None => (None, None),
            Some(Value::Null) => (None, None),
            Some(Value::String(text)) => (Some(text), None),
            Some(other) => (None, Some(other)),
        };
        Ok(Unneeded { said, left })
    }
}

// A time, if the member is one.
pub(crate) struct UnneededTime;

impl ReadKind for UnneededTime {
    type Value = Unneeded<Timestamp>;

    ghost Meaning = { Option ℤ × Option Data };

    ghost meaning = { λ u. (option_map (λ t. t.nanosecond) u.said, option_map view u.left) };

    ghost reading = { λ name found. Ok (unneeded_member time found) };

    fn read(
        _alloc: Global,
        _name: &str,
        found: Option<Value>,
    ) -> Result<Unneeded<Timestamp>, ReadError> {
        let (said, left) = match found {
            None => (None, None),
            Some(Value::Null) => (None, None),
            Some(Value::Number(number)) => match moment_of(&number) {
                Some(at) => (Some(at), None),
                None => (None, Some(Value::Number(number))),
            },
            Some(other) => (None, Some(other)),
        };
        Ok(Unneeded { said, left })
    }
}

// A list of texts, if the member is one.
pub(crate) struct UnneededTexts;

impl ReadKind for UnneededTexts {
    type Value = Unneeded<Vec<String>>;

    ghost Meaning = { Option (List (List ℕ)) × Option Data };

    ghost meaning = { λ u.
        (option_map (λ list. map string_bytes list.items) u.said, option_map view u.left) };

    ghost reading = { λ name found. Ok (unneeded_member text_list found) };

    fn read(
        alloc: Global,
        name: &str,
        found: Option<Value>,
    ) -> Result<Unneeded<Vec<String>>, ReadError> {
        match found {
            Some(Value::Array(items)) => texts_of(alloc, name, items),
            None => Ok(Unneeded {
                said: None,
                left: None,
            }),
            Some(Value::Null) => Ok(Unneeded {
                said: None,
                left: None,
            }),
            left => Ok(Unneeded { said: None, left }),
        }
    }
}

fn texts_of(
    alloc: Global,
    name: &str,
    items: Vec<Value>,
) -> Result<Unneeded<Vec<String>>, ReadError>
    ensures { ReadsAs
        (λ u. (option_map (λ list. map string_bytes list.items) u.said, option_map view u.left))
        result (Ok (unneeded_member text_list (Some (array (items_view items.items))))) }
{
    if are_texts(items.as_slice()) {
        match members::optional_text_list(alloc, name, Some(Value::Array(items))) {
            Ok(said) => Ok(Unneeded { said, left: None }),
            Err(error) => Err(error),
        }
    } else {
        Ok(Unneeded {
            said: None,
            left: Some(Value::Array(items)),
        })
    }
}

fn are_texts(items: &[Value]) -> bool
    ensures { result ≡ are_texts (items_view items.now) }
{
    for item in items {
        if !item.is_string() {
            return false;
        }
    }
    true
}

// Puts a claim that could not be read back into the object of the other claims.
pub(crate) fn put_back(
    alloc: Global,
    others: Value,
    name: &str,
    left: Option<Value>,
) -> Result<Value, AllocError>
    ensures { IfOk result
        (λ v. view v ≡ put_back name.now (option_map view left) (view others)) }
{
    match others {
        Value::Object(mut map) => {
            members::put_some(&mut map, alloc, name, left)?;
            Ok(Value::Object(map))
        }
        others => Ok(others),
    }
}
