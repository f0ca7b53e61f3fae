//! The kinds of members.

ghost use Rattle.std.specs.Prelude.{◌≡◌, ℕ, List, Bool, Option, Some, IfOk};
ghost use Rattle.std.specs.Prelude.{map, option_map, string_bytes};
ghost use Rattle.serde_json.specs.Data.{array, boolean, number, unsigned, string};
ghost use Rattle.serde_json.specs.View.{view};
ghost use Rattle.oauth2_json.specs.Members.{needed_member, optional_member, present_member};
ghost use Rattle.oauth2_json.specs.Values.{flag, lowercase_reading, text, text_items, text_list};
ghost use Rattle.oauth2_json.specs.Values.{texts, whole_number};

use crate::member::{ReadKind, WriteKind};
use crate::write_text::{WriteText, text_of};
use oauth2_json::{FromJson, ReadError, members};
use serde_json::Value;
use std::alloc::{AllocError, Global};
use std::marker::PhantomData;

/// A required member: absent is `Missing`, null is `WrongType`.
pub struct Needed<T>(PhantomData<T>);

impl<T: FromJson + Drop> ReadKind for Needed<T> {
    type Value = T;

    ghost Meaning = { T.Meaning };

    ghost meaning = { T.meaning };

    ghost reading = { needed_member T.reading };

    fn read(alloc: Global, name: &str, found: Option<Value>) -> Result<T, ReadError> {
        members::needed(alloc, name, found)
    }
}

impl<T: WriteText> WriteKind for Needed<T> {
    type Value = T;

    ghost written = { λ x. Some (string (T.text x)) };

    fn write(alloc: Global, value: &T) -> Result<Option<Value>, AllocError> {
        let text = text_of(alloc, value)?;
        Ok(Some(text))
    }
}

/// A member that may be absent or null; both read as `None`, which is not written.
pub struct Optional<T>(PhantomData<T>);

impl<T: FromJson + Drop> ReadKind for Optional<T> {
    type Value = Option<T>;

    ghost Meaning = { Option T.Meaning };

    ghost meaning = { option_map T.meaning };

    ghost reading = { optional_member T.reading };

    fn read(alloc: Global, name: &str, found: Option<Value>) -> Result<Option<T>, ReadError> {
        members::optional(alloc, name, found)
    }
}

impl<T: WriteText> WriteKind for Optional<T> {
    type Value = Option<T>;

    ghost written = { option_map (λ x. string (T.text x)) };

    fn write(alloc: Global, value: &Option<T>) -> Result<Option<Value>, AllocError> {
        match value {
            Some(value) => Ok(Some(text_of(alloc, value)?)),
            None => Ok(None),
        }
    }
}

/// A required string that is read after its ASCII letters are lowered.
pub struct NeededLowered<T>(PhantomData<T>);

impl<T: FromJson + Drop> ReadKind for NeededLowered<T> {
    type Value = T;

    ghost Meaning = { T.Meaning };

    ghost meaning = { T.meaning };

    ghost reading = { needed_member (lowercase_reading T.reading) };

    fn read(alloc: Global, name: &str, found: Option<Value>) -> Result<T, ReadError> {
        members::needed_lowered(alloc, name, found)
    }
}

/// A string that may be absent, but not null, and is read after its ASCII letters are lowered.
pub struct PresentLowered<T>(PhantomData<T>);

impl<T: FromJson + Drop> ReadKind for PresentLowered<T> {
    type Value = Option<T>;

    ghost Meaning = { Option T.Meaning };

    ghost meaning = { option_map T.meaning };

    ghost reading = { present_member (lowercase_reading T.reading) };

    fn read(alloc: Global, name: &str, found: Option<Value>) -> Result<Option<T>, ReadError> {
        members::present_lowered(alloc, name, found)
    }
}

/// A required text, which reads as a list of one, or a required array of strings.
pub struct NeededTexts;

impl ReadKind for NeededTexts {
    type Value = Vec<String>;

    ghost Meaning = { List (List ℕ) };

    ghost meaning = { λ list. map string_bytes list.items };

    ghost reading = { needed_member texts };

    fn read(alloc: Global, name: &str, found: Option<Value>) -> Result<Vec<String>, ReadError> {
        members::needed_texts(alloc, name, found)
    }
}

/// A text that may be absent or null.
pub struct OptionalText;

impl ReadKind for OptionalText {
    type Value = Option<String>;

    ghost Meaning = { Option (List ℕ) };

    ghost meaning = { option_map string_bytes };

    ghost reading = { optional_member text };

    fn read(alloc: Global, name: &str, found: Option<Value>) -> Result<Option<String>, ReadError> {
        members::optional::<String>(alloc, name, found)
    }
}

impl WriteKind for OptionalText {
    type Value = Option<String>;

    ghost written = { λ o. option_map string (option_map string_bytes o) };

    fn write(alloc: Global, value: &Option<String>) -> Result<Option<Value>, AllocError> {
        members::text_value(alloc, value)
    }
}

/// A text, which reads as a list of one, or an array of strings; it may be absent or null. A list
/// is written as an array.
pub struct OptionalTexts;

impl ReadKind for OptionalTexts {
    type Value = Option<Vec<String>>;

    ghost Meaning = { Option (List (List ℕ)) };

    ghost meaning = { option_map (λ list. map string_bytes list.items) };

    ghost reading = { optional_member texts };

    fn read(
        alloc: Global,
        name: &str,
        found: Option<Value>,
    ) -> Result<Option<Vec<String>>, ReadError> {
        members::optional_texts(alloc, name, found)
    }
}

impl WriteKind for OptionalTexts {
    type Value = Option<Vec<String>>;

    ghost written = { λ o. option_map (λ list. array (text_items list))
        (option_map (λ list. map string_bytes list.items) o) };

    fn write(alloc: Global, value: &Option<Vec<String>>) -> Result<Option<Value>, AllocError> {
        members::texts_value(alloc, value)
    }
}

/// An array of strings that may be absent or null. A single string is `WrongType`.
pub struct OptionalTextList;

impl ReadKind for OptionalTextList {
    type Value = Option<Vec<String>>;

    ghost Meaning = { Option (List (List ℕ)) };

    ghost meaning = { option_map (λ list. map string_bytes list.items) };

    ghost reading = { optional_member text_list };

    fn read(
        alloc: Global,
        name: &str,
        found: Option<Value>,
    ) -> Result<Option<Vec<String>>, ReadError> {
        members::optional_text_list(alloc, name, found)
    }
}

impl WriteKind for OptionalTextList {
    type Value = Option<Vec<String>>;

    ghost written = { λ o. option_map (λ list. array (text_items list))
        (option_map (λ list. map string_bytes list.items) o) };

    fn write(alloc: Global, value: &Option<Vec<String>>) -> Result<Option<Value>, AllocError> {
        members::texts_value(alloc, value)
    }
}

/// A required whole number that is not negative.
pub struct NeededNumber;

impl ReadKind for NeededNumber {
    type Value = u64;

    ghost Meaning = { ℕ };

    ghost meaning = { λ n. n };

    ghost reading = { needed_member whole_number };

    fn read(alloc: Global, name: &str, found: Option<Value>) -> Result<u64, ReadError> {
        members::needed_number(alloc, name, found)
    }
}

impl WriteKind for NeededNumber {
    type Value = u64;

    ghost written = { λ n. Some (number (unsigned n)) };

    fn write(_alloc: Global, value: &u64) -> Result<Option<Value>, AllocError> {
        Ok(members::number_value(Some(*value)))
    }
}

/// A whole number that is not negative, or absent or null.
pub struct OptionalNumber;

impl ReadKind for OptionalNumber {
    type Value = Option<u64>;

    ghost Meaning = { Option ℕ };

    ghost meaning = { λ n. n };

    ghost reading = { optional_member whole_number };

    fn read(alloc: Global, name: &str, found: Option<Value>) -> Result<Option<u64>, ReadError> {
        members::optional_number(alloc, name, found)
    }
}

impl WriteKind for OptionalNumber {
    type Value = Option<u64>;

    ghost written = { option_map (λ n. number (unsigned n)) };

    fn write(_alloc: Global, value: &Option<u64>) -> Result<Option<Value>, AllocError> {
        Ok(members::number_value(*value))
    }
}

/// A required truth value.
pub struct NeededFlag;

impl ReadKind for NeededFlag {
    type Value = bool;

    ghost Meaning = { Bool };

    ghost meaning = { λ b. b };

    ghost reading = { needed_member flag };

    fn read(alloc: Global, name: &str, found: Option<Value>) -> Result<bool, ReadError> {
        members::needed_flag(alloc, name, found)
    }
}

impl WriteKind for NeededFlag {
    type Value = bool;

    ghost written = { λ b. Some (boolean b) };

    fn write(_alloc: Global, value: &bool) -> Result<Option<Value>, AllocError> {
        Ok(Some(Value::Bool(*value)))
    }
}

/// A truth value that may be absent or null.
pub struct OptionalFlag;

impl ReadKind for OptionalFlag {
    type Value = Option<bool>;

    ghost Meaning = { Option Bool };

    ghost meaning = { λ b. b };

    ghost reading = { optional_member flag };

    fn read(alloc: Global, name: &str, found: Option<Value>) -> Result<Option<bool>, ReadError> {
        match found {
            None | Some(Value::Null) => Ok(None),
            Some(value) => Ok(Some(members::needed_flag(alloc, name, Some(value))?)),
        }
    }
}

impl WriteKind for OptionalFlag {
    type Value = Option<bool>;

    ghost written = { option_map boolean };

    fn write(_alloc: Global, value: &Option<bool>) -> Result<Option<Value>, AllocError> {
        match value {
            Some(flag) => Ok(Some(Value::Bool(*flag))),
            None => Ok(None),
        }
    }
}
