//! Readers and writers of single values, for types that hold such members.

ghost use Rattle.std.specs.Prelude.{◌≡◌, ◌↔◌, ℕ, List, [], Ok, IsTrue, IfOk, IfSome, map};
ghost use Rattle.std.specs.Prelude.{option_map, string_bytes};
ghost use Rattle.serde_json.specs.View.{view};
ghost use Rattle.oauth2_json.specs.Helpers.{nullable, words_data};
ghost use Rattle.oauth2_json.specs.Reading.{ReadsAs, at_member};
ghost use Rattle.oauth2_json.specs.Values.{lowercase_reading, words_reading, text, texts};
ghost use Rattle.oauth2_json.specs.Words.{are_words};

use crate::lowered::Lowered;
use crate::read::{FromJson, ReadError};
use crate::spaced::words_text;
use crate::{member_readers, members};
use serde_json::Value;
use std::alloc::{AllocError, Global};
use std::convert::AsStr;

/// Reads a JSON string after its ASCII letters are lowered. A fault has an empty member name.
pub fn deserialize_untagged_enum_case_insensitive<T: FromJson>(
    alloc: Global,
    value: Value,
) -> Result<T, ReadError>
    ensures { ReadsAs T.meaning result (at_member [] (lowercase_reading T.reading (view value))) }
{
    let Lowered(read) = member_readers::under_name::<Lowered<T>>(alloc, "", value)?;
    Ok(read)
}

/// Reads a JSON string and splits it at every space (RFC 6749, section 3.3). Null reads as `None`.
/// A fault has an empty member name.
pub fn deserialize_space_delimited_vec<T: FromJson + Drop>(
    alloc: Global,
    value: Value,
) -> Result<Option<Vec<T>>, ReadError>
    ensures { ReadsAs (option_map (λ v. map T.meaning v.items)) result
        (nullable (words_reading T.reading) (view value)) }
{
    members::optional_words(alloc, "", Some(value))
}

/// Reads a JSON string or an array of strings. Null reads as `None`. A fault has an empty member
/// name.
pub fn deserialize_optional_string_or_vec_string(
    alloc: Global,
    value: Value,
) -> Result<Option<Vec<String>>, ReadError>
    ensures { ReadsAs (option_map (λ v. map string_bytes v.items)) result
        (nullable texts (view value)) }
{
    members::optional_texts(alloc, "", Some(value))
}

/// Writes a list as one JSON string, with a space between two entries. `None` is written as null.
pub fn serialize_space_delimited_vec<T: AsStr>(
    alloc: Global,
    words: &Option<Vec<T>>,
) -> Result<Value, AllocError>
    ensures value { IfOk result (λ v. view v
        ≡ words_data (option_map (λ v. map T.text v.items) words.now)) }
    // A list reads back unchanged exactly if it isn't empty and no entry has a space.
    ensures reads_back { let lists = option_map (λ v. map T.text v.items) words.now in
        IfOk result (λ v. (nullable (words_reading text) (view v) ≡ Ok lists)
        ↔ IfSome lists (λ ps. IsTrue (are_words ps))) }
{
    match words {
        Some(words) => words_text(alloc, words.as_slice()),
        None => Ok(Value::Null),
    }
}

/// A type whose variants have names.
pub trait VariantName {
    ghost use Rattle.std.specs.Prelude.{◌≡◌, ℕ, List};

    ghost variant: { Self → List ℕ };

    /// The name of the value's variant.
    fn variant_name(&self) -> &'static str
        ensures { result.now ≡ variant self.now };
}

/// The name of the value's variant.
pub fn variant_name<T: VariantName>(value: &T) -> &'static str
    ensures { result.now ≡ T.variant value.now }
{
    value.variant_name()
}
