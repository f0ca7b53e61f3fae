//! Numbers and truth values as members.

ghost use Rattle.std.specs.Prelude.{◌≡◌, ℕ, Bool, option_map};
ghost use Rattle.serde_json.specs.Data.{number, unsigned};
ghost use Rattle.serde_json.specs.View.{view};
ghost use Rattle.oauth2_json.specs.Reading.{ReadsAs};
ghost use Rattle.oauth2_json.specs.Members.{needed_member, optional_member, member_or};
ghost use Rattle.oauth2_json.specs.Values.{flag, whole_number};

use crate::member_readers;
use crate::read::{FromJson, ParseCause, ReadError};
use serde_json::Value;
use std::alloc::Global;

// True or false.
#[derive(Drop)]
struct Flag(bool);

impl FromJson for Flag {
    ghost Meaning = { Bool };

    ghost meaning = { λ b. b.0 };

    ghost reading = { flag };

    fn from_json(alloc: Global, value: Value) -> Result<Flag, ReadError> {
        match value {
            Value::Bool(b) => Ok(Flag(b)),
            _ => Err(ReadError::whole(alloc, ParseCause::WrongType)),
        }
    }
}

// A whole number that is not negative.
#[derive(Drop)]
struct WholeNumber(u64);

impl FromJson for WholeNumber {
    ghost Meaning = { ℕ };

    ghost meaning = { λ n. n.0 };

    ghost reading = { whole_number };

    fn from_json(alloc: Global, value: Value) -> Result<WholeNumber, ReadError> {
        match value {
            Value::Number(number) => {
                if let Some(n) = number.as_u64() {
                    Ok(WholeNumber(n))
                } else if number.is_f64() {
                    Err(ReadError::whole(alloc, ParseCause::NotWhole))
                } else {
                    Err(ReadError::whole(alloc, ParseCause::OutOfRange))
                }
            }
            _ => Err(ReadError::whole(alloc, ParseCause::WrongType)),
        }
    }
}

/// Reads a required member that is a boolean. `found` is its value, already taken out of the object,
/// and `name` is what an error reports.
pub fn needed_flag(alloc: Global, name: &str, found: Option<Value>) -> Result<bool, ReadError>
    ensures { ReadsAs (λ b. b) result (needed_member flag name.now (option_map view found)) }
{
    let Flag(b) = member_readers::needed::<Flag>(alloc, name, found)?;
    Ok(b)
}

/// Reads a required member that is a whole number and not negative, as [`needed_flag`] reads a
/// boolean.
pub fn needed_number(alloc: Global, name: &str, found: Option<Value>) -> Result<u64, ReadError>
    ensures { ReadsAs (λ n. n) result
        (needed_member whole_number name.now (option_map view found)) }
{
    let WholeNumber(n) = member_readers::needed::<WholeNumber>(alloc, name, found)?;
    Ok(n)
}

/// Reads a whole number that is not negative. Absent and null read as `None`.
pub fn optional_number(
    alloc: Global,
    name: &str,
    found: Option<Value>,
) -> Result<Option<u64>, ReadError>
    ensures { ReadsAs (λ n. n) result
        (optional_member whole_number name.now (option_map view found)) }
{
    match member_readers::optional::<WholeNumber>(alloc, name, found)? {
        Some(WholeNumber(n)) => Ok(Some(n)),
        None => Ok(None),
    }
}

/// Reads a whole number that is not negative. Absent and null read as `default`.
pub fn number_or(
    alloc: Global,
    name: &str,
    default: u64,
    found: Option<Value>,
) -> Result<u64, ReadError>
    ensures { ReadsAs (λ n. n) result
        (member_or whole_number name.now default (option_map view found)) }
{
    match member_readers::optional::<WholeNumber>(alloc, name, found)? {
        Some(WholeNumber(n)) => Ok(n),
        None => Ok(default),
    }
}

/// Converts an optional number to a JSON number.
pub fn number_value(n: Option<u64>) -> Option<Value>
    ensures { option_map view result ≡ option_map (λ x. number (unsigned x)) n }
{
    match n {
        Some(n) => Some(Value::from(n)),
        None => None,
    }
}
