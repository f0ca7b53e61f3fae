//! Times as JSON members: whole seconds since 1970-01-01T00:00:00Z (RFC 7662, section 2.2).

ghost use Rattle.std.specs.Prelude.{◌≡◌, ℕ, ℤ, List, Ok, IfSome, option_map};
ghost use Rattle.serde_json.specs.View.{view};
ghost use Rattle.oauth2_json.specs.Reading.{ReadsAs};
ghost use Rattle.oauth2_json.specs.Members.{needed_member, optional_member};
ghost use Rattle.oauth2_times.specs.Instants.{
  instant,
  instant_at,
  second_of,
  second_data,
  IsWholeSeconds,
};

use jiff::Timestamp;
use oauth2_json::{FromJson, ParseCause, ReadError, members};
use serde_json::Value;
use std::alloc::Global;

// A time that was read from whole seconds.
#[derive(Drop)]
struct Instant(Timestamp);

fn at_second(alloc: Global, second: i64) -> Result<Instant, ReadError>
    ensures { ReadsAs (λ t. t.0.nanosecond) result (instant_at second) }
{
    match Timestamp::from_second(second) {
        Ok(at) => Ok(Instant(at)),
        Err(_) => Err(ReadError::whole(alloc, ParseCause::OutOfRange)),
    }
}

impl FromJson for Instant {
    ghost Meaning = { ℤ };

    ghost meaning = { λ t. t.0.nanosecond };

    ghost reading = { instant };

    fn from_json(alloc: Global, value: Value) -> Result<Instant, ReadError> {
        match value {
            Value::Number(number) => {
                if let Some(second) = number.as_i64() {
                    at_second(alloc, second)
                } else if number.is_f64() {
                    Err(ReadError::whole(alloc, ParseCause::NotWhole))
                } else {
                    Err(ReadError::whole(alloc, ParseCause::OutOfRange))
                }
            }
            _ => Err(ReadError::whole(alloc, ParseCause::WrongType)),
        }
    }
}

/// Reads a time in whole seconds since 1970; absent and null are `None`. A number that `serde_json`
/// holds as a float, such as 1.5, is `NotWhole`. A time outside the range of `Timestamp` is
/// `OutOfRange`, and a value that is not a number is `WrongType`.
pub fn optional_time(
    alloc: Global,
    name: &str,
    found: Option<Value>,
) -> Result<Option<Timestamp>, ReadError>
    ensures { ReadsAs (option_map (λ t. t.nanosecond)) result
        (optional_member instant name.now (option_map view found)) }
{
    match members::optional::<Instant>(alloc, name, found)? {
        Some(Instant(at)) => Ok(Some(at)),
        None => Ok(None),
    }
}

/// Reads a time in whole seconds since 1970 that must be present. It has the faults of
/// `optional_time`; an absent time is `Missing`, and null is `WrongType`.
pub fn needed_time(alloc: Global, name: &str, found: Option<Value>) -> Result<Timestamp, ReadError>
    ensures { ReadsAs (λ t. t.nanosecond) result
        (needed_member instant name.now (option_map view found)) }
{
    let Instant(at) = members::needed::<Instant>(alloc, name, found)?;
    Ok(at)
}

// The whole seconds of a time since 1970, rounded down.
fn second_of(at: Timestamp) -> i64
    ensures { result ≡ second_of at.nanosecond }
{
    at.as_nanosecond().div_euclid(1_000_000_000) as i64
}

/// The JSON number of a time: its whole seconds since 1970, rounded down. `None` stays `None`.
pub fn time_value(at: Option<Timestamp>) -> Option<Value>
    ensures value { option_map view result
        ≡ option_map second_data (option_map (λ t. t.nanosecond) at) }
    ensures reads_back { (name : List ℕ)
        → IfSome (option_map (λ t. t.nanosecond) at) IsWholeSeconds
        → optional_member instant name (option_map view result)
        ≡ Ok (option_map (λ t. t.nanosecond) at) }
{
    match at {
        Some(at) => Some(Value::from(second_of(at))),
        None => None,
    }
}
