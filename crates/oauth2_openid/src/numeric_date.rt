//! Times, as numbers of seconds since 1970-01-01T00:00:00Z (RFC 7519, section 2).

ghost use Rattle.std.specs.Prelude.{◌≡◌, ℤ, ◌<◌, ◌^◌, ◌*ℤ◌, pos, false, option_map, MatchOption};
ghost use Rattle.std.specs.Duration.{FitsDurationSecs, nanos_of_secs};
ghost use Rattle.std.specs.Float.{float_with_sign};
ghost use Rattle.std.specs.Result.{result_ok};
ghost use Rattle.serde_json.specs.View.{number_view};
ghost use Rattle.oauth2_openid.specs.Times.{float_time, moment, number_time, time};

use jiff::Timestamp;
use oauth2_json::{FromJson, ParseCause, ReadError};
use serde_json::{Number, Value};
use std::alloc::Global;
use std::time::Duration;

/// A time as a JSON number of seconds since 1970-01-01T00:00:00Z, whole or not (RFC 7519, section
/// 2), read to the nearest nanosecond.
#[derive(Drop)]
pub struct NumericDate(pub Timestamp);

impl FromJson for NumericDate {
    ghost Meaning = { ℤ };

    ghost meaning = { λ t. t.0.nanosecond };

    ghost reading = { time };

    fn from_json(alloc: Global, value: Value) -> Result<NumericDate, ReadError> {
        match value {
            Value::Number(number) => match moment_of(&number) {
                Some(at) => Ok(NumericDate(at)),
                None => Err(ReadError::whole(alloc, ParseCause::OutOfRange)),
            },
            _ => Err(ReadError::whole(alloc, ParseCause::WrongType)),
        }
    }
}

// The moment that many seconds after 1970 began; `None` if `Timestamp` cannot hold it.
pub(crate) fn moment_of(seconds: &Number) -> Option<Timestamp>
    ensures { option_map (λ t. t.nanosecond) result
        ≡ result_ok (number_time (number_view seconds.now)) }
{
    if let Some(whole) = seconds.as_i64() {
        return moment_of_whole(whole);
    }
    if !seconds.is_f64() {
        return None;
    }
    moment_of_float(seconds.as_f64()?)
}

fn moment_of_whole(seconds: i64) -> Option<Timestamp>
    ensures { option_map (λ t. t.nanosecond) result
        ≡ result_ok (moment (seconds *ℤ pos 1_000_000_000)) }
{
    Timestamp::from_second(seconds).ok()
}

fn moment_at(nanosecond: i128) -> Option<Timestamp>
    ensures { option_map (λ t. t.nanosecond) result ≡ result_ok (moment nanosecond) }
{
    Timestamp::from_nanosecond(nanosecond).ok()
}

// The absolute value of the seconds in nanoseconds; `None` unless it is less than 2^64 seconds. The
// doubles of this century are 238 nanoseconds apart.
fn size_of(seconds: f64) -> Option<i128>
    ensures { MatchOption result (¬ FitsDurationSecs (float_with_sign false seconds))
        (λ size. FitsDurationSecs (float_with_sign false seconds)
        × (size ≡ pos (nanos_of_secs (float_with_sign false seconds)))
        × (nanos_of_secs (float_with_sign false seconds) < 2 ^ 100)) }
{
    match Duration::try_from_secs_f64(seconds.abs()) {
        Ok(size) => Some(size.as_nanos() as i128),
        Err(_) => None,
    }
}

// The moment that many seconds after 1970 began, to the nearest nanosecond; `None` if `Timestamp`
// cannot hold it.
fn moment_of_float(seconds: f64) -> Option<Timestamp>
    ensures { option_map (λ t. t.nanosecond) result ≡ result_ok (float_time seconds) }
{
    match size_of(seconds) {
        Some(size) => if seconds.is_sign_negative() {
            moment_at(-size)
        } else {
            moment_at(size)
        },
        None => None,
    }
}
