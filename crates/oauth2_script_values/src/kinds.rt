//! How the values of scripts are read that are neither texts nor URLs.

ghost use Rattle.std.specs.Prelude.{◌≡◌, ℕ, ℤ, pos, ◌*ℤ◌, List, string_bytes};
ghost use Rattle.std.specs.Prelude.{IfErr, false};
ghost use Rattle.std.specs.Duration.{as_nanos};
ghost use Rattle.std.specs.Int.NonZero.{non_zero_u64_get};
ghost use Rattle.serde_json.specs.View.{view, items_view, number_view};
ghost use Rattle.oauth2_types.specs.Pkce.{Challenge};
ghost use Rattle.oauth2_script_values.specs.Part as spec;
ghost use Rattle.oauth2_script_values.specs.Gives.{Gives, IsBad};
ghost use Rattle.oauth2_script_values.specs.Reading.{map_read};

use crate::part::{Part, read_inside};
use crate::part_error::{PartError, bad};
use crate::path::Step;
use crate::script_cause::ScriptCause;
use http::StatusCode;
use http_header::HeaderValue;
use jiff_core::Timestamp;
use oauth2_types::{PkceCodeChallenge, PkceCodeVerifier};
use serde_json::{Number, Value};
use std::alloc::Global;
use std::num::NonZeroU64;
use std::time::Duration;

fn two_texts(alloc: Global, values: &[Value]) -> Result<(String, String), PartError>
    ensures { Gives (λ p. (string_bytes p.0, string_bytes p.1)) result
        (spec.pair_of (items_view values.now)) }
{
    if values.len() != 2 {
        return Err(bad(ScriptCause::WrongType));
    }
    let pair = pair_from(alloc, &values[0], &values[1])?;
    Ok(pair)
}

fn pair_from(alloc: Global, name: &Value, value: &Value) -> Result<(String, String), PartError>
    ensures { Gives (λ p. (string_bytes p.0, string_bytes p.1)) result
        (spec.pair_from (view name.now) (view value.now)) }
{
    let name = read_inside(alloc, Step::Item(0), name)?;
    let value = read_inside(alloc, Step::Item(1), value)?;
    Ok((name, value))
}

/// A name and a value, from a list of exactly two texts.
impl Part for (String, String) {
    ghost Meaning = { List ℕ × List ℕ };

    ghost meaning = { λ p. (string_bytes p.0, string_bytes p.1) };

    ghost reading = { spec.pair_part };

    fn from_value(alloc: Global, value: &Value) -> Result<(String, String), PartError> {
        let list = value.as_array().ok_or(bad(ScriptCause::WrongType))?;
        two_texts(alloc, list.as_slice())
    }
}

/// A code verifier of 43 to 128 bytes (RFC 7636, section 4.1).
impl Part for PkceCodeVerifier {
    ghost Meaning = { List ℕ };

    ghost meaning = { λ verifier. verifier };

    ghost reading = { spec.verifier };

    fn from_value(alloc: Global, value: &Value) -> Result<PkceCodeVerifier, PartError> {
        let verifier = PkceCodeVerifier::new(String::from_value(alloc, value)?);
        if verifier.has_valid_length() {
            Ok(verifier)
        } else {
            Err(bad(ScriptCause::BadText))
        }
    }
}

/// The S256 challenge of a code verifier (RFC 7636, section 4.2).
impl Part for PkceCodeChallenge {
    ghost Meaning = { Challenge };

    ghost meaning = { λ challenge. challenge };

    ghost reading = { spec.challenge_part };

    fn from_value(alloc: Global, value: &Value) -> Result<PkceCodeChallenge, PartError> {
        let verifier = PkceCodeVerifier::from_value(alloc, value)?;
        Ok(PkceCodeChallenge::from_code_verifier_sha256(alloc, &verifier)?)
    }
}

/// The value of a header field: a text without control characters other than a tab.
impl Part for HeaderValue {
    ghost Meaning = { List ℕ };

    ghost meaning = { λ v. v.bytes };

    ghost reading = { spec.field };

    fn from_value(alloc: Global, value: &Value) -> Result<HeaderValue, PartError> {
        let text = value.as_str().ok_or(bad(ScriptCause::WrongType))?;
        Ok(HeaderValue::from_bytes(alloc, text.as_bytes())?)
    }
}

/// A value of any kind, as it is.
impl Part for Value {
    ghost use Rattle.serde_json.specs.Data.{Data};
    ghost use Rattle.serde_json.specs.View.{view};

    ghost Meaning = { Data };

    ghost meaning = { view };

    ghost reading = { spec.any_value };

    fn from_value(_alloc: Global, value: &Value) -> Result<Value, PartError> {
        Ok(value.clone()?)
    }
}

// A whole number that is not negative.
fn natural(number: &Number) -> Result<u64, PartError>
    ensures read { Gives (λ n. n) result (spec.natural (number_view number.now)) }
    ensures fed { IfErr result IsBad }
{
    if number.is_f64() {
        return Err(bad(ScriptCause::WrongType));
    }
    number.as_u64().ok_or(bad(ScriptCause::OutOfRange))
}

// A value that is a whole number and not negative.
fn whole_number(value: &Value) -> Result<u64, PartError>
    ensures read { Gives (λ n. n) result (spec.whole_number (view value.now)) }
    ensures fed { IfErr result IsBad }
{
    let number = value.as_number().ok_or(bad(ScriptCause::WrongType))?;
    natural(number)
}

/// A status code of HTTP, 100 to 999.
impl Part for StatusCode {
    ghost Meaning = { ℕ };

    ghost meaning = { λ code. code };

    ghost reading = { spec.status };

    ghost allocates = { false };

    fn from_value(_alloc: Global, value: &Value) -> Result<StatusCode, PartError> {
        let code = whole_number(value)?;
        if code < 100 || 999 < code {
            return Err(bad(ScriptCause::OutOfRange));
        }
        match StatusCode::from_u16(code as u16) {
            Ok(status) => Ok(status),
            Err(_) => Err(bad(ScriptCause::OutOfRange)),
        }
    }
}

fn moment_at(second: i64) -> Result<Timestamp, PartError>
    ensures read { Gives (λ t. t.nanosecond) result
        (map_read (λ z. z *ℤ pos 1_000_000_000) (spec.second_in_range second)) }
    ensures fed { IfErr result IsBad }
{
    match Timestamp::from_nanosecond(second as i128 * 1_000_000_000) {
        Ok(moment) => Ok(moment),
        Err(_) => Err(bad(ScriptCause::OutOfRange)),
    }
}

// The moment of a whole number of seconds. A number past 2^63 - 1 is past the range too.
fn moment_of(number: &Number) -> Result<Timestamp, PartError>
    ensures read { Gives (λ t. t.nanosecond) result
        (spec.moment_of (number_view number.now)) }
    ensures fed { IfErr result IsBad }
{
    match number.as_i64() {
        Some(second) => moment_at(second),
        None if number.is_f64() => Err(bad(ScriptCause::WrongType)),
        None => Err(bad(ScriptCause::OutOfRange)),
    }
}

/// A moment from whole seconds since 1970, inside the range of a `jiff` timestamp.
impl Part for Timestamp {
    ghost Meaning = { ℤ };

    ghost meaning = { λ t. t.nanosecond };

    ghost reading = { spec.moment };

    ghost allocates = { false };

    fn from_value(_alloc: Global, value: &Value) -> Result<Timestamp, PartError> {
        let second = value.as_number().ok_or(bad(ScriptCause::WrongType))?;
        moment_of(second)
    }
}

/// A length of time from whole seconds, 0 to 2^64 - 1.
impl Part for Duration {
    ghost Meaning = { ℕ };

    ghost meaning = { as_nanos };

    ghost reading = { spec.duration };

    ghost allocates = { false };

    fn from_value(_alloc: Global, value: &Value) -> Result<Duration, PartError> {
        let seconds = whole_number(value)?;
        Ok(Duration::from_secs(seconds))
    }
}

/// A whole number, 0 to 255.
impl Part for u8 {
    ghost Meaning = { ℕ };

    ghost meaning = { λ n. n };

    ghost reading = { spec.small_number };

    ghost allocates = { false };

    fn from_value(_alloc: Global, value: &Value) -> Result<u8, PartError> {
        let number = whole_number(value)?;
        if number > 255 {
            return Err(bad(ScriptCause::OutOfRange));
        }
        Ok(number as u8)
    }
}

/// A whole number, 1 to 2^64 - 1.
impl Part for NonZeroU64 {
    ghost Meaning = { ℕ };

    ghost meaning = { non_zero_u64_get };

    ghost reading = { spec.count };

    ghost allocates = { false };

    fn from_value(_alloc: Global, value: &Value) -> Result<NonZeroU64, PartError> {
        let number = whole_number(value)?;
        NonZeroU64::new(number).ok_or(bad(ScriptCause::OutOfRange))
    }
}
