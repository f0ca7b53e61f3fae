//! Tests of the helpers for types that a user defines (lists in one text, audiences, codes and
//! variants), and of members that the types here do not need.

use crate::support::{is_fault, parse, scope_list};
use jiff::Timestamp;
use oauth2::basic::BasicTokenType;
use oauth2::helpers::{
    VariantName, deserialize_optional_string_or_vec_string, deserialize_space_delimited_vec,
    deserialize_untagged_enum_case_insensitive, serialize_space_delimited_vec, variant_name,
};
use oauth2::{ParseCause, ReadError, Scope, members};
use oauth2_tests_support::{check, check_equal, check_text, check_written};
use serde_json::Value;
use std::alloc::{AllocError, Global};
use std::convert::AsStr;
use std::test::Fail;

#[test]
fn ascii_letters_are_lowered(rt: HostRuntime) -> Result<(), Fail> {
    let value = parse(rt.alloc(), r#""ÄB""#)?;
    let read = deserialize_untagged_enum_case_insensitive::<BasicTokenType>(rt.alloc(), value)?;
    check_text(read.as_str(), "Äb")?;
    check_written(rt.alloc(), &read, r#""Äb""#)
}

// How many scopes the value is read as; `None` if it cannot be read.
fn count_of(alloc: Global, value: Value) -> Result<Option<usize>, Fail> {
    let read = deserialize_space_delimited_vec::<Scope>(alloc, value)?;
    Ok(match &read {
        Some(scopes) => Some(scopes.len()),
        None => None,
    })
}

// The value that the list is written as.
fn joined(alloc: Global, scopes: Option<Vec<Scope>>) -> Result<Value, AllocError> {
    serialize_space_delimited_vec(alloc, &scopes)
}

// Checks the JSON text of a value.
fn check_value(alloc: Global, value: &Value, wanted: &str) -> Result<(), Fail> {
    let written = value.to_string(alloc)?;
    check_text(written.as_str(), wanted)
}

// Checks that the list is written as this text, which is read as this many scopes.
fn check_split(
    alloc: Global,
    scopes: Option<Vec<Scope>>,
    written: &str,
    pieces: Option<usize>,
) -> Result<(), Fail> {
    let value = joined(alloc, scopes)?;
    check_value(alloc, &value, written)?;
    check_equal(count_of(alloc, value)?, pieces)
}

#[test]
fn scopes_are_split_at_every_space(rt: HostRuntime) -> Result<(), Fail> {
    check_split(rt.alloc(), None, "null", None)?;
    check_split(rt.alloc(), Some(Vec::new(rt.alloc())), r#""""#, Some(1))?;
    check_split(
        rt.alloc(),
        Some(scope_list(rt.alloc(), "a b")?),
        r#""a b""#,
        Some(2),
    )
}

// Checks that the list is written as this text.
fn check_list(alloc: Global, list: &Option<Vec<String>>, wanted: &str) -> Result<(), Fail> {
    let value = members::texts_value(alloc, list)?.ok_or("no value")?;
    check_value(alloc, &value, wanted)
}

// Checks that the text is read as an audience that is written as `wanted`.
fn check_audience_written_as(alloc: Global, text: &str, wanted: &str) -> Result<(), Fail> {
    let list = deserialize_optional_string_or_vec_string(alloc, parse(alloc, text)?)?;
    check_list(alloc, &list, wanted)
}

#[test]
fn audience_is_a_text_or_a_list(rt: HostRuntime) -> Result<(), Fail> {
    for (text, wanted) in [
        (r#""a""#, r#"["a"]"#),
        (r#"["a","b"]"#, r#"["a","b"]"#),
        ("[]", "[]"),
    ] {
        check_audience_written_as(rt.alloc(), text, wanted)?;
    }
    let mixed = deserialize_optional_string_or_vec_string(
        rt.alloc(),
        parse(rt.alloc(), r#"["a",1]"#)?,
    );
    check(is_fault(mixed, "", ParseCause::WrongType), "a mixed list")
}

struct Plain;

impl VariantName for Plain {
    ghost use Rattle.std.specs.Prelude.{codes};

    ghost variant = { λ _. codes "Plain" };

    fn variant_name(&self) -> &'static str {
        "Plain"
    }
}

#[test]
fn variants_have_names(rt: HostRuntime) -> Result<(), Fail> {
    check_text(variant_name(&Plain), "Plain")
}

// Checks that the time is written as this second, and that this second is read as a time.
fn check_second(alloc: Global, nanosecond: i128, second: &str) -> Result<(), Fail> {
    let at = Timestamp::from_nanosecond(nanosecond)?;
    let value = members::time_value(Some(at)).ok_or("no value")?;
    check_value(alloc, &value, second)?;
    let read = members::optional_time(alloc, "exp", Some(value))?;
    check(read.is_some(), second)
}

#[test]
fn times_are_whole_seconds_rounded_down(rt: HostRuntime) -> Result<(), Fail> {
    for (nanosecond, second) in [
        (-500_000_000, "-1"),
        (500_000_000, "0"),
        (-1_000_000_000, "-1"),
    ] {
        check_second(rt.alloc(), nanosecond, second)?;
    }
    Ok(())
}

type Present = Result<Option<String>, ReadError>;

// The text of a member that may be absent, but not null.
fn present(alloc: Global, found: Option<Value>) -> Present {
    members::present::<String>(alloc, "c", found)
}

fn check_present(read: Present, wanted: Option<&str>) -> Result<(), Fail> {
    let text = read?;
    check_equal(text.as_deref(), wanted)
}

#[test]
fn members_that_are_not_null(rt: HostRuntime) -> Result<(), Fail> {
    let word = parse(rt.alloc(), r#""x""#)?;
    check_present(present(rt.alloc(), Some(word)), Some("x"))?;
    check_present(present(rt.alloc(), None), None)?;
    let null = present(rt.alloc(), Some(Value::Null));
    check(is_fault(null, "c", ParseCause::WrongType), "null")
}
