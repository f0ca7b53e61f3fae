//! Tests of the texts of the errors of reading and writing.

use oauth2::{ParseCause, ParseFault, ReadError, WriteError};
use oauth2_tests_support::{check_display, text};
use std::alloc::Global;
use std::error::Error;
use std::test::Fail;

// Checks what a generic caller prints that knows only this trait.
fn check_error<E: Error>(alloc: Global, error: &E, wanted: &str) -> Result<(), Fail> {
    check_display(alloc, error, wanted)
}

// Checks the text of a cause, also in a fault that names no member.
fn check_cause(alloc: Global, cause: ParseCause, wanted: &str) -> Result<(), Fail> {
    check_display(alloc, &cause, wanted)?;
    let member = text(alloc, "")?;
    check_display(alloc, &ParseFault { member, cause }, wanted)
}

#[test]
fn texts_of_causes(rt: HostRuntime) -> Result<(), Fail> {
    for (cause, wanted) in [
        (ParseCause::NotJson, "not one whole JSON value"),
        (ParseCause::NotObject, "not an object"),
        (ParseCause::Missing, "missing"),
        (ParseCause::WrongType, "of the wrong type"),
        (ParseCause::NotWhole, "not a whole number"),
        (ParseCause::OutOfRange, "out of range"),
        (ParseCause::BadUrl, "not a URL"),
        (ParseCause::BothNames, "under both of its names"),
        (ParseCause::Refused, "of another shape"),
    ] {
        check_cause(rt.alloc(), cause, wanted)?;
    }
    Ok(())
}

#[test]
fn texts_of_read_errors(rt: HostRuntime) -> Result<(), Fail> {
    check_error(rt.alloc(), &ReadError::Memory, "out of memory")?;
    let inner = ReadError::at(rt.alloc(), "expires_in", ParseCause::NotWhole);
    check_error(rt.alloc(), &inner, "expires_in: not a whole number")?;
    let outer = inner.under(rt.alloc(), "outer");
    check_error(rt.alloc(), &outer, "outer: not a whole number")
}

#[test]
fn texts_of_write_errors(rt: HostRuntime) -> Result<(), Fail> {
    for (error, wanted) in [
        (WriteError::Memory, "out of memory"),
        (
            WriteError::NameClash,
            "an extra member bears a name of the type's own",
        ),
        (WriteError::Float, "an extra member holds a float"),
    ] {
        check_error(rt.alloc(), &error, wanted)?;
    }
    Ok(())
}
