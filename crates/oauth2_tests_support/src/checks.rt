//! Checks that return a failure. (A call is much cheaper to prove than an assertion.)

ghost use Rattle.std.specs.Prelude.{◌≡◌, true, OnOk};

use crate::values::read;
use oauth2_json::{FromJson, ParseCause, ReadError, ToJson, compact};
use std::alloc::Global;
use std::fmt::{Debug, Display};
use std::test::Fail;

/// Checks a condition, for one row of a table.
pub fn check(is_so: bool, row: &str) -> Result<(), Fail>
    ensures { OnOk result (is_so ≡ true) }
{
    if is_so {
        Ok(())
    } else {
        Err(Fail::new(format_args!("at {row}")))
    }
}

/// Checks that the two are equal.
pub fn check_equal<T: PartialEq + Debug + Drop>(found: T, wanted: T) -> Result<(), Fail> {
    if found == wanted {
        Ok(())
    } else {
        Err(Fail::new(format_args!("found {found:?}, wanted {wanted:?}")))
    }
}

/// Checks that the texts are equal.
pub fn check_text(found: &str, wanted: &str) -> Result<(), Fail> {
    if found == wanted {
        Ok(())
    } else {
        Err(Fail::new(format_args!("found {found:?}, wanted {wanted:?}")))
    }
}

/// Checks the text that the value prints by `{:?}`.
pub fn check_debug<T: Debug>(alloc: Global, value: &T, wanted: &str) -> Result<(), Fail> {
    check_text(format!(in alloc; "{value:?}")?.as_str(), wanted)
}

/// Checks the text that the value displays.
pub fn check_display<T: Display>(alloc: Global, value: &T, wanted: &str) -> Result<(), Fail> {
    check_text(format!(in alloc; "{value}")?.as_str(), wanted)
}

/// Checks that the value is written as this JSON text.
pub fn check_written<T: ToJson>(alloc: Global, value: &T, wanted: &str) -> Result<(), Fail> {
    check_text(compact(alloc, value)?.as_str(), wanted)
}

/// Checks that the body cannot be read, and that the error has this member and this cause.
pub fn check_fault<T: FromJson + Drop>(
    alloc: Global,
    body: &str,
    member: &str,
    cause: ParseCause,
) -> Result<(), Fail> {
    match read::<T>(alloc, body) {
        Err(ReadError::Fault(fault)) => {
            check_text(fault.member.as_str(), member)?;
            check_equal(fault.cause, cause)
        }
        _ => Err(Fail::new(format_args!("no fault in {body}"))),
    }
}
