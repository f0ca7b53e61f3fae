//! Checks that several test files share.

use oauth2::{FromJson, ParseCause, ReadError, Scope, ToJson, TryClone, WriteError};
use oauth2_tests_support::{
    check, check_debug, check_equal, check_text, check_written, read, text,
};
use serde_json::Value;
use std::alloc::Global;
use std::fmt::Debug;
use std::hash::{DefaultHasher, Hash, Hasher};
use std::test::Fail;

/// A list of one scope.
pub fn scope_list(alloc: Global, scope: &str) -> Result<Vec<Scope>, Fail> {
    let scope = Scope::new(text(alloc, scope)?);
    Ok(vec![in alloc; scope]?)
}

/// The JSON value of a text.
pub fn parse(alloc: Global, text: &str) -> Result<Value, Fail> {
    Ok(Value::from_str(alloc, text)?)
}

/// Checks the text that the value prints by `{:#?}`.
pub fn check_debug_in_lines<T: Debug>(alloc: Global, value: &T, wanted: &str) -> Result<(), Fail> {
    check_text(format!(in alloc; "{value:#?}")?.as_str(), wanted)
}

fn hash_of<T: Hash>(value: &T) -> u64 {
    let mut hasher = DefaultHasher::new();
    value.hash(&mut hasher);
    hasher.finish()
}

/// Checks that a copy is equal and has the same hash.
pub fn check_copy_alike<T: Debug + Eq + Hash + TryClone + Drop>(
    alloc: Global,
    value: &T,
) -> Result<(), Fail> {
    let copy = value.try_clone(alloc)?;
    check(copy == *value, "a copy")?;
    check_equal(hash_of(&copy), hash_of(value))
}

// Checks the debug text of a value, its copy, and that another value differs from it.
fn check_value<T: Debug + Eq + Hash + TryClone + Drop>(
    alloc: Global,
    value: &T,
    other: &T,
    shown: &str,
) -> Result<(), Fail> {
    check_debug(alloc, value, shown)?;
    check_copy_alike(alloc, value)?;
    check(*value != *other, shown)
}

/// Checks two values with different texts: the debug text of the first, its copy, and that the two
/// differ.
pub fn check_different<T: Debug + Eq + Hash + TryClone + Drop, F: Fn(String) -> T>(
    alloc: Global,
    new: F,
    shown: &str,
) -> Result<(), Fail>
    requires { F.IsAlwaysCallable new }
{
    let value = new(text(alloc, "top_secret")?);
    let other = new(text(alloc, "top_secreu")?);
    check_value(alloc, &value, &other, shown)
}

/// Checks that what is read from the body is written as this text.
pub fn check_rewritten<T: FromJson + ToJson + Drop>(
    alloc: Global,
    body: &str,
    wanted: &str,
) -> Result<(), Fail> {
    check_written(alloc, &read::<T>(alloc, body)?, wanted)
}

/// Checks that what is read from the text is written as the same text.
pub fn check_kept<T: FromJson + ToJson + Drop>(alloc: Global, text: &str) -> Result<(), Fail> {
    check_rewritten::<T>(alloc, text, text)
}

/// Checks that a copy of what is read from the text is written as the same text.
pub fn check_copy_kept<T: FromJson + ToJson + TryClone + Drop>(
    alloc: Global,
    text: &str,
) -> Result<(), Fail> {
    let value = read::<T>(alloc, text)?;
    check_written(alloc, &value.try_clone(alloc)?, text)
}

/// Checks that writing the value fails with this error, for one row of a table.
pub fn check_not_written<T: ToJson + Drop>(
    alloc: Global,
    value: T,
    refusal: WriteError,
    row: &str,
) -> Result<(), Fail> {
    check(value.to_json(alloc).err() == Some(refusal), row)
}

/// Whether reading returned this fault.
pub fn is_fault<T: Drop>(read: Result<T, ReadError>, member: &str, cause: ParseCause) -> bool {
    let Err(ReadError::Fault(fault)) = read else {
        return false;
    };
    fault.member.as_str() == member && fault.cause == cause
}
