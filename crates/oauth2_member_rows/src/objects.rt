//! Whole JSON objects, read and written by their rows.

ghost use Rattle.std.specs.Prelude.{◌≡◌, true, IfOk};
ghost use Rattle.serde_json.specs.Data.{object, no_members};
ghost use Rattle.serde_json.specs.View.{view};
ghost use Rattle.oauth2_json.specs.Body.{body_reading};
ghost use Rattle.oauth2_json.specs.Puts.{put_all};
ghost use Rattle.oauth2_json.specs.Reading.{ReadsAs};
ghost use Rattle.oauth2_json.specs.Writing.{WritesAs};
ghost use Rattle.oauth2_body_members.specs.Object.{object_members};
ghost use Rattle.oauth2_member_rows.specs.Rows.{are_distinct};
ghost use Rattle.oauth2_member_rows.specs.Objects.{as_it_is, object_reading, row_with, reading_with};
ghost use Rattle.oauth2_member_rows.specs.Objects.{reading_after, both_seen, writing_with};

use crate::rows::{Rows, WriteRows};
use oauth2_body_members::Object;
use oauth2_json::{FromJson, ReadError, ToJson, WriteError, members};
use serde_json::{Map, Value};
use std::alloc::{AllocError, Global};

/// Reads an object by its rows. Its other members are ignored.
pub fn read_object<R: Rows>(rows: &R, alloc: Global, value: Value) -> Result<R::Values, ReadError>
    requires { are_distinct (R.names rows.now) ≡ true }
    ensures { ReadsAs R.meaning result (object_reading (R.reading rows.now) (view value)) }
{
    let mut object = Object::of_value(alloc, value)?;
    rows.read(alloc, &mut object)
}

/// Reads a whole body that is an object by its rows. Its other members are ignored.
pub fn read_body<R: Rows>(rows: &R, alloc: Global, bytes: &[u8]) -> Result<R::Values, ReadError>
    requires { are_distinct (R.names rows.now) ≡ true }
    ensures { ReadsAs R.meaning result
        (body_reading (object_reading (R.reading rows.now)) bytes.now) }
{
    let mut names = Vec::new(alloc);
    rows.push_names(&mut names)?;
    let mut object = Object::of_body(alloc, bytes, names.as_slice(), false)?;
    rows.read(alloc, &mut object)
}

/// The object that is written by these rows.
pub fn object_of<V, R: WriteRows<V>>(
    rows: &R,
    alloc: Global,
    values: V,
) -> Result<Value, AllocError>
    ensures { IfOk result (λ v.
        view v ≡ object (put_all (R.written rows.now (R.values_of values)) no_members)) }
{
    let mut members = Map::new(alloc);
    rows.put(alloc, values, &mut members)?;
    Ok(Value::Object(members))
}

/// Reads an object by its rows, and returns its other members as an object.
pub fn read_value_and_others<R: Rows>(
    rows: &R,
    alloc: Global,
    value: Value,
) -> Result<(R::Values, Value), ReadError>
    requires { are_distinct (R.names rows.now) ≡ true }
    ensures { ReadsAs (both_seen R.meaning view) result
        (reading_with (R.names rows.now) (R.reading rows.now) as_it_is (view value)) }
{
    let mut all = Object::of_value(alloc, value)?;
    let values = rows.read(alloc, &mut all)?;
    let others = all.into_value(alloc)?;
    Ok((values, others))
}

/// Reads an object by its rows, and its other members as an `E`.
pub fn read_value_with<R: Rows, E: FromJson + Drop>(
    rows: &R,
    alloc: Global,
    value: Value,
) -> Result<(R::Values, E), ReadError>
    requires { are_distinct (R.names rows.now) ≡ true }
    ensures { ReadsAs (both_seen R.meaning E.meaning) result
        (reading_with (R.names rows.now) (R.reading rows.now) E.reading (view value)) }
{
    let object = Object::of_value(alloc, value)?;
    read_with(rows, alloc, object)
}

/// Reads a whole body that is an object, as `read_value_with` reads a value.
pub fn read_body_with<R: Rows, E: FromJson + Drop>(
    rows: &R,
    alloc: Global,
    bytes: &[u8],
) -> Result<(R::Values, E), ReadError>
    requires { are_distinct (R.names rows.now) ≡ true }
    ensures { ReadsAs (both_seen R.meaning E.meaning) result (body_reading
        (reading_with (R.names rows.now) (R.reading rows.now) E.reading) bytes.now) }
{
    let mut names = Vec::new(alloc);
    rows.push_names(&mut names)?;
    let object = Object::of_body(alloc, bytes, names.as_slice(), E::reads_members())?;
    read_with(rows, alloc, object)
}

fn read_with<R: Rows, E: FromJson + Drop>(
    rows: &R,
    alloc: Global,
    mut object: Object<'_>,
) -> Result<(R::Values, E), ReadError>
    requires { are_distinct (R.names rows.now) ≡ true }
    ensures { ReadsAs (both_seen R.meaning E.meaning) result
        (row_with (R.names rows.now) (R.reading rows.now) E.reading
        (object_members object.entry)) }
{
    let values = rows.read(alloc, &mut object)?;
    let extra = E::from_json(alloc, object.into_value(alloc)?)?;
    Ok((values, extra))
}

/// As `read_value_with`, but a fault of the `E` is told before one of the rows.
pub fn read_value_after<R: Rows, E: FromJson + Drop>(
    rows: &R,
    alloc: Global,
    value: Value,
) -> Result<(E, R::Values), ReadError>
    requires { are_distinct (R.names rows.now) ≡ true }
    ensures { ReadsAs (both_seen E.meaning R.meaning) result
        (reading_after (R.names rows.now) (R.reading rows.now) E.reading (view value)) }
{
    let mut members = Object::of_value(alloc, value)?;
    let values = rows.read(alloc, &mut members);
    let extra = E::from_json(alloc, members.into_value(alloc)?)?;
    Ok((extra, values?))
}

/// The object that is written by these rows, next to the members of `extra`.
pub fn object_with<V: Drop, R: Rows + WriteRows<V>, E: ToJson>(
    rows: &R,
    alloc: Global,
    values: V,
    extra: &E,
) -> Result<Value, WriteError>
    ensures { WritesAs result (writing_with (R.names rows.now)
        (R.written rows.now (R.values_of values)) (E.writing extra.now)) }
{
    let mut names = Vec::new(alloc);
    rows.push_names(&mut names)?;
    let mut members = members::beside(names.as_slice(), extra.to_json(alloc)?)?;
    rows.put(alloc, values, &mut members)?;
    Ok(Value::Object(members))
}
