//! How the parts of a script are read from a JSON value.

ghost use Rattle.std.specs.Prelude.{◌≡◌, List, map, option_map, IfErr, IsErrAnd, false};
ghost use Rattle.serde_json.specs.Find.{get};
ghost use Rattle.serde_json.specs.View.{view, items_view};
ghost use Rattle.oauth2_script_values.specs.Part as spec;
ghost use Rattle.oauth2_script_values.specs.Reading.{inside};
ghost use Rattle.oauth2_script_values.specs.Gives.{Gives, IsBad, step_view};

use crate::part_error::{PartError, bad, bad_member};
use crate::path::Step;
use crate::script_cause::ScriptCause;
use serde_json::Value;
use std::alloc::Global;

/// A type that is read from a JSON value of a script.
pub trait Part: Sized {
    ghost use Rattle.std.specs.Prelude.{◌≡◌, Bool, true, false, IfErr};
    ghost use Rattle.serde_json.specs.Data.{Data};
    ghost use Rattle.serde_json.specs.View.{view};
    ghost use Rattle.oauth2_script_values.specs.Gives.{Gives, IsBad};
    ghost use Rattle.oauth2_script_values.specs.Reading.{Reading};

    /// The view of a value of this type: what contracts see of it.
    ghost Meaning: { Type 0 };

    ghost meaning: { Self → Meaning };

    /// The part that a JSON value is read as, or its fault.
    ghost reading: { Data → Reading Meaning };

    /// Whether reading a value may run out of memory.
    ghost allocates: { Bool } = { true };

    /// Reads a value. `Bad` is returned only for a bad value, `Memory` only if reading allocates.
    fn from_value(alloc: Global, value: &Value) -> Result<Self, PartError>
        ensures read { Gives meaning result (reading (view value.now)) }
        ensures fed { allocates ≡ false → IfErr result IsBad };
}

/// Reads a value that is one step further in.
pub fn read_inside<T: Part>(alloc: Global, step: Step, value: &Value) -> Result<T, PartError>
    ensures read { Gives T.meaning result
        (inside (step_view step) (T.reading (view value.now))) }
    ensures fed { T.allocates ≡ false → IfErr result IsBad }
{
    match T::from_value(alloc, value) {
        Ok(part) => Ok(part),
        Err(PartError::Bad(fault)) => Err(PartError::Bad(fault.inside(step))),
        Err(PartError::Memory) => Err(PartError::Memory),
    }
}

/// Reads the member of this name; `Missing` if it is absent.
#[tactic(auto, unfolding(crate::specs::Part::needed_part))]
pub fn needed<T: Part>(alloc: Global, object: &Value, name: &'static str) -> Result<T, PartError>
    ensures read { Gives T.meaning result (spec.needed_part T.reading name.now (view object.now)) }
    ensures absent { get name.now (view object.now) ≡ None → IsErrAnd result IsBad }
    ensures fed { T.allocates ≡ false → IfErr result IsBad }
{
    match object.get(name) {
        None => Err(PartError::Bad(bad_member(name, ScriptCause::Missing))),
        Some(value) => Ok(read_inside(alloc, Step::Member(name), value)?),
    }
}

/// Reads the member of this name; `None` if it is absent. A null is read as a value.
#[tactic(auto, unfolding(crate::specs::Part::present_part))]
pub fn optional<T: Part>(
    alloc: Global,
    object: &Value,
    name: &'static str,
) -> Result<Option<T>, PartError>
    ensures read { Gives (option_map T.meaning) result
        (spec.present_part T.reading name.now (view object.now)) }
    ensures fed { T.allocates ≡ false → IfErr result IsBad }
{
    match object.get(name) {
        None => Ok(None),
        Some(value) => Ok(Some(read_inside(alloc, Step::Member(name), value)?)),
    }
}

/// Reads each item of a list; a fault names the item by its index.
pub fn each<T: Part + Drop>(alloc: Global, values: &[Value]) -> Result<Vec<T>, PartError>
    ensures { Gives (λ v. map T.meaning v.items) result
        (spec.each_item T.reading 0 (items_view values.now)) }
{
    let mut parts = Vec::new(alloc);
    for value in values {
        let step = Step::Item(parts.len());
        parts.push(read_inside(alloc, step, value)?)?;
    }
    Ok(parts)
}

/// A list of parts.
impl<T: Part + Drop> Part for Vec<T> {
    ghost Meaning = { List T.Meaning };

    ghost meaning = { λ v. map T.meaning v.items };

    ghost reading = { spec.list_of T.reading };

    fn from_value(alloc: Global, value: &Value) -> Result<Vec<T>, PartError> {
        let list = value.as_array().ok_or(bad(ScriptCause::WrongType))?;
        let read = each(alloc, list.as_slice())?;
        Ok(read)
    }
}

/// Reads the list of this name; an absent one is empty.
#[tactic(auto, unfolding(crate::specs::Part::list_part))]
pub fn listed<T: Part + Drop>(
    alloc: Global,
    object: &Value,
    name: &'static str,
) -> Result<Vec<T>, PartError>
    ensures { Gives (λ v. map T.meaning v.items) result
        (spec.list_part T.reading name.now (view object.now)) }
{
    match object.get(name) {
        None => Ok(Vec::new(alloc)),
        Some(value) => Ok(read_inside(alloc, Step::Member(name), value)?),
    }
}

/// Reads a part from the object `params`.
pub fn of_params<T: Part>(alloc: Global, params: &Value) -> Result<T, PartError>
    ensures { Gives T.meaning result (spec.of_params T.reading (view params.now)) }
{
    let part = read_inside(alloc, Step::Member("params"), params)?;
    Ok(part)
}

/// Tells whether the value is an object.
pub fn an_object(value: &Value) -> Result<(), PartError>
    ensures read { Gives (λ _. view value.now) result (spec.an_object (view value.now)) }
    ensures fed { IfErr result IsBad }
{
    if value.is_object() {
        Ok(())
    } else {
        Err(bad(ScriptCause::NotObject))
    }
}
