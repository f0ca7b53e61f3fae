//! The JSON value of an input.

ghost use Rattle.serde_json.specs.View.{view};
ghost use Rattle.oauth2_script_values.specs.Json as spec;
ghost use Rattle.oauth2_script_values.specs.Gives.{Gives};

use crate::part_error::{PartError, bad};
use crate::script_cause::ScriptCause;
use serde_json::Value;
use std::alloc::Global;

/// Reads the whole input as one JSON value; `NotJson` if it is none.
#[tactic(auto, unfolding(crate::specs::Json::json_in))]
pub fn json_in(alloc: Global, input: &[u8]) -> Result<Value, PartError>
    ensures { Gives view result (spec.json_in input.now) }
{
    match Value::from_slice(alloc, input) {
        Ok(value) => Ok(value),
        Err(e) => {
            if e.is_memory() {
                Err(PartError::Memory)
            } else {
                Err(bad(ScriptCause::NotJson))
            }
        }
    }
}
