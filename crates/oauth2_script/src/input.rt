//! What an input asks for, read from its bytes.

ghost use Rattle.std.specs.Prelude.{◌≡◌, IfOk};
ghost use Rattle.oauth2_script.specs.Form.{form_in};
ghost use Rattle.oauth2_script.specs.Script.{script_in};
ghost use Rattle.oauth2_script.specs.Views.{read_view};

use crate::form::{ResultForm, result_form};
use crate::script::{Script, read_script};
use crate::script_fault::{ScriptFault, script_fault};
use oauth2_script_values::{PartError, json_in};
use std::alloc::{AllocError, Global};

/// What an input asks for: the form of its result, and its script, or the first fault of that.
#[derive(Drop)]
pub struct ScriptInput {
    pub form: ResultForm,
    pub script: Result<Script, ScriptFault>,
}

/// Reads the whole input as a script, and the form that it names by its member `result`.
///
/// An input that is no script may name a form too. The form is lines if the input names none.
/// An `AllocError` is returned if memory runs out, or if a URL is 4 GB or longer.
#[tactic(auto, unfolding(crate::specs::Form::form_in, crate::specs::Script::script_in))]
pub fn script_input(alloc: Global, input: &[u8]) -> Result<ScriptInput, AllocError>
    ensures form { IfOk result (λ asked. asked.form ≡ form_in input.now) }
    ensures script { IfOk result (λ asked. read_view asked.script ≡ script_in input.now) }
{
    match json_in(alloc, input) {
        Ok(value) => Ok(ScriptInput {
            form: result_form(alloc, &value),
            script: read_script(alloc, &value)?,
        }),
        Err(PartError::Bad(fault)) => Ok(ScriptInput {
            form: ResultForm::Lines,
            script: Err(script_fault(alloc, fault)?),
        }),
        Err(PartError::Memory) => Err(AllocError),
    }
}
