//! The form in which a script asks for its result.

ghost use Rattle.std.specs.Prelude.{◌≡◌, codes};
ghost use Rattle.serde_json.specs.View.{view};
ghost use Rattle.oauth2_script.specs.Form as spec;
ghost use Rattle.oauth2_script_values.specs.Part.{needed_part};

use oauth2_script_values::{Part, PartError, ScriptCause, bad, needed};
use serde_json::Value;
use std::alloc::Global;

/// The form in which the result of a run is written.
#[derive(Clone, Copy, Debug, PartialEq, Eq)]
pub enum ResultForm {
    /// Lines of text.
    Lines,
    /// One JSON object.
    Json,
}

impl Part for ResultForm {
    ghost use Rattle.std.specs.Prelude.{false};
    ghost use Rattle.oauth2_script.specs.declared.form.ResultForm.{ResultForm};

    ghost Meaning = { ResultForm };

    ghost meaning = { λ form. form };

    ghost reading = { spec.form_part };

    ghost allocates = { false };

    #[tactic(auto, unfolding(crate::specs::Form::form_of))]
    fn from_value(_alloc: Global, value: &Value) -> Result<ResultForm, PartError> {
        match value.as_str() {
            Some("lines") => Ok(ResultForm::Lines),
            Some("json") => Ok(ResultForm::Json),
            Some(_) => Err(bad(ScriptCause::UnknownWord)),
            None => Err(bad(ScriptCause::WrongType)),
        }
    }
}

/// The form that a value names by its member `result`; lines if it names none.
pub fn result_form(alloc: Global, value: &Value) -> ResultForm
    ensures { result
        ≡ spec.or_lines (needed_part spec.form_part (codes "result") (view value.now)) }
{
    match needed(alloc, value, "result") {
        Ok(form) => form,
        Err(_) => ResultForm::Lines,
    }
}
