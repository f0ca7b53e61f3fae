//! The text of a run, in the form that its script asks for.

ghost use Rattle.std.specs.Prelude.{◌≡◌, IfOk, string_bytes};
ghost use Rattle.oauth2_results.specs.Result as spec;

use crate::event_json::result_text;
use crate::lines::lines_of;
use oauth2_script::ResultForm;
use oauth2_world::Events;
use std::alloc::{AllocError, Global};

/// The events of a run as text in this form.
pub fn text_of(alloc: Global, form: ResultForm, events: &Events) -> Result<String, AllocError>
    ensures { IfOk result (λ text. string_bytes text ≡ spec.text_in form events.now) }
{
    match form {
        ResultForm::Lines => lines_of(alloc, events.as_slice()),
        ResultForm::Json => result_text(alloc, events.as_slice()),
    }
}
