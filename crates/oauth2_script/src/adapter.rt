//! The adapters that a script's client puts around its replies.

ghost use Rattle.oauth2_script.specs.Adapter as spec;

use oauth2_script_values::{Part, PartError, ScriptCause, bad};
use serde_json::Value;
use std::alloc::Global;

/// An adapter of `oauth2_adapters`, by its name in a script.
#[derive(Clone, Copy, Debug, PartialEq, Eq)]
pub enum Adapter {
    /// Commas in `scope` become spaces.
    CommasInScopes,
    /// An error response that came with status 200 gets status 400.
    ErrorsAtStatus200,
    /// A form becomes a JSON object.
    FormBodies,
    /// `expires_in` and `interval` become numbers if they are texts of decimal digits.
    NumbersAsTexts,
    /// `text/javascript` and `text/plain` become `application/json`.
    OtherMediaTypes,
}

impl Part for Adapter {
    ghost use Rattle.std.specs.Prelude.{false};
    ghost use Rattle.oauth2_script.specs.declared.adapter.Adapter.{Adapter};

    ghost Meaning = { Adapter };

    ghost meaning = { λ adapter. adapter };

    ghost reading = { spec.adapter };

    ghost allocates = { false };

    #[tactic(auto, unfolding(crate::specs::Adapter::adapter_of))]
    fn from_value(_alloc: Global, value: &Value) -> Result<Adapter, PartError> {
        match value.as_str() {
            Some("commas_in_scopes") => Ok(Adapter::CommasInScopes),
            Some("errors_at_status_200") => Ok(Adapter::ErrorsAtStatus200),
            Some("form_bodies") => Ok(Adapter::FormBodies),
            Some("numbers_as_texts") => Ok(Adapter::NumbersAsTexts),
            Some("other_media_types") => Ok(Adapter::OtherMediaTypes),
            Some(_) => Err(bad(ScriptCause::UnknownWord)),
            None => Err(bad(ScriptCause::WrongType)),
        }
    }
}
