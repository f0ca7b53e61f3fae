//! The parameters of the command `introspect`.

ghost use Rattle.oauth2_script.specs.IntrospectParams as spec;

use crate::sent_params::asserted_extra;
use oauth2_script_values::{Part, PartError, needed, optional};
use oauth2_types::AccessToken;
use serde_json::Value;
use std::alloc::Global;

/// The parameters of an introspection request (RFC 7662, section 2.1).
#[derive(Drop)]
pub struct IntrospectParams {
    pub token: AccessToken,
    /// The `token_type_hint` that is sent.
    pub hint: Option<String>,
    pub extra_params: Vec<(String, String)>,
}

impl Part for IntrospectParams {
    ghost use Rattle.oauth2_script.specs.Views.{introspect_view};

    ghost Meaning = { spec.IntrospectParams };

    ghost meaning = { introspect_view };

    ghost reading = { spec.introspect_params };

    #[tactic(auto, unfolding(crate::specs::IntrospectParams::introspect_params))]
    fn from_value(alloc: Global, value: &Value) -> Result<IntrospectParams, PartError> {
        let token = needed(alloc, value, "token")?;
        let hint = optional(alloc, value, "hint")?;
        let extra_params = asserted_extra(alloc, value)?;
        Ok(IntrospectParams {
            token,
            hint,
            extra_params,
        })
    }
}
