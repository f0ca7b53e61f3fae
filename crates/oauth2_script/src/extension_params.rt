//! The parameters of the command `extension`.

ghost use Rattle.oauth2_script.specs.ExtensionParams as spec;

use crate::absolute_uri::AbsoluteUri;
use crate::sent_params::sent_params;
use oauth2_script_values::{Part, PartError, listed, needed};
use oauth2_types::Scope;
use serde_json::Value;
use std::alloc::Global;

/// The parameters of a request by a grant type that is a URI (RFC 6749, section 4.5).
#[derive(Drop)]
pub struct ExtensionParams {
    pub grant_type: AbsoluteUri,
    pub scopes: Vec<Scope>,
    pub extra_params: Vec<(String, String)>,
}

impl Part for ExtensionParams {
    ghost use Rattle.oauth2_script.specs.Views.{extension_view};

    ghost Meaning = { spec.ExtensionParams };

    ghost meaning = { extension_view };

    ghost reading = { spec.extension_params };

    #[tactic(auto, unfolding(crate::specs::ExtensionParams::extension_params))]
    fn from_value(alloc: Global, value: &Value) -> Result<ExtensionParams, PartError> {
        let grant_type = needed(alloc, value, "grant_type")?;
        let scopes = listed(alloc, value, "scopes")?;
        let extra_params = sent_params(alloc, value)?;
        Ok(ExtensionParams {
            grant_type,
            scopes,
            extra_params,
        })
    }
}
