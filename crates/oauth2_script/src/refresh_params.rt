//! The parameters of the command `refresh`.

ghost use Rattle.oauth2_script.specs.RefreshParams as spec;

use crate::sent_params::sent_params;
use oauth2_script_values::{Part, PartError, listed, needed};
use oauth2_types::{RefreshToken, Scope};
use serde_json::Value;
use std::alloc::Global;

/// The parameters of the exchange of a refresh token (RFC 6749, section 6).
#[derive(Drop)]
pub struct RefreshParams {
    pub refresh_token: RefreshToken,
    pub scopes: Vec<Scope>,
    pub extra_params: Vec<(String, String)>,
}

impl Part for RefreshParams {
    ghost use Rattle.oauth2_script.specs.Views.{refresh_view};

    ghost Meaning = { spec.RefreshParams };

    ghost meaning = { refresh_view };

    ghost reading = { spec.refresh_params };

    #[tactic(auto, unfolding(crate::specs::RefreshParams::refresh_params))]
    fn from_value(alloc: Global, value: &Value) -> Result<RefreshParams, PartError> {
        let refresh_token = needed(alloc, value, "refresh_token")?;
        let scopes = listed(alloc, value, "scopes")?;
        let extra_params = sent_params(alloc, value)?;
        Ok(RefreshParams {
            refresh_token,
            scopes,
            extra_params,
        })
    }
}
