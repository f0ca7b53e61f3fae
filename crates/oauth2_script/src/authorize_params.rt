//! The parameters of the command `authorize`.

ghost use Rattle.oauth2_script.specs.AuthorizeParams as spec;

use crate::sent_params::resources_and_extra;
use oauth2_script_values::{Part, PartError, listed, needed, optional};
use oauth2_types::{CsrfToken, PkceCodeChallenge, ResponseType, Scope};
use oauth2_urls::RedirectUrl;
use serde_json::Value;
use std::alloc::Global;

/// The parameters of an authorization URL (RFC 6749, section 4.1.1).
#[derive(Drop)]
pub struct AuthorizeParams {
    pub state: CsrfToken,
    pub challenge: Option<PkceCodeChallenge>,
    pub redirect: Option<RedirectUrl>,
    pub response_type: Option<ResponseType>,
    /// The nonce that is sent (OpenID Connect Core 1.0, section 3.1.2.1).
    pub nonce: Option<String>,
    pub scopes: Vec<Scope>,
    pub extra_params: Vec<(String, String)>,
}

impl Part for AuthorizeParams {
    ghost use Rattle.oauth2_script.specs.Views.{authorize_view};

    ghost Meaning = { spec.AuthorizeParams };

    ghost meaning = { authorize_view };

    ghost reading = { spec.authorize_params };

    #[tactic(auto, unfolding(crate::specs::AuthorizeParams::authorize_params))]
    fn from_value(alloc: Global, value: &Value) -> Result<AuthorizeParams, PartError> {
        let state = needed(alloc, value, "state")?;
        let scopes = listed(alloc, value, "scopes")?;
        let extra_params = resources_and_extra(alloc, value)?;
        let challenge = optional(alloc, value, "verifier")?;
        let redirect = optional(alloc, value, "redirect")?;
        let response_type = optional(alloc, value, "response_type")?;
        let nonce = optional(alloc, value, "nonce")?;
        Ok(AuthorizeParams {
            state,
            challenge,
            redirect,
            response_type,
            nonce,
            scopes,
            extra_params,
        })
    }
}
