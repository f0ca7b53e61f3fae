//! The parameters of the command `client_credentials`.

ghost use Rattle.oauth2_script.specs.ClientCredentialsParams as spec;

use crate::sent_params::sent_params;
use oauth2_script_values::{Part, PartError, listed};
use oauth2_types::Scope;
use serde_json::Value;
use std::alloc::Global;

/// The parameters of a request with the client's own credentials (RFC 6749, section 4.4.2).
#[derive(Drop)]
pub struct ClientCredentialsParams {
    pub scopes: Vec<Scope>,
    pub extra_params: Vec<(String, String)>,
}

impl Part for ClientCredentialsParams {
    ghost use Rattle.oauth2_script.specs.Views.{client_credentials_view};

    ghost Meaning = { spec.ClientCredentialsParams };

    ghost meaning = { client_credentials_view };

    ghost reading = { spec.client_credentials_params };

    #[tactic(auto, unfolding(crate::specs::ClientCredentialsParams::client_credentials_params))]
    fn from_value(alloc: Global, value: &Value) -> Result<ClientCredentialsParams, PartError> {
        let scopes = listed(alloc, value, "scopes")?;
        let extra_params = sent_params(alloc, value)?;
        Ok(ClientCredentialsParams {
            scopes,
            extra_params,
        })
    }
}
