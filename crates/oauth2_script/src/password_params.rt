//! The parameters of the command `password`.

ghost use Rattle.oauth2_script.specs.PasswordParams as spec;

use crate::sent_params::sent_params;
use oauth2_script_values::{Part, PartError, listed, needed};
use oauth2_types::{ResourceOwnerPassword, ResourceOwnerUsername, Scope};
use serde_json::Value;
use std::alloc::Global;

/// The parameters of a request with the resource owner's password (RFC 6749, section 4.3.2).
#[derive(Drop)]
pub struct PasswordParams {
    pub username: ResourceOwnerUsername,
    pub password: ResourceOwnerPassword,
    pub scopes: Vec<Scope>,
    pub extra_params: Vec<(String, String)>,
}

impl Part for PasswordParams {
    ghost use Rattle.oauth2_script.specs.Views.{password_view};

    ghost Meaning = { spec.PasswordParams };

    ghost meaning = { password_view };

    ghost reading = { spec.password_params };

    #[tactic(auto, unfolding(crate::specs::PasswordParams::password_params))]
    fn from_value(alloc: Global, value: &Value) -> Result<PasswordParams, PartError> {
        let username = needed(alloc, value, "username")?;
        let password = needed(alloc, value, "password")?;
        let scopes = listed(alloc, value, "scopes")?;
        let extra_params = sent_params(alloc, value)?;
        Ok(PasswordParams {
            username,
            password,
            scopes,
            extra_params,
        })
    }
}
