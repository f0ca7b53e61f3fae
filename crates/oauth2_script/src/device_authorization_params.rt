//! The parameters of the command `device_authorization`.

#![tactic(auto, unfolding(crate::specs::DeviceAuthorizationParams::device_authorization_params))]

ghost use Rattle.oauth2_script.specs.DeviceAuthorizationParams as spec;

use crate::sent_params::sent_params;
use oauth2_script_values::{Part, PartError, listed};
use oauth2_types::Scope;
use serde_json::Value;
use std::alloc::Global;

/// The parameters of a device authorization request (RFC 8628, section 3.1).
#[derive(Drop)]
pub struct DeviceAuthorizationParams {
    pub scopes: Vec<Scope>,
    pub extra_params: Vec<(String, String)>,
}

impl Part for DeviceAuthorizationParams {
    ghost use Rattle.oauth2_script.specs.Views.{device_authorization_view};

    ghost Meaning = { spec.DeviceAuthorizationParams };

    ghost meaning = { device_authorization_view };

    ghost reading = { spec.device_authorization_params };

    fn from_value(alloc: Global, value: &Value) -> Result<DeviceAuthorizationParams, PartError> {
        let scopes = listed(alloc, value, "scopes")?;
        let extra_params = sent_params(alloc, value)?;
        Ok(DeviceAuthorizationParams {
            scopes,
            extra_params,
        })
    }
}
