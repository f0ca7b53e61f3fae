//! The parameters of the command `access_token`.

ghost use Rattle.oauth2_script.specs.AccessTokenParams as spec;

use oauth2_script_values::{Part, PartError, needed, optional};
use serde_json::Value;
use std::alloc::Global;
use std::time::Duration;

/// The parameters of the check of a JWT access token at a resource server (RFC 9068, section 4).
#[derive(Drop)]
pub struct AccessTokenParams {
    /// The text of the access token.
    pub access_token: String,
    /// The issuer that is expected.
    pub issuer: String,
    /// The resource server, as the issuer names it.
    pub audience: String,
    /// The issuer's key set.
    pub keys: Value,
    /// The algorithm with which the issuer signs its access tokens.
    pub algorithm: Option<String>,
    /// How far the clocks of the issuer and of the resource server may be apart.
    pub leeway: Duration,
}

impl Part for AccessTokenParams {
    ghost use Rattle.oauth2_script.specs.Views.{access_token_view};

    ghost Meaning = { spec.AccessTokenParams };

    ghost meaning = { access_token_view };

    ghost reading = { spec.access_token_params };

    #[tactic(auto, unfolding(crate::specs::AccessTokenParams::access_token_params))]
    fn from_value(alloc: Global, value: &Value) -> Result<AccessTokenParams, PartError> {
        let access_token = needed(alloc, value, "access_token")?;
        let issuer = needed(alloc, value, "issuer")?;
        let audience = needed(alloc, value, "audience")?;
        let keys = needed(alloc, value, "keys")?;
        let algorithm = optional(alloc, value, "algorithm")?;
        let leeway = optional(alloc, value, "leeway")?;
        Ok(AccessTokenParams {
            access_token,
            issuer,
            audience,
            keys,
            algorithm,
            leeway: leeway.unwrap_or(Duration::ZERO),
        })
    }
}
