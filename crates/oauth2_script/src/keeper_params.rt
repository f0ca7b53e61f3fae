//! The parameters of the command `keeper`.

ghost use Rattle.oauth2_script.specs.KeeperParams as spec;

use crate::sent_params::sent_params;
use oauth2_script_values::{Part, PartError, listed, needed, optional};
use oauth2_types::{RefreshToken, Scope};
use serde_json::Value;
use std::alloc::Global;
use std::time::Duration;

/// The parameters of a new keeper.
#[derive(Drop)]
pub struct KeeperParams {
    /// How long before its end a token counts as expired.
    pub margin: Duration,
    /// The lifetime of a token whose reply has no `expires_in`.
    pub life: Duration,
    pub refresh: Option<RefreshToken>,
    /// The scopes of requests with the client's own credentials.
    pub scopes: Vec<Scope>,
    pub extra_params: Vec<(String, String)>,
    /// How long the keeper makes no request after one that failed.
    pub retry_after: Option<Duration>,
    /// The types of tokens that the keeper hands out; `None` if any.
    pub token_types: Option<Vec<String>>,
}

impl Part for KeeperParams {
    ghost use Rattle.oauth2_script.specs.Views.{keeper_view};

    ghost Meaning = { spec.KeeperParams };

    ghost meaning = { keeper_view };

    ghost reading = { spec.keeper_params };

    #[tactic(auto, unfolding(crate::specs::KeeperParams::keeper_params))]
    fn from_value(alloc: Global, value: &Value) -> Result<KeeperParams, PartError> {
        let margin = needed(alloc, value, "margin")?;
        let life = needed(alloc, value, "life")?;
        let refresh = optional(alloc, value, "refresh")?;
        let scopes = listed(alloc, value, "scopes")?;
        let extra_params = sent_params(alloc, value)?;
        let retry_after = optional(alloc, value, "retry_after")?;
        let token_types = optional(alloc, value, "token_types")?;
        Ok(KeeperParams {
            margin,
            life,
            refresh,
            scopes,
            extra_params,
            retry_after,
            token_types,
        })
    }
}
