//! The parameters of the command `push`.

ghost use Rattle.oauth2_script.specs.PushParams as spec;

use crate::authorize_params::AuthorizeParams;
use crate::sent_params::asserted;
use oauth2_script_values::{Part, PartError};
use serde_json::Value;
use std::alloc::Global;

/// The parameters of a pushed authorization request (RFC 9126, section 2.1).
#[derive(Drop)]
pub struct PushParams {
    /// What the authorization URL would have had.
    pub authorize: AuthorizeParams,
    /// The two pairs of the assertion by which the client authenticates, or none.
    pub asserted: Vec<(String, String)>,
}

impl Part for PushParams {
    ghost use Rattle.oauth2_script.specs.Views.{push_view};

    ghost Meaning = { spec.PushParams };

    ghost meaning = { push_view };

    ghost reading = { spec.push_params };

    #[tactic(auto, unfolding(crate::specs::PushParams::push_params))]
    fn from_value(alloc: Global, value: &Value) -> Result<PushParams, PartError> {
        let authorize = AuthorizeParams::from_value(alloc, value)?;
        let asserted = asserted(alloc, value, Vec::new(alloc))?;
        Ok(PushParams {
            authorize,
            asserted,
        })
    }
}
