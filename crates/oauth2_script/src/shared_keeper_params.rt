//! The parameters of the command `shared_keeper`.

ghost use Rattle.oauth2_script.specs.SharedKeeperParams as spec;

use oauth2_script_values::{
    Part, PartError, ScriptCause, an_object, bad, listed, needed, optional,
};
use oauth2_types::RefreshToken;
use serde_json::Value;
use std::alloc::Global;

/// What becomes of the next action of a keeper.
#[derive(Clone, Copy, Debug, PartialEq, Eq)]
pub enum Fate {
    /// It is done, and the keeper is told what came of it.
    Done,
    /// It is done, and the keeper is told nothing.
    ReplyLost,
    /// It is not done, and the keeper is told nothing.
    RequestLost,
    /// It is not done, since the keeper's caller wants nothing to be sent any more.
    Stopped,
    /// It is not done, and the keeper's renewal is never heard of again.
    Killed,
}

/// One step: which keeper goes, and what becomes of its next action.
#[derive(Clone, Copy, Debug, PartialEq, Eq)]
pub struct SharedKeeperStep {
    pub keeper: u8,
    pub fate: Fate,
}

/// The parameters of keepers that share a token.
#[derive(Drop)]
pub struct SharedKeeperParams {
    /// The refresh token that is stored at first.
    pub refresh_token: RefreshToken,
    pub steps: Vec<SharedKeeperStep>,
}

impl Part for Fate {
    ghost use Rattle.std.specs.Prelude.{false};
    ghost use Rattle.oauth2_script.specs.declared.shared_keeper_params.Fate.{Fate};

    ghost Meaning = { Fate };

    ghost meaning = { λ fate. fate };

    ghost reading = { spec.fate };

    ghost allocates = { false };

    #[tactic(auto, unfolding(crate::specs::SharedKeeperParams::fate_of))]
    fn from_value(_alloc: Global, value: &Value) -> Result<Fate, PartError> {
        match value.as_str() {
            Some("done") => Ok(Fate::Done),
            Some("reply_lost") => Ok(Fate::ReplyLost),
            Some("request_lost") => Ok(Fate::RequestLost),
            Some("stopped") => Ok(Fate::Stopped),
            Some("killed") => Ok(Fate::Killed),
            Some(_) => Err(bad(ScriptCause::UnknownWord)),
            None => Err(bad(ScriptCause::WrongType)),
        }
    }
}

impl Part for SharedKeeperStep {
    ghost use Rattle.std.specs.Prelude.{false};
    ghost use Rattle.oauth2_script.specs.declared.shared_keeper_params.SharedKeeperStep.{
      SharedKeeperStep,
    };

    ghost Meaning = { SharedKeeperStep };

    ghost meaning = { λ step. step };

    ghost reading = { spec.shared_keeper_step };

    ghost allocates = { false };

    #[tactic(auto, unfolding(crate::specs::SharedKeeperParams::shared_keeper_step))]
    fn from_value(alloc: Global, value: &Value) -> Result<SharedKeeperStep, PartError> {
        an_object(value)?;
        let keeper = needed(alloc, value, "keeper")?;
        let fate = optional(alloc, value, "fate")?;
        Ok(SharedKeeperStep {
            keeper,
            fate: fate.unwrap_or(Fate::Done),
        })
    }
}

impl Part for SharedKeeperParams {
    ghost use Rattle.oauth2_script.specs.Views.{shared_keeper_view};

    ghost Meaning = { spec.SharedKeeperParams };

    ghost meaning = { shared_keeper_view };

    ghost reading = { spec.shared_keeper_params };

    #[tactic(auto, unfolding(crate::specs::SharedKeeperParams::shared_keeper_params))]
    fn from_value(alloc: Global, value: &Value) -> Result<SharedKeeperParams, PartError> {
        let refresh_token = needed(alloc, value, "refresh_token")?;
        let steps = listed(alloc, value, "steps")?;
        Ok(SharedKeeperParams {
            refresh_token,
            steps,
        })
    }
}
