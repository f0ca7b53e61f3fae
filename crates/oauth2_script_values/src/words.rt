//! How the words for the types of `oauth2_wire` are read.

ghost use Rattle.oauth2_script_values.specs.Words as spec;

use crate::part::Part;
use crate::part_error::{PartError, bad};
use crate::script_cause::ScriptCause;
use oauth2_wire::{AuthType, ReplyRule};
use serde_json::Value;
use std::alloc::Global;

impl Part for AuthType {
    ghost use Rattle.std.specs.Prelude.{false};
    ghost use Rattle.oauth2_wire.specs.declared.request.AuthType.{AuthType};

    ghost Meaning = { AuthType };

    ghost meaning = { λ auth_type. auth_type };

    ghost reading = { spec.auth_type_part };

    ghost allocates = { false };

    #[tactic(auto, unfolding(crate::specs::Words::auth_type_of))]
    fn from_value(_alloc: Global, value: &Value) -> Result<AuthType, PartError> {
        match value.as_str() {
            Some("basic") => Ok(AuthType::BasicAuth),
            Some("body") => Ok(AuthType::RequestBody),
            Some(_) => Err(bad(ScriptCause::UnknownWord)),
            None => Err(bad(ScriptCause::WrongType)),
        }
    }
}

impl Part for ReplyRule {
    ghost use Rattle.std.specs.Prelude.{false};
    ghost use Rattle.oauth2_wire.specs.declared.content_type.ReplyRule.{ReplyRule};

    ghost Meaning = { ReplyRule };

    ghost meaning = { λ rule. rule };

    ghost reading = { spec.reply_rule_part };

    ghost allocates = { false };

    #[tactic(auto, unfolding(crate::specs::Words::reply_rule_of))]
    fn from_value(_alloc: Global, value: &Value) -> Result<ReplyRule, PartError> {
        match value.as_str() {
            Some("prefix") => Ok(ReplyRule::Prefix),
            Some("media_type") => Ok(ReplyRule::MediaType),
            Some(_) => Err(bad(ScriptCause::UnknownWord)),
            None => Err(bad(ScriptCause::WrongType)),
        }
    }
}
