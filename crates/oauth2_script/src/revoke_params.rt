//! The parameters of the command `revoke`.

ghost use Rattle.oauth2_script.specs.RevokeParams as spec;

use crate::sent_params::asserted_extra;
use oauth2_script_values::{Part, PartError, ScriptCause, bad, needed, optional};
use serde_json::Value;
use std::alloc::Global;

/// The kind of the token that is revoked, sent as `token_type_hint` (RFC 7009, section 2.1).
#[derive(Clone, Copy, Debug, PartialEq, Eq)]
pub enum TokenKind {
    Access,
    Refresh,
}

/// The parameters of a revocation request (RFC 7009, section 2.1).
#[derive(Drop)]
pub struct RevokeParams {
    pub token: String,
    pub kind: TokenKind,
    pub extra_params: Vec<(String, String)>,
}

impl Part for TokenKind {
    ghost use Rattle.std.specs.Prelude.{false};
    ghost use Rattle.oauth2_script.specs.declared.revoke_params.TokenKind.{TokenKind};

    ghost Meaning = { TokenKind };

    ghost meaning = { λ kind. kind };

    ghost reading = { spec.kind };

    ghost allocates = { false };

    #[tactic(auto, unfolding(crate::specs::RevokeParams::kind_of))]
    fn from_value(_alloc: Global, value: &Value) -> Result<TokenKind, PartError> {
        match value.as_str() {
            Some("access") => Ok(TokenKind::Access),
            Some("refresh") => Ok(TokenKind::Refresh),
            Some(_) => Err(bad(ScriptCause::UnknownWord)),
            None => Err(bad(ScriptCause::WrongType)),
        }
    }
}

impl Part for RevokeParams {
    ghost use Rattle.oauth2_script.specs.Views.{revoke_view};

    ghost Meaning = { spec.RevokeParams };

    ghost meaning = { revoke_view };

    ghost reading = { spec.revoke_params };

    #[tactic(auto, unfolding(crate::specs::RevokeParams::revoke_params))]
    fn from_value(alloc: Global, value: &Value) -> Result<RevokeParams, PartError> {
        let token = needed(alloc, value, "token")?;
        let kind = optional(alloc, value, "kind")?;
        let extra_params = asserted_extra(alloc, value)?;
        Ok(RevokeParams {
            token,
            kind: kind.unwrap_or(TokenKind::Access),
            extra_params,
        })
    }
}
