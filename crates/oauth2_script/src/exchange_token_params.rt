//! The parameters of the command `exchange_token`.

ghost use Rattle.std.specs.Prelude.{option_map, string_bytes};
ghost use Rattle.serde_json.specs.View.{view};
ghost use Rattle.oauth2_script.specs.ExchangeTokenParams as spec;
ghost use Rattle.oauth2_script_values.specs.Gives.{Gives};
ghost use Rattle.oauth2_script.specs.Views.{typed_token_view};

use crate::absolute_uri::AbsoluteUri;
use crate::sent_params::asserted_extra;
use oauth2_script_values::{Part, PartError, ScriptCause, bad_member, listed, needed, optional};
use oauth2_types::Scope;
use serde_json::Value;
use std::alloc::Global;

/// A token and the identifier of its type (RFC 8693, section 3).
#[derive(Drop)]
pub struct TypedTokenParam {
    pub token: String,
    pub token_type: AbsoluteUri,
}

/// The parameters of the exchange of a token (RFC 8693, section 2.1).
#[derive(Drop)]
pub struct ExchangeTokenParams {
    /// The token of the party on whose behalf the request is made.
    pub subject: TypedTokenParam,
    /// The token of the acting party.
    pub actor: Option<TypedTokenParam>,
    pub requested_token_type: Option<AbsoluteUri>,
    pub resources: Vec<AbsoluteUri>,
    pub audiences: Vec<String>,
    pub scopes: Vec<Scope>,
    pub extra_params: Vec<(String, String)>,
}

impl Part for ExchangeTokenParams {
    ghost use Rattle.oauth2_script.specs.Views.{exchange_token_view};

    ghost Meaning = { spec.ExchangeTokenParams };

    ghost meaning = { exchange_token_view };

    ghost reading = { spec.exchange_token_params };

    #[tactic(auto, unfolding(crate::specs::ExchangeTokenParams::exchange_token_params))]
    fn from_value(alloc: Global, value: &Value) -> Result<ExchangeTokenParams, PartError> {
        let subject = subject_of(alloc, value)?;
        let actor = actor_of(alloc, value)?;
        let requested_token_type = optional(alloc, value, "requested_token_type")?;
        let resources = listed(alloc, value, "resource")?;
        let audiences = listed(alloc, value, "audience")?;
        let scopes = listed(alloc, value, "scopes")?;
        let extra_params = asserted_extra(alloc, value)?;
        Ok(ExchangeTokenParams {
            subject,
            actor,
            requested_token_type,
            resources,
            audiences,
            scopes,
            extra_params,
        })
    }
}

#[tactic(auto, unfolding(crate::specs::ExchangeTokenParams::subject_of))]
fn subject_of(alloc: Global, value: &Value) -> Result<TypedTokenParam, PartError>
    ensures { Gives typed_token_view result (spec.subject_of (view value.now)) }
{
    let token = needed(alloc, value, "subject_token")?;
    let token_type = needed(alloc, value, "subject_token_type")?;
    Ok(TypedTokenParam { token, token_type })
}

#[tactic(auto, unfolding(crate::specs::ExchangeTokenParams::actor_of))]
fn actor_of(alloc: Global, value: &Value) -> Result<Option<TypedTokenParam>, PartError>
    ensures { Gives (option_map typed_token_view) result (spec.actor_of (view value.now)) }
{
    let token = optional(alloc, value, "actor_token")?;
    let token_type = optional(alloc, value, "actor_token_type")?;
    let actor = both_or_neither(token, token_type)?;
    Ok(actor)
}

// The token with its type; a fault if only one of them is given.
fn both_or_neither(
    token: Option<String>,
    token_type: Option<AbsoluteUri>,
) -> Result<Option<TypedTokenParam>, PartError>
    ensures { Gives (option_map typed_token_view) result
        (spec.both_or_neither (option_map string_bytes token) token_type) }
{
    match (token, token_type) {
        (Some(token), Some(token_type)) => Ok(Some(TypedTokenParam { token, token_type })),
        (None, None) => Ok(None),
        (Some(_), None) => Err(PartError::Bad(bad_member(
            "actor_token_type",
            ScriptCause::Missing,
        ))),
        (None, Some(_)) => Err(PartError::Bad(bad_member("actor_token", ScriptCause::Missing))),
    }
}
