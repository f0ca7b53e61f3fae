//! The pairs that a request sends after those of its command.

ghost use Rattle.std.specs.Prelude.{◌≡◌, ◌++◌, map, option_map, string_bytes, IfOk};
ghost use Rattle.serde_json.specs.View.{view};
ghost use Rattle.oauth2_script_values.specs.Gives.{Gives};
ghost use Rattle.oauth2_script.specs.Sent as spec;

use crate::absolute_uri::AbsoluteUri;
use oauth2_client_assertions::AssertionType;
use oauth2_script_values::{PartError, listed, optional};
use serde_json::Value;
use std::alloc::{AllocError, Global};

/// Reads `resource`, `extra` and `client_assertion`, of a request for a token.
#[tactic(auto, unfolding(crate::specs::Sent::sent_params))]
pub(crate) fn sent_params(alloc: Global, value: &Value) -> Result<Vec<(String, String)>, PartError>
    ensures { Gives (λ v. map (λ p. (string_bytes p.0, string_bytes p.1)) v.items) result
        (spec.sent_params (view value.now)) }
{
    let pairs = resources_and_extra(alloc, value)?;
    asserted(alloc, value, pairs)
}

/// Reads `extra` and `client_assertion`, of a request that is for no resource.
#[tactic(auto, unfolding(crate::specs::Sent::asserted_extra))]
pub(crate) fn asserted_extra(
    alloc: Global,
    value: &Value,
) -> Result<Vec<(String, String)>, PartError>
    ensures { Gives (λ v. map (λ p. (string_bytes p.0, string_bytes p.1)) v.items) result
        (spec.asserted_extra (view value.now)) }
{
    let pairs = listed(alloc, value, "extra")?;
    asserted(alloc, value, pairs)
}

/// Reads `resource` and `extra`, of an authorization URL.
#[tactic(auto, unfolding(crate::specs::Sent::resources_and_extra))]
pub(crate) fn resources_and_extra(
    alloc: Global,
    value: &Value,
) -> Result<Vec<(String, String)>, PartError>
    ensures { Gives (λ v. map (λ p. (string_bytes p.0, string_bytes p.1)) v.items) result
        (spec.resources_and_extra (view value.now)) }
{
    let resources: Vec<AbsoluteUri> = listed(alloc, value, "resource")?;
    let mut extra: Vec<(String, String)> = listed(alloc, value, "extra")?;
    let mut pairs = resource_pairs(alloc, resources.as_slice())?;
    pairs.append(&mut extra)?;
    Ok(pairs)
}

/// Adds the pairs of `client_assertion` after these pairs.
#[tactic(auto, unfolding(crate::specs::Sent::asserted))]
pub(crate) fn asserted(
    alloc: Global,
    value: &Value,
    pairs: Vec<(String, String)>,
) -> Result<Vec<(String, String)>, PartError>
    ensures { Gives (λ v. map (λ p. (string_bytes p.0, string_bytes p.1)) v.items) result
        (spec.asserted (view value.now)
        (map (λ p. (string_bytes p.0, string_bytes p.1)) pairs.items)) }
{
    let jwt = optional(alloc, value, "client_assertion")?;
    let mut assertion = assertion_pairs(alloc, jwt)?;
    let mut pairs = pairs;
    pairs.append(&mut assertion)?;
    Ok(pairs)
}

// One pair for each resource.
fn resource_pairs(alloc: Global, uris: &[AbsoluteUri]) -> Result<Vec<(String, String)>, AllocError>
    ensures { IfOk result (λ v. map (λ p. (string_bytes p.0, string_bytes p.1)) v.items
        ≡ spec.resource_pairs uris.now) }
{
    let mut pairs = Vec::new(alloc);
    for uri in uris {
        let name = String::from_str(alloc, "resource")?;
        pairs.push((name, String::from_str(alloc, uri.as_str())?))?;
    }
    Ok(pairs)
}

// The two pairs of an assertion, if there is one.
fn assertion_pairs(alloc: Global, jwt: Option<String>) -> Result<Vec<(String, String)>, AllocError>
    ensures { IfOk result (λ v. map (λ p. (string_bytes p.0, string_bytes p.1)) v.items
        ≡ spec.client_assertion_pairs (option_map string_bytes jwt)) }
{
    match jwt {
        None => Ok(Vec::new(alloc)),
        Some(jwt) => {
            let kind = String::from_str(alloc, AssertionType::JwtBearer.as_str())?;
            let mut pairs = Vec::new(alloc);
            pairs.push((String::from_str(alloc, "client_assertion_type")?, kind))?;
            pairs.push((String::from_str(alloc, "client_assertion")?, jwt))?;
            Ok(pairs)
        }
    }
}
