//! The parameters of the command `id_token`.

ghost use Rattle.serde_json.specs.View.{view};
ghost use Rattle.oauth2_script_values.specs.Gives.{Gives};
ghost use Rattle.oauth2_script.specs.IdTokenParams as spec;
ghost use Rattle.oauth2_script.specs.Views.{issuer_view};

use oauth2_script_values::{Part, PartError, ScriptCause, bad, each, listed, needed, optional};
use oauth2_types::AccessToken;
use serde_json::Value;
use std::alloc::Global;
use std::time::Duration;

/// The issuers that an ID token may name.
#[derive(Drop)]
pub enum IssuerParam {
    Is(String),
    OneOf(Vec<String>),
    /// The texts before and after the claim `tid`, the name of the tenant.
    PerTenant { before: String, after: String },
}

/// The parameters of the check of an ID token (OpenID Connect Core 1.0, section 3.1.3.7).
#[derive(Drop)]
pub struct IdTokenParams {
    /// The text of the ID token.
    pub id_token: String,
    /// The access token that came with it.
    pub access_token: AccessToken,
    /// The issuers that are expected.
    pub issuer: IssuerParam,
    /// The algorithm that the client registered.
    pub algorithm: Option<String>,
    /// The issuer's key set, by which the signature is checked.
    pub keys: Option<Value>,
    /// The nonce that was sent.
    pub nonce: Option<String>,
    /// How far the clocks of the issuer and of the client may be apart.
    pub leeway: Duration,
    /// The maximum age that was sent.
    pub max_age: Option<Duration>,
    /// The audiences other than the client that the client trusts.
    pub other_audiences: Vec<String>,
    /// The parties other than the client to which the token may be issued.
    pub authorized_parties: Vec<String>,
}

#[tactic(auto, unfolding(crate::specs::IdTokenParams::tenants))]
fn per_tenant(alloc: Global, value: &Value) -> Result<IssuerParam, PartError>
    ensures { Gives issuer_view result (spec.tenants (view value.now)) }
{
    let before = needed(alloc, value, "before")?;
    let after = needed(alloc, value, "after")?;
    Ok(IssuerParam::PerTenant { before, after })
}

impl Part for IssuerParam {
    ghost Meaning = { spec.IssuerPart };

    ghost meaning = { issuer_view };

    ghost reading = { spec.issuer_part };

    fn from_value(alloc: Global, value: &Value) -> Result<IssuerParam, PartError> {
        match value {
            Value::String(text) => Ok(IssuerParam::Is(String::from_str(alloc, text.as_str())?)),
            Value::Array(items) => Ok(IssuerParam::OneOf(each(alloc, items.as_slice())?)),
            Value::Object(_) => per_tenant(alloc, value),
            _ => Err(bad(ScriptCause::WrongType)),
        }
    }
}

impl Part for IdTokenParams {
    ghost use Rattle.oauth2_script.specs.Views.{id_token_view};

    ghost Meaning = { spec.IdTokenParams };

    ghost meaning = { id_token_view };

    ghost reading = { spec.id_token_params };

    #[tactic(auto, unfolding(crate::specs::IdTokenParams::id_token_params))]
    fn from_value(alloc: Global, value: &Value) -> Result<IdTokenParams, PartError> {
        let id_token = needed(alloc, value, "id_token")?;
        let access_token = needed(alloc, value, "access_token")?;
        let issuer = needed(alloc, value, "issuer")?;
        let algorithm = optional(alloc, value, "algorithm")?;
        let keys = optional(alloc, value, "keys")?;
        let nonce = optional(alloc, value, "nonce")?;
        let leeway = optional(alloc, value, "leeway")?;
        let max_age = optional(alloc, value, "max_age")?;
        let other_audiences = listed(alloc, value, "other_audiences")?;
        let authorized_parties = listed(alloc, value, "authorized_parties")?;
        Ok(IdTokenParams {
            id_token,
            access_token,
            issuer,
            algorithm,
            keys,
            nonce,
            leeway: leeway.unwrap_or(Duration::ZERO),
            max_age,
            other_audiences,
            authorized_parties,
        })
    }
}
