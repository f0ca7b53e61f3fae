//! The claims of a JWT access token that an ID token does not have (RFC 9068, 2.2 and 2.2.3).

ghost use Rattle.std.specs.Prelude.{◌≡◌, IfOk, codes, option_map};
ghost use Rattle.serde_json.specs.Find.{get};
ghost use Rattle.serde_json.specs.View.{view};
ghost use Rattle.oauth2_json.specs.Members.{optional_member};
ghost use Rattle.oauth2_json.specs.Reading.{ReadsAs};
ghost use Rattle.oauth2_openid.specs.Times.{time};
ghost use Rattle.oauth2_signed_tokens.specs.access_tokens.AccessToken.{own_claims_in};

use jiff::Timestamp;
use oauth2_json::{ReadError, members};
use oauth2_openid::NumericDate;
use oauth2_types::{ClientId, Scope};
use serde_json::Value;
use std::alloc::{AllocError, Global};
use std::marker::Model;

// The claims `client_id`, `jti`, `scope` and `nbf`.
pub(crate) struct AccessTokenClaims {
    pub(crate) client_id: ClientId,
    pub(crate) token_id: String,
    pub(crate) scopes: Option<Vec<Scope>>,
    pub(crate) not_before: Option<Timestamp>,
}

impl Drop for AccessTokenClaims {
    fn drop(self) {
        let AccessTokenClaims {
            client_id: _,
            token_id: _,
            scopes: _,
            not_before: _,
        } = self;
    }
}

impl Model for AccessTokenClaims {
    ghost use Rattle.std.specs.Prelude.{option_map, string_bytes};
    ghost use Rattle.oauth2_signed_tokens.specs.access_tokens.AccessToken.{OwnClaims};

    ghost Value = { OwnClaims };

    ghost view = { λ c. record {
      client_id = c.client_id;
      token_id = string_bytes c.token_id;
      scopes = option_map (λ list. list.items) c.scopes;
      not_before = option_map (λ time. time.nanosecond) c.not_before;
    } };
}

// A copy of the JSON value of the claim `name`, if it is present.
fn copy_of(claims: &Value, name: &str) -> Result<Option<Value>, AllocError>
    ensures { IfOk result (λ copy. option_map view copy ≡ get name.now (view claims.now)) }
{
    match claims.get(name) {
        Some(value) => Ok(Some(value.clone()?)),
        None => Ok(None),
    }
}

// Reads the claim `nbf`.
fn start_of(alloc: Global, found: Option<Value>) -> Result<Option<Timestamp>, ReadError>
    ensures { ReadsAs (option_map (λ start. start.nanosecond)) result
        (optional_member time (codes "nbf") (option_map view found)) }
{
    match members::optional::<NumericDate>(alloc, "nbf", found)? {
        Some(NumericDate(start)) => Ok(Some(start)),
        None => Ok(None),
    }
}

// Reads those claims from the object of claims.
#[tactic(auto, unfolding(crate::specs::access_tokens::AccessToken::own_claims_in))]
pub(crate) fn own_claims(alloc: Global, claims: &Value) -> Result<AccessTokenClaims, ReadError>
    ensures { ReadsAs (λ c. c) result (own_claims_in (view claims.now)) }
{
    Ok(AccessTokenClaims {
        client_id: members::needed(alloc, "client_id", copy_of(claims, "client_id")?)?,
        token_id: members::needed(alloc, "jti", copy_of(claims, "jti")?)?,
        scopes: members::optional_words(alloc, "scope", copy_of(claims, "scope")?)?,
        not_before: start_of(alloc, copy_of(claims, "nbf")?)?,
    })
}
