//! An ID token that passes the checks, as JSON.

ghost use Rattle.std.specs.Prelude.{◌≡◌, Ok, Some, IfOk, map, option_copied, option_map};
ghost use Rattle.std.specs.Prelude.{string_bytes};
ghost use Rattle.serde_json.specs.Data.{array, string};
ghost use Rattle.serde_json.specs.View.{view, items_view, members_view};
ghost use Rattle.oauth2_json.specs.Puts.{put_all};
ghost use Rattle.oauth2_json.specs.Values.{text_items};
ghost use Rattle.oauth2_commands.specs.IdToken.{checked_data, claims_data, hash_name};
ghost use Rattle.oauth2_commands.specs.private.ClaimRows.{bindings_rows, sign_in_rows};
ghost use Rattle.oauth2_commands.specs.private.ClaimRows.{names_rows, times_rows};

use oauth2::{ToJson, WriteError};
use oauth2_json::members;
use oauth2_openid::{AccessTokenHash, IdTokenClaims, Nonce};
use oauth2_times::time_value;
use serde_json::{Map, Value};
use std::alloc::{AllocError, Global};

/// What is shown of an ID token that passes the checks.
#[derive(Drop)]
pub struct CheckedToken<'a> {
    /// Whether its `at_hash` is the hash of the access token.
    pub hash: AccessTokenHash,
    pub claims: &'a IdTokenClaims,
}

fn hash_name(hash: AccessTokenHash) -> &'static str
    ensures { result.now ≡ hash_name hash }
{
    match hash {
        AccessTokenHash::Absent => "absent",
        AccessTokenHash::Matches => "matches",
        AccessTokenHash::NotChecked => "not_checked",
    }
}

fn text_value(alloc: Global, text: Option<&str>) -> Result<Option<Value>, AllocError>
    ensures { IfOk result (λ v. option_map view v ≡ option_map string (option_copied text.entry)) }
{
    match text {
        Some(text) => Ok(Some(Value::try_from_str(alloc, text)?)),
        None => Ok(None),
    }
}

fn nonce_value(alloc: Global, nonce: Option<&Nonce>) -> Result<Option<Value>, AllocError>
    ensures { IfOk result
        (λ v. option_map view v ≡ option_map string (option_copied nonce.entry)) }
{
    match nonce {
        Some(nonce) => Ok(Some(Value::try_from_str(alloc, nonce.secret().as_str())?)),
        None => Ok(None),
    }
}

fn text_values(alloc: Global, texts: &[String]) -> Result<Vec<Value>, AllocError>
    ensures { IfOk result (λ v. items_view v.items ≡ text_items (map string_bytes texts.now)) }
{
    let mut values = Vec::new(alloc);
    for text in texts {
        values.push(Value::try_from_str(alloc, text.as_str())?)?;
    }
    Ok(values)
}

fn texts_value(alloc: Global, texts: &[String]) -> Result<Value, AllocError>
    ensures { IfOk result (λ v. view v ≡ array (text_items (map string_bytes texts.now))) }
{
    Ok(Value::Array(text_values(alloc, texts)?))
}

fn methods_value(alloc: Global, methods: Option<&[String]>) -> Result<Option<Value>, AllocError>
    ensures { IfOk result (λ v. option_map view v
        ≡ option_map (λ list. array (text_items list))
        (option_map (λ list. map string_bytes list.now) methods.entry)) }
{
    match methods {
        Some(methods) => Ok(Some(texts_value(alloc, methods)?)),
        None => Ok(None),
    }
}

fn put_names(
    alloc: Global,
    claims: &IdTokenClaims,
    members: &mut Map<String, Value>,
) -> Result<(), AllocError>
    ensures { IfOk result (λ _. members_view members.new.entries
        ≡ put_all (names_rows claims.now) (members_view members.old.entries)) }
{
    let audience = texts_value(alloc, claims.audience())?;
    members::put_some(members, alloc, "aud", Some(audience))?;
    let subject = Value::try_from_str(alloc, claims.subject())?;
    members::put_some(members, alloc, "sub", Some(subject))?;
    let issuer = Value::try_from_str(alloc, claims.issuer())?;
    members::put_some(members, alloc, "iss", Some(issuer))
}

fn put_times(
    alloc: Global,
    claims: &IdTokenClaims,
    members: &mut Map<String, Value>,
) -> Result<(), AllocError>
    ensures { IfOk result (λ _. members_view members.new.entries
        ≡ put_all (times_rows claims.now) (members_view members.old.entries)) }
{
    members::put_some(members, alloc, "auth_time", time_value(claims.auth_time()))?;
    members::put_some(members, alloc, "iat", time_value(Some(claims.issued_at())))?;
    members::put_some(members, alloc, "exp", time_value(Some(claims.expires_at())))
}

fn put_login(
    alloc: Global,
    claims: &IdTokenClaims,
    members: &mut Map<String, Value>,
) -> Result<(), AllocError>
    ensures { IfOk result (λ _. members_view members.new.entries
        ≡ put_all (sign_in_rows claims.now) (members_view members.old.entries)) }
{
    let methods = methods_value(alloc, claims.authentication_methods())?;
    members::put_some(members, alloc, "amr", methods)?;
    let class = text_value(alloc, claims.authentication_context_class())?;
    members::put_some(members, alloc, "acr", class)?;
    let nonce = nonce_value(alloc, claims.nonce())?;
    members::put_some(members, alloc, "nonce", nonce)
}

fn put_bindings(
    alloc: Global,
    claims: &IdTokenClaims,
    members: &mut Map<String, Value>,
) -> Result<(), AllocError>
    ensures { IfOk result (λ _. members_view members.new.entries
        ≡ put_all (bindings_rows claims.now) (members_view members.old.entries)) }
{
    let hash = text_value(alloc, claims.access_token_hash())?;
    members::put_some(members, alloc, "at_hash", hash)?;
    let party = text_value(alloc, claims.authorized_party())?;
    members::put_some(members, alloc, "azp", party)
}

#[tactic(auto, unfolding(crate::specs::IdToken::claims_data))]
fn claims_value(alloc: Global, claims: &IdTokenClaims) -> Result<Value, AllocError>
    ensures { IfOk result (λ v. view v ≡ claims_data claims.now) }
{
    let mut members = Map::new(alloc);
    put_bindings(alloc, claims, &mut members)?;
    put_login(alloc, claims, &mut members)?;
    put_times(alloc, claims, &mut members)?;
    put_names(alloc, claims, &mut members)?;
    Ok(Value::Object(members))
}

impl ToJson for CheckedToken<'_> {
    ghost writing = { λ t. Ok (checked_data t.hash t.claims.now) };

    #[tactic(auto, unfolding(crate::specs::IdToken::checked_data))]
    fn to_json(&self, alloc: Global) -> Result<Value, WriteError> {
        let mut members = Map::new(alloc);
        let claims = claims_value(alloc, self.claims)?;
        members::put_some(&mut members, alloc, "claims", Some(claims))?;
        let hash = Value::try_from_str(alloc, hash_name(self.hash))?;
        members::put_some(&mut members, alloc, "access_token_hash", Some(hash))?;
        Ok(Value::Object(members))
    }
}
