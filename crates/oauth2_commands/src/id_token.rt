//! The command `id_token`: an ID token is read, and its claims and its signature are checked.

ghost use Rattle.std.specs.Prelude.{
  ◌≡◌,
  Err,
  List,
  IfOk,
  IsSomeAnd,
  Ok,
  option_map,
  string_bytes,
};
ghost use Rattle.serde_json.specs.View.{view};
ghost use Rattle.oauth2_json.specs.ErrorTexts.{parse_fault_text};
ghost use Rattle.oauth2_json.specs.Reading.{ErrsAs, Fault, Reading};
ghost use Rattle.oauth2_keys.specs.declared.json_web_key.ListedKey.{ListedKey};
ghost use Rattle.oauth2_commands.specs.IdToken as spec;
ghost use Rattle.oauth2_commands.specs.private.ReadErrors.{token_fault_in};
ghost use Rattle.oauth2_request_commands.specs.Out.{Adds, AddsOutput, failure_output, success_output};
ghost use Rattle.oauth2_openid.specs.Issuers.{named_issuers};
ghost use Rattle.oauth2_openid.specs.Seen.{token_of};
ghost use Rattle.oauth2_openid.specs.TokenRules.{token_checked};
ghost use Rattle.oauth2_script.specs.Views.{id_token_view, issuer_view};
ghost use Rattle.oauth2_world.specs.declared.event.FaultKind.TheVariants.{BadKeys, BadToken};

use crate::id_token_json::CheckedToken;
use jiff::Timestamp;
use oauth2::{FromJson, ReadError, TryClone};
use oauth2_keys::{JsonWebKeySet, SignatureAlgorithm};
use oauth2_openid::{
    AccessTokenHash, ClaimsError, Expected, IdToken, IdTokenReadError, IssuerRule, Nonce,
};
use oauth2_request_commands::{RunStatus, ScriptClient, add_fault, show_answer, show_error_text};
use oauth2_script::{IdTokenParams, IssuerParam};
use oauth2_world::{Events, Fault as FaultEvent, FaultDetails, FaultKind, ScriptedClock};
use serde_json::Value;
use std::alloc::{AllocError, Global};

fn nonce_of(text: Option<String>) -> Option<Nonce>
    ensures { result ≡ option_map string_bytes text }
{
    match text {
        Some(text) => Some(Nonce::new(text)),
        None => None,
    }
}

fn rule_of(issuer: IssuerParam) -> IssuerRule
    ensures { named_issuers result ≡ spec.issuers_of (issuer_view issuer) }
{
    match issuer {
        IssuerParam::Is(issuer) => IssuerRule::Is(issuer),
        IssuerParam::OneOf(issuers) => IssuerRule::OneOf(issuers),
        IssuerParam::PerTenant { before, after } => IssuerRule::PerTenant { before, after },
    }
}

// Checks the claims at this moment (OpenID Connect Core 1.0, section 3.1.3.7).
fn check(
    alloc: Global,
    client: &ScriptClient,
    params: IdTokenParams,
    token: &IdToken,
    now: Timestamp,
) -> Result<Result<AccessTokenHash, ClaimsError>, AllocError>
    ensures { IfOk result (λ verdict. verdict
        ≡ token_checked (spec.params_expectation client.now (id_token_view params))
        params.access_token
        now.nanosecond (token_of token.now)) }
{
    let expected = Expected {
        issuer: rule_of(params.issuer),
        client_id: client.client_id().try_clone(alloc)?,
        other_audiences: params.other_audiences,
        authorized_parties: params.authorized_parties,
        algorithm: params.algorithm,
        nonce: nonce_of(params.nonce),
        leeway: params.leeway,
        max_age: params.max_age,
    };
    Ok(token.check(&expected, &params.access_token, now))
}

// The algorithm of the signature: the registered one, or RS256 if none is.
pub(crate) fn signature_algorithm(registered: &Option<String>) -> Option<SignatureAlgorithm>
    ensures { result ≡ spec.signature_algorithm (option_map string_bytes registered.now) }
{
    match registered {
        Some(name) => SignatureAlgorithm::from_name(name.as_str()),
        None => Some(SignatureAlgorithm::Rs256),
    }
}

// Adds the event of a token that passes all checks.
fn show_claims(
    alloc: Global,
    events: &mut Events,
    token: &IdToken,
    hash: AccessTokenHash,
) -> Result<RunStatus, AllocError>
    ensures { IfOk result (λ status. AddsOutput events.old events.new
        status (success_output (spec.checked_json hash (token_of token.now).claims.own))) }
{
    let claims = token.claims();
    show_answer(alloc, events, &CheckedToken { hash, claims })
}

// Adds the event for an algorithm whose signatures are not checked.
pub(crate) fn show_unchecked(alloc: Global, events: &mut Events) -> Result<RunStatus, AllocError>
    ensures { IfOk result (λ status. AddsOutput events.old events.new
        status spec.unchecked_output) }
{
    let fault = FaultEvent {
        kind: FaultKind::UncheckedSignature,
        text: String::from_str(alloc, "no signature of the registered algorithm is checked")?,
        details: FaultDetails::None,
    };
    let status = add_fault(events, fault)?;
    Ok(status)
}

// Adds the event of a token whose claims are good, after the check of its signature.
fn show_verified(
    alloc: Global,
    events: &mut Events,
    keys: &JsonWebKeySet,
    algorithm: Option<SignatureAlgorithm>,
    token: &IdToken,
    hash: AccessTokenHash,
) -> Result<RunStatus, AllocError>
    ensures { IfOk result (λ status. Adds events.old events.new status
        (spec.IsVerifiedOutput (Ok keys.now) algorithm (token_of token.now)
        (success_output (spec.checked_json hash (token_of token.now).claims.own)))) }
{
    match algorithm {
        Some(algorithm) => match keys.verify(token, algorithm) {
            Ok(()) => show_claims(alloc, events, token, hash),
            Err(error) => show_error_text(alloc, events, FaultKind::BadSignature, &error),
        },
        None => show_unchecked(alloc, events),
    }
}

// Adds the event why a value is not a key set.
pub(crate) fn show_keys_error(
    alloc: Global,
    events: &mut Events,
    error: &ReadError,
) -> Result<RunStatus, AllocError>
    ensures { IfOk result (λ status.
        (read : Reading (List ListedKey)) → ErrsAs error.now read
        → (fault : Fault) × (read ≡ Err fault)
        × AddsOutput events.old events.new status
        (failure_output BadKeys (parse_fault_text fault))) }
{
    if let ReadError::Memory = error {
        return Err(AllocError);
    }
    show_error_text(alloc, events, FaultKind::BadKeys, error)
}

// Adds the event of a token whose claims are good; with keys, after the check of its signature.
fn show_signed(
    alloc: Global,
    events: &mut Events,
    keys: Option<Value>,
    algorithm: Option<SignatureAlgorithm>,
    token: &IdToken,
    hash: AccessTokenHash,
) -> Result<RunStatus, AllocError>
    ensures { IfOk result (λ status. Adds events.old events.new status
        (spec.IsSignedOutput (option_map view keys) algorithm (token_of token.now)
        (success_output (spec.checked_json hash (token_of token.now).claims.own)))) }
{
    match keys {
        Some(keys) => match JsonWebKeySet::from_json(alloc, keys) {
            Ok(keys) => show_verified(alloc, events, &keys, algorithm, token, hash),
            Err(error) => show_keys_error(alloc, events, &error),
        },
        None => show_claims(alloc, events, token, hash),
    }
}

// Adds the event of a token: its claims, or the first check that fails.
fn show_checked(
    alloc: Global,
    client: &ScriptClient,
    params: IdTokenParams,
    token: &IdToken,
    now: Timestamp,
    events: &mut Events,
) -> Result<RunStatus, AllocError>
    ensures { let p = id_token_view params in
        IfOk result (λ status. Adds events.old events.new status
        (spec.IsCheckedOutput p.keys (spec.signature_algorithm p.algorithm) (token_of token.now)
        (token_checked (spec.params_expectation client.now p) p.access_token now.nanosecond
        (token_of token.now)))) }
{
    let mut params = params;
    let algorithm = signature_algorithm(&params.algorithm);
    let keys = params.keys.take();
    match check(alloc, client, params, token, now)? {
        Ok(hash) => show_signed(alloc, events, keys, algorithm, token, hash),
        Err(broken) => show_error_text(alloc, events, FaultKind::BadClaims, &broken),
    }
}

// Adds the event why a text is not a token.
pub(crate) fn show_read_error(
    alloc: Global,
    events: &mut Events,
    error: &IdTokenReadError,
) -> Result<RunStatus, AllocError>
    ensures { IfOk result (λ status. IsSomeAnd (token_fault_in error.now) (λ fault.
        AddsOutput events.old events.new status
        (failure_output BadToken (spec.token_fault_text fault)))) }
{
    if let IdTokenReadError::Memory = error {
        return Err(AllocError);
    }
    show_error_text(alloc, events, FaultKind::BadToken, error)
}

/// Shows the claims of an ID token, or the first check that it fails, or why the text is not an ID
/// token (OpenID Connect Core 1.0, section 3.1.3.7). If there are keys, its signature is checked.
pub fn run_id_token(
    alloc: Global,
    client: &ScriptClient,
    params: IdTokenParams,
    clock: &mut ScriptedClock,
    events: &mut Events,
) -> Result<RunStatus, AllocError>
    ensures { IfOk result (λ status. Adds events.old events.new status
        (spec.IsIdTokenOutput client.now (id_token_view params) clock.old)) }
{
    match IdToken::from_text(alloc, params.id_token.as_str()) {
        Ok(token) => show_checked(alloc, client, params, &token, clock.read(), events),
        Err(error) => show_read_error(alloc, events, &error),
    }
}
