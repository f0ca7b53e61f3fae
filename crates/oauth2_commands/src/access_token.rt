//! The command `access_token`: a JWT access token is read, and checked as a resource server does.

ghost use Rattle.std.specs.Prelude.{IfOk, string_bytes};
ghost use Rattle.oauth2_commands.specs.AccessToken as spec;
ghost use Rattle.oauth2_commands.specs.IdToken.{signature_algorithm};
ghost use Rattle.oauth2_signed_tokens.specs.access_tokens.Introspection.{introspection_of};
ghost use Rattle.oauth2_signed_tokens.specs.access_tokens.Seen.{access_token_of, verified_token_of};
ghost use Rattle.oauth2_keys.specs.KeySet.{set_reading};
ghost use Rattle.oauth2_request_commands.specs.Introspect.{introspection_json};
ghost use Rattle.oauth2_request_commands.specs.Out.{Adds, AddsOutput, success_output};
ghost use Rattle.oauth2_script.specs.Views.{access_token_view};
ghost use Rattle.serde_json.specs.View.{view};

use crate::id_token::{show_keys_error, show_read_error, show_unchecked, signature_algorithm};
use jiff::Timestamp;
use oauth2::basic::BasicTokenIntrospectionResponse;
use oauth2::{EmptyExtraTokenFields, FromJson};
use oauth2_keys::{JsonWebKeySet, SignatureAlgorithm};
use oauth2_request_commands::{RunStatus, show_answer, show_error_text};
use oauth2_script::AccessTokenParams;
use oauth2_signed_tokens::{
    ExpectedAccessToken, JwtAccessToken, SenderConstraint, VerifiedAccessToken,
};
use oauth2_world::{Events, FaultKind, ScriptedClock};
use std::alloc::{AllocError, Global};

// Adds the event of a verified token: what an introspection tells of it.
fn show_introspection(
    alloc: Global,
    events: &mut Events,
    token: &VerifiedAccessToken,
) -> Result<RunStatus, AllocError>
    ensures { IfOk result (λ status. AddsOutput events.old events.new
        status (success_output (introspection_json (introspection_of (verified_token_of token.now)
        tt)))) }
{
    let response: BasicTokenIntrospectionResponse = token.introspection(
        alloc,
        EmptyExtraTokenFields {},
    )?;
    show_answer(alloc, events, &response)
}

// Adds the event of a token that is checked at this moment, by these keys.
fn show_judged(
    alloc: Global,
    expected: &ExpectedAccessToken,
    keys: &JsonWebKeySet,
    token: JwtAccessToken,
    now: Timestamp,
    events: &mut Events,
) -> Result<RunStatus, AllocError>
    ensures { IfOk result (λ status. Adds events.old events.new status
        (spec.IsJudgedOutput expected.now keys.now now.nanosecond (access_token_of token))) }
{
    match token.verified(expected, keys, now) {
        Ok(verified) => show_introspection(alloc, events, &verified),
        Err(refused) => show_error_text(alloc, events, FaultKind::BadAccessToken, &refused),
    }
}

// Adds the event of a token that is signed with this algorithm, by the keys of a script.
fn show_by_algorithm(
    alloc: Global,
    params: AccessTokenParams,
    algorithm: SignatureAlgorithm,
    token: JwtAccessToken,
    now: Timestamp,
    events: &mut Events,
) -> Result<RunStatus, AllocError>
    ensures { let p = access_token_view params in
        IfOk result (λ status. Adds events.old events.new status
        (spec.IsKeyedOutput (spec.access_token_expectation p algorithm) (set_reading p.keys)
        now.nanosecond (access_token_of token))) }
{
    let expected = ExpectedAccessToken {
        issuer: params.issuer,
        audience: params.audience,
        algorithm,
        constraint: SenderConstraint::NoKeyProven,
        leeway: params.leeway,
    };
    match JsonWebKeySet::from_json(alloc, params.keys) {
        Ok(keys) => show_judged(alloc, &expected, &keys, token, now, events),
        Err(error) => show_keys_error(alloc, events, &error),
    }
}

// Adds the event of a token by the algorithm and the keys of a script.
fn show_token(
    alloc: Global,
    params: AccessTokenParams,
    token: JwtAccessToken,
    now: Timestamp,
    events: &mut Events,
) -> Result<RunStatus, AllocError>
    ensures { let p = access_token_view params in
        IfOk result (λ status. Adds events.old events.new status
        (spec.IsTokenOutput p now.nanosecond (signature_algorithm p.algorithm)
        (access_token_of token))) }
{
    match signature_algorithm(&params.algorithm) {
        Some(algorithm) => show_by_algorithm(alloc, params, algorithm, token, now, events),
        None => show_unchecked(alloc, events),
    }
}

/// Shows what an introspection tells of a JWT access token, or the first rule that does not hold
/// for it, or why the text is not one (RFC 9068, section 4).
pub fn run_access_token(
    alloc: Global,
    params: AccessTokenParams,
    clock: &mut ScriptedClock,
    events: &mut Events,
) -> Result<RunStatus, AllocError>
    ensures { IfOk result (λ status. Adds events.old events.new status
        (spec.IsAccessTokenOutput (access_token_view params) clock.old)) }
{
    match JwtAccessToken::from_text(alloc, params.access_token.as_str()) {
        Ok(token) => show_token(alloc, params, token, clock.read(), events),
        Err(error) => show_read_error(alloc, events, &error),
    }
}
