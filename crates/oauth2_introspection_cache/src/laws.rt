//! What a cache does over many calls. Each function is a theorem: its clause is proved, and a call of
//! it does nothing.

ghost use Rattle.std.specs.Prelude.{[], ◌∷◌};
ghost use Rattle.oauth2_wire.specs.Once.{AsksOnce};
ghost use Rattle.oauth2_wire.specs.Reply.{answer_of};
ghost use Rattle.oauth2_introspection_cache.specs.Cache.{Outcome};
ghost use Rattle.oauth2_introspection_cache.specs.Runs.{
  EachAnswerWasTold,
  EachForgottenTokenIsAskedAbout,
  EachOutcomeIsKept,
  CacheRuns,
  asked,
};

use crate::introspection_cache::IntrospectionCache;
use jiff::Timestamp;
use oauth2::{
    AccessToken, EndpointState, ErrorResponse, RequestTokenError, SyncHttpClient,
    TokenIntrospectionResponse,
};
use std::alloc::Global;

/// An answer that is given without a request is the last one that the server gave for that token,
/// asked for less than the longest time ago, and its token has not expired.
#[tactic(auto, using(crate::proofs::RunLaws::was_told))]
pub fn each_answer_was_told<C, TE, TIR>()
where
    C: SyncHttpClient,
    TE: ErrorResponse,
    TIR: TokenIntrospectionResponse,
    ensures { EachAnswerWasTold
        (λ rule. AsksOnce TIR.meaning TE.meaning C.step (answer_of rule TIR.reading TE.reading))
        TIR.active TIR.exp }
{}

/// After a token was forgotten, a call for it asks the server, unless the server has said since that
/// it is active.
#[tactic(auto, using(crate::proofs::RunLaws::is_asked_about))]
pub fn each_forgotten_token_is_asked_about<C, TE, TIR>()
where
    C: SyncHttpClient,
    TE: ErrorResponse,
    TIR: TokenIntrospectionResponse,
    ensures { EachForgottenTokenIsAskedAbout
        (λ rule. AsksOnce TIR.meaning TE.meaning C.step (answer_of rule TIR.reading TE.reading))
        TIR.active TIR.exp }
{}

/// If a call finds a token active, the answer that it found is kept for that token after the call:
/// the one that was kept before and is still good, or the one that the server gave.
#[tactic(auto, using(crate::proofs::RunLaws::is_kept))]
pub fn each_outcome_is_kept<C, TE, TIR>()
where
    C: SyncHttpClient,
    TE: ErrorResponse,
    TIR: TokenIntrospectionResponse,
    ensures { EachOutcomeIsKept
        (λ rule. AsksOnce TIR.meaning TE.meaning C.step (answer_of rule TIR.reading TE.reading))
        TIR.active TIR.exp }
{}

/// A call of `lend_answer`, after which the answer was given back, is a call as those of the other
/// laws: they hold of calls of `is_active`, `authorize`, `forget` and `lend_answer`.
#[tactic(auto, using(crate::proofs::Lent::is_a_run))]
pub fn lent_answer_is_a_call<C, TE, TR, TIR, RT, TRE, A, D, R, T>(
    cache: &mut IntrospectionCache<'_, TE, TR, TIR, RT, TRE, A, D, R, T>,
    alloc: Global,
    token: &AccessToken,
    now: Timestamp,
    http_client: &mut C,
    fault: &mut Option<RequestTokenError<C::Error, TE>>,
) -> bool
where
    C: SyncHttpClient,
    TE: ErrorResponse + Drop,
    TIR: TokenIntrospectionResponse + Drop,
    A: EndpointState,
    D: EndpointState,
    R: EndpointState,
    T: EndpointState,
    requires { C.is_ready http_client.old }
    ensures { (outcome : Outcome TIR) × CacheRuns
        (λ rule. AsksOnce TIR.meaning TE.meaning C.step (answer_of rule TIR.reading TE.reading))
        TIR.active TIR.exp cache.old http_client.old
        (asked token.now now.nanosecond outcome ∷ []) http_client.new cache.new }
{
    cache
        .lend_answer(alloc, token, now, http_client, fault)
        .is_some()
}
