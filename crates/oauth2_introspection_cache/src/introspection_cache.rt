//! A cache of introspection answers: it asks the server only about tokens for which it has no answer
//! that may still be used.

ghost use Rattle.std.specs.Prelude.{◌≡◌, ◌≤◌, [], true, Ok, IfOk, OnOk, OnErr, IsSome};
ghost use Rattle.std.specs.Prelude.{is_some, length, map, option_copied};
ghost use Rattle.std.specs.Borrow.{sem};
ghost use Rattle.std.specs.Duration.{as_nanos};
ghost use Rattle.std.specs.NonZero.{non_zero_usize_get};
ghost use Rattle.lru.specs.LruCache.{lru_cache};
ghost use Rattle.oauth2_wire.specs.Once.{AsksOnce};
ghost use Rattle.oauth2_wire.specs.Reply.{answer_of};
ghost use Rattle.oauth2_introspection_cache.specs.Cache.{
  Cache,
  CacheAnswers,
  CacheCalls,
  forgetting,
  good_answer,
  keeping,
  kept_answer,
  promoting,
};
ghost use Rattle.oauth2_introspection_cache.specs.Decision.{Decides, judged_if_any, said_by};
ghost use Rattle.oauth2_introspection_cache.specs.private.Settled.{AsksAndSettles, Settles};

use crate::accepted::AcceptedTokens;
use crate::confirmation::{ConfirmedIntrospectionResponse, TellsConfirmation};
use crate::kept_answer::KeptAnswer;
use crate::refusal::{NotAuthorized, TokenRefusal, decision};
use jiff::Timestamp;
use lru::LruCache;
use oauth2::basic::{BasicErrorResponse, BasicRevocationErrorResponse, BasicTokenResponse};
use oauth2::{
    AccessToken, Client, EndpointNotSet, EndpointSet, EndpointState, ErrorResponse,
    RequestTokenError, StandardRevocableToken, SyncHttpClient, TokenIntrospectionResponse,
    TryClone,
};
use std::alloc::{AllocError, Global};
use std::marker::Model;
use std::num::NonZeroUsize;
use std::time::Duration;

/// Keeps what an introspection endpoint said of the tokens that it was asked about. Only the answer
/// that a token is active is kept, so tokens that nobody issued push none out.
///
/// The type parameters are those of its client, whose introspection endpoint is set.
/// Contracts see a cache of any type as a `Cache`.
pub struct IntrospectionCache<'a, TE, TR, TIR, RT, TRE, A, D, R, T>
where
    A: EndpointState,
    D: EndpointState,
    R: EndpointState,
    T: EndpointState,
{
    client: &'a Client<TE, TR, TIR, RT, TRE, A, D, EndpointSet, R, T>,
    longest: Duration,
    kept: LruCache<AccessToken, KeptAnswer<TIR>>,
}

// `Drop` is written out, so that in a function that holds a cache, the proof of its drop is one
// call on each path.
impl<'a, TE, TR, TIR: Drop, RT, TRE, A, D, R, T> Drop
    for IntrospectionCache<'a, TE, TR, TIR, RT, TRE, A, D, R, T>
where
    A: EndpointState,
    D: EndpointState,
    R: EndpointState,
    T: EndpointState,
{
    fn drop(self) {
        let IntrospectionCache {
            client: _,
            longest: _,
            kept: _,
        } = self;
    }
}

/// A cache for a server that uses no extension but those that bind tokens to keys, for a
/// `ResourceServerClient` whose other endpoints are in these states.
pub type BasicIntrospectionCache<
    'a,
    A = EndpointNotSet,
    D = EndpointNotSet,
    R = EndpointNotSet,
    T = EndpointNotSet,
> = IntrospectionCache<
    'a,
    BasicErrorResponse,
    BasicTokenResponse,
    ConfirmedIntrospectionResponse,
    StandardRevocableToken,
    BasicRevocationErrorResponse,
    A,
    D,
    R,
    T,
>;

impl<'a, TE, TR, TIR, RT, TRE, A, D, R, T> Model
    for IntrospectionCache<'a, TE, TR, TIR, RT, TRE, A, D, R, T>
where
    A: EndpointState,
    D: EndpointState,
    R: EndpointState,
    T: EndpointState,
{
    ghost use Rattle.std.specs.Duration.{as_nanos};
    ghost use Rattle.oauth2_introspection_cache.specs.Cache.{Cache};

    ghost Value = { Cache TIR };

    ghost view = { λ c. record {
      client = c.client.now;
      longest = as_nanos c.longest;
      kept = c.kept;
    } };
}

impl<'a, TE, TR, TIR, RT, TRE, A, D, R, T> IntrospectionCache<'a, TE, TR, TIR, RT, TRE, A, D, R, T>
where
    TIR: Drop,
    A: EndpointState,
    D: EndpointState,
    R: EndpointState,
    T: EndpointState,
{
    /// A cache that keeps nothing yet. It keeps the answers for at most so many tokens, and uses
    /// none that was asked for `longest` ago: for that long a token that was revoked may count.
    pub fn new(
        alloc: Global,
        client: &'a Client<TE, TR, TIR, RT, TRE, A, D, EndpointSet, R, T>,
        most: NonZeroUsize,
        longest: Duration,
    ) -> Result<Self, AllocError>
        ensures { IfOk result (λ cache. cache ≡ record {
          client = client.now;
          longest = as_nanos longest;
          kept = lru_cache [] (non_zero_usize_get most);
        }) }
    {
        Ok(IntrospectionCache {
            client,
            longest,
            kept: LruCache::sparse(alloc, most)?,
        })
    }

    /// For how many tokens an answer is kept.
    pub fn len(&self) -> usize
        ensures len { result ≡ length self.now.kept.entries }
        ensures most { result ≤ self.now.kept.cap }
    {
        self.kept.len()
    }

    /// The answer that is kept for a token, whether or not it may still be used.
    pub fn kept_answer(&self, token: &AccessToken) -> Option<&TIR>
        ensures { option_copied result ≡ kept_answer self.now token.now }
    {
        match self.kept.peek(token) {
            Some(kept) => Some(&kept.answer),
            None => None,
        }
    }

    /// Forgets what is kept for a token, as when its user signs out or the server says that it was
    /// revoked. The next call for it asks the server.
    pub fn forget(&mut self, token: &AccessToken)
        ensures { self.new ≡ forgetting self.old token.now }
    {
        self.kept.pop(token);
    }

    // Makes a token the one that was asked about last.
    fn note_use(&mut self, token: &AccessToken)
        ensures { self.new ≡ promoting self.old token.now }
    {
        self.kept.promote(token);
    }

    // Keeps an answer for a token.
    fn keep(&mut self, token: AccessToken, kept: KeptAnswer<TIR>) -> Result<(), AllocError>
        ensures ok { OnOk result (self.new ≡ keeping self.old token kept) }
        ensures err { OnErr result (self.new ≡ self.old) }
    {
        match self.kept.put(token, kept) {
            Ok(_) => Ok(()),
            Err(_) => Err(AllocError),
        }
    }
}

impl<'a, TE, TR, TIR, RT, TRE, A, D, R, T> IntrospectionCache<'a, TE, TR, TIR, RT, TRE, A, D, R, T>
where
    TE: ErrorResponse,
    TIR: TokenIntrospectionResponse + Drop,
    A: EndpointState,
    D: EndpointState,
    R: EndpointState,
    T: EndpointState,
{
    /// Whether a token is active. If an answer is kept that may be used, nothing is sent and no
    /// memory is taken. Else the server is asked, once, and its answer is kept if the token is
    /// active; after any other answer and after an error nothing is kept for the token.
    pub fn is_active<C: SyncHttpClient>(
        &mut self,
        alloc: Global,
        token: &AccessToken,
        now: Timestamp,
        http_client: &mut C,
    ) -> Result<bool, RequestTokenError<C::Error, TE>>
        requires { C.is_ready http_client.old }
        ensures call { CacheCalls
            (λ rule. AsksOnce TIR.meaning TE.meaning C.step (answer_of rule TIR.reading TE.reading))
            TIR.active TIR.exp self.old token.now now.nanosecond
            http_client.old result http_client.new self.new }
        ensures kept { result ≡ Ok true → IsSome (kept_answer self.new token.now) }
        ensures ready { C.is_ready http_client.new }
    {
        if self.is_good(token, now) {
            self.note_use(token);
            return Ok(true);
        }
        self.forget(token);
        self.ask_and_settle(alloc, token, now, http_client)
    }

    // Whether an answer is kept for the token that may be used.
    fn is_good(&self, token: &AccessToken, now: Timestamp) -> bool
        ensures { result ≡ is_some (good_answer TIR.exp self.now token.now now.nanosecond) }
    {
        match self.kept.peek(token) {
            Some(kept) => kept.is_good(self.longest, now),
            None => false,
        }
    }

    // Asks the server about a token of which nothing is kept, and keeps the answer.
    fn ask_and_settle<C: SyncHttpClient>(
        &mut self,
        alloc: Global,
        token: &AccessToken,
        now: Timestamp,
        http_client: &mut C,
    ) -> Result<bool, RequestTokenError<C::Error, TE>>
        requires { C.is_ready http_client.old }
        ensures settles { AsksAndSettles TIR.active
            (λ rule. AsksOnce TIR.meaning TE.meaning C.step (answer_of rule TIR.reading TE.reading))
            self.old token.now now.nanosecond http_client.old result http_client.new self.new }
        ensures kept { result ≡ Ok true → IsSome (kept_answer self.new token.now) }
        ensures ready { C.is_ready http_client.new }
    {
        let client = self.client;
        let request = client.introspect(alloc, token);
        match token.try_clone(alloc) {
            Ok(copy) => {
                let answer = request.request(alloc, http_client);
                self.settle(copy, now, answer)
            }
            Err(AllocError) => Err(RequestTokenError::Memory { sent: false }),
        }
    }

    // Keeps the answer for a token, or returns the error of the request.
    #[tactic(auto, using(crate::proofs::Kept::put_found))]
    fn settle<RE>(
        &mut self,
        token: AccessToken,
        now: Timestamp,
        answer: Result<TIR, RequestTokenError<RE, TE>>,
    ) -> Result<bool, RequestTokenError<RE, TE>>
        ensures settles { Settles TIR.active self.old token now.nanosecond answer result self.new }
        ensures kept { result ≡ Ok true → IsSome (kept_answer self.new token) }
    {
        match answer {
            Ok(answer) => {
                if !answer.active() {
                    return Ok(false);
                }
                match self.keep(
                    token,
                    KeptAnswer {
                        answer,
                        asked_at: now,
                    },
                ) {
                    Ok(()) => Ok(true),
                    Err(AllocError) => Err(RequestTokenError::Memory { sent: true }),
                }
            }
            Err(error) => Err(error),
        }
    }
}

impl<'a, TE, TR, TIR, RT, TRE, A, D, R, T> IntrospectionCache<'a, TE, TR, TIR, RT, TRE, A, D, R, T>
where
    TE: ErrorResponse + Drop,
    TIR: TokenIntrospectionResponse + Drop,
    A: EndpointState,
    D: EndpointState,
    R: EndpointState,
    T: EndpointState,
{
    ghost use Rattle.oauth2_introspection_cache.specs.Lending.{LendsAnswer};

    /// Calls `is_active`, and lends the answer that is kept then. Nothing is lent if the token is
    /// not active, or if that call fails: then its error is in `fault`, which else is `None`. Once
    /// the answer is given back, the cache is as that call left it.
    pub fn lend_answer<C: SyncHttpClient>(
        &mut self,
        alloc: Global,
        token: &AccessToken,
        now: Timestamp,
        http_client: &mut C,
        fault: &mut Option<RequestTokenError<C::Error, TE>>,
    ) -> Option<&TIR>
        requires { C.is_ready http_client.old }
        ensures* rests { sem 𝓛 (LendsAnswer TE.row TR.row TIR.row RT.row TRE.row A.row D.row R.row
            T.row A.EndpointState D.EndpointState R.EndpointState T.EndpointState
            (λ rule. AsksOnce TIR.meaning TE.meaning C.step (answer_of rule TIR.reading TE.reading))
            TIR.active TIR.exp self.entry token.now now.nanosecond http_client.old result fault.new
            http_client.new) }
        ensures ready { C.is_ready http_client.new }
    {
        match self.is_active(alloc, token, now, http_client) {
            Ok(true) => {
                *fault = None;
                Some(self.kept_answer(token).unwrap())
            }
            Ok(false) => {
                *fault = None;
                None
            }
            Err(error) => {
                *fault = Some(error);
                None
            }
        }
    }

    /// Calls `lend_answer` and returns the answer, or `None` if the token is not active, or the
    /// error. This contract does not say what is kept afterwards: that of `lend_answer` does.
    pub fn introspect<C: SyncHttpClient>(
        &mut self,
        alloc: Global,
        token: &AccessToken,
        now: Timestamp,
        http_client: &mut C,
    ) -> Result<Option<&TIR>, RequestTokenError<C::Error, TE>>
        requires { C.is_ready http_client.old }
        ensures call { (next : Cache TIR)
            × CacheAnswers
            (λ rule. AsksOnce TIR.meaning TE.meaning C.step (answer_of rule TIR.reading TE.reading))
            TIR.active TIR.exp (λ answer shown. shown.now ≡ answer)
            self.old token.now now.nanosecond http_client.old result http_client.new next }
        ensures ready { C.is_ready http_client.new }
    {
        let mut fault = None;
        match self.lend_answer(alloc, token, now, http_client, &mut fault) {
            Some(answer) => Ok(Some(answer)),
            None => match fault {
                Some(error) => Err(error),
                None => Ok(None),
            },
        }
    }
}

impl<'a, TE, TR, TIR, RT, TRE, A, D, R, T> IntrospectionCache<'a, TE, TR, TIR, RT, TRE, A, D, R, T>
where
    TE: ErrorResponse,
    TIR: TellsConfirmation + Drop,
    A: EndpointState,
    D: EndpointState,
    R: EndpointState,
    T: EndpointState,
{
    /// Decides whether a request with this token, which needs all these scopes, is authorized. It
    /// calls `is_active`, and checks the answer that is kept then. Any error means that the request
    /// must not be served.
    pub fn authorize<C: SyncHttpClient>(
        &mut self,
        alloc: Global,
        token: &AccessToken,
        accepted: &AcceptedTokens<TIR::TokenType>,
        needed: &[&str],
        now: Timestamp,
        http_client: &mut C,
    ) -> Result<(), NotAuthorized<C::Error, TE>>
        requires { C.is_ready http_client.old }
        ensures decides { Decides
            (λ answer after next. CacheCalls
            (λ rule. AsksOnce TIR.meaning TE.meaning C.step (answer_of rule TIR.reading TE.reading))
            TIR.active TIR.exp self.old token.now now.nanosecond
            http_client.old answer after next)
            (judged_if_any TIR.TokenType.eq accepted.now (map (λ scope. scope.now) needed.now)
            now.nanosecond (said_by TIR.active TIR.exp TIR.iss TIR.aud TIR.token_type TIR.is_bound
            TIR.scopes)) token.now result http_client.new self.new }
        ensures ready { C.is_ready http_client.new }
    {
        let active = self.is_active(alloc, token, now, http_client);
        decision(active, self.check_kept(token, accepted, needed, now))
    }

    /// What the answer that is kept for a token decides, whether or not it may still be used. A
    /// token of which nothing is kept is not active.
    pub fn check_kept(
        &self,
        token: &AccessToken,
        accepted: &AcceptedTokens<TIR::TokenType>,
        needed: &[&str],
        now: Timestamp,
    ) -> Result<(), TokenRefusal>
        ensures { result ≡ judged_if_any TIR.TokenType.eq accepted.now
            (map (λ scope. scope.now) needed.now) now.nanosecond
            (said_by TIR.active TIR.exp TIR.iss TIR.aud TIR.token_type TIR.is_bound TIR.scopes)
            (kept_answer self.now token.now) }
    {
        match self.kept_answer(token) {
            Some(answer) => accepted.check(answer, needed, now),
            None => Err(TokenRefusal::Inactive),
        }
    }
}
