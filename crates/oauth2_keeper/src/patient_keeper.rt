//! A keeper that waits after a failed request before it makes another.

ghost use Rattle.std.specs.Prelude.{
  ◌≡◌,
  ◌+ℤ◌,
  ◌&&◌,
  not,
  pos,
  true,
  false,
  Some,
  None,
  IsSome,
  OnOk,
  OnErr,
  if◌then◌else◌,
  map,
  IfErr,
};
ghost use Rattle.std.specs.Duration.{as_nanos};
ghost use Rattle.std.specs.Fn.{FnOnceReturnsAt};
ghost use Rattle.oauth2_wire.specs.Once.{AsksOnce};
ghost use Rattle.oauth2_wire.specs.Reply.{answer_of};
ghost use Rattle.oauth2_keeper.specs.Keeper.{given_by};
ghost use Rattle.oauth2_keeper.specs.TokenTypes.{bearer, is_understood};
ghost use Rattle.oauth2_keeper.specs.private.Settled.{SettlesByType};
ghost use Rattle.oauth2_keeper.specs.Patience.{
  Patient,
  is_usable_if_any,
  without_other_type,
  other_type_call,
  IsLeftBy,
  waits_from,
  is_held_back,
  held_back,
  lasts,
  IsUntil,
  counts,
  failed_call,
  UsableCalls,
  PatientCalls,
  PatientAnswers,
};

use crate::token_keeper::TokenKeeper;
use crate::token_types::{BEARER, NamedTokenType, is_one_of};
use crate::waits::{asked_wait, wait_in_force};
use jiff::Timestamp;
use oauth2::basic::{
    BasicErrorResponse, BasicRevocationErrorResponse, BasicTokenIntrospectionResponse,
    BasicTokenResponse,
};
use oauth2::{
    AccessToken, EndpointNotSet, EndpointState, ErrorResponse, RequestTokenError,
    StandardRevocableToken, SyncHttpClient, TokenResponse,
};
use oauth2_retry_after::AsksToWait;
use oauth2_times::nanosecond_after;
use oauth2_types::display::write_display;
use std::alloc::Global;
use std::fmt;
use std::marker::Model;
use std::time::Duration;

/// Why a patient keeper has no good token.
#[derive(Debug, Drop)]
pub enum PatientError<RE, TE> {
    /// The request for another token failed with this error.
    Request(RequestTokenError<RE, TE>),
    /// No request is made before this time; `None` if it is out of the range of `Timestamp`.
    Waits(Option<Timestamp>),
    /// The server gave a token whose type is none of those that the caller can use, so it must not
    /// be used (RFC 6749, section 7.1) and is forgotten. The refresh token of that reply is kept,
    /// and no request is made until the wait of `set_retry_after` has passed.
    OtherTokenType,
}

impl<RE, TE: fmt::Display> fmt::Display for PatientError<RE, TE> {
    ghost use Rattle.oauth2_keeper.specs.ErrorTexts.{patient_error_text};

    ghost output = { patient_error_text TE.output };

    ghost styled_output = { λ error _. patient_error_text TE.output error };

    fn fmt<W: fmt::Write>(&self, f: &mut fmt::Formatter<W>) -> fmt::Result {
        match self {
            PatientError::Request(error) => write_display(f, error),
            PatientError::Waits(_) => f.write_str("The last request failed, and none is made yet"),
            PatientError::OtherTokenType => f.write_str("The server gave a token of another type"),
        }
    }
}

impl<RE, TE> std::error::Error for PatientError<RE, TE>
where
    RE: fmt::Debug + Drop,
    TE: fmt::Debug + fmt::Display + Drop,
{}

/// A keeper that makes no request for some time after one that failed.
///
/// Contracts see it as a `Patient`.
pub struct PatientKeeper<'a, TE, TR, TIR, RT, TRE, A, D, I, R>
where
    TR: TokenResponse + Drop,
    A: EndpointState,
    D: EndpointState,
    I: EndpointState,
    R: EndpointState,
{
    keeper: TokenKeeper<'a, TE, TR, TIR, RT, TRE, A, D, I, R>,
    token_types: Option<&'a [&'a str]>,
    least_wait: Duration,
    most_asked_wait: Duration,
    wait: Duration,
    until_end: bool,
    failed_at: Option<Timestamp>,
}

// `Drop` is written out for the same reason as that of `TokenKeeper`.
impl<'a, TE, TR, TIR, RT, TRE, A, D, I, R> Drop
    for PatientKeeper<'a, TE, TR, TIR, RT, TRE, A, D, I, R>
where
    TR: TokenResponse + Drop,
    A: EndpointState,
    D: EndpointState,
    I: EndpointState,
    R: EndpointState,
{
    fn drop(self) {
        let PatientKeeper {
            keeper: _,
            token_types: _,
            least_wait: _,
            most_asked_wait: _,
            wait: _,
            until_end: _,
            failed_at: _,
        } = self;
    }
}

/// A patient keeper for a server that uses no extension, for a `BasicClient` whose other endpoints
/// are in these states.
pub type BasicPatientKeeper<
    'a,
    A = EndpointNotSet,
    D = EndpointNotSet,
    I = EndpointNotSet,
    R = EndpointNotSet,
> = PatientKeeper<
    'a,
    BasicErrorResponse,
    BasicTokenResponse,
    BasicTokenIntrospectionResponse,
    StandardRevocableToken,
    BasicRevocationErrorResponse,
    A,
    D,
    I,
    R,
>;

impl<'a, TE, TR, TIR, RT, TRE, A, D, I, R> Model
    for PatientKeeper<'a, TE, TR, TIR, RT, TRE, A, D, I, R>
where
    TR: TokenResponse + Drop,
    A: EndpointState,
    D: EndpointState,
    I: EndpointState,
    R: EndpointState,
{
    ghost use Rattle.std.specs.Prelude.{map, option_map};
    ghost use Rattle.std.specs.Duration.{as_nanos};
    ghost use Rattle.oauth2_keeper.specs.Patience.{Patient};

    ghost Value = { Patient };

    ghost view = { λ k. record {
      keeper = k.keeper;
      token_types = option_map (λ names. map (λ name. name.now) names.now) k.token_types;
      least_wait = as_nanos k.least_wait;
      most_asked_wait = as_nanos k.most_asked_wait;
      wait = as_nanos k.wait;
      until_end = k.until_end;
      failed_at = option_map (λ moment. moment.nanosecond) k.failed_at;
    } };
}

impl<'a, TE, TR, TIR, RT, TRE, A, D, I, R> TokenKeeper<'a, TE, TR, TIR, RT, TRE, A, D, I, R>
where
    TR: TokenResponse + Drop,
    A: EndpointState,
    D: EndpointState,
    I: EndpointState,
    R: EndpointState,
{
    /// A keeper that makes no request until `wait` has passed since the last failed one. It heeds
    /// no longer wait that a server asks for, unless `heed_retry_after` is called, and its caller
    /// can use bearer tokens alone, unless `expecting_token_types` or `expecting_any_token_type` is.
    pub fn set_retry_after(
        self,
        wait: Duration,
    ) -> PatientKeeper<'a, TE, TR, TIR, RT, TRE, A, D, I, R>
        ensures { result ≡ record {
          keeper = self.entry;
          token_types = Some bearer;
          least_wait = as_nanos wait;
          most_asked_wait = 0;
          wait = as_nanos wait;
          until_end = false;
          failed_at = None;
        } }
    {
        PatientKeeper {
            keeper: self,
            token_types: Some(BEARER),
            least_wait: wait,
            most_asked_wait: Duration::ZERO,
            wait,
            until_end: false,
            failed_at: None,
        }
    }
}

impl<'a, TE, TR, TIR, RT, TRE, A, D, I, R> PatientKeeper<'a, TE, TR, TIR, RT, TRE, A, D, I, R>
where
    TR: TokenResponse + Drop,
    A: EndpointState,
    D: EndpointState,
    I: EndpointState,
    R: EndpointState,
{
    /// Its caller can use tokens of these types, in any case of their letters (RFC 6749, sections
    /// 5.1 and 7.1). A token of another type is not handed out, also one that is kept already: the
    /// next call forgets it.
    pub fn expecting_token_types(mut self, token_types: &'a [&'a str]) -> Self
        ensures { result ≡ record self.entry {
          token_types = Some (map (λ name. name.now) token_types.now);
        } }
    {
        self.token_types = Some(token_types);
        self
    }

    /// Its caller can use tokens of any type.
    pub fn expecting_any_token_type(mut self) -> Self
        ensures { result ≡ record self.entry { token_types = None } }
    {
        self.token_types = None;
        self
    }

    /// Heeds the wait that a server asks for in a Retry-After (RFC 9110, section 10.2.3; RFC 6585,
    /// section 4), up to `most_wait`: after a failed request whose error tells such a wait, no
    /// request is made before that time has passed. A wait of `set_retry_after` that is longer is
    /// not shortened. The error of a `TellsBusy` tells the wait (`oauth2_retry_after`).
    pub fn heed_retry_after(mut self, most_wait: Duration) -> Self
        ensures { result ≡ record self.entry { most_asked_wait = as_nanos most_wait } }
    {
        self.most_asked_wait = most_wait;
        self
    }

    /// Hands out the kept token to the end of its lifetime while no request may be made, as if the
    /// margin were 0. Unless this is set, such a call returns `Waits`.
    pub fn use_token_until_end(mut self) -> Self
        ensures { result ≡ record self.entry { until_end = true } }
    {
        self.until_end = true;
        self
    }

    /// The `TokenKeeper` in it, with the kept token and the settings.
    pub fn keeper(&self) -> &TokenKeeper<'a, TE, TR, TIR, RT, TRE, A, D, I, R>
        ensures { result.now ≡ self.now.keeper }
    {
        &self.keeper
    }

    /// Forgets the kept token, as `TokenKeeper::forget_token` does. A wait does not end by this.
    pub fn forget_token(&mut self)
        ensures { self.new ≡ record self.old {
          keeper = record self.old.keeper { token = None };
        } }
    {
        self.keeper.forget_token();
    }

    /// Forgets the kept refresh token, as `TokenKeeper::forget_refresh_token` does. A wait does not
    /// end by this.
    pub fn forget_refresh_token(&mut self)
        ensures { self.new ≡ record self.old {
          keeper = record self.old.keeper { refresh_token = None };
        } }
    {
        self.keeper.forget_refresh_token();
    }

    // Whether its caller can use a token of this type.
    fn understands(&self, found: &str) -> bool
        ensures { result ≡ is_understood self.now.token_types found.now }
    {
        match self.token_types {
            Some(token_types) => is_one_of(token_types, found),
            None => true,
        }
    }

    // Begins the wait after a reply at `now` had a token of another type, and forgets that.
    fn note_other_type(&mut self, now: Timestamp)
        ensures { self.new ≡ other_type_call self.old now.nanosecond self.old.keeper }
    {
        self.forget_token();
        self.wait = self.least_wait;
        self.failed_at = Some(now);
    }

    // Ends the wait after a call without an error, unless the kept token was good and no request
    // was made.
    fn note_success(&mut self, was_good: bool)
        ensures { self.new ≡ record self.old {
          failed_at = if was_good then self.old.failed_at else None;
        } }
    {
        if !was_good {
            self.failed_at = None;
        }
    }

    // Sets the time from which the wait is counted, for a call at `now` that is held back.
    fn note_wait(&mut self, now: Timestamp)
        ensures { self.new ≡ held_back self.old now.nanosecond }
    {
        if let Some(failed_at) = self.failed_at {
            self.failed_at = Some(waits_from(now, failed_at));
        }
    }

    // Begins the wait after a request at `now` failed, if its error counts.
    fn note_fault<RE: AsksToWait>(&mut self, now: Timestamp, error: &RequestTokenError<RE, TE>)
        ensures { self.new ≡ failed_call RE.asked_wait self.old now.nanosecond error.now }
    {
        if counts(error) {
            let asked = asked_wait(error);
            self.wait = wait_in_force(self.least_wait, self.most_asked_wait, asked);
            self.failed_at = Some(now);
        }
    }

    // Whether a call at `now` needs a request but may not make one yet.
    fn is_held_back(&self, now: Timestamp) -> bool
        ensures { result ≡ is_held_back self.now now.nanosecond }
    {
        match self.failed_at {
            Some(failed_at) => {
                !self.keeper.is_good(now)
                    && now.as_nanosecond() < nanosecond_after(waits_from(now, failed_at), self.wait)
            }
            None => false,
        }
    }

    // Whether the kept token may be used during a wait.
    fn lasts(&self, now: Timestamp) -> bool
        ensures { result ≡ lasts self.now now.nanosecond }
    {
        self.until_end && self.keeper.lasts(now)
    }
}

// The time from which a call at `now` waits after a request that failed. If the clock was set back,
// `now` is the earlier one, and the wait is counted from it.
fn waits_from(now: Timestamp, failed_at: Timestamp) -> Timestamp
    ensures { result.nanosecond ≡ waits_from now.nanosecond failed_at.nanosecond }
{
    if now.as_nanosecond() < failed_at.as_nanosecond() {
        now
    } else {
        failed_at
    }
}

// When the wait after `failed_at` ends; `None` if that is past the last `Timestamp`.
fn end_of_wait(failed_at: Timestamp, wait: Duration) -> Option<Timestamp>
    ensures { IsUntil (failed_at.nanosecond +ℤ pos (as_nanos wait)) result }
{
    Timestamp::from_nanosecond(nanosecond_after(failed_at, wait)).ok()
}

// The text of the error of a request whose endpoint is not an HTTP target.
const NOT_HTTP: &str = "failed to prepare request: endpoint URL is not an HTTP target";

// Whether an error of a request begins a wait: the HTTP client was called.
fn counts<RE, TE>(error: &RequestTokenError<RE, TE>) -> bool
    ensures { result ≡ counts error.now }
{
    match error {
        RequestTokenError::Memory { sent } => *sent,
        RequestTokenError::Other(text) => text.as_str() != NOT_HTTP,
        RequestTokenError::ServerResponse(_)
        | RequestTokenError::Request(_)
        | RequestTokenError::Parse(_, _) => true,
    }
}

impl<'a, TE, TR, TIR, RT, TRE, A, D, I, R> PatientKeeper<'a, TE, TR, TIR, RT, TRE, A, D, I, R>
where
    TR: TokenResponse + Drop,
    TR::TokenType: NamedTokenType,
    A: EndpointState,
    D: EndpointState,
    I: EndpointState,
    R: EndpointState,
{
    // Whether its caller can use the kept token, if there is one.
    fn is_usable_if_any(&self) -> bool
        ensures { result ≡ is_usable_if_any self.now.token_types self.now.keeper.token }
    {
        match self.keeper.token_type() {
            Some(token_type) => self.understands(token_type),
            None => true,
        }
    }

    // Forgets the kept token if its caller can't use it.
    fn forget_other_type(&mut self)
        ensures { self.new ≡ without_other_type self.old }
    {
        if !self.is_usable_if_any() {
            self.forget_token();
        }
    }

    // What is kept after a call of the keeper without an error, by the type of the kept token.
    fn settle<RE>(&mut self, now: Timestamp, was_good: bool) -> Result<(), PatientError<RE, TE>>
        ensures { SettlesByType self.old now.nanosecond was_good result self.new }
    {
        if self.is_usable_if_any() {
            self.note_success(was_good);
            Ok(())
        } else {
            self.note_other_type(now);
            Err(PatientError::OtherTokenType)
        }
    }
}

impl<'a, TE, TR, TIR, RT, TRE, A, D, I, R> PatientKeeper<'a, TE, TR, TIR, RT, TRE, A, D, I, R>
where
    TE: ErrorResponse,
    TR: TokenResponse + Drop,
    TR::TokenType: NamedTokenType,
    A: EndpointState,
    D: EndpointState,
    I: EndpointState,
    R: EndpointState,
{
    /// Makes sure that a good token is kept, as `keep_good` of the keeper. If a request is needed
    /// and the last one failed less than the wait ago, nothing is sent and what is kept does not
    /// change: the call returns `Waits`, or `Ok` if the kept token may be used to the end of its
    /// lifetime. The wait is that of `set_retry_after`, or a longer one that the server asked for,
    /// if it is heeded. If the call comes before the request that failed, the clock was set back,
    /// and the wait is counted from this call. A token that the caller can't use is forgotten, and
    /// after such a reply the call returns `OtherTokenType`; nothing is allocated for that.
    pub fn keep_good<C: SyncHttpClient>(
        &mut self,
        alloc: Global,
        now: Timestamp,
        http_client: &mut C,
    ) -> Result<(), PatientError<C::Error, TE>>
    where
        C::Error: AsksToWait,
        requires { C.is_ready http_client.old }
        ensures call { PatientCalls
            (λ rule. AsksOnce TR.meaning TE.meaning C.step (answer_of rule TR.reading TE.reading))
            (given_by TR.TokenType.writing TR.access_token TR.token_type TR.lifetime
            TR.refresh_token) C.Error.asked_wait
            self.old now.nanosecond http_client.old result http_client.new self.new }
        ensures token { OnOk result (IsSome self.new.keeper.token) }
        ensures fault { IfErr result (λ error.
            IsLeftBy error (without_other_type self.old).keeper self.new.keeper) }
        ensures ready { C.is_ready http_client.new }
    {
        self.forget_other_type();
        if self.is_held_back(now) {
            self.note_wait(now);
            if self.lasts(now) {
                return Ok(());
            }
            return Err(PatientError::Waits(match self.failed_at {
                Some(failed_at) => end_of_wait(failed_at, self.wait),
                None => None,
            }));
        }
        self.call(alloc, now, http_client)
    }

    // Calls the keeper.
    fn call<C: SyncHttpClient>(
        &mut self,
        alloc: Global,
        now: Timestamp,
        http_client: &mut C,
    ) -> Result<(), PatientError<C::Error, TE>>
    where
        C::Error: AsksToWait,
        requires ready { C.is_ready http_client.old }
        requires free { is_held_back self.old now.nanosecond ≡ false }
        ensures call { UsableCalls
            (λ rule. AsksOnce TR.meaning TE.meaning C.step (answer_of rule TR.reading TE.reading))
            (given_by TR.TokenType.writing TR.access_token TR.token_type TR.lifetime
            TR.refresh_token) C.Error.asked_wait
            self.old now.nanosecond http_client.old result http_client.new self.new }
        ensures token { OnOk result (IsSome self.new.keeper.token) }
        ensures fault { IfErr result (λ error. IsLeftBy error self.old.keeper self.new.keeper) }
        ensures ready { C.is_ready http_client.new }
    {
        let was_good = self.keeper.is_good(now);
        match self.keeper.keep_good(alloc, now, http_client) {
            Ok(()) => self.settle(now, was_good),
            Err(error) => {
                self.note_fault(now, &error);
                Err(PatientError::Request(error))
            }
        }
    }

    /// Calls `keep_good` and returns the kept token, or the error of that call. This contract does
    /// not say what the keeper keeps afterwards; use `with_token`, or `keep_good` and `keeper`, to
    /// know it too.
    pub fn token<C: SyncHttpClient>(
        &mut self,
        alloc: Global,
        now: Timestamp,
        http_client: &mut C,
    ) -> Result<&AccessToken, PatientError<C::Error, TE>>
    where
        C::Error: AsksToWait,
        requires { C.is_ready http_client.old }
        ensures call { (kept : Patient)
            × PatientAnswers
            (λ rule. AsksOnce TR.meaning TE.meaning C.step (answer_of rule TR.reading TE.reading))
            (given_by TR.TokenType.writing TR.access_token TR.token_type TR.lifetime
            TR.refresh_token) C.Error.asked_wait
            (λ text token. token.now ≡ text)
            self.old now.nanosecond http_client.old result http_client.new kept }
        ensures ready { C.is_ready http_client.new }
    {
        match self.keep_good(alloc, now, http_client) {
            Ok(()) => Ok(self.keeper.get().unwrap()),
            Err(error) => Err(error),
        }
    }

    /// Calls `keep_good` and returns what `read` returns for the kept token, or the error of that
    /// call.
    pub fn with_token<C: SyncHttpClient, F: FnOnce(&AccessToken) -> V, V>(
        &mut self,
        alloc: Global,
        now: Timestamp,
        http_client: &mut C,
        read: F,
    ) -> Result<V, PatientError<C::Error, TE>>
    where
        C::Error: AsksToWait,
        F: Drop,
        requires ready { C.is_ready http_client.old }
        requires read { F.IsAlwaysCallable read }
        ensures call { PatientAnswers
            (λ rule. AsksOnce TR.meaning TE.meaning C.step (answer_of rule TR.reading TE.reading))
            (given_by TR.TokenType.writing TR.access_token TR.token_type TR.lifetime
            TR.refresh_token) C.Error.asked_wait
            (λ text value. FnOnceReturnsAt F.FnOnce read text value)
            self.old now.nanosecond http_client.old result http_client.new self.new }
        ensures ready { C.is_ready http_client.new }
    {
        match self.keep_good(alloc, now, http_client) {
            Ok(()) => Ok(read(self.keeper.get().unwrap())),
            Err(error) => Err(error),
        }
    }
}
