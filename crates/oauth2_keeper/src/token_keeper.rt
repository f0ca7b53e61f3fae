//! A client's access token, kept and renewed.

ghost use Rattle.std.specs.Prelude.{
  ◌≡◌,
  ◌++◌,
  ◌∷◌,
  [],
  ℕ,
  ℤ,
  int_le,
  List,
  Some,
  None,
  IsSome,
  IfSome,
  IfNone,
  OnOk,
  OnErr,
  option_copied,
  option_map,
  string_bytes,
};
ghost use Rattle.std.specs.Duration.{as_nanos};
ghost use Rattle.std.specs.Fn.{FnOnceReturnsAt};
ghost use Rattle.std.specs.Iterator.{Drains, IsFinite};
ghost use Rattle.jiff_core.specs.Timestamp.{IsTimestampNanos};
ghost use Rattle.oauth2_form.specs.Params.{with_scope, with_scopes};
ghost use Rattle.oauth2_wire.specs.Texts.{param_bytes};
ghost use Rattle.oauth2_wire.specs.Once.{AsksOnce};
ghost use Rattle.oauth2_wire.specs.Reply.{answer_of};
ghost use Rattle.oauth2_keeper.specs.Keeper.{
  Keeper,
  given_by,
  is_good,
  is_good_if_any,
  good_until_of,
  new_keeper,
  starting_from,
  Renews,
  KeeperCalls,
  Answers,
};
ghost use Rattle.oauth2_keeper.specs.private.Settled.{RenewsAndSettles};
ghost use Rattle.oauth2_keeper.specs.Lends.{LendsToken};
ghost use Rattle.std.specs.Borrow.{sem};

use crate::kept_tokens::KeptTokens;
use crate::params::{Params, with_client_params, with_refresh_params};
use crate::renewal_times::RenewalTimes;
use crate::scopes::{joined_scope, joined_scopes};
use crate::token_types::NamedTokenType;
use jiff::Timestamp;
use oauth2::basic::{
    BasicErrorResponse, BasicRevocationErrorResponse, BasicTokenIntrospectionResponse,
    BasicTokenResponse,
};
use oauth2::{
    AccessToken, Client, ClientId, EndpointNotSet, EndpointSet, EndpointState, ErrorResponse,
    ParamText, RefreshToken, RequestTokenError, Scope, StandardRevocableToken, SyncHttpClient,
    TokenResponse, TokenUrl, TryClone,
};
use std::alloc::{AllocError, Global};
use std::marker::Model;
use std::time::Duration;

/// Keeps a client's access token, and the refresh token to get another with.
///
/// The type parameters are those of its client, whose token endpoint is set.
/// Contracts see a keeper of any type as a `Keeper`.
pub struct TokenKeeper<'a, TE, TR, TIR, RT, TRE, A, D, I, R>
where
    TR: TokenResponse + Drop,
    A: EndpointState,
    D: EndpointState,
    I: EndpointState,
    R: EndpointState,
{
    client: &'a Client<TE, TR, TIR, RT, TRE, A, D, I, R, EndpointSet>,
    times: RenewalTimes,
    scope: Option<Scope>,
    refresh_scope: Option<Scope>,
    extra_params: Params<'a>,
    kept: KeptTokens<TR>,
}

// `Drop` is written out, so that in a function that holds a keeper, the proof of its drop is one
// call on each path.
impl<'a, TE, TR, TIR, RT, TRE, A, D, I, R> Drop
    for TokenKeeper<'a, TE, TR, TIR, RT, TRE, A, D, I, R>
where
    TR: TokenResponse + Drop,
    A: EndpointState,
    D: EndpointState,
    I: EndpointState,
    R: EndpointState,
{
    fn drop(self) {
        let TokenKeeper {
            client: _,
            times: _,
            scope: _,
            refresh_scope: _,
            extra_params: _,
            kept: _,
        } = self;
    }
}

/// A keeper for a server that uses no extension, for a `BasicClient` whose other endpoints are in
/// these states.
pub type BasicTokenKeeper<
    'a,
    A = EndpointNotSet,
    D = EndpointNotSet,
    I = EndpointNotSet,
    R = EndpointNotSet,
> = TokenKeeper<
    'a,
    BasicErrorResponse,
    BasicTokenResponse,
    BasicTokenIntrospectionResponse,
    StandardRevocableToken,
    BasicRevocationErrorResponse,
    A,
    D,
    I,
    R,
>;

impl<'a, TE, TR, TIR, RT, TRE, A, D, I, R> Model
    for TokenKeeper<'a, TE, TR, TIR, RT, TRE, A, D, I, R>
where
    TR: TokenResponse + Drop,
    A: EndpointState,
    D: EndpointState,
    I: EndpointState,
    R: EndpointState,
{
    ghost use Rattle.std.specs.Duration.{as_nanos};
    ghost use Rattle.oauth2_keeper.specs.Keeper.{Keeper};

    ghost Value = { Keeper };

    ghost view = { λ k. record {
      client = k.client.now;
      margin = as_nanos k.times.margin;
      default_lifetime = as_nanos k.times.default_lifetime;
      scope = k.scope;
      refresh_scope = k.refresh_scope;
      extra_params = k.extra_params;
      token = k.kept.token;
      refresh_token = k.kept.refresh_token;
    } };
}

impl<'a, TE, TR, TIR, RT, TRE, A, D, I, R> TokenKeeper<'a, TE, TR, TIR, RT, TRE, A, D, I, R>
where
    TR: TokenResponse + Drop,
    A: EndpointState,
    D: EndpointState,
    I: EndpointState,
    R: EndpointState,
{
    /// A keeper without a token. A token is good until `margin` before its lifetime ends. Its
    /// lifetime is `default_lifetime` if the reply has no `expires_in` (RFC 6749, section 5.1).
    pub fn new(
        client: &'a Client<TE, TR, TIR, RT, TRE, A, D, I, R, EndpointSet>,
        refresh_token: Option<RefreshToken>,
        margin: Duration,
        default_lifetime: Duration,
    ) -> Self
        ensures { result
            ≡ new_keeper client.now refresh_token (as_nanos margin) (as_nanos default_lifetime) }
    {
        let times = RenewalTimes {
            margin,
            default_lifetime,
        };
        TokenKeeper::with_times(client, refresh_token, times)
    }

    /// A keeper without a token, as `new` makes it: the two durations have names here.
    pub fn with_times(
        client: &'a Client<TE, TR, TIR, RT, TRE, A, D, I, R, EndpointSet>,
        refresh_token: Option<RefreshToken>,
        times: RenewalTimes,
    ) -> Self
        ensures { result ≡ new_keeper client.now refresh_token (as_nanos times.margin)
            (as_nanos times.default_lifetime) }
    {
        TokenKeeper {
            client,
            times,
            scope: None,
            refresh_scope: None,
            extra_params: Params::new(),
            kept: KeptTokens::new(refresh_token),
        }
    }

    /// Adds a scope to those that are requested with the client's credentials (RFC 6749, section
    /// 4.4.2).
    pub fn add_scope(&mut self, alloc: Global, scope: Scope) -> Result<(), AllocError>
        ensures ok { OnOk result (self.new
            ≡ record self.old { scope = Some (with_scope self.old.scope scope) }) }
        ensures err { OnErr result (self.new ≡ self.old) }
    {
        let kept = self.scope.try_clone(alloc)?;
        self.scope = Some(joined_scope(kept, scope)?);
        Ok(())
    }

    /// Adds scopes to these, in order, from an iterator that ends: all of them, or none.
    pub fn add_scopes<S: IntoIterator<Item = Scope>>(
        &mut self,
        alloc: Global,
        scopes: S,
    ) -> Result<(), AllocError>
        requires { (it : S.IntoIter) → S.into_iter_gives scopes it
            → S.IntoIter.can_next it × IsFinite (S.IntoIter.remaining it) }
        ensures ok { OnOk result ((it : S.IntoIter) × (added : List (List ℕ))
            × S.into_iter_gives scopes it × Drains S.IntoIter.next_gives it added
            × (self.new ≡ record self.old { scope = with_scopes self.old.scope added })) }
        ensures err { OnErr result (self.new ≡ self.old) }
    {
        self.scope = joined_scopes(alloc, &self.scope, scopes)?;
        Ok(())
    }

    /// Adds a scope to those that are requested with a refresh token. If none is added, the request
    /// has no `scope`, and the server keeps the scopes that it granted (RFC 6749, section 6).
    pub fn add_refresh_scope(&mut self, alloc: Global, scope: Scope) -> Result<(), AllocError>
        ensures ok { let joined = with_scope self.old.refresh_scope scope in
            OnOk result (self.new ≡ record self.old { refresh_scope = Some joined }) }
        ensures err { OnErr result (self.new ≡ self.old) }
    {
        let kept = self.refresh_scope.try_clone(alloc)?;
        self.refresh_scope = Some(joined_scope(kept, scope)?);
        Ok(())
    }

    /// Adds a parameter to each request. If the request itself sends one with that name, both are
    /// sent.
    pub fn add_extra_param(
        &mut self,
        alloc: Global,
        name: ParamText<'a>,
        value: ParamText<'a>,
    ) -> Result<(), AllocError>
        ensures ok { let added = (param_bytes name.entry, param_bytes value.entry) ∷ [] in
            OnOk result (self.new ≡ record self.old {
              extra_params = self.old.extra_params ++ added;
            }) }
        ensures err { OnErr result (self.new ≡ self.old) }
    {
        self.extra_params.push(alloc, name, value)
    }

    /// Starts from a stored token: the one that a call at `accepted_at` got, with its type, its
    /// lifetime and the refresh token that was kept with it.
    pub fn starting_from(
        mut self,
        access_token: AccessToken,
        token_type: String,
        accepted_at: Timestamp,
        lifetime: Duration,
        refresh_token: Option<RefreshToken>,
    ) -> Self
        ensures { result ≡ starting_from self.entry (record {
          access_token = access_token;
          token_type = string_bytes token_type;
          accepted_at = accepted_at.nanosecond;
          lifetime = as_nanos lifetime;
        }) refresh_token }
    {
        self.start_from(
            access_token,
            token_type,
            accepted_at,
            lifetime,
            refresh_token,
        );
        self
    }

    /// Starts from a stored token, as `starting_from` does. The token and the refresh token replace
    /// those that were kept.
    pub fn start_from(
        &mut self,
        access_token: AccessToken,
        token_type: String,
        accepted_at: Timestamp,
        lifetime: Duration,
        refresh_token: Option<RefreshToken>,
    )
        ensures { self.new ≡ starting_from self.old (record {
          access_token = access_token;
          token_type = string_bytes token_type;
          accepted_at = accepted_at.nanosecond;
          lifetime = as_nanos lifetime;
        }) refresh_token }
    {
        self.kept.start_from(
            access_token,
            token_type,
            accepted_at,
            lifetime,
            refresh_token,
        );
    }

    /// Forgets the kept token, so that the next call makes a request. It is for a token that a
    /// server rejects before its lifetime ends (RFC 6750, section 3.1, `invalid_token`).
    pub fn forget_token(&mut self)
        ensures { self.new ≡ record self.old { token = None } }
    {
        self.kept.forget_token();
    }

    /// Forgets the kept refresh token, so that the next request uses the client's credentials. It
    /// is for a refresh token that the server refused (RFC 6749, section 5.2, `invalid_grant`).
    pub fn forget_refresh_token(&mut self)
        ensures { self.new ≡ record self.old { refresh_token = None } }
    {
        self.kept.forget_refresh_token();
    }

    /// The identifier of its client.
    pub fn client_id(&self) -> &ClientId
        ensures { result.now ≡ self.now.client.client_id }
    {
        self.client.client_id()
    }

    /// The token endpoint of its client.
    pub fn token_uri(&self) -> &TokenUrl
        ensures { self.now.client.token_url ≡ Some result.now }
    {
        self.client.token_uri()
    }

    /// The moment of the call that got the kept token.
    pub fn accepted_at(&self) -> Option<Timestamp>
        ensures { option_map (λ moment. moment.nanosecond) result
            ≡ option_map (λ token. token.accepted_at) self.now.token }
    {
        match self.kept.token() {
            Some(token) => Some(token.accepted_at),
            None => None,
        }
    }

    /// The lifetime of the kept token.
    pub fn lifetime(&self) -> Option<Duration>
        ensures { option_map as_nanos result
            ≡ option_map (λ token. token.lifetime) self.now.token }
    {
        match self.kept.token() {
            Some(token) => Some(token.lifetime),
            None => None,
        }
    }

    /// The kept refresh token: that of the last reply that had one, or before that the initial one.
    pub fn refresh_token(&self) -> Option<&RefreshToken>
        ensures { option_copied result ≡ self.now.refresh_token }
    {
        self.kept.refresh_token()
    }

    /// The last moment at which the kept token is good. `None` if there is no token, or if that
    /// moment is out of the range of `Timestamp`.
    pub fn good_until(&self) -> Option<Timestamp>
        ensures some { IfSome result
            (λ end. (now : ℤ) → is_good self.now now ≡ int_le now end.nanosecond) }
        ensures none { IfNone result (IfSome self.now.token
            (λ token. IsTimestampNanos (good_until_of self.now.margin token) → ⊥)) }
    {
        match self.kept.token() {
            Some(token) => token.good_until(self.times.margin),
            None => None,
        }
    }

    /// The kept token.
    pub fn get(&self) -> Option<&AccessToken>
        ensures { option_copied result ≡ option_map (λ token. token.access_token) self.now.token }
    {
        match self.kept.token() {
            Some(token) => Some(token.access_token()),
            None => None,
        }
    }

    // Whether there is a kept token that is good at `now`.
    pub(crate) fn is_good(&self, now: Timestamp) -> bool
        ensures { result ≡ is_good self.now now.nanosecond }
    {
        match self.kept.token() {
            Some(token) => token.is_good(self.times.margin, now),
            None => false,
        }
    }

    // Whether there is a kept token whose lifetime has not ended at `now`.
    pub(crate) fn lasts(&self, now: Timestamp) -> bool
        ensures { result ≡ is_good_if_any 0 now.nanosecond self.now.token }
    {
        match self.kept.token() {
            Some(token) => token.lasts(now),
            None => false,
        }
    }
}

impl<'a, TE, TR, TIR, RT, TRE, A, D, I, R> TokenKeeper<'a, TE, TR, TIR, RT, TRE, A, D, I, R>
where
    TR: TokenResponse + Drop,
    TR::TokenType: NamedTokenType,
    A: EndpointState,
    D: EndpointState,
    I: EndpointState,
    R: EndpointState,
{
    /// The type of the kept token (RFC 6749, section 7.1), in the case of the reply's reader: that
    /// of a `BasicTokenType` has small letters.
    pub fn token_type(&self) -> Option<&str>
        ensures { option_copied result ≡ option_map (λ token. token.token_type) self.now.token }
    {
        match self.kept.token() {
            Some(token) => Some(token.token_type()),
            None => None,
        }
    }
}

impl<'a, TE, TR, TIR, RT, TRE, A, D, I, R> TokenKeeper<'a, TE, TR, TIR, RT, TRE, A, D, I, R>
where
    TE: ErrorResponse,
    TR: TokenResponse + Drop,
    A: EndpointState,
    D: EndpointState,
    I: EndpointState,
    R: EndpointState,
{
    /// Makes sure that a good token is kept. If the kept token is good, nothing is sent and no
    /// memory is taken. If not, one request is made: with the refresh token if there is one, else
    /// with the client's own credentials. After `Ok` a token is kept, which is good or was
    /// accepted in this call. After an error, what was kept is unchanged.
    pub fn keep_good<C: SyncHttpClient>(
        &mut self,
        alloc: Global,
        now: Timestamp,
        http_client: &mut C,
    ) -> Result<(), RequestTokenError<C::Error, TE>>
        requires { C.is_ready http_client.old }
        ensures call { KeeperCalls
            (λ rule. AsksOnce TR.meaning TE.meaning C.step (answer_of rule TR.reading TE.reading))
            (given_by TR.TokenType.writing TR.access_token TR.token_type TR.lifetime
            TR.refresh_token)
            self.old now.nanosecond http_client.old result http_client.new self.new }
        ensures token { OnOk result (IsSome self.new.token) }
        ensures fault { OnErr result (self.new ≡ self.old) }
        ensures ready { C.is_ready http_client.new }
    {
        if self.is_good(now) {
            return Ok(());
        }
        self.renew(alloc, now, http_client)
    }

    /// Calls `keep_good` and lends the kept token. `fault` is empty before. After an error of that
    /// call this returns `None`, the error is in `fault`, and what was kept is unchanged. Otherwise
    /// `fault` stays empty. Once the token is given back, the keeper is as that call left it.
    pub fn lend_token<C: SyncHttpClient>(
        &mut self,
        alloc: Global,
        now: Timestamp,
        http_client: &mut C,
        fault: &mut Option<RequestTokenError<C::Error, TE>>,
    ) -> Option<&AccessToken>
        requires client { C.is_ready http_client.old }
        requires empty { fault.old ≡ None }
        ensures* lends { sem 𝓛 (LendsToken TE.row TR.row TIR.row RT.row TRE.row
            A.row D.row I.row R.row TR.TokenType.row
            (record {
              access_token = TR.access_token;
              token_type = TR.token_type;
              lifetime = TR.lifetime;
              refresh_token = TR.refresh_token;
              scopes = TR.scopes;
            })
            TR.FromJson TR.ToJson TR.Debug
            TR.TokenType.FromJson TR.TokenType.ToJson TR.TokenType.Debug
            TR.TokenType.PartialEq TR.TokenType.TryClone
            A.EndpointState D.EndpointState I.EndpointState R.EndpointState
            (λ rule. AsksOnce TR.meaning TE.meaning C.step (answer_of rule TR.reading TE.reading))
            (given_by TR.TokenType.writing TR.access_token TR.token_type TR.lifetime
            TR.refresh_token)
            self.entry now.nanosecond http_client.old result fault.new http_client.new) }
        ensures ready { C.is_ready http_client.new }
    {
        match self.keep_good(alloc, now, http_client) {
            Ok(()) => Some(self.get().unwrap()),
            Err(error) => match std::mem::replace(fault, Some(error)) {
                None => None,
                Some(_earlier) => unreachable!(),
            },
        }
    }

    /// Calls `lend_token` and returns the kept token, or the error of that call. This contract does
    /// not say what the keeper keeps afterwards; use `lend_token` or `with_token`, or `keep_good`
    /// and `get`, to know it too.
    pub fn token<C: SyncHttpClient>(
        &mut self,
        alloc: Global,
        now: Timestamp,
        http_client: &mut C,
    ) -> Result<&AccessToken, RequestTokenError<C::Error, TE>>
        requires { C.is_ready http_client.old }
        ensures call { (kept : Keeper)
            × Answers
            (λ rule. AsksOnce TR.meaning TE.meaning C.step (answer_of rule TR.reading TE.reading))
            (given_by TR.TokenType.writing TR.access_token TR.token_type TR.lifetime
            TR.refresh_token)
            (λ text token. token.now ≡ text)
            self.old now.nanosecond http_client.old result http_client.new kept }
        ensures ready { C.is_ready http_client.new }
    {
        let mut fault = None;
        let lent = self.lend_token(alloc, now, http_client, &mut fault);
        match fault {
            Some(fault) => Err(fault),
            None => Ok(lent.unwrap()),
        }
    }

    /// Calls `keep_good` and returns what `read` returns for the kept token, or the error of that
    /// call.
    pub fn with_token<C: SyncHttpClient, F: FnOnce(&AccessToken) -> V, V>(
        &mut self,
        alloc: Global,
        now: Timestamp,
        http_client: &mut C,
        read: F,
    ) -> Result<V, RequestTokenError<C::Error, TE>>
    where
        F: Drop,
        requires ready { C.is_ready http_client.old }
        requires read { F.IsAlwaysCallable read }
        ensures call { Answers
            (λ rule. AsksOnce TR.meaning TE.meaning C.step (answer_of rule TR.reading TE.reading))
            (given_by TR.TokenType.writing TR.access_token TR.token_type TR.lifetime
            TR.refresh_token)
            (λ text value. FnOnceReturnsAt F.FnOnce read text value)
            self.old now.nanosecond http_client.old result http_client.new self.new }
        ensures ready { C.is_ready http_client.new }
    {
        match self.keep_good(alloc, now, http_client) {
            Ok(()) => Ok(read(self.get().unwrap())),
            Err(error) => Err(error),
        }
    }

    // Requests another token, and keeps it.
    fn renew<C: SyncHttpClient>(
        &mut self,
        alloc: Global,
        now: Timestamp,
        http_client: &mut C,
    ) -> Result<(), RequestTokenError<C::Error, TE>>
        requires { C.is_ready http_client.old }
        ensures settles { RenewsAndSettles
            (λ rule. AsksOnce TR.meaning TE.meaning C.step (answer_of rule TR.reading TE.reading))
            (given_by TR.TokenType.writing TR.access_token TR.token_type TR.lifetime
            TR.refresh_token)
            self.old now.nanosecond http_client.old result http_client.new self.new }
        ensures ready { C.is_ready http_client.new }
    {
        match self.ask(alloc, http_client) {
            Ok(reply) => {
                self.kept.accept(now, reply, self.times.default_lifetime);
                Ok(())
            }
            Err(fault) => Err(fault),
        }
    }

    // Requests another token.
    fn ask<C: SyncHttpClient>(
        &self,
        alloc: Global,
        http_client: &mut C,
    ) -> Result<TR, RequestTokenError<C::Error, TE>>
        requires { C.is_ready http_client.old }
        ensures once { Renews
            (λ rule. AsksOnce TR.meaning TE.meaning C.step (answer_of rule TR.reading TE.reading))
            self.now http_client.old result http_client.new }
        ensures ready { C.is_ready http_client.new }
    {
        match self.kept.refresh_token() {
            Some(refresh_token) => self.ask_by_refresh_token(alloc, refresh_token, http_client),
            None => self.ask_by_credentials(alloc, http_client),
        }
    }

    // Requests another token with the kept refresh token.
    fn ask_by_refresh_token<C: SyncHttpClient>(
        &self,
        alloc: Global,
        refresh_token: &RefreshToken,
        http_client: &mut C,
    ) -> Result<TR, RequestTokenError<C::Error, TE>>
        requires client { C.is_ready http_client.old }
        requires token { self.now.refresh_token ≡ Some refresh_token.now }
        ensures once { Renews
            (λ rule. AsksOnce TR.meaning TE.meaning C.step (answer_of rule TR.reading TE.reading))
            self.now http_client.old result http_client.new }
        ensures ready { C.is_ready http_client.new }
    {
        let request = self.client.exchange_refresh_token(alloc, refresh_token);
        let scope = self.refresh_scope.as_ref();
        match with_refresh_params(alloc, request, scope, &self.extra_params) {
            Ok(request) => request.request(alloc, http_client),
            Err(AllocError) => Err(RequestTokenError::Memory { sent: false }),
        }
    }

    // Requests another token with the client's credentials.
    fn ask_by_credentials<C: SyncHttpClient>(
        &self,
        alloc: Global,
        http_client: &mut C,
    ) -> Result<TR, RequestTokenError<C::Error, TE>>
        requires client { C.is_ready http_client.old }
        requires token { self.now.refresh_token ≡ None }
        ensures once { Renews
            (λ rule. AsksOnce TR.meaning TE.meaning C.step (answer_of rule TR.reading TE.reading))
            self.now http_client.old result http_client.new }
        ensures ready { C.is_ready http_client.new }
    {
        let request = self.client.exchange_client_credentials(alloc);
        let scope = self.scope.as_ref();
        match with_client_params(alloc, request, scope, &self.extra_params) {
            Ok(request) => request.request(alloc, http_client),
            Err(AllocError) => Err(RequestTokenError::Memory { sent: false }),
        }
    }
}
