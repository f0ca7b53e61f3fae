//! A login with OpenID Connect from its start to its ID token (Core 1.0, section 3.1).

ghost use Rattle.std.specs.Prelude.{
  ◌≡◌,
  ◌↔◌,
  ℤ,
  Ok,
  Err,
  Some,
  None,
  IfOk,
  IfErr,
  IsErrAnd,
  IsTrue,
  codes,
};
ghost use Rattle.std.specs.Fmt.{DisplaysOnOk, WritesStyledOnOk};
ghost use Rattle.rand_core.specs.Stream.{Stream};
ghost use Rattle.oauth2_types.specs.Pkce.{IsRandomText};
ghost use Rattle.oauth2_urls.specs.Addressed.{Addressed};
ghost use Rattle.jiff.specs.Types.{Timestamp};
ghost use Rattle.oauth2_form.specs.Pairs.{form};
ghost use Rattle.oauth2_form.specs.Query.{query_form};
ghost use Rattle.url.specs.Parts.{serialize};
ghost use Rattle.oauth2_redirect.specs.Bound.{IsLoginOf, ShowsRefusal, mismatch};
ghost use Rattle.oauth2_redirect.specs.Query.{sole_text};
ghost use Rattle.oauth2_redirect.specs.Redirect.{MayWantMemory, answer};
ghost use Rattle.oauth2_openid.specs.Seen.{token_of};
ghost use Rattle.oauth2_openid.specs.TokenRules.{Holds};
ghost use Rattle.oauth2_openid.specs.Claims.{Expectation};
ghost use Rattle.oauth2_openid_login.specs.End.{
  EndsWithCode,
  FinishesOpenIdLogin,
  IsBearer,
  Judges,
  JudgesIdToken,
  id_token_reading,
};
ghost use Rattle.oauth2_openid_login.specs.Login.{openid_kept};
ghost use Rattle.oauth2_openid_login.specs.Provider.{
  expected_of,
  login_expectation,
  redirect_issuer,
};
ghost use Rattle.oauth2_openid_login.specs.Refusal.{
  AuthorizesOpenIdLogin,
  ShowsOpenIdRefusal,
  provider_refusal,
};
ghost use Rattle.oauth2_openid_login.specs.Start.{openid_authorization};
ghost use Rattle.oauth2_openid_login.specs.private.Told.{
  memory_refusal,
  other_state_refusal,
  told_as,
};

use crate::login_end::OpenIdLoginEnd;
use crate::login_error::OpenIdLoginError;
use crate::login_refusal::{OpenIdLoginRefusal, RefusedOpenIdLogin};
use crate::login_request::OpenIdLoginRequest;
use crate::provider::OpenIdProvider;
use crate::token_response::HasIdToken;
use jiff::Timestamp;
use oauth2::{Client, EndpointSet, EndpointState};
use oauth2_codes::ErrorResponse;
use oauth2_metadata::is_secure;
use oauth2_openid::{Expected, IdToken, IdTokenReadError, Nonce};
use oauth2_redirect::{AuthorizedLogin, Login, LoginRefusal, RedirectError, RefusedLogin};
use oauth2_types::{ClientId, CsrfToken, Scope, TryClone};
use oauth2_wire::SyncHttpClient;
use rand_core::Rng;
use std::alloc::{AllocError, Global};
use std::fmt;
use std::marker::Model;
use url::Url;

/// What an application keeps in the session while its user is away: the login by a code, the nonce
/// that the ID token must have, and the maximum age that was requested.
#[derive(Drop)]
pub struct OpenIdLogin {
    pub(crate) login: Login,
    pub(crate) nonce: Nonce,
    pub(crate) max_age: Option<u64>,
}

impl Model for OpenIdLogin {
    ghost use Rattle.oauth2_openid_login.specs.Login.{OpenIdKept, openid_kept};

    ghost Value = { OpenIdKept };

    ghost view = { λ l. openid_kept l.login l.nonce l.max_age };
}

impl OpenIdLogin {
    // A login with these parts.
    pub(crate) fn new(login: Login, nonce: Nonce, max_age: Option<u64>) -> OpenIdLogin
        ensures { result ≡ openid_kept login nonce max_age }
    {
        OpenIdLogin {
            login,
            nonce,
            max_age,
        }
    }

    /// Begins a login at this provider, by this client: a state of 16 random bytes, a verifier of 32
    /// whose challenge is made by `S256`, and a nonce of 16, with the scope `openid`. The login keeps
    /// the provider's issuer, the client's identifier and its token endpoint.
    pub fn start<'a, TE, TR, TIR, RT, TRE, D, I, R, G: Rng>(
        alloc: Global,
        client: &'a Client<TE, TR, TIR, RT, TRE, EndpointSet, D, I, R, EndpointSet>,
        provider: &OpenIdProvider<'_>,
        rng: &mut G,
    ) -> Result<OpenIdLoginRequest<'a>, AllocError>
    where
        D: EndpointState,
        I: EndpointState,
        R: EndpointState,
        ensures random { IfOk result (λ login. (second : Stream) × (third : Stream)
            × IsRandomText 16 (G.stream rng.old) second login.request.state
            × IsRandomText 32 second third login.verifier
            × IsRandomText 16 third (G.stream rng.new) login.nonce) }
        ensures request { IfOk result
            (λ login. (endpoint : Addressed) × (client.now.auth_url ≡ Some endpoint)
            × (login.request ≡ openid_authorization client.now endpoint login.request.state
            login.verifier login.nonce)) }
        ensures bound { IfOk result (λ login. (login.issuer ≡ redirect_issuer provider.now)
            × (endpoint : Addressed) × (client.now.token_url ≡ Some endpoint)
            × (login.token_url ≡ serialize endpoint.url)) }
        ensures max_age { IfOk result (λ login. login.max_age ≡ None) }
    {
        let issuer = provider.login_issuer(alloc)?;
        let login = Login::start(alloc, client, issuer, rng)?;
        let nonce = Nonce::new_random(alloc, rng)?;
        let sent = nonce.try_clone(alloc)?.into_secret();
        let scope = Scope::new(String::from_str(alloc, "openid")?);
        let login = login
            .add_scope(scope)?
            .add_extra_param("nonce".into(), sent.into())?;
        Ok(OpenIdLoginRequest::new(login, nonce))
    }

    /// The state that the redirect must repeat: an application finds the login of a redirect by it.
    pub fn state(&self) -> &CsrfToken
        ensures { result.now ≡ self.now.login.state }
    {
        self.login.state()
    }

    /// Requests the tokens for the redirect's code, and checks the claims of the ID token, but not
    /// its signature: `finish` of a `VerifiedProvider` of `oauth2_verified_login` checks that too.
    /// Each rule must hold at the time that `clock` returns, which is called once, after the token
    /// response. The token endpoint must be `https`, or `http` with a loopback host (section
    /// 3.1.3.7, 6). If that, the provider, the client or the redirect is not this login's, the HTTP
    /// client is not called, and the login is in the error.
    pub fn finish_without_signature<TE, TR, TIR, RT, TRE, A, D, I, R, C: SyncHttpClient, K>(
        self,
        alloc: Global,
        client: &Client<TE, TR, TIR, RT, TRE, A, D, I, R, EndpointSet>,
        http_client: &mut C,
        redirect: &Url,
        provider: &OpenIdProvider<'_>,
        clock: K,
    ) -> Result<OpenIdLoginEnd<TR>, OpenIdLoginError<C::Error, TE>>
    where
        TE: ErrorResponse,
        TR: HasIdToken,
        A: EndpointState,
        D: EndpointState,
        I: EndpointState,
        R: EndpointState,
        K: FnOnce() -> Timestamp + Drop,
        requires client { C.is_ready http_client.old }
        requires clock { K.IsAlwaysCallable clock }
        ensures { FinishesOpenIdLogin TR.meaning TE.meaning TR.reading TE.reading C.is_ready C.step
            TR.access_token TR.token_type_text TR.id_token client.now self provider.now
            (K.post clock) redirect.now (query_form redirect.now) http_client.old result
            http_client.new }
    {
        let query = query_of(redirect);
        self.finish_query_without_signature(
            alloc,
            client,
            http_client,
            redirect,
            query,
            provider,
            clock,
        )
    }

    /// As `finish_without_signature`, for a handler that has no `Url` of the redirect. `called` is
    /// the URL to which the redirect came, with its query: behind a proxy, the redirect URI that the
    /// handler serves there. `query` holds the parameters of the redirect: that query without the
    /// `?`, or the form in the body of the request (`response_mode=form_post`).
    pub fn finish_query_without_signature<TE, TR, TIR, RT, TRE, A, D, I, R, C: SyncHttpClient, K>(
        self,
        alloc: Global,
        client: &Client<TE, TR, TIR, RT, TRE, A, D, I, R, EndpointSet>,
        http_client: &mut C,
        called: &Url,
        query: &str,
        provider: &OpenIdProvider<'_>,
        clock: K,
    ) -> Result<OpenIdLoginEnd<TR>, OpenIdLoginError<C::Error, TE>>
    where
        TE: ErrorResponse,
        TR: HasIdToken,
        A: EndpointState,
        D: EndpointState,
        I: EndpointState,
        R: EndpointState,
        K: FnOnce() -> Timestamp + Drop,
        requires client { C.is_ready http_client.old }
        requires clock { K.IsAlwaysCallable clock }
        ensures { FinishesOpenIdLogin TR.meaning TE.meaning TR.reading TE.reading C.is_ready C.step
            TR.access_token TR.token_type_text TR.id_token client.now self provider.now
            (K.post clock) called.now (form query.now) http_client.old result
            http_client.new }
    {
        match self.authorize(alloc, client, called, query, provider) {
            Ok((login, expected)) => {
                end_with_code(alloc, login, client, http_client, &expected, clock)
            }
            Err(refused) => Err(OpenIdLoginError::Refused(refused)),
        }
    }

    // The login with the redirect's code, and what the ID token is checked against.
    fn authorize<TE, TR, TIR, RT, TRE, A, D, I, R>(
        self,
        alloc: Global,
        client: &Client<TE, TR, TIR, RT, TRE, A, D, I, R, EndpointSet>,
        called: &Url,
        query: &str,
        provider: &OpenIdProvider<'_>,
    ) -> Result<(AuthorizedLogin, Expected), RefusedOpenIdLogin>
    where
        A: EndpointState,
        D: EndpointState,
        I: EndpointState,
        R: EndpointState,
        ensures authorized { IfOk result (λ (it, _). (it.login ≡ self.login)
            × AuthorizesOpenIdLogin client.now self provider.now called.now (form query.now)
            it.code) }
        ensures own { IfOk result (λ (it, _). IsLoginOf client.now it.login) }
        ensures expected { IfOk result (λ (_, expected). expected
            ≡ expected_of provider.now client.now self) }
        ensures refusal { IfErr result (λ refused. (refused.login ≡ self)
            × ShowsOpenIdRefusal client.now self provider.now called.now (form query.now)
            refused.error) }
        ensures memory { IfErr result (λ refused. refused.error ≡ memory_refusal
            → MayWantMemory self.login.state self.login.issuer (form query.now)) }
        ensures no_state { sole_text (codes "state") (form query.now) ≡ None
            → provider_refusal client.now self provider.now ≡ None
            → mismatch client.now self.login called.now ≡ None
            → IsErrAnd result (λ refused. refused.error ≡ other_state_refusal) }
    {
        match self.provider_refusal(client, provider) {
            Some(error) => Err(RefusedOpenIdLogin { error, login: self }),
            None => self.authorize_at_provider(alloc, client, called, query, provider),
        }
    }

    // Why nothing is sent whatever the redirect is.
    fn provider_refusal<TE, TR, TIR, RT, TRE, A, D, I, R>(
        &self,
        client: &Client<TE, TR, TIR, RT, TRE, A, D, I, R, EndpointSet>,
        provider: &OpenIdProvider<'_>,
    ) -> Option<OpenIdLoginRefusal>
    where
        A: EndpointState,
        D: EndpointState,
        I: EndpointState,
        R: EndpointState,
        ensures { result ≡ provider_refusal client.now self.now provider.now }
    {
        if !is_secure(client.token_uri().url()) {
            Some(OpenIdLoginRefusal::InsecureTokenEndpoint)
        } else if !provider.is_of(&self.login) {
            Some(OpenIdLoginRefusal::OtherProvider)
        } else {
            None
        }
    }

    // As `authorize`, for a login of this provider.
    fn authorize_at_provider<TE, TR, TIR, RT, TRE, A, D, I, R>(
        self,
        alloc: Global,
        client: &Client<TE, TR, TIR, RT, TRE, A, D, I, R, EndpointSet>,
        called: &Url,
        query: &str,
        provider: &OpenIdProvider<'_>,
    ) -> Result<(AuthorizedLogin, Expected), RefusedOpenIdLogin>
    where
        A: EndpointState,
        D: EndpointState,
        I: EndpointState,
        R: EndpointState,
        ensures authorized { IfOk result (λ (it, _). (it.login ≡ self.login)
            × (mismatch client.now self.login called.now ≡ None)
            × (answer self.login.state self.login.issuer (form query.now) ≡ Ok it.code)) }
        ensures own { IfOk result (λ (it, _). IsLoginOf client.now it.login) }
        ensures expected { IfOk result (λ (_, expected). expected
            ≡ expected_of provider.now client.now self) }
        ensures refusal { IfErr result (λ refused. (refused.login ≡ self)
            × (refusal : LoginRefusal) × (refused.error ≡ OpenIdLoginRefusal.Login refusal)
            × ShowsRefusal refusal (mismatch client.now self.login called.now)
            (answer self.login.state self.login.issuer (form query.now))) }
        ensures memory { IfErr result (λ refused. refused.error ≡ memory_refusal
            → MayWantMemory self.login.state self.login.issuer (form query.now)) }
        ensures no_state { sole_text (codes "state") (form query.now) ≡ None
            → mismatch client.now self.login called.now ≡ None
            → IsErrAnd result (λ refused. refused.error ≡ other_state_refusal) }
    {
        let OpenIdLogin {
            login,
            nonce,
            max_age,
        } = self;
        match login.check_redirect(alloc, client, called, query) {
            Ok(it) => with_expectation(alloc, it, nonce, max_age, client.client_id(), provider),
            Err(refused) => Err(refused_login(refused, nonce, max_age)),
        }
    }
}

// The login with its code, and what the ID token is checked against: made before the code is sent, so
// that no code is spent if memory runs out here.
fn with_expectation(
    alloc: Global,
    login: AuthorizedLogin,
    nonce: Nonce,
    max_age: Option<u64>,
    client_id: &ClientId,
    provider: &OpenIdProvider<'_>,
) -> Result<(AuthorizedLogin, Expected), RefusedOpenIdLogin>
    ensures ok { IfOk result (λ (it, expected). (it ≡ login)
        × (expected ≡ login_expectation provider.now client_id.now nonce max_age)) }
    ensures err { IfErr result (λ refused.
        (refused.login ≡ openid_kept login.login nonce max_age)
        × (refused.error ≡ memory_refusal)) }
{
    match provider.expected_id_token(alloc, client_id, &nonce, max_age) {
        Ok(expected) => Ok((login, expected)),
        Err(_) => Err(without_memory(login, nonce, max_age)),
    }
}

// A login that is given back, for the login by a code that was refused.
fn refused_login(refused: RefusedLogin, nonce: Nonce, max_age: Option<u64>) -> RefusedOpenIdLogin
    ensures login { result.login ≡ openid_kept refused.login nonce max_age }
    ensures error { result.error ≡ OpenIdLoginRefusal.Login refused.error }
{
    let RefusedLogin { error, login } = refused;
    RefusedOpenIdLogin {
        error: OpenIdLoginRefusal::Login(error),
        login: OpenIdLogin::new(login, nonce, max_age),
    }
}

// A login that is given back since memory ran out before its code was sent.
fn without_memory(login: AuthorizedLogin, nonce: Nonce, max_age: Option<u64>) -> RefusedOpenIdLogin
    ensures login { result.login ≡ openid_kept login.login nonce max_age }
    ensures error { result.error ≡ memory_refusal }
{
    RefusedOpenIdLogin {
        error: OpenIdLoginRefusal::Login(LoginRefusal::Redirect(RedirectError::Memory)),
        login: OpenIdLogin::new(login.into_login(), nonce, max_age),
    }
}

// The query of a redirect, without the `?`; empty if there is none.
fn query_of(redirect: &Url) -> &str
    ensures { form result.now ≡ query_form redirect.now }
{
    redirect.query().unwrap_or("")
}

// Sends the token request for the code of this login, and checks the response.
fn end_with_code<TE, TR, TIR, RT, TRE, A, D, I, R, C: SyncHttpClient, K>(
    alloc: Global,
    login: AuthorizedLogin,
    client: &Client<TE, TR, TIR, RT, TRE, A, D, I, R, EndpointSet>,
    http_client: &mut C,
    expected: &Expected,
    clock: K,
) -> Result<OpenIdLoginEnd<TR>, OpenIdLoginError<C::Error, TE>>
where
    TE: ErrorResponse,
    TR: HasIdToken,
    A: EndpointState,
    D: EndpointState,
    I: EndpointState,
    R: EndpointState,
    K: FnOnce() -> Timestamp + Drop,
    requires own { IsLoginOf client.now login.login }
    requires client { C.is_ready http_client.old }
    requires clock { K.IsAlwaysCallable clock }
    ensures end { EndsWithCode TR.meaning TE.meaning TR.reading TE.reading C.step TR.access_token
        TR.token_type_text TR.id_token client.now login.login login.code expected.now
        (K.post clock) http_client.old result http_client.new }
    ensures rules { IfOk result (λ end. (now : Timestamp) × K.post clock now
        × Holds expected.now (TR.access_token end.token_response) now.nanosecond
        (token_of end.id_token)) }
    ensures ready { C.is_ready http_client.new }
{
    match login.request(alloc, client, http_client) {
        Ok(response) => check_response(alloc, response, expected, clock()),
        Err(error) => Err(OpenIdLoginError::Token(error)),
    }
}

// Checks the token type and the ID token of a response.
fn check_response<TR: HasIdToken, RE, T>(
    alloc: Global,
    response: TR,
    expected: &Expected,
    now: Timestamp,
) -> Result<OpenIdLoginEnd<TR>, OpenIdLoginError<RE, T>>
    ensures judges { Judges TR.access_token TR.token_type_text TR.id_token expected.now
        now.nanosecond response result }
    ensures rules { IfOk result (λ end. Holds expected.now (TR.access_token end.token_response)
        now.nanosecond (token_of end.id_token)) }
{
    if is_bearer(response.token_type_text()) {
        check_id_token(alloc, response, expected, now)
    } else {
        Err(OpenIdLoginError::OtherTokenType)
    }
}

// Whether a token type is `Bearer`.
fn is_bearer(token_type: &str) -> bool
    ensures { IsTrue result ↔ IsBearer token_type.now }
{
    token_type.eq_ignore_ascii_case("Bearer")
}

// Reads and checks the ID token of a response.
fn check_id_token<TR: HasIdToken, RE, T>(
    alloc: Global,
    response: TR,
    expected: &Expected,
    now: Timestamp,
) -> Result<OpenIdLoginEnd<TR>, OpenIdLoginError<RE, T>>
    ensures judges { JudgesIdToken TR.access_token TR.id_token expected.now now.nanosecond
        response result }
    ensures rules { IfOk result (λ end. Holds expected.now (TR.access_token end.token_response)
        now.nanosecond (token_of end.id_token)) }
{
    match read_id_token(alloc, &response) {
        Ok(id_token) => check_claims(response, id_token, expected, now),
        Err(error) => Err(error),
    }
}

// Reads the ID token of a response.
fn read_id_token<TR: HasIdToken, RE, T>(
    alloc: Global,
    response: &TR,
) -> Result<IdToken, OpenIdLoginError<RE, T>>
    ensures read { IfOk result (λ id_token. id_token_reading (TR.id_token response.now)
        ≡ Some (Ok (token_of id_token))) }
    ensures error { IfErr result (λ error. (expected : Expectation) (now : ℤ)
        → JudgesIdToken TR.access_token TR.id_token expected now response.now (Err error)) }
{
    let Some(text) = response.id_token() else {
        return Err(OpenIdLoginError::NoIdToken);
    };
    match IdToken::from_text(alloc, text.secret().as_str()) {
        Ok(id_token) => Ok(id_token),
        Err(error) => Err(read_error(error)),
    }
}

// The error of a login whose ID token could not be read. (Each arm is written out, so that the
// checker knows that `Read` never holds `Memory`.)
fn read_error<RE, T>(error: IdTokenReadError) -> OpenIdLoginError<RE, T>
    ensures { result ≡ told_as error }
{
    match error {
        IdTokenReadError::TooLong => OpenIdLoginError::Read(IdTokenReadError::TooLong),
        IdTokenReadError::NotThreeParts => OpenIdLoginError::Read(IdTokenReadError::NotThreeParts),
        IdTokenReadError::NotBase64(part) => {
            OpenIdLoginError::Read(IdTokenReadError::NotBase64(part))
        }
        IdTokenReadError::Fault(part, fault) => {
            OpenIdLoginError::Read(IdTokenReadError::Fault(part, fault))
        }
        IdTokenReadError::Memory => OpenIdLoginError::Memory,
    }
}

// Checks this ID token of a response.
fn check_claims<TR: HasIdToken, RE, T>(
    response: TR,
    id_token: IdToken,
    expected: &Expected,
    now: Timestamp,
) -> Result<OpenIdLoginEnd<TR>, OpenIdLoginError<RE, T>>
    requires { id_token_reading (TR.id_token response) ≡ Some (Ok (token_of id_token)) }
    ensures judges { JudgesIdToken TR.access_token TR.id_token expected.now now.nanosecond
        response result }
    ensures rules { IfOk result (λ end. Holds expected.now (TR.access_token end.token_response)
        now.nanosecond (token_of end.id_token)) }
{
    match id_token.check(expected, response.access_token(), now) {
        Ok(access_token_hash) => Ok(OpenIdLoginEnd {
            token_response: response,
            id_token,
            access_token_hash,
        }),
        Err(error) => Err(OpenIdLoginError::Claims(error)),
    }
}

impl fmt::Debug for OpenIdLogin {
    ghost debug_output = { λ _. Some (codes "OpenIdLogin([redacted])") };

    fn fmt<W: fmt::Write>(&self, f: &mut fmt::Formatter<W>) -> fmt::Result
        ensures writes { DisplaysOnOk W.write_str_gives f.old result
            (Some (codes "OpenIdLogin([redacted])")) f.new }
        // The same for all options of the formatter, for example `{:#?}`.
        ensures styled { WritesStyledOnOk W.write_str_gives f.old result
            (codes "OpenIdLogin([redacted])") f.new }
    {
        f.write_str("OpenIdLogin([redacted])")
    }
}
