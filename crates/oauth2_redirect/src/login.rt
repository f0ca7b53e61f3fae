//! A login by an authorization code, from its start to its token (RFC 6749, section 4.1; RFC 7636).

ghost use Rattle.std.specs.Fmt.{DisplaysOnOk, WritesStyledOnOk};
ghost use Rattle.std.specs.Prelude.{◌≡◌, None, Some, IfErr, IfOk, IsErrAnd, codes, string_bytes};
ghost use Rattle.rand_core.specs.Stream.{Stream};
ghost use Rattle.url.specs.Parts.{serialize};
ghost use Rattle.oauth2_types.specs.Pkce.{IsRandomText};
ghost use Rattle.oauth2_urls.specs.Addressed.{Addressed};
ghost use Rattle.oauth2_form.specs.Pairs.{form};
ghost use Rattle.oauth2_form.specs.Query.{query_form};
ghost use Rattle.oauth2.specs.CodeFlow.{flow_authorization};
ghost use Rattle.oauth2_redirect.specs.Query.{sole_text};
ghost use Rattle.oauth2_redirect.specs.Redirect.{MayWantMemory, expectation_of, issuer_expectation};
ghost use Rattle.oauth2_redirect.specs.Bound.{Authorizes, IsLoginOf, mismatch};
ghost use Rattle.oauth2_redirect.specs.End.{FinishesLogin, login_exchange};
ghost use Rattle.oauth2_redirect.specs.Login.{LoginView, login_view_of};

use crate::authorized_login::AuthorizedLogin;
use crate::binding::LoginBinding;
use crate::issuer::{ExpectedIssuer, LoginIssuer};
use crate::login_error::LoginError;
use crate::login_refusal::{LoginMismatch, LoginRefusal, RefusedLogin};
use crate::login_request::LoginRequest;
use crate::redirect::{RedirectError, read_redirect_query};
use oauth2::{Client, EndpointSet, EndpointState};
use oauth2_codes::ErrorResponse;
use oauth2_replies::TokenResponse;
use oauth2_requests::CodeTokenRequest;
use oauth2_types::{
    AuthorizationCode, ClientId, CsrfToken, PkceCodeChallenge, PkceCodeVerifier, TryClone,
};
use oauth2_urls::RedirectUrl;
use oauth2_wire::{RedirectRef, SyncHttpClient};
use rand_core::Rng;
use std::alloc::{AllocError, Global};
use std::fmt;
use std::marker::Model;
use url::Url;

// The server of a login: its issuer, what the client is called there, and the URL that requests
// for a token go to.
#[derive(Drop)]
pub(crate) struct LoginServer {
    pub(crate) issuer: LoginIssuer,
    pub(crate) client_id: ClientId,
    pub(crate) token_url: String,
}

/// What an application keeps in the session while its user is away: the state, the verifier, the
/// redirect URI, and the server of the login, by its issuer, its token endpoint and the client's
/// identifier there.
pub struct Login {
    pub(crate) state: CsrfToken,
    pub(crate) verifier: PkceCodeVerifier,
    pub(crate) redirect_uri: RedirectUrl,
    pub(crate) server: LoginServer,
}

impl Drop for Login {
    fn drop(self) {
        let Login {
            state: _,
            verifier: _,
            redirect_uri: _,
            server: _,
        } = self;
    }
}

impl Model for Login {
    ghost use Rattle.std.specs.Prelude.{string_bytes};
    ghost use Rattle.oauth2_redirect.specs.Login.{LoginView, login_view_of};
    ghost use Rattle.oauth2_redirect.specs.Redirect.{expectation_of};

    ghost Value = { LoginView };

    ghost view = { λ l. login_view_of l.state l.verifier l.redirect_uri
        (expectation_of l.server.issuer) l.server.client_id (string_bytes l.server.token_url) };
}

impl Login {
    // A login with these parts.
    pub(crate) fn new(
        state: CsrfToken,
        verifier: PkceCodeVerifier,
        redirect_uri: RedirectUrl,
        server: LoginServer,
    ) -> Login
        ensures { result ≡ login_view_of state verifier redirect_uri
            (expectation_of server.issuer) server.client_id (string_bytes server.token_url) }
    {
        Login {
            state,
            verifier,
            redirect_uri,
            server,
        }
    }

    /// Begins a login at this client's authorization endpoint: a state of 16 random bytes, and a
    /// verifier of 32 whose challenge is made by `S256`. The login can be finished by a client with
    /// the same identifier and the same token endpoint alone.
    pub fn start<'a, TE, TR, TIR, RT, TRE, D, I, R, G: Rng>(
        alloc: Global,
        client: &'a Client<TE, TR, TIR, RT, TRE, EndpointSet, D, I, R, EndpointSet>,
        issuer: LoginIssuer,
        rng: &mut G,
    ) -> Result<LoginRequest<'a>, AllocError>
    where
        D: EndpointState,
        I: EndpointState,
        R: EndpointState,
        ensures random { IfOk result (λ login. (between : Stream)
            × IsRandomText 16 (G.stream rng.old) between login.request.state
            × IsRandomText 32 between (G.stream rng.new) login.verifier) }
        ensures request { IfOk result
            (λ login. (endpoint : Addressed) × (client.now.auth_url ≡ Some endpoint)
            × (login.request
            ≡ flow_authorization client.now endpoint login.request.state login.verifier)) }
        ensures bound { IfOk result (λ login. (login.issuer ≡ expectation_of issuer)
            × ((endpoint : Addressed) × (client.now.token_url ≡ Some endpoint)
            × (login.token_url ≡ serialize endpoint.url))) }
    {
        let server = LoginServer {
            issuer,
            client_id: client.client_id().try_clone(alloc)?,
            token_url: String::from_str(alloc, client.token_uri().url().as_str())?,
        };
        let state = CsrfToken::new_random(alloc, rng)?;
        let sent = state.try_clone(alloc)?;
        let (challenge, verifier) = PkceCodeChallenge::new_random_sha256(alloc, rng)?;
        let request = client
            .authorize_url(alloc, move || sent)
            .set_pkce_challenge(challenge);
        Ok(LoginRequest::new(request, state, verifier, client.redirect_uri(), server))
    }

    /// The state that the redirect must repeat: an application finds the login of a redirect by it.
    pub fn state(&self) -> &CsrfToken
        ensures { result.now ≡ self.now.state }
    {
        &self.state
    }

    /// The redirect URI, to which the redirect must come.
    pub fn redirect_uri(&self) -> &RedirectUrl
        ensures { result.now ≡ self.now.redirect_uri }
    {
        &self.redirect_uri
    }

    /// The issuer that is expected of the redirect.
    pub fn issuer(&self) -> ExpectedIssuer<'_>
        ensures { issuer_expectation result ≡ self.now.issuer }
    {
        self.server.issuer.expected()
    }

    // What of the client and the called URL is not the login's.
    fn mismatch<TE, TR, TIR, RT, TRE, A, D, I, R>(
        &self,
        client: &Client<TE, TR, TIR, RT, TRE, A, D, I, R, EndpointSet>,
        called: &Url,
    ) -> Option<LoginMismatch>
    where
        A: EndpointState,
        D: EndpointState,
        I: EndpointState,
        R: EndpointState,
        ensures { result ≡ mismatch client.now self.now called.now }
    {
        let binding = LoginBinding {
            client_id: &self.server.client_id,
            token_url: self.server.token_url.as_str(),
            redirect_uri: self.redirect_uri.url(),
        };
        binding.mismatch(client.client_id(), Some(client.token_uri()), called)
    }

    // The login with the reason why it is refused.
    fn refuse(self, error: LoginRefusal) -> RefusedLogin
        ensures { result ≡ record { error = error; login = self } }
    {
        RefusedLogin { error, login: self }
    }

    /// Reads the redirect of this login, for a caller that has more to do before the code is sent.
    /// `called` is the URL to which the redirect came, with its query, and `query` holds the
    /// parameters of the redirect: that query, or the form in the body of the request
    /// (`response_mode=form_post`).
    pub fn check_redirect<TE, TR, TIR, RT, TRE, A, D, I, R>(
        self,
        alloc: Global,
        client: &Client<TE, TR, TIR, RT, TRE, A, D, I, R, EndpointSet>,
        called: &Url,
        query: &str,
    ) -> Result<AuthorizedLogin, RefusedLogin>
    where
        A: EndpointState,
        D: EndpointState,
        I: EndpointState,
        R: EndpointState,
        ensures authorizes { Authorizes client.now self called.now (form query.now) result }
        ensures own { IfOk result (λ it. IsLoginOf client.now it.login) }
        ensures memory { IfErr result
            (λ refused. refused.error ≡ LoginRefusal.Redirect RedirectError.Memory
            → MayWantMemory self.state self.issuer (form query.now)) }

        // A redirect without a state, or with several, is refused without an allocation.
        ensures no_state { mismatch client.now self called.now ≡ None
            → sole_text (codes "state") (form query.now) ≡ None
            → IsErrAnd result
            (λ refused. refused.error ≡ LoginRefusal.Redirect RedirectError.OtherState) }
    {
        if let Some(error) = self.mismatch(client, called) {
            return Err(self.refuse(LoginRefusal::Mismatch(error)));
        }
        match read_redirect_query(alloc, query, &self.state, self.issuer()) {
            Ok(code) => Ok(AuthorizedLogin::new(self, code)),
            Err(error) => Err(self.refuse(LoginRefusal::Redirect(error))),
        }
    }

    /// Requests the token for the redirect's code, if the client, the URL to which the redirect
    /// came, its state and its issuer are the login's. Else the HTTP client is not called, and the
    /// login is in the error.
    pub fn finish<TE, TR, TIR, RT, TRE, A, D, I, R, C: SyncHttpClient>(
        self,
        alloc: Global,
        client: &Client<TE, TR, TIR, RT, TRE, A, D, I, R, EndpointSet>,
        http_client: &mut C,
        redirect: &Url,
    ) -> Result<TR, LoginError<C::Error, TE>>
    where
        TE: ErrorResponse,
        TR: TokenResponse,
        A: EndpointState,
        D: EndpointState,
        I: EndpointState,
        R: EndpointState,
        requires { C.is_ready http_client.old }
        ensures { FinishesLogin TR.meaning TE.meaning TR.reading TE.reading C.is_ready C.step
            client.now self redirect.now (query_form redirect.now)
            http_client.old result http_client.new }
    {
        let query = redirect.query().unwrap_or("");
        self.finish_query(alloc, client, http_client, redirect, query)
    }

    /// As `finish`, where the parameters are not in the URL: `query` is the form in the body of the
    /// request (`response_mode=form_post`), or the query without the `?`. `called` is the URL to
    /// which the redirect came. Behind a proxy that is the URL as the browser called it.
    pub fn finish_query<TE, TR, TIR, RT, TRE, A, D, I, R, C: SyncHttpClient>(
        self,
        alloc: Global,
        client: &Client<TE, TR, TIR, RT, TRE, A, D, I, R, EndpointSet>,
        http_client: &mut C,
        called: &Url,
        query: &str,
    ) -> Result<TR, LoginError<C::Error, TE>>
    where
        TE: ErrorResponse,
        TR: TokenResponse,
        A: EndpointState,
        D: EndpointState,
        I: EndpointState,
        R: EndpointState,
        requires { C.is_ready http_client.old }
        ensures { FinishesLogin TR.meaning TE.meaning TR.reading TE.reading C.is_ready C.step
            client.now self called.now (form query.now)
            http_client.old result http_client.new }
    {
        match self.check_redirect(alloc, client, called, query) {
            Ok(login) => login.request_for_login(alloc, client, http_client),
            Err(refused) => Err(LoginError::Refused(refused)),
        }
    }

    // The token request. It has the redirect URI of the login's URL.
    pub(crate) fn exchange<TE, TR, TIR, RT, TRE, A, D, I, R>(
        self,
        alloc: Global,
        client: &Client<TE, TR, TIR, RT, TRE, A, D, I, R, EndpointSet>,
        code: AuthorizationCode,
    ) -> CodeTokenRequest<'_, TE, TR>
    where
        A: EndpointState,
        D: EndpointState,
        I: EndpointState,
        R: EndpointState,
        ensures url { client.now.token_url ≡ Some result.token_url }
        ensures new { result ≡ login_exchange client.now result.token_url self code }
    {
        let Login {
            state: _,
            verifier,
            redirect_uri,
            server: _,
        } = self;
        client
            .exchange_code(alloc, code)
            .set_pkce_verifier(verifier)
            .set_redirect_uri(RedirectRef::Owned(redirect_uri))
    }
}

impl fmt::Debug for Login {
    ghost debug_output = { λ _. Some (codes "Login([redacted])") };

    fn fmt<W: fmt::Write>(&self, f: &mut fmt::Formatter<W>) -> fmt::Result
        ensures writes { DisplaysOnOk W.write_str_gives f.old result
            (Some (codes "Login([redacted])")) f.new }
        // The same for all options of the formatter, for example `{:#?}`.
        ensures styled { WritesStyledOnOk W.write_str_gives f.old result
            (codes "Login([redacted])") f.new }
    {
        f.write_str("Login([redacted])")
    }
}
