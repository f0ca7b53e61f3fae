//! A login whose redirect was checked, with the redirect's code.

ghost use Rattle.std.specs.Fmt.{DisplaysOnOk, WritesStyledOnOk};
ghost use Rattle.std.specs.Prelude.{◌≡◌, Some, codes};
ghost use Rattle.oauth2_redirect.specs.Bound.{IsLoginOf};
ghost use Rattle.oauth2_redirect.specs.End.{EndsExchange, ExchangesCode};

use crate::login::Login;
use crate::login_error::LoginError;
use oauth2::{Client, EndpointSet, EndpointState};
use oauth2_codes::ErrorResponse;
use oauth2_replies::TokenResponse;
use oauth2_types::AuthorizationCode;
use oauth2_wire::{RequestTokenError, SyncHttpClient};
use std::alloc::Global;
use std::fmt;
use std::marker::Model;

/// A login with the code of its redirect. `Login::check_redirect` alone makes one.
#[derive(Drop)]
pub struct AuthorizedLogin {
    login: Login,
    code: AuthorizationCode,
}

impl Model for AuthorizedLogin {
    ghost use Rattle.oauth2_redirect.specs.Bound.{Authorized};

    ghost Value = { Authorized };

    ghost view = { λ a. record { login = a.login; code = a.code } };
}

impl AuthorizedLogin {
    // A login with this code.
    pub(crate) fn new(login: Login, code: AuthorizationCode) -> AuthorizedLogin
        ensures { result ≡ record { login = login; code = code } }
    {
        AuthorizedLogin { login, code }
    }

    /// The login.
    pub fn login(&self) -> &Login
        ensures { result.now ≡ self.now.login }
    {
        &self.login
    }

    /// The login as it was before its redirect was read. The code is dropped.
    pub fn into_login(self) -> Login
        ensures { result ≡ self.login }
    {
        self.login
    }

    /// Requests the token for the code, at most once, by the client of the login.
    pub fn request<TE, TR, TIR, RT, TRE, A, D, I, R, C: SyncHttpClient>(
        self,
        alloc: Global,
        client: &Client<TE, TR, TIR, RT, TRE, A, D, I, R, EndpointSet>,
        http_client: &mut C,
    ) -> Result<TR, RequestTokenError<C::Error, TE>>
    where
        TE: ErrorResponse,
        TR: TokenResponse,
        A: EndpointState,
        D: EndpointState,
        I: EndpointState,
        R: EndpointState,
        requires own { IsLoginOf client.now self.login }
        requires ready { C.is_ready http_client.old }
        ensures once { ExchangesCode TR.meaning TE.meaning TR.reading TE.reading C.step client.now
            self.login self.code http_client.old result http_client.new }
        ensures ready { C.is_ready http_client.new }
    {
        let AuthorizedLogin { login, code } = self;
        login
            .exchange(alloc, client, code)
            .request(alloc, http_client)
    }

    // As `request`, with the error as a `LoginError`.
    pub(crate) fn request_for_login<TE, TR, TIR, RT, TRE, A, D, I, R, C: SyncHttpClient>(
        self,
        alloc: Global,
        client: &Client<TE, TR, TIR, RT, TRE, A, D, I, R, EndpointSet>,
        http_client: &mut C,
    ) -> Result<TR, LoginError<C::Error, TE>>
    where
        TE: ErrorResponse,
        TR: TokenResponse,
        A: EndpointState,
        D: EndpointState,
        I: EndpointState,
        R: EndpointState,
        requires own { IsLoginOf client.now self.login }
        requires ready { C.is_ready http_client.old }
        ensures end { EndsExchange TR.meaning TE.meaning TR.reading TE.reading C.step client.now
            self.login self.code http_client.old result http_client.new }
        ensures ready { C.is_ready http_client.new }
    {
        match self.request(alloc, client, http_client) {
            Ok(token) => Ok(token),
            Err(error) => Err(LoginError::Token(error)),
        }
    }
}

impl fmt::Debug for AuthorizedLogin {
    ghost debug_output = { λ _. Some (codes "AuthorizedLogin([redacted])") };

    fn fmt<W: fmt::Write>(&self, f: &mut fmt::Formatter<W>) -> fmt::Result
        ensures writes { DisplaysOnOk W.write_str_gives f.old result
            (Some (codes "AuthorizedLogin([redacted])")) f.new }
        // The same for all options of the formatter, for example `{:#?}`.
        ensures styled { WritesStyledOnOk W.write_str_gives f.old result
            (codes "AuthorizedLogin([redacted])") f.new }
    {
        f.write_str("AuthorizedLogin([redacted])")
    }
}
