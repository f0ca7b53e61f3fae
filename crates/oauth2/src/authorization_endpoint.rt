//! The authorization URLs to which a client sends its users (RFC 6749, section 3.1).

ghost use Rattle.std.specs.Prelude.{◌≡◌, Some, IfSome, IfNone, IsErrAnd, IsOkAnd, OnSome, codes};
ghost use Rattle.oauth2_wire.specs.ConfigurationError.{IsMissingUrl};
ghost use Rattle.oauth2.specs.NewRequest.{IsAuthorization};

use crate::client::Client;
use crate::endpoint::{EndpointMaybeSet, EndpointSet, EndpointState};
use oauth2_requests::AuthorizationRequest;
use oauth2_types::CsrfToken;
use oauth2_urls::AuthUrl;
use oauth2_wire::ConfigurationError;
use std::alloc::Global;

impl<TE, TR, TIR, RT, TRE, A, D, I, R, T> Client<TE, TR, TIR, RT, TRE, A, D, I, R, T>
where
    A: EndpointState,
    D: EndpointState,
    I: EndpointState,
    R: EndpointState,
    T: EndpointState,
{
    fn authorize_url_at<'a, S: FnOnce() -> CsrfToken>(
        &'a self,
        alloc: Global,
        auth_url: &'a AuthUrl,
        state_fn: S,
    ) -> AuthorizationRequest<'a>
        requires { S.IsAlwaysCallable state_fn }
        ensures { IsAuthorization (S.post state_fn) self.now auth_url.now result }
    {
        AuthorizationRequest::new(
            alloc,
            auth_url,
            self.client_id(),
            self.redirect_uri(),
            state_fn(),
        )
    }
}

impl<TE, TR, TIR, RT, TRE, D, I, R, T> Client<TE, TR, TIR, RT, TRE, EndpointSet, D, I, R, T>
where
    D: EndpointState,
    I: EndpointState,
    R: EndpointState,
    T: EndpointState,
{
    /// Starts a request for an authorization URL, with the state that `state_fn` returns.
    pub fn authorize_url<S: FnOnce() -> CsrfToken>(
        &self,
        alloc: Global,
        state_fn: S,
    ) -> AuthorizationRequest<'_>
        requires { S.IsAlwaysCallable state_fn }
        ensures url { self.now.auth_url ≡ Some result.auth_url }
        ensures new { IsAuthorization (S.post state_fn) self.now result.auth_url result }
    {
        self.authorize_url_at(alloc, self.auth_uri(), state_fn)
    }
}

impl<TE, TR, TIR, RT, TRE, D, I, R, T> Client<TE, TR, TIR, RT, TRE, EndpointMaybeSet, D, I, R, T>
where
    D: EndpointState,
    I: EndpointState,
    R: EndpointState,
    T: EndpointState,
{
    /// Starts a request for an authorization URL, with the state that `state_fn` returns. The error
    /// is `MissingUrl` if there is no authorization endpoint; `state_fn` is not called then.
    pub fn authorize_url<S: FnOnce() -> CsrfToken + Drop>(
        &self,
        alloc: Global,
        state_fn: S,
    ) -> Result<AuthorizationRequest<'_>, ConfigurationError>
        requires { OnSome self.now.auth_url (S.IsAlwaysCallable state_fn) }
        ensures there { IfSome self.now.auth_url
            (λ url. IsOkAnd result (IsAuthorization (S.post state_fn) self.now url)) }
        ensures missing { IfNone self.now.auth_url
            (IsErrAnd result (IsMissingUrl (codes "authorization"))) }
    {
        match self.auth_uri() {
            Some(auth_url) => Ok(self.authorize_url_at(alloc, auth_url, state_fn)),
            None => Err(ConfigurationError::MissingUrl("authorization")),
        }
    }
}
