//! The requests that a client makes to its token endpoint (RFC 6749, section 3.2).

ghost use Rattle.std.specs.Prelude.{◌≡◌, Some, IfSome, IfNone, IsOkAnd, IsErrAnd, codes};
ghost use Rattle.oauth2_wire.specs.ConfigurationError.{IsMissingUrl};
ghost use Rattle.oauth2.specs.NewRequest.{
  base_of,
  new_client_credentials_request,
  new_code_request,
  new_device_token_request,
  new_password_request,
  new_refresh_request,
};

use crate::client::Client;
use crate::endpoint::{EndpointMaybeSet, EndpointSet, EndpointState};
use oauth2_device::DeviceAccessTokenRequest;
use oauth2_replies::DeviceAuthorizationResponse;
use oauth2_requests::{
    BaseRequest, ClientCredentialsTokenRequest, CodeTokenRequest, PasswordTokenRequest,
    RefreshTokenRequest,
};
use oauth2_types::{AuthorizationCode, RefreshToken, ResourceOwnerPassword, ResourceOwnerUsername};
use oauth2_urls::TokenUrl;
use oauth2_wire::ConfigurationError;
use std::alloc::Global;

impl<TE, TR, TIR, RT, TRE, A, D, I, R, T> Client<TE, TR, TIR, RT, TRE, A, D, I, R, T>
where
    A: EndpointState,
    D: EndpointState,
    I: EndpointState,
    R: EndpointState,
    T: EndpointState,
{
    // The part of each request that comes from the client.
    pub(crate) fn base_request(&self, alloc: Global) -> BaseRequest<'_>
        ensures { result ≡ base_of self.now }
    {
        BaseRequest::new(
            alloc,
            self.auth_type(),
            self.client_id(),
            self.client_secret(),
            self.reply_rule(),
        )
    }
}

impl<TE, TR, TIR, RT, TRE, A, D, I, R> Client<TE, TR, TIR, RT, TRE, A, D, I, R, EndpointSet>
where
    A: EndpointState,
    D: EndpointState,
    I: EndpointState,
    R: EndpointState,
{
    /// Starts the exchange of an authorization code for a token.
    pub fn exchange_code(
        &self,
        alloc: Global,
        code: AuthorizationCode,
    ) -> CodeTokenRequest<'_, TE, TR>
        ensures url { self.now.token_url ≡ Some result.token_url }
        ensures new { result ≡ new_code_request self.now result.token_url code }
    {
        CodeTokenRequest::new(
            self.base_request(alloc),
            self.token_uri(),
            self.redirect_uri(),
            code,
        )
    }

    /// Starts the exchange of a refresh token for a token.
    pub fn exchange_refresh_token<'a>(
        &'a self,
        alloc: Global,
        refresh_token: &'a RefreshToken,
    ) -> RefreshTokenRequest<'a, TE, TR>
        ensures url { self.now.token_url ≡ Some result.token_url }
        ensures new { result ≡ new_refresh_request self.now result.token_url refresh_token.now }
    {
        RefreshTokenRequest::new(self.base_request(alloc), self.token_uri(), refresh_token)
    }

    /// Starts the exchange of a resource owner's name and password for a token.
    pub fn exchange_password<'a>(
        &'a self,
        alloc: Global,
        username: &'a ResourceOwnerUsername,
        password: &'a ResourceOwnerPassword,
    ) -> PasswordTokenRequest<'a, TE, TR>
        ensures url { self.now.token_url ≡ Some result.token_url }
        ensures new { result
            ≡ new_password_request self.now result.token_url username.now password.now }
    {
        PasswordTokenRequest::new(
            self.base_request(alloc),
            self.token_uri(),
            username,
            password,
        )
    }

    /// Starts the exchange of the credentials of the client for a token.
    pub fn exchange_client_credentials(
        &self,
        alloc: Global,
    ) -> ClientCredentialsTokenRequest<'_, TE, TR>
        ensures url { self.now.token_url ≡ Some result.token_url }
        ensures new { result ≡ new_client_credentials_request self.now result.token_url }
    {
        ClientCredentialsTokenRequest::new(self.base_request(alloc), self.token_uri())
    }

    /// Starts the poll for the token of the device that received this response.
    pub fn exchange_device_access_token<'a, EF>(
        &'a self,
        alloc: Global,
        auth_response: &'a DeviceAuthorizationResponse<EF>,
    ) -> DeviceAccessTokenRequest<'a, TR, EF>
        ensures url { self.now.token_url ≡ Some result.request.token_url }
        ensures new { result.request
            ≡ new_device_token_request self.now result.request.token_url auth_response.now }
    {
        DeviceAccessTokenRequest::new(self.base_request(alloc), self.token_uri(), auth_response)
    }
}

impl<TE, TR, TIR, RT, TRE, A, D, I, R> Client<TE, TR, TIR, RT, TRE, A, D, I, R, EndpointMaybeSet>
where
    A: EndpointState,
    D: EndpointState,
    I: EndpointState,
    R: EndpointState,
{
    /// Starts the exchange of an authorization code for a token. The error is `MissingUrl` if there
    /// is no token endpoint.
    pub fn exchange_code(
        &self,
        alloc: Global,
        code: AuthorizationCode,
    ) -> Result<CodeTokenRequest<'_, TE, TR>, ConfigurationError>
        ensures there { IfSome self.now.token_url (λ url. IsOkAnd result
            (λ r. r ≡ new_code_request self.now url code)) }
        ensures missing { IfNone self.now.token_url
            (IsErrAnd result (IsMissingUrl (codes "token"))) }
    {
        let token_url = self.token_endpoint()?;
        Ok(CodeTokenRequest::new(
            self.base_request(alloc),
            token_url,
            self.redirect_uri(),
            code,
        ))
    }

    /// Starts the exchange of a refresh token for a token. The error is `MissingUrl` if there is no
    /// token endpoint.
    pub fn exchange_refresh_token<'a>(
        &'a self,
        alloc: Global,
        refresh_token: &'a RefreshToken,
    ) -> Result<RefreshTokenRequest<'a, TE, TR>, ConfigurationError>
        ensures there { IfSome self.now.token_url (λ url. IsOkAnd result
            (λ r. r ≡ new_refresh_request self.now url refresh_token.now)) }
        ensures missing { IfNone self.now.token_url
            (IsErrAnd result (IsMissingUrl (codes "token"))) }
    {
        let token_url = self.token_endpoint()?;
        Ok(RefreshTokenRequest::new(self.base_request(alloc), token_url, refresh_token))
    }

    /// Starts the exchange of a resource owner's name and password for a token. The error is
    /// `MissingUrl` if there is no token endpoint.
    pub fn exchange_password<'a>(
        &'a self,
        alloc: Global,
        username: &'a ResourceOwnerUsername,
        password: &'a ResourceOwnerPassword,
    ) -> Result<PasswordTokenRequest<'a, TE, TR>, ConfigurationError>
        ensures there { IfSome self.now.token_url (λ url. IsOkAnd result
            (λ r. r ≡ new_password_request self.now url username.now password.now)) }
        ensures missing { IfNone self.now.token_url
            (IsErrAnd result (IsMissingUrl (codes "token"))) }
    {
        let token_url = self.token_endpoint()?;
        Ok(PasswordTokenRequest::new(self.base_request(alloc), token_url, username, password))
    }

    /// Starts the exchange of the credentials of the client for a token. The error is `MissingUrl`
    /// if there is no token endpoint.
    pub fn exchange_client_credentials(
        &self,
        alloc: Global,
    ) -> Result<ClientCredentialsTokenRequest<'_, TE, TR>, ConfigurationError>
        ensures there { IfSome self.now.token_url (λ url. IsOkAnd result
            (λ r. r ≡ new_client_credentials_request self.now url)) }
        ensures missing { IfNone self.now.token_url
            (IsErrAnd result (IsMissingUrl (codes "token"))) }
    {
        let token_url = self.token_endpoint()?;
        Ok(ClientCredentialsTokenRequest::new(self.base_request(alloc), token_url))
    }

    /// Starts the poll for the token of the device that received this response. The error is
    /// `MissingUrl` if there is no token endpoint.
    pub fn exchange_device_access_token<'a, EF>(
        &'a self,
        alloc: Global,
        auth_response: &'a DeviceAuthorizationResponse<EF>,
    ) -> Result<DeviceAccessTokenRequest<'a, TR, EF>, ConfigurationError>
        ensures there { IfSome self.now.token_url (λ url. IsOkAnd result
            (λ r. r.request ≡ new_device_token_request self.now url auth_response.now)) }
        ensures missing { IfNone self.now.token_url
            (IsErrAnd result (IsMissingUrl (codes "token"))) }
    {
        let token_url = self.token_endpoint()?;
        Ok(DeviceAccessTokenRequest::new(self.base_request(alloc), token_url, auth_response))
    }

    fn token_endpoint(&self) -> Result<&TokenUrl, ConfigurationError>
        ensures there { IfSome self.now.token_url (λ url. IsOkAnd result (λ r. r.now ≡ url)) }
        ensures missing { IfNone self.now.token_url
            (IsErrAnd result (IsMissingUrl (codes "token"))) }
    {
        match self.token_uri() {
            Some(token_url) => Ok(token_url),
            None => Err(ConfigurationError::MissingUrl("token")),
        }
    }
}
