//! The request that a client makes to its revocation endpoint (RFC 7009, section 2.1).

ghost use Rattle.std.specs.Prelude.{◌≡◌, Some, IfSome, IfNone, IsSome, IsOkAnd, IsErrAnd, codes};
ghost use Rattle.oauth2_wire.specs.ConfigurationError.{IsInsecureUrl, IsMissingUrl};
ghost use Rattle.oauth2_requests.specs.TokenRevocation.{IsHttps};
ghost use Rattle.oauth2.specs.NewRequest.{new_revocation_request};

use crate::client::Client;
use crate::endpoint::{EndpointMaybeSet, EndpointSet, EndpointState};
use oauth2_replies::RevocableToken;
use oauth2_requests::RevocationRequest;
use oauth2_urls::RevocationUrl;
use oauth2_wire::ConfigurationError;
use std::alloc::Global;

impl<TE, TR, TIR, RT, TRE, A, D, I, R, T> Client<TE, TR, TIR, RT, TRE, A, D, I, R, T>
where
    RT: RevocableToken + Drop,
    A: EndpointState,
    D: EndpointState,
    I: EndpointState,
    R: EndpointState,
    T: EndpointState,
{
    fn revoke_token_at<'a>(
        &'a self,
        alloc: Global,
        revocation_url: &'a RevocationUrl,
        token: RT,
    ) -> Result<RevocationRequest<'a, RT, TRE>, ConfigurationError>
        ensures secure { IsHttps revocation_url.now → IsOkAnd result
            (λ r. r ≡ new_revocation_request self.now revocation_url.now
            (RT.secret token) (RT.type_hint token)) }
        ensures insecure { ¬ (IsHttps revocation_url.now)
            → IsErrAnd result (IsInsecureUrl (codes "revocation")) }
    {
        RevocationRequest::new(self.base_request(alloc), revocation_url, token)
    }
}

impl<TE, TR, TIR, RT, TRE, A, D, I, T> Client<TE, TR, TIR, RT, TRE, A, D, I, EndpointSet, T>
where
    RT: RevocableToken + Drop,
    A: EndpointState,
    D: EndpointState,
    I: EndpointState,
    T: EndpointState,
{
    /// Starts the revocation of a token. The error is `InsecureUrl` if the URL of the endpoint is
    /// not an `https` URL (RFC 7009, section 2); the token is dropped then.
    pub fn revoke_token(
        &self,
        alloc: Global,
        token: RT,
    ) -> Result<RevocationRequest<'_, RT, TRE>, ConfigurationError>
        ensures there { IsSome self.now.revocation_url }
        ensures secure { IfSome self.now.revocation_url (λ url. IsHttps url → IsOkAnd result
            (λ r. r ≡ new_revocation_request self.now url
            (RT.secret token) (RT.type_hint token))) }
        ensures insecure { IfSome self.now.revocation_url (λ url. ¬ (IsHttps url)
            → IsErrAnd result (IsInsecureUrl (codes "revocation"))) }
    {
        self.revoke_token_at(alloc, self.revocation_url(), token)
    }
}

impl<TE, TR, TIR, RT, TRE, A, D, I, T> Client<TE, TR, TIR, RT, TRE, A, D, I, EndpointMaybeSet, T>
where
    RT: RevocableToken + Drop,
    A: EndpointState,
    D: EndpointState,
    I: EndpointState,
    T: EndpointState,
{
    /// Starts the revocation of a token. The error is `MissingUrl` if there is no revocation
    /// endpoint, or `InsecureUrl` if its URL is not an `https` URL (RFC 7009, section 2); the token
    /// is dropped then.
    pub fn revoke_token(
        &self,
        alloc: Global,
        token: RT,
    ) -> Result<RevocationRequest<'_, RT, TRE>, ConfigurationError>
        ensures secure { IfSome self.now.revocation_url (λ url. IsHttps url → IsOkAnd result
            (λ r. r ≡ new_revocation_request self.now url
            (RT.secret token) (RT.type_hint token))) }
        ensures insecure { IfSome self.now.revocation_url (λ url. ¬ (IsHttps url)
            → IsErrAnd result (IsInsecureUrl (codes "revocation"))) }
        ensures missing { IfNone self.now.revocation_url
            (IsErrAnd result (IsMissingUrl (codes "revocation"))) }
    {
        match self.revocation_url() {
            Some(url) => self.revoke_token_at(alloc, url, token),
            None => Err(ConfigurationError::MissingUrl("revocation")),
        }
    }
}
