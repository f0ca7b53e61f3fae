//! The request that a client makes to its introspection endpoint (RFC 7662, section 2.1).

ghost use Rattle.std.specs.Prelude.{◌≡◌, Some, IfSome, IfNone, IsOkAnd, IsErrAnd, codes};
ghost use Rattle.oauth2_wire.specs.ConfigurationError.{IsMissingUrl};
ghost use Rattle.oauth2.specs.NewRequest.{new_introspection_request};

use crate::client::Client;
use crate::endpoint::{EndpointMaybeSet, EndpointSet, EndpointState};
use oauth2_requests::IntrospectionRequest;
use oauth2_types::AccessToken;
use oauth2_wire::ConfigurationError;
use std::alloc::Global;

impl<TE, TR, TIR, RT, TRE, A, D, R, T> Client<TE, TR, TIR, RT, TRE, A, D, EndpointSet, R, T>
where
    A: EndpointState,
    D: EndpointState,
    R: EndpointState,
    T: EndpointState,
{
    /// A request to introspect a token (RFC 7662, section 2.1). It is not sent before `request`.
    pub fn introspect<'a>(
        &'a self,
        alloc: Global,
        token: &'a AccessToken,
    ) -> IntrospectionRequest<'a, TE, TIR>
        ensures url { self.now.introspection_url ≡ Some result.introspection_url }
        ensures new { result
            ≡ new_introspection_request self.now result.introspection_url token.now }
    {
        IntrospectionRequest::new(self.base_request(alloc), self.introspection_url(), token)
    }
}

impl<TE, TR, TIR, RT, TRE, A, D, R, T> Client<TE, TR, TIR, RT, TRE, A, D, EndpointMaybeSet, R, T>
where
    A: EndpointState,
    D: EndpointState,
    R: EndpointState,
    T: EndpointState,
{
    /// Starts the introspection of a token. The error is `MissingUrl` if there is no introspection
    /// endpoint.
    pub fn introspect<'a>(
        &'a self,
        alloc: Global,
        token: &'a AccessToken,
    ) -> Result<IntrospectionRequest<'a, TE, TIR>, ConfigurationError>
        ensures there { IfSome self.now.introspection_url (λ url. IsOkAnd result
            (λ r. r ≡ new_introspection_request self.now url token.now)) }
        ensures missing { IfNone self.now.introspection_url
            (IsErrAnd result (IsMissingUrl (codes "introspection"))) }
    {
        match self.introspection_url() {
            Some(url) => Ok(IntrospectionRequest::new(self.base_request(alloc), url, token)),
            None => Err(ConfigurationError::MissingUrl("introspection")),
        }
    }
}
