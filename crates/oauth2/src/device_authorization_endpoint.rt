//! The request that a client makes to its device authorization endpoint (RFC 8628, section 3.1).

ghost use Rattle.std.specs.Prelude.{◌≡◌, Some, IfSome, IfNone, IsOkAnd, IsErrAnd, codes};
ghost use Rattle.oauth2_wire.specs.ConfigurationError.{IsMissingUrl};
ghost use Rattle.oauth2.specs.NewRequest.{new_device_request};

use crate::client::Client;
use crate::endpoint::{EndpointMaybeSet, EndpointSet, EndpointState};
use oauth2_requests::DeviceAuthorizationRequest;
use oauth2_wire::ConfigurationError;
use std::alloc::Global;

impl<TE, TR, TIR, RT, TRE, A, I, R, T> Client<TE, TR, TIR, RT, TRE, A, EndpointSet, I, R, T>
where
    A: EndpointState,
    I: EndpointState,
    R: EndpointState,
    T: EndpointState,
{
    /// Starts the request for a device code and a user code.
    pub fn exchange_device_code(&self, alloc: Global) -> DeviceAuthorizationRequest<'_, TE>
        ensures url { self.now.device_authorization_url ≡ Some result.device_authorization_url }
        ensures new { result ≡ new_device_request self.now result.device_authorization_url }
    {
        DeviceAuthorizationRequest::new(self.base_request(alloc), self.device_authorization_url())
    }
}

impl<TE, TR, TIR, RT, TRE, A, I, R, T> Client<TE, TR, TIR, RT, TRE, A, EndpointMaybeSet, I, R, T>
where
    A: EndpointState,
    I: EndpointState,
    R: EndpointState,
    T: EndpointState,
{
    /// Starts the request for a device code and a user code. The error is `MissingUrl` if there is
    /// no device authorization endpoint.
    pub fn exchange_device_code(
        &self,
        alloc: Global,
    ) -> Result<DeviceAuthorizationRequest<'_, TE>, ConfigurationError>
        ensures there { IfSome self.now.device_authorization_url (λ url. IsOkAnd result
            (λ r. r ≡ new_device_request self.now url)) }
        ensures missing { IfNone self.now.device_authorization_url
            (IsErrAnd result (IsMissingUrl (codes "device authorization"))) }
    {
        match self.device_authorization_url() {
            Some(url) => Ok(DeviceAuthorizationRequest::new(self.base_request(alloc), url)),
            None => Err(ConfigurationError::MissingUrl("device authorization")),
        }
    }
}
