//! A client with the endpoints of the metadata.

ghost use Rattle.std.specs.Prelude.{◌≡◌, Some, None, option_map, IfOk, MatchResult};
ghost use Rattle.oauth2.specs.Settings.{Settings};
ghost use Rattle.oauth2_metadata.specs.Client.{IsClientOf, device_refusal, login_refusal};
ghost use Rattle.oauth2_metadata.specs.Client.{token_refusal, with_endpoints};
ghost use Rattle.oauth2_metadata.specs.EndpointFault.{endpoint_fault};
ghost use Rattle.oauth2_metadata.specs.declared.endpoint_error.EndpointError.TheVariants.{Refused};

use crate::endpoint_error::EndpointError;
use crate::endpoint_fault::Endpoint;
use crate::groups::MetadataEndpoints;
use crate::metadata::ServerMetadata;
use oauth2::{Client, EndpointMaybeSet, EndpointSet, EndpointState};
use oauth2_types::TryClone;
use oauth2_urls::{AuthUrl, DeviceAuthorizationUrl, IntrospectionUrl, RevocationUrl, TokenUrl};
use std::alloc::{AllocError, Global};

/// A client with the endpoints of the metadata. Each endpoint may be absent: a call that needs an
/// absent one returns `MissingUrl`.
pub type DiscoveredClient<TE, TR, TIR, RT, TRE> = Client<
    TE,
    TR,
    TIR,
    RT,
    TRE,
    EndpointMaybeSet,
    EndpointMaybeSet,
    EndpointMaybeSet,
    EndpointMaybeSet,
    EndpointMaybeSet,
>;

/// Such a client that has an authorization and a token endpoint, for a login.
pub type DiscoveredLoginClient<TE, TR, TIR, RT, TRE> = Client<
    TE,
    TR,
    TIR,
    RT,
    TRE,
    EndpointSet,
    EndpointMaybeSet,
    EndpointMaybeSet,
    EndpointMaybeSet,
    EndpointSet,
>;

/// Such a client that has a token endpoint, for a keeper.
pub type DiscoveredTokenClient<TE, TR, TIR, RT, TRE> = Client<
    TE,
    TR,
    TIR,
    RT,
    TRE,
    EndpointMaybeSet,
    EndpointMaybeSet,
    EndpointMaybeSet,
    EndpointMaybeSet,
    EndpointSet,
>;

/// Such a client that has a device authorization and a token endpoint, for a login on a device.
pub type DiscoveredDeviceClient<TE, TR, TIR, RT, TRE> = Client<
    TE,
    TR,
    TIR,
    RT,
    TRE,
    EndpointMaybeSet,
    EndpointSet,
    EndpointMaybeSet,
    EndpointMaybeSet,
    EndpointSet,
>;

impl<EF> ServerMetadata<EF> {
    /// The client with these endpoints; those that the metadata does not have are not set. If
    /// memory runs out, the client is dropped.
    pub fn endpoints_of<TE, TR, TIR, RT, TRE, A, D, I, R, T>(
        &self,
        alloc: Global,
        client: Client<TE, TR, TIR, RT, TRE, A, D, I, R, T>,
    ) -> Result<DiscoveredClient<TE, TR, TIR, RT, TRE>, AllocError>
    where
        A: EndpointState,
        D: EndpointState,
        I: EndpointState,
        R: EndpointState,
        T: EndpointState,
        ensures { IfOk result (λ found. found ≡ with_endpoints self.now.endpoints client) }
    {
        let endpoints = self.endpoints.copies(alloc)?;
        Ok(
            client
                .set_auth_uri_option(endpoints.auth_url)
                .set_device_authorization_url_option(endpoints.device_authorization_url)
                .set_introspection_url_option(endpoints.introspection_url)
                .set_revocation_url_option(endpoints.revocation_url)
                .set_token_uri_option(endpoints.token_url),
        )
    }
}

impl<EF> ServerMetadata<EF> {
    /// The client with these endpoints, for a login by a code, which needs the authorization and
    /// the token endpoint. On an error the client is dropped, here and in the next two functions.
    pub fn login_client_of<TE, TR, TIR, RT, TRE, A, D, I, R, T>(
        &self,
        alloc: Global,
        client: Client<TE, TR, TIR, RT, TRE, A, D, I, R, T>,
    ) -> Result<DiscoveredLoginClient<TE, TR, TIR, RT, TRE>, EndpointError>
    where
        A: EndpointState,
        D: EndpointState,
        I: EndpointState,
        R: EndpointState,
        T: EndpointState,
        ensures { IsClientOf (login_refusal self.now.endpoints) self.now.endpoints client result }
    {
        let (auth_url, token_url) = self.endpoints.of_login()?;
        let auth_url = auth_url.try_clone(alloc)?;
        let token_url = token_url.try_clone(alloc)?;
        let client = self.endpoints_of(alloc, client)?;
        Ok(client.set_auth_uri(auth_url).set_token_uri(token_url))
    }

    /// The client with these endpoints, for a keeper and for every token request, which need the
    /// token endpoint.
    pub fn token_client_of<TE, TR, TIR, RT, TRE, A, D, I, R, T>(
        &self,
        alloc: Global,
        client: Client<TE, TR, TIR, RT, TRE, A, D, I, R, T>,
    ) -> Result<DiscoveredTokenClient<TE, TR, TIR, RT, TRE>, EndpointError>
    where
        A: EndpointState,
        D: EndpointState,
        I: EndpointState,
        R: EndpointState,
        T: EndpointState,
        ensures { IsClientOf (token_refusal self.now.endpoints) self.now.endpoints client result }
    {
        let token_url = self.endpoints.of_token()?.try_clone(alloc)?;
        let client = self.endpoints_of(alloc, client)?;
        Ok(client.set_token_uri(token_url))
    }

    /// The client with these endpoints, for a login on another device, which needs the device
    /// authorization and the token endpoint.
    pub fn device_client_of<TE, TR, TIR, RT, TRE, A, D, I, R, T>(
        &self,
        alloc: Global,
        client: Client<TE, TR, TIR, RT, TRE, A, D, I, R, T>,
    ) -> Result<DiscoveredDeviceClient<TE, TR, TIR, RT, TRE>, EndpointError>
    where
        A: EndpointState,
        D: EndpointState,
        I: EndpointState,
        R: EndpointState,
        T: EndpointState,
        ensures { IsClientOf (device_refusal self.now.endpoints) self.now.endpoints client result }
    {
        let (device_url, token_url) = self.endpoints.of_device()?;
        let device_url = device_url.try_clone(alloc)?;
        let token_url = token_url.try_clone(alloc)?;
        let client = self.endpoints_of(alloc, client)?;
        Ok(
            client
                .set_device_authorization_url(device_url)
                .set_token_uri(token_url),
        )
    }
}

// Copies of the endpoints, to be moved into a client.
#[derive(Drop)]
struct EndpointCopies {
    auth_url: Option<AuthUrl>,
    device_authorization_url: Option<DeviceAuthorizationUrl>,
    introspection_url: Option<IntrospectionUrl>,
    revocation_url: Option<RevocationUrl>,
    token_url: Option<TokenUrl>,
}

impl MetadataEndpoints {
    // The endpoints of a login by a code.
    fn of_login(&self) -> Result<(&AuthUrl, &TokenUrl), EndpointError>
        ensures { MatchResult result
            (λ urls. (login_refusal self.now ≡ None)
            × (self.now.authorization_endpoint ≡ Some urls.0.now)
            × (self.now.token_endpoint ≡ Some urls.1.now))
            (λ error. login_refusal self.now ≡ Some error) }
    {
        self.refuse_calls()?;
        let Some(auth_url) = &self.authorization_endpoint else {
            return Err(EndpointError::Missing(Endpoint::Authorization));
        };
        let Some(token_url) = &self.token_endpoint else {
            return Err(EndpointError::Missing(Endpoint::Token));
        };
        Ok((auth_url, token_url))
    }

    // The token endpoint.
    fn of_token(&self) -> Result<&TokenUrl, EndpointError>
        ensures { MatchResult result
            (λ url. (token_refusal self.now ≡ None) × (self.now.token_endpoint ≡ Some url.now))
            (λ error. token_refusal self.now ≡ Some error) }
    {
        self.refuse_calls()?;
        let Some(token_url) = &self.token_endpoint else {
            return Err(EndpointError::Missing(Endpoint::Token));
        };
        Ok(token_url)
    }

    // The endpoints of a login on another device.
    fn of_device(&self) -> Result<(&DeviceAuthorizationUrl, &TokenUrl), EndpointError>
        ensures { MatchResult result
            (λ urls. (device_refusal self.now ≡ None)
            × (self.now.device_authorization_endpoint ≡ Some urls.0.now)
            × (self.now.token_endpoint ≡ Some urls.1.now))
            (λ error. device_refusal self.now ≡ Some error) }
    {
        self.refuse_calls()?;
        let Some(device_url) = &self.device_authorization_endpoint else {
            return Err(EndpointError::Missing(Endpoint::DeviceAuthorization));
        };
        let Some(token_url) = &self.token_endpoint else {
            return Err(EndpointError::Missing(Endpoint::Token));
        };
        Ok((device_url, token_url))
    }

    // The error of every task if there is an endpoint that a client may not call.
    fn refuse_calls(&self) -> Result<(), EndpointError>
        ensures { MatchResult result (λ _. endpoint_fault self.now ≡ None)
            (λ error. option_map Refused (endpoint_fault self.now) ≡ Some error) }
    {
        match self.fault() {
            Some(fault) => Err(EndpointError::Refused(fault)),
            None => Ok(()),
        }
    }

    #[tactic(auto, using(std::proofs::lemmas::Iterator::Adapters::option_map_id))]
    fn copies(&self, alloc: Global) -> Result<EndpointCopies, AllocError>
        ensures auth { IfOk result (λ c. c.auth_url ≡ self.now.authorization_endpoint) }
        ensures device { IfOk result (λ c.
            c.device_authorization_url ≡ self.now.device_authorization_endpoint) }
        ensures introspection { IfOk result (λ c.
            c.introspection_url ≡ self.now.introspection_endpoint) }
        ensures revocation { IfOk result (λ c. c.revocation_url ≡ self.now.revocation_endpoint) }
        ensures token { IfOk result (λ c. c.token_url ≡ self.now.token_endpoint) }
    {
        let auth_url = self.authorization_endpoint.try_clone(alloc)?;
        let device_authorization_url = self.device_authorization_endpoint.try_clone(alloc)?;
        let introspection_url = self.introspection_endpoint.try_clone(alloc)?;
        let revocation_url = self.revocation_endpoint.try_clone(alloc)?;
        let token_url = self.token_endpoint.try_clone(alloc)?;
        Ok(EndpointCopies {
            auth_url,
            device_authorization_url,
            introspection_url,
            revocation_url,
            token_url,
        })
    }
}
