//! The client and the token endpoint that a kept token belongs to.

ghost use Rattle.std.specs.Prelude.{◌≡◌, IfOk, Some, string_bytes};
ghost use Rattle.url.specs.Parts.{serialize};
ghost use Rattle.oauth2_stored_token.specs.AtEndpoint.{NamesClient};
ghost use Rattle.oauth2_stored_token.specs.Started.{is_of};

use oauth2::{Client, ClientId, EndpointSet, EndpointState, TokenUrl, TryClone};
use std::alloc::{AllocError, Global};
use std::marker::Model;

/// The client and the token endpoint that a kept token belongs to: the client's identifier, and the
/// URL that its requests for a token go to. Contracts see it as an `AtEndpoint`.
///
/// As JSON it is an object with the members `client_id` and `token_url`.
#[derive(Debug, Drop)]
pub struct ClientAtEndpoint {
    pub(crate) client_id: ClientId,
    pub(crate) token_url: String,
}

impl Model for ClientAtEndpoint {
    ghost use Rattle.std.specs.Prelude.{string_bytes};
    ghost use Rattle.oauth2_stored_token.specs.AtEndpoint.{AtEndpoint, at_endpoint};

    ghost Value = { AtEndpoint };

    ghost view = { λ c. at_endpoint c.client_id (string_bytes c.token_url) };
}

impl ClientAtEndpoint {
    /// This client and its token endpoint.
    pub fn of<TE, TR, TIR, RT, TRE, A, D, I, R>(
        alloc: Global,
        client: &Client<TE, TR, TIR, RT, TRE, A, D, I, R, EndpointSet>,
    ) -> Result<ClientAtEndpoint, AllocError>
    where
        A: EndpointState,
        D: EndpointState,
        I: EndpointState,
        R: EndpointState,
        ensures { IfOk result (λ named. NamesClient client.now named) }
    {
        Ok(ClientAtEndpoint {
            client_id: client.client_id().try_clone(alloc)?,
            token_url: request_url(alloc, client.token_uri())?,
        })
    }

    /// A copy.
    pub fn try_clone(&self, alloc: Global) -> Result<ClientAtEndpoint, AllocError>
        ensures { IfOk result (λ copy. copy ≡ self.now) }
    {
        Ok(ClientAtEndpoint {
            client_id: self.client_id.try_clone(alloc)?,
            token_url: String::from_str(alloc, self.token_url.as_str())?,
        })
    }

    /// Whether this is the identifier of the client, byte for byte.
    pub fn is_client(&self, client_id: &ClientId) -> bool
        ensures { result ≡ is_of (Some self.now.client_id) (Some client_id.now) }
    {
        self.client_id.as_str() == client_id.as_str()
    }

    /// Whether requests for a token go to this endpoint. URLs are compared as requests go to them.
    pub fn is_endpoint(&self, token_url: &TokenUrl) -> bool
        ensures { result ≡ is_of (Some self.now.token_url) (Some (serialize token_url.now.url)) }
    {
        is_request_url(self.token_url.as_str(), token_url)
    }
}

// The URL that requests to this endpoint go to.
pub(crate) fn request_url(alloc: Global, token_url: &TokenUrl) -> Result<String, AllocError>
    ensures { IfOk result (λ text. string_bytes text ≡ serialize token_url.now.url) }
{
    String::from_str(alloc, token_url.url().as_str())
}

// Whether requests to this endpoint go to this URL.
pub(crate) fn is_request_url(url: &str, token_url: &TokenUrl) -> bool
    ensures { result ≡ is_of (Some url.now) (Some (serialize token_url.now.url)) }
{
    url == token_url.url().as_str()
}
