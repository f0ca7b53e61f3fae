//! The endpoints of a server at which a client authenticates.

ghost use Rattle.std.specs.Prelude.{◌≡◌, [], Err, IfOk};
ghost use Rattle.http_uri.specs.Uri.{Spells, SpellsNone};
ghost use Rattle.url.specs.Parts.{serialize};
ghost use Rattle.oauth2_client_assertions.specs.Endpoints.{AddsEndpoint, is_endpoint};

use http_uri::{Uri, UriError};
use oauth2_wire::RequestFault;
use std::alloc::Global;
use std::marker::Model;
use url::Url;

/// The endpoints of one server at which a client authenticates: its token endpoint, and those for
/// introspection, revocation, pushed authorization requests or device authorization that the client
/// uses. There is at least one.
///
/// Contracts see it as the targets of the requests to them.
#[derive(Drop)]
pub struct ServerEndpoints {
    targets: Vec<Uri>,
}

impl Model for ServerEndpoints {
    ghost use Rattle.std.specs.Prelude.{List};
    ghost use Rattle.http_uri.specs.declared.uri.Uri.{Uri};

    ghost Value = { List Uri };

    ghost view = { λ e. e.targets.items };
}

impl ServerEndpoints {
    /// The endpoint with this URL alone, as `token_url.url()`. The error is `NotHttp` if the URL is
    /// not an HTTP target.
    pub fn new(alloc: Global, endpoint: &Url) -> Result<ServerEndpoints, RequestFault>
        ensures ok { IfOk result (AddsEndpoint [] (serialize endpoint.now)) }
        ensures not_http { result ≡ Err RequestFault.NotHttp → SpellsNone (serialize endpoint.now) }
    {
        let none = ServerEndpoints {
            targets: Vec::new(alloc),
        };
        none.add(alloc, endpoint)
    }

    /// Adds the endpoint with this URL, as `revocation_url.url()`. It has to be one of the same
    /// server.
    pub fn add(self, alloc: Global, endpoint: &Url) -> Result<ServerEndpoints, RequestFault>
        ensures ok { IfOk result (AddsEndpoint self (serialize endpoint.now)) }
        ensures not_http { result ≡ Err RequestFault.NotHttp → SpellsNone (serialize endpoint.now) }
    {
        let mut endpoints = self;
        let target = target_of(alloc, endpoint)?;
        match endpoints.targets.push(target) {
            Ok(()) => Ok(endpoints),
            Err(_) => Err(RequestFault::Memory),
        }
    }

    // Whether this is the target of a request to one of the endpoints.
    pub(crate) fn is_endpoint(&self, target: &Uri) -> bool
        ensures { result ≡ is_endpoint self.now target.now }
    {
        for endpoint in &self.targets {
            if target == endpoint {
                return true;
            }
        }
        false
    }
}

// The target of each request to this URL.
fn target_of(alloc: Global, url: &Url) -> Result<Uri, RequestFault>
    ensures ok { IfOk result (Spells (serialize url.now)) }
    ensures not_http { result ≡ Err RequestFault.NotHttp → SpellsNone (serialize url.now) }
{
    match Uri::from_str(alloc, url.as_str()) {
        Ok(uri) => Ok(uri),
        Err(UriError::Invalid(_)) => Err(RequestFault::NotHttp),
        Err(UriError::OutOfMemory) => Err(RequestFault::Memory),
    }
}
