//! A client that adds an assertion to each form that it sends to its server.

ghost use Rattle.std.specs.Prelude.{◌≡◌};
ghost use Rattle.oauth2_wire.specs.Request.{view_of};
ghost use Rattle.oauth2_client_assertions.specs.AssertingCall.{inner_result};
ghost use Rattle.oauth2_client_assertions.specs.private.Asking.{Asks};

use crate::assertion_source::AssertionSource;
use crate::assertion_type::AssertionType;
use crate::error::AssertingError;
use crate::request::{authenticates, is_form_post, with_assertion};
use crate::server_endpoints::ServerEndpoints;
use oauth2_wire::{AlwaysReady, HttpRequest, HttpResponse, SyncHttpClient};
use std::alloc::Global;
use std::marker::Model;

/// A client that authenticates by assertions: it adds one to each POST of a form to an endpoint of
/// its server. A POST of a form to another target is refused. All other requests, such as a GET,
/// are sent as they are.
///
/// Contracts see it as an `Asserter`.
pub struct AssertingClient<C, S> {
    alloc: Global,
    client: C,
    source: S,
    endpoints: ServerEndpoints,
    assertion_type: AssertionType,
}

impl<C: Drop, S: Drop> Drop for AssertingClient<C, S> {
    fn drop(self) {
        let AssertingClient {
            alloc: _,
            client: _,
            source: _,
            endpoints: _,
            assertion_type: _,
        } = self;
    }
}

impl<C, S> Model for AssertingClient<C, S> {
    ghost use Rattle.oauth2_client_assertions.specs.AssertingCall.{Asserter};

    ghost Value = { Asserter C S };

    ghost view = { λ c. record {
      client = c.client;
      source = c.source;
      endpoints = c.endpoints;
      assertion_type = c.assertion_type;
    } };
}

impl<C, S> AssertingClient<C, S> {
    /// Wraps a client. The assertions of the source are JWTs, and they are sent to these endpoints
    /// alone.
    pub fn new(
        alloc: Global,
        client: C,
        source: S,
        endpoints: ServerEndpoints,
    ) -> AssertingClient<C, S>
        ensures { result ≡ record {
          client = client;
          source = source;
          endpoints = endpoints;
          assertion_type = AssertionType.JwtBearer;
        } }
    {
        AssertingClient {
            alloc,
            client,
            source,
            endpoints,
            assertion_type: AssertionType::JwtBearer,
        }
    }

    /// Sets the type of the assertions, which `client_assertion_type` names (RFC 7521, section 4.2).
    /// It is `JwtBearer` unless set.
    pub fn set_assertion_type(self, assertion_type: AssertionType) -> AssertingClient<C, S>
        ensures { result ≡ record self { assertion_type = assertion_type } }
    {
        let mut client = self;
        client.assertion_type = assertion_type;
        client
    }

    /// The inner client and the source.
    pub fn into_parts(self) -> (C, S)
        ensures { result ≡ (self.client, self.source) }
    {
        let AssertingClient {
            alloc: _,
            client,
            source,
            endpoints: _,
            assertion_type: _,
        } = self;
        (client, source)
    }
}

impl<C: SyncHttpClient, S: AssertionSource> SyncHttpClient for AssertingClient<C, S> {
    ghost use Rattle.oauth2_client_assertions.specs.AssertingCall.{CallsAsserting};

    type Error = AssertingError<C::Error, S::Error>;

    ghost is_ready = { λ c. C.is_ready c.client };

    ghost step = { CallsAsserting C.step S.step };

    fn call(
        &mut self,
        request: HttpRequest,
    ) -> Result<HttpResponse, AssertingError<C::Error, S::Error>> {
        if !is_form_post(&request) {
            return inner_result(self.client.call(request));
        }
        if !self.endpoints.is_endpoint(request.uri()) {
            return Err(AssertingError::OtherTarget);
        }
        if authenticates(&request) {
            return Err(AssertingError::OtherAuthentication);
        }
        match asserted_request(self.alloc, &mut self.source, self.assertion_type, request) {
            Ok(sent) => inner_result(self.client.call(sent)),
            Err(error) => Err(error),
        }
    }
}

impl<C: AlwaysReady, S: AssertionSource> AlwaysReady for AssertingClient<C, S> {
    ghost always_ready = { λ c. C.always_ready c.client };
}

// The request with an assertion of the source, or why there is none.
fn asserted_request<S: AssertionSource, E>(
    alloc: Global,
    source: &mut S,
    assertion_type: AssertionType,
    request: HttpRequest,
) -> Result<HttpRequest, AssertingError<E, S::Error>>
    ensures { Asks S.step assertion_type (view_of request) source.old result source.new }
{
    match source.assertion(alloc) {
        Ok(assertion) => match with_assertion(request, assertion_type, &assertion) {
            Ok(sent) => Ok(sent),
            Err(_) => Err(AssertingError::Memory),
        },
        Err(error) => Err(AssertingError::Source(error)),
    }
}

// The reply, or the error of the inner client.
fn inner_result<E: Drop, S>(
    answer: Result<HttpResponse, E>,
) -> Result<HttpResponse, AssertingError<E, S>>
    ensures { result ≡ inner_result answer }
{
    match answer {
        Ok(reply) => Ok(reply),
        Err(error) => Err(AssertingError::Client(error)),
    }
}
