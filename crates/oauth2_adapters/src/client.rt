//! A client whose replies are adapted.

ghost use Rattle.std.specs.Prelude.{◌≡◌};
ghost use Rattle.oauth2_adapters.specs.AdaptedCall.{IsAdapted};

use crate::error::AdapterError;
use crate::reply_adapter::ReplyAdapter;
use oauth2_wire::{AlwaysReady, HttpRequest, HttpResponse, SyncHttpClient};
use std::alloc::Global;
use std::marker::Model;

/// A client whose replies are adapted. Contracts see the client and the adapter.
#[derive(Drop)]
pub struct AdaptedClient<C, A> {
    alloc: Global,
    client: C,
    adapter: A,
}

impl<C, A> Model for AdaptedClient<C, A> {
    ghost Value = { C × A };

    ghost view = { λ c. (c.client, c.adapter) };
}

impl<C, A> AdaptedClient<C, A> {
    /// Wraps a client: each call is passed to it, and its reply is adapted.
    pub fn new(alloc: Global, client: C, adapter: A) -> AdaptedClient<C, A>
        ensures { result ≡ (client, adapter) }
    {
        AdaptedClient {
            alloc,
            client,
            adapter,
        }
    }

    /// The client and the adapter.
    pub fn into_parts(self) -> (C, A)
        ensures { result ≡ self }
    {
        let AdaptedClient {
            client,
            adapter,
            ..
        } = self;
        (client, adapter)
    }
}

impl<C: SyncHttpClient, A: ReplyAdapter> SyncHttpClient for AdaptedClient<C, A> {
    ghost use Rattle.oauth2_adapters.specs.AdaptedCall.{CallsAndAdapts};

    type Error = AdapterError<C::Error>;

    ghost is_ready = { λ c. C.is_ready c.0 };

    ghost step = { CallsAndAdapts C.step A.adapted A.needs_memory };

    fn call(&mut self, request: HttpRequest) -> Result<HttpResponse, AdapterError<C::Error>> {
        let answer = self.client.call(request);
        adapted_answer(self.alloc, &self.adapter, answer)
    }
}

// The adapted reply, or the error of the inner client.
fn adapted_answer<A: ReplyAdapter, E: Drop>(
    alloc: Global,
    adapter: &A,
    answer: Result<HttpResponse, E>,
) -> Result<HttpResponse, AdapterError<E>>
    ensures { IsAdapted (A.adapted adapter.now) (A.needs_memory adapter.now) answer result }
{
    match answer {
        Ok(reply) => match adapter.adapt(alloc, reply) {
            Ok(adapted) => Ok(adapted),
            Err(_) => Err(AdapterError::Memory),
        },
        Err(error) => Err(AdapterError::Client(error)),
    }
}

impl<C: AlwaysReady, A: ReplyAdapter> AlwaysReady for AdaptedClient<C, A> {
    ghost always_ready = { λ c. C.always_ready c.0 };
}
