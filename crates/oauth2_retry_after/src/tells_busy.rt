//! A client that tells by its error that a server is busy.

ghost use Rattle.std.specs.Prelude.{◌≡◌};
ghost use Rattle.oauth2_retry_after.specs.Busy.{IsTold};

use crate::busy_reply::{is_busy, retry_after};
use crate::error::BusyError;
use oauth2_wire::{AlwaysReady, HttpRequest, HttpResponse, SyncHttpClient};
use std::marker::Model;

/// A client whose error tells that a server asks to try again later: a reply with status 429 or 503
/// becomes a `BusyError::Busy` with the wait of its Retry-After. All other replies are returned as
/// they are.
///
/// It is the outermost wrapper of a client. Contracts see the inner client.
#[derive(Drop)]
pub struct TellsBusy<C> {
    client: C,
}

impl<C> Model for TellsBusy<C> {
    ghost Value = { C };

    ghost view = { λ t. t.client };
}

impl<C> TellsBusy<C> {
    /// Wraps a client: each call is passed to it.
    pub fn new(client: C) -> TellsBusy<C>
        ensures { result ≡ client }
    {
        TellsBusy { client }
    }

    /// The inner client.
    pub fn into_inner(self) -> C
        ensures { result ≡ self }
    {
        let TellsBusy { client } = self;
        client
    }
}

impl<C: SyncHttpClient> SyncHttpClient for TellsBusy<C> {
    ghost use Rattle.oauth2_retry_after.specs.Busy.{CallsAndTells};

    type Error = BusyError<C::Error>;

    ghost is_ready = { λ client. C.is_ready client };

    ghost step = { CallsAndTells C.step };

    fn call(&mut self, request: HttpRequest) -> Result<HttpResponse, BusyError<C::Error>> {
        reply_or_busy(self.client.call(request))
    }
}

impl<C: AlwaysReady> AlwaysReady for TellsBusy<C> {
    ghost always_ready = { λ client. C.always_ready client };
}

// The reply, or that the server is busy, or the error of the inner client.
fn reply_or_busy<E: Drop>(answer: Result<HttpResponse, E>) -> Result<HttpResponse, BusyError<E>>
    ensures { IsTold answer result }
{
    match answer {
        Ok(reply) => if is_busy(&reply) {
            Err(BusyError::Busy {
                status: reply.status(),
                retry_after: retry_after(&reply),
            })
        } else {
            Ok(reply)
        },
        Err(error) => Err(BusyError::Client(error)),
    }
}
