//! HTTP clients that can also sleep.

ghost use Rattle.std.specs.Prelude.{◌≡◌};

use oauth2_wire::{HttpRequest, HttpResponse, SyncHttpClient};
use std::marker::Model;
use std::time::Duration;

/// An HTTP client that can also sleep.
///
/// If you do not define `sleeps`, contracts say nothing about what a sleep does.
pub trait SleepingClient: SyncHttpClient {
    ghost use Rattle.std.specs.Prelude.{⊤};
    ghost use Rattle.std.specs.declared.time.Duration.{Duration};

    // What a sleep may do, as a relation: the state before, its length, the state after.
    ghost sleeps: { Self → Duration → Self → Type 0 } = { λ _ _ _. ⊤ };

    /// Sleeps for `duration`.
    fn sleep(&mut self, duration: Duration)
        requires { Self.is_ready self.old }
        ensures sleeps { sleeps self.old duration self.new }
        ensures ready { Self.is_ready self.new };
}

/// A client and a sleep function joined into one. Contracts see the pair.
#[derive(Drop)]
pub struct WithSleep<C, F> {
    client: C,
    sleep_fn: F,
}

impl<C, F> Model for WithSleep<C, F> {
    ghost Value = { C × F };

    ghost view = { λ w. (w.client, w.sleep_fn) };
}

impl<C, F> WithSleep<C, F> {
    /// Joins a client and a sleep function.
    pub fn new(client: C, sleep_fn: F) -> WithSleep<C, F>
        ensures { result ≡ (client, sleep_fn) }
    {
        WithSleep { client, sleep_fn }
    }

    /// The client and the sleep function.
    pub fn into_parts(self) -> (C, F)
        ensures { result ≡ self }
    {
        let WithSleep { client, sleep_fn } = self;
        (client, sleep_fn)
    }
}

impl<C: SyncHttpClient, F: FnMut(Duration)> SyncHttpClient for WithSleep<C, F> {
    ghost use Rattle.oauth2_http1_connections.specs.retries.Sleeping.{StepsOfClient};

    type Error = C::Error;

    ghost is_ready = { λ w. C.is_ready w.0 × F.IsAlwaysCallable w.1 };

    ghost step = { StepsOfClient C.step };

    fn call(&mut self, request: HttpRequest) -> Result<HttpResponse, C::Error> {
        self.client.call(request)
    }
}

impl<C: SyncHttpClient, F: FnMut(Duration)> SleepingClient for WithSleep<C, F> {
    ghost use Rattle.oauth2_http1_connections.specs.retries.Sleeping.{StepsOfSleep};

    ghost sleeps = { StepsOfSleep (λ f d g. F.step f d tt g) };

    fn sleep(&mut self, duration: Duration) {
        (self.sleep_fn)(duration)
    }
}
