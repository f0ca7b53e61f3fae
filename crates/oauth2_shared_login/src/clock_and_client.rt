//! A clock and a client as one world.

use crate::login_world::LoginWorld;
use jiff::Timestamp;
use oauth2::{HttpRequest, HttpResponse, SyncHttpClient};

/// A clock and a client as one world: a reading leaves the client as it was, and a request the
/// clock.
#[derive(Drop)]
pub struct ClockAndClient<F, C> {
    /// Tells the moment of a request.
    pub time_fn: F,
    /// Sends the requests.
    pub http_client: C,
}

impl<F: FnMut() -> Timestamp, C: SyncHttpClient> SyncHttpClient for ClockAndClient<F, C> {
    ghost use Rattle.std.specs.Prelude.{◌≡◌};

    type Error = C::Error;

    ghost is_ready = { λ w. F.IsAlwaysCallable w.time_fn × C.is_ready w.http_client };

    ghost step = { λ before request result after.
        C.step before.http_client request result after.http_client
        × (after.time_fn ≡ before.time_fn) };

    fn call(&mut self, request: HttpRequest) -> Result<HttpResponse, C::Error> {
        self.http_client.call(request)
    }
}

impl<F: FnMut() -> Timestamp, C: SyncHttpClient> LoginWorld for ClockAndClient<F, C> {
    ghost use Rattle.std.specs.Prelude.{◌≡◌};

    ghost reads = { λ before now after. F.step before.time_fn now after.time_fn
        × (after.http_client ≡ before.http_client) };

    fn now(&mut self) -> Timestamp {
        (self.time_fn)()
    }
}
