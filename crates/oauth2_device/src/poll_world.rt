//! The world that a device polls in.

use jiff::Timestamp;
use oauth2_wire::{HttpRequest, HttpResponse};
use std::time::Duration;

/// The world that a device polls in: a clock, a client and a way to sleep.
///
/// If every call is always allowed, do not define `is_ready`. If you do not define `reads`, `sends`
/// and `sleeps`, contracts say nothing about what the world does.
pub trait PollWorld {
    ghost use Rattle.std.specs.Prelude.{ℕ, Vec, Result, ⊤};
    ghost use Rattle.std.specs.declared.alloc.Global.{Global};
    ghost use Rattle.std.specs.declared.time.Duration.{Duration};
    ghost use Rattle.http.specs.declared.request.Request.{Request};
    ghost use Rattle.http.specs.declared.response.Response.{Response};
    ghost use Rattle.jiff.specs.Types.{Timestamp};

    /// Why a request got no reply.
    type Error: Drop;

    // Every call is allowed in this state.
    ghost is_ready: { Self → Type 0 } = { λ _. ⊤ };

    // What each call may do, as a relation: the state before, the argument, the result, the state
    // after.
    ghost reads: { Self → Timestamp → Self → Type 0 } = { λ _ _ _. ⊤ };

    ghost sends: { Self → Request (Vec ℕ Global)
        → Result (Response (Vec ℕ Global)) Self.Error → Self → Type 0 } = { λ _ _ _ _. ⊤ };

    ghost sleeps: { Self → Duration → Self → Type 0 } = { λ _ _ _. ⊤ };

    /// Reads the clock.
    fn now(&mut self) -> Timestamp
        requires { is_ready self.old }
        ensures reads { reads self.old result self.new }
        ensures ready { is_ready self.new };

    /// Sends one request and returns its reply.
    fn send(&mut self, request: HttpRequest) -> Result<HttpResponse, Self::Error>
        requires { is_ready self.old }
        ensures sends { sends self.old request result self.new }
        ensures ready { is_ready self.new };

    /// Sleeps for `duration`.
    fn sleep(&mut self, duration: Duration)
        requires { is_ready self.old }
        ensures sleeps { sleeps self.old duration self.new }
        ensures ready { is_ready self.new };
}
