//! The world that logins are refreshed in, which the caller provides.

use jiff::Timestamp;
use oauth2::SyncHttpClient;

/// The world that logins are refreshed in: a client, and its clock. Both are one state, since the
/// clock goes on while a request is sent. `ClockAndClient` makes it of the two.
///
/// If you do not define `reads`, contracts say nothing about what the clock tells.
pub trait LoginWorld: SyncHttpClient {
    ghost use Rattle.std.specs.Prelude.{⊤};
    ghost use Rattle.jiff.specs.Types.{Timestamp};

    // What a reading of the clock may tell, as a relation: the state before, the moment, the state
    // after.
    ghost reads: { Self → Timestamp → Self → Type 0 } = { λ _ _ _. ⊤ };

    /// Reads the clock.
    fn now(&mut self) -> Timestamp
        requires { Self.is_ready self.old }
        ensures reads { reads self.old result self.new }
        ensures ready { Self.is_ready self.new };
}
