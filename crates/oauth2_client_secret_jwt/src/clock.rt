//! The clock that an assertion takes its times from.

ghost use Rattle.std.specs.Prelude.{◌≡◌};

use jiff::Timestamp;
use std::marker::Model;

/// A clock. If you do not define `reads`, contracts say nothing about the times that it shows.
pub trait Clock {
    ghost use Rattle.std.specs.Prelude.{Result, ⊤};
    ghost use Rattle.jiff.specs.Types.{Timestamp};

    /// Why the clock shows no time.
    type Error: Drop;

    // What a call may do, as a relation: the state before, the result and the state after.
    ghost reads: { Self → Result Timestamp Self.Error → Self → Type 0 } = { λ _ _ _. ⊤ };

    /// The time that it is.
    fn now(&mut self) -> Result<Timestamp, Self::Error>
        ensures { reads self.old result self.new };
}

/// The clock of the runtime that `main` is given, as `RuntimeClock::new(&rt)`, or any other clock of
/// `std::time`.
#[derive(Drop)]
pub struct RuntimeClock<C>(C);

impl<C> Model for RuntimeClock<C> {
    ghost Value = { C };

    ghost view = { λ c. c.0 };
}

impl<C> RuntimeClock<C> {
    /// A clock that shows the time of this one.
    pub fn new(clock: C) -> RuntimeClock<C>
        ensures { result ≡ clock }
    {
        RuntimeClock(clock)
    }
}

impl<C: std::time::Clock> Clock for RuntimeClock<C> {
    ghost use Rattle.oauth2_client_secret_jwt.specs.Signing.{ShowsTimeSince1970};

    type Error = jiff::Error;

    ghost reads = { ShowsTimeSince1970 };

    fn now(&mut self) -> Result<Timestamp, jiff::Error> {
        Timestamp::now(&self.0)
    }
}
