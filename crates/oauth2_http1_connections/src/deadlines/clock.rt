//! Clocks that are never set back.

use std::time::Duration;

/// A clock that tells the time since some fixed moment. It should never be set back, as that of
/// `std::time::Instant` is not. A copy of it tells the same time.
pub trait MonotonicClock: Copy + Drop {
    ghost use Rattle.std.specs.Prelude.{⊤};
    ghost use Rattle.std.specs.declared.time.Duration.{Duration};

    // What a reading may tell, as a relation: the state before, the time, the state after.
    ghost tells: { Self → Duration → Self → Type 0 } = { λ _ _ _. ⊤ };

    /// The time since that moment.
    fn elapsed(&mut self) -> Duration
        ensures { tells self.old result self.new };
}
