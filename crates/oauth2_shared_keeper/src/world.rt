//! The world that a keeper works in, which the caller provides.

use jiff::Timestamp;
use std::time::Duration;

/// The world that a keeper works in: a clock, a way to sleep and a source of random names.
///
/// If every call is always allowed, do not define `is_ready`. If you do not define `reads`,
/// `sleeps` and `draws`, contracts say nothing about what the world does.
pub trait KeeperWorld {
    ghost use Rattle.std.specs.Prelude.{ℕ, ⊤};
    ghost use Rattle.std.specs.declared.time.Duration.{Duration};
    ghost use Rattle.jiff.specs.Types.{Timestamp};

    // Every call is allowed in this state.
    ghost is_ready: { Self → Type 0 } = { λ _. ⊤ };

    // What each call may do, as a relation: the state before, the argument or the result, the
    // state after.
    ghost reads: { Self → Timestamp → Self → Type 0 } = { λ _ _ _. ⊤ };

    ghost sleeps: { Self → Duration → Self → Type 0 } = { λ _ _ _. ⊤ };

    ghost draws: { Self → ℕ → Self → Type 0 } = { λ _ _ _. ⊤ };

    /// Reads the clock.
    fn now(&mut self) -> Timestamp
        requires { is_ready self.old }
        ensures reads { reads self.old result self.new }
        ensures ready { is_ready self.new };

    /// Sleeps for `duration`.
    fn sleep(&mut self, duration: Duration)
        requires { is_ready self.old }
        ensures sleeps { sleeps self.old duration self.new }
        ensures ready { is_ready self.new };

    /// Draws the name of a renewal at random: 128 bits that nobody else has drawn.
    fn draw(&mut self) -> u128
        requires { is_ready self.old }
        ensures draws { draws self.old result self.new }
        ensures ready { is_ready self.new };
}
