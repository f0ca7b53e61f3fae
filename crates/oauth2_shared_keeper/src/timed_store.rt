//! A store with the world of a keeper.

use crate::store::TokenStore;
use jiff::Timestamp;
use std::time::Duration;

/// A store, and a clock, a way to sleep and a source of random names: one state, since others change
/// the store while a keeper sleeps. `StoreAndWorld` makes it of the two.
///
/// If you do not define `reads`, `sleeps` and `draws`, contracts say nothing about what these do.
pub trait TimedStore<T>: TokenStore<T> {
    ghost use Rattle.std.specs.Prelude.{ℕ, ⊤};
    ghost use Rattle.std.specs.declared.time.Duration.{Duration};
    ghost use Rattle.jiff.specs.Types.{Timestamp};

    // What each call may do, as a relation: the state before, the argument or the result, the
    // state after.
    ghost reads: { Self → Timestamp → Self → Type 0 } = { λ _ _ _. ⊤ };

    ghost sleeps: { Self → Duration → Self → Type 0 } = { λ _ _ _. ⊤ };

    ghost draws: { Self → ℕ → Self → Type 0 } = { λ _ _ _. ⊤ };

    /// Reads the clock.
    fn now(&mut self) -> Timestamp
        requires { Self.is_ready self.old }
        ensures reads { reads self.old result self.new }
        ensures ready { Self.is_ready self.new };

    /// Sleeps for `duration`.
    fn sleep(&mut self, duration: Duration)
        requires { Self.is_ready self.old }
        ensures sleeps { sleeps self.old duration self.new }
        ensures ready { Self.is_ready self.new };

    /// Draws the name of a renewal at random: 128 bits that nobody else has drawn.
    fn draw(&mut self) -> u128
        requires { Self.is_ready self.old }
        ensures draws { draws self.old result self.new }
        ensures ready { Self.is_ready self.new };
}
