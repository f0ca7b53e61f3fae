//! A token that a keeper hands out, which the caller provides.

use jiff::Timestamp;
use std::time::Duration;

/// A token that a keeper can tell to be good.
pub trait SharedToken {
    ghost use Rattle.std.specs.Prelude.{◌≡◌, ℕ, ℤ, Bool};
    ghost use Rattle.std.specs.Duration.{as_nanos};

    // Whether the token is good at this moment, in nanoseconds since 1970, and for so many
    // nanoseconds after it.
    ghost is_good: { Self → ℤ → ℕ → Bool };

    /// Whether its access token is good at `now`, and for `margin` after that.
    fn is_good(&self, now: Timestamp, margin: Duration) -> bool
        ensures { result ≡ is_good self.now now.nanosecond (as_nanos margin) };
}
