//! What several modules share: whether a token is good.

ghost use Rattle.std.specs.Prelude.{◌≡◌, ◌+ℤ◌, pos, int_le};
ghost use Rattle.std.specs.Duration.{as_nanos};

use jiff::Timestamp;
use std::time::Duration;

/// Whether a token is good now and for `margin` after that, which is good up to the nanosecond `end`
/// since 1970.
pub fn is_good_until(end: i128, now: Timestamp, margin: Duration) -> bool
    ensures { result ≡ int_le (now.nanosecond +ℤ pos (as_nanos margin)) end }
{
    now.as_nanosecond() + margin.as_nanos() as i128 <= end
}
