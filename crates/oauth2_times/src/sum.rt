//! A moment, and a duration after it.

ghost use Rattle.std.specs.Prelude.{◌≡◌, ◌+ℤ◌, pos};
ghost use Rattle.std.specs.Duration.{as_nanos};

use jiff::Timestamp;
use std::time::Duration;

/// The moment `duration` after `moment`, in nanoseconds since 1970, even where no `Timestamp` is
/// that late. The sum always fits: a moment has less than 2^69 nanoseconds, a duration less than 2^94.
pub fn nanosecond_after(moment: Timestamp, duration: Duration) -> i128
    ensures { result ≡ moment.nanosecond +ℤ pos (as_nanos duration) }
{
    moment.as_nanosecond() + duration.as_nanos() as i128
}
