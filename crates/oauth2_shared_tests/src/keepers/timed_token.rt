//! A token that is good until a second.

ghost use Rattle.std.specs.Prelude.{◌*◌, ◌+ℤ◌, pos, int_le};

use crate::support::is_good_until;
use jiff::Timestamp;
use oauth2_shared_keeper::SharedToken;
use std::time::Duration;

/// A token that is good until this second since 1970.
#[derive(Clone, Copy, Debug)]
pub struct TimedToken {
    pub until: u64,
}

impl SharedToken for TimedToken {
    ghost is_good = { λ token now margin.
        int_le (now +ℤ pos margin) (pos (token.until * 1_000_000_000)) };

    fn is_good(&self, now: Timestamp, margin: Duration) -> bool {
        is_good_until(self.until as i128 * 1_000_000_000, now, margin)
    }
}
