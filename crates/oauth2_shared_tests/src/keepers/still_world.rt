//! A world whose clock stands still.

use jiff::Timestamp;
use oauth2_shared_keeper::KeeperWorld;
use std::time::Duration;

/// A world whose clock stands still. It names renewals 1, 2 and so on.
#[derive(Drop)]
pub struct StillWorld {
    pub now: Timestamp,
    /// How long it slept.
    pub slept: Duration,
    /// How many names it drew.
    pub drawn: u64,
}

impl KeeperWorld for StillWorld {
    fn now(&mut self) -> Timestamp {
        self.now
    }

    fn sleep(&mut self, duration: Duration) {
        self.slept = self.slept.saturating_add(duration);
    }

    fn draw(&mut self) -> u128 {
        self.drawn = self.drawn.saturating_add(1);
        self.drawn as u128
    }
}
