//! A clock that shows the readings of a script.

ghost use Rattle.std.specs.Prelude.{◌≡◌, map};
ghost use Rattle.oauth2_world.specs.Clock.{new_clock, reading_of, after_reading};

use jiff::Timestamp;
use std::marker::Model;

/// A clock that shows its moments one after the other, and then the last one again.
#[derive(Drop)]
pub struct ScriptedClock {
    readings: Vec<jiff_core::Timestamp>,
    // How many of the readings were shown.
    shown: usize,
    last: jiff_core::Timestamp,
}

impl Model for ScriptedClock {
    ghost use Rattle.std.specs.Prelude.{◌≤◌, drop, length, map};
    ghost use Rattle.oauth2_world.specs.Clock.{Clock};

    ghost Value = { Clock };

    ghost view = { λ c. record {
      last = c.last.nanosecond;
      moments = map (λ t. t.nanosecond) (drop c.shown c.readings.items);
    } };

    ghost invariant = { λ c. c.shown ≤ length c.readings.items };
}

impl ScriptedClock {
    /// A clock with these readings; without any it shows 1970-01-01T00:00:00Z.
    pub fn new(readings: Vec<jiff_core::Timestamp>) -> ScriptedClock
        ensures { result ≡ new_clock (map (λ t. t.nanosecond) readings.items) }
    {
        ScriptedClock {
            readings,
            shown: 0,
            last: jiff_core::Timestamp::UNIX_EPOCH,
        }
    }

    /// Returns the next reading, or the last one again if none is left.
    pub fn read(&mut self) -> Timestamp
        ensures shown { result.nanosecond ≡ reading_of self.old }
        ensures later { self.new ≡ after_reading self.old }
    {
        if self.shown < self.readings.len() {
            self.last = self.readings[self.shown];
            self.shown += 1;
        }
        Timestamp::from_plain(self.last)
    }

    /// The readings that are left, in order.
    pub fn moments(&self) -> &[jiff_core::Timestamp]
        ensures { map (λ t. t.nanosecond) result.now ≡ self.now.moments }
    {
        &self.readings[self.shown..]
    }
}
