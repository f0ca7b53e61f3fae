//! A key set that is kept, and its age.

ghost use Rattle.std.specs.Prelude.{◌≡◌, Some, None, option_copied, option_map};
ghost use Rattle.std.specs.Duration.{as_nanos};
ghost use Rattle.oauth2_key_source.specs.Source.{
  keys_found_at,
  earlier,
  has_key,
  is_fresh,
  is_named,
};
ghost use Rattle.oauth2_key_source.specs.Source.{knows, name_of, suffices};

use jiff::Timestamp;
use oauth2_keys::{JsonWebKeySet, ListedKey};
use oauth2_times::nanosecond_after;
use std::marker::Model;
use std::time::Duration;

// A key set, and the moment from which its age counts.
#[derive(Drop)]
pub(crate) struct KeptKeys {
    pub(crate) keys: JsonWebKeySet,
    pub(crate) got_at: Timestamp,
}

impl Model for KeptKeys {
    ghost use Rattle.oauth2_key_source.specs.Source.{KeptKeys as View};

    ghost Value = { View };

    ghost view = { λ k. record { keys = k.keys; got_at = k.got_at.nanosecond } };
}

impl KeptKeys {
    // Counts the age from a call that comes before the moment from which it counted.
    pub(crate) fn note_clock(&mut self, now: Timestamp)
        ensures { self.new ≡ keys_found_at now.nanosecond self.old }
    {
        self.got_at = earlier(now, self.got_at);
    }

    // Whether the set is not older than this.
    pub(crate) fn is_fresh(&self, lifetime: Duration, now: Timestamp) -> bool
        ensures { result ≡ is_fresh (as_nanos lifetime) now.nanosecond (Some self.now) }
    {
        now.as_nanosecond() <= nanosecond_after(self.got_at, lifetime)
    }

    // Whether it need not be asked for again for a key of this name.
    pub(crate) fn suffices(&self, lifetime: Duration, key_id: Option<&str>, now: Timestamp) -> bool
        ensures { result ≡ suffices (as_nanos lifetime) (option_copied key_id.entry)
            now.nanosecond (Some self.now) }
    {
        self.is_fresh(lifetime, now) && knows(self.keys.keys(), key_id)
    }
}

// The earlier one of two moments, the first if they are one.
pub(crate) fn earlier(now: Timestamp, moment: Timestamp) -> Timestamp
    ensures { result.nanosecond ≡ earlier now.nanosecond moment.nanosecond }
{
    if now.as_nanosecond() < moment.as_nanosecond() {
        now
    } else {
        moment
    }
}

// What a key is called.
fn name_of(key: &ListedKey) -> Option<&str>
    ensures { option_copied result ≡ name_of key.now }
{
    match key {
        ListedKey::Usable(key) => key.key_id(),
        ListedKey::Unusable(key) => key.key_id(),
    }
}

fn is_named(key: &ListedKey, key_id: &str) -> bool
    ensures { result ≡ is_named key_id.now (name_of key.now) }
{
    match name_of(key) {
        Some(name) => name == key_id,
        None => false,
    }
}

fn has_key(keys: &[ListedKey], key_id: &str) -> bool
    ensures { result ≡ has_key key_id.now keys.now }
{
    for key in keys {
        if is_named(key, key_id) {
            return true;
        }
    }
    false
}

// Whether one of the keys has this name, if one is asked for.
fn knows(keys: &[ListedKey], key_id: Option<&str>) -> bool
    ensures { result ≡ knows (option_copied key_id.entry) keys.now }
{
    match key_id {
        Some(key_id) => has_key(keys, key_id),
        None => true,
    }
}
