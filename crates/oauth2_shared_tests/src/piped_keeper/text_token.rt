//! A token as a text.

use crate::support::is_good_until;
use jiff::Timestamp;
use oauth2_shared_keeper::SharedToken;
use std::alloc::Global;
use std::time::Duration;

/// A token: the moment until which it is good, in milliseconds since 1970, and a text.
#[derive(Drop)]
pub struct TextToken {
    pub until: i64,
    pub text: String,
}

impl TextToken {
    /// The token that a word is, if it is one.
    pub fn read(alloc: Global, word: &str) -> Option<TextToken> {
        let (until, text) = word.split_once(':')?;
        Some(TextToken {
            until: until.parse::<i64>().ok()?,
            text: String::from_str(alloc, text).ok()?,
        })
    }
}

impl SharedToken for TextToken {
    ghost use Rattle.std.specs.Prelude.{pos, ◌+ℤ◌, ◌*ℤ◌, int_le};

    ghost is_good = { λ token now margin. int_le (now +ℤ pos margin)
        (token.until *ℤ pos 1_000_000) };

    fn is_good(&self, now: Timestamp, margin: Duration) -> bool {
        is_good_until(self.until as i128 * 1_000_000, now, margin)
    }
}
