//! A store in memory, and a server that gives a new refresh token each time. A token is a number,
//! or one that is good until a second.

use crate::keepers::timed_token::TimedToken;
use oauth2_shared_keeper::{Content, RefreshClient, Replaced, StoredValue, TokenStore};

/// A reply that was lost.
#[derive(Clone, Copy, Debug)]
pub struct NoReply;

/// A store in memory, with a value under one name.
#[derive(Drop)]
pub struct MemoryStore<T> {
    pub version: u64,
    pub content: Content<T>,
    /// How many of the next loads fail.
    pub failing_loads: u64,
    /// How many of the next replacements are done without a reply.
    pub lost_replies: u64,
    /// Somebody else is first at the next replacement.
    pub is_overtaken: bool,
    /// What another renewal keeps after the next load.
    pub kept_next: Option<T>,
}

fn copy_of<T: Copy>(content: &Content<T>) -> Content<T> {
    match content {
        Content::AtRest(token) => Content::AtRest(*token),
        Content::Marked(token, renewal) => Content::Marked(*token, *renewal),
        Content::Empty => Content::Empty,
    }
}

impl<T: Copy + Drop> TokenStore<T> for MemoryStore<T> {
    type Error = NoReply;

    fn load(&mut self, _name: &str) -> Result<StoredValue<T>, NoReply> {
        if self.failing_loads > 0 {
            self.failing_loads -= 1;
            return Err(NoReply);
        }
        let shown = StoredValue {
            version: self.version,
            content: copy_of(&self.content),
        };
        if let Some(token) = self.kept_next.take() {
            self.version = self.version.saturating_add(1);
            self.content = Content::AtRest(token);
        }
        Ok(shown)
    }

    fn replace_if(
        &mut self,
        _name: &str,
        version: u64,
        content: &Content<T>,
    ) -> Result<Replaced, NoReply> {
        if self.is_overtaken {
            self.is_overtaken = false;
            self.version = self.version.saturating_add(1);
        }
        if version != self.version {
            return Ok(Replaced::Refused);
        }
        self.version = self.version.saturating_add(1);
        self.content = copy_of(content);
        if self.lost_replies > 0 {
            self.lost_replies -= 1;
            return Err(NoReply);
        }
        Ok(Replaced::Done)
    }
}

/// A server, which counts what it is sent. The new token is the next number, or is good a second
/// longer.
#[derive(Drop)]
pub struct Server {
    pub is_silent: bool,
    pub times_sent: u64,
}

impl RefreshClient<u64> for Server {
    type Error = NoReply;

    fn refresh(&mut self, token: &u64) -> Result<u64, NoReply> {
        self.times_sent = self.times_sent.saturating_add(1);
        if self.is_silent {
            return Err(NoReply);
        }
        Ok(token.saturating_add(1))
    }
}

impl RefreshClient<TimedToken> for Server {
    type Error = NoReply;

    fn refresh(&mut self, token: &TimedToken) -> Result<TimedToken, NoReply> {
        self.times_sent = self.times_sent.saturating_add(1);
        if self.is_silent {
            return Err(NoReply);
        }
        Ok(TimedToken {
            until: token.until.saturating_add(1),
        })
    }
}
