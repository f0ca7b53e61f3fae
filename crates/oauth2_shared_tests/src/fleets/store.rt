//! A store in memory, with a value under one name. A token is a number.

use oauth2_shared_token::{Content, StoredValue, Told};
use std::alloc::{AllocError, Global};

/// What a version holds. A `Content` cannot be copied.
#[derive(Clone, Copy)]
pub enum Held {
    AtRest(u64),
    Marked(u64, u128),
    Empty,
}

/// What is stored.
#[derive(Clone, Copy)]
pub struct Stored {
    pub version: u64,
    pub held: Held,
}

impl Stored {
    /// What a renewal is told by a load that shows it.
    pub fn shown(self) -> Told<u64> {
        let content = match self.held {
            Held::AtRest(token) => Content::AtRest(token),
            Held::Marked(token, renewal) => Content::Marked(token, renewal),
            Held::Empty => Content::Empty,
        };
        Told::Stored(StoredValue {
            version: self.version,
            content,
        })
    }
}

/// To replace what this version holds by this.
#[derive(Clone, Copy)]
pub struct Request {
    pub version: u64,
    pub held: Held,
}

/// A store, with all that it ever had.
#[derive(Drop)]
pub struct Store {
    now: Stored,
    past: Vec<Stored>,
}

impl Store {
    /// It has the token 0 under version 0, at rest.
    pub fn new(alloc: Global) -> Result<Store, AllocError> {
        let now = Stored {
            version: 0,
            held: Held::AtRest(0),
        };
        let mut past = Vec::new(alloc);
        past.push(now)?;
        Ok(Store { now, past })
    }

    /// What is stored now.
    pub fn now(&self) -> Stored {
        self.now
    }

    /// What was stored at this place of all that ever was.
    pub fn was(&self, place: usize) -> Option<Stored> {
        self.past.get(place).copied()
    }

    /// Puts this in the place of what is stored now, under the next version.
    pub fn put(&mut self, held: Held) -> Result<(), AllocError> {
        let now = Stored {
            version: self.now.version.saturating_add(1),
            held,
        };
        self.past.push(now)?;
        self.now = now;
        Ok(())
    }

    /// Does what is asked if the store has that version, and returns whether it has.
    pub fn take(&mut self, request: Request) -> Result<bool, AllocError> {
        if request.version != self.now.version {
            return Ok(false);
        }
        self.put(request.held)?;
        Ok(true)
    }
}
