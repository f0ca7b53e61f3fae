//! The connections that wait for another request.

ghost use Rattle.std.specs.Prelude.{◌≡◌, ◌<◌, ◌∷◌, [], take, IfOk, IfSome, OnOk, None, true, false};
ghost use Rattle.std.specs.Prelude.{vec_len, vec_capacity};
ghost use Rattle.oauth2_http1.specs.Origin.{place_of};
ghost use Rattle.oauth2_http1_connections.specs.Idle.{text_of, is_same_place};
ghost use Rattle.oauth2_http1_connections.specs.Idle.{find, without};
ghost use Rattle.oauth2_http1_connections.specs.private.Position.{IsFirstFor};

use oauth2_http1::Origin;
use std::alloc::{AllocError, Global};

/// A place as texts of its own.
#[derive(Drop)]
pub(crate) struct OwnPlace {
    scheme: String,
    host: String,
    port: u16,
}

impl OwnPlace {
    pub fn of(alloc: Global, origin: &Origin<'_>) -> Result<OwnPlace, AllocError>
        ensures { IfOk result (λ own. text_of own ≡ place_of origin.now) }
    {
        let scheme = String::from_str(alloc, origin.scheme)?;
        let host = String::from_str(alloc, origin.host)?;
        Ok(OwnPlace {
            scheme,
            host,
            port: origin.port,
        })
    }

    /// Whether this is the place of the origin, byte for byte.
    pub fn is(&self, origin: &Origin<'_>) -> bool
        ensures { result ≡ is_same_place (text_of self.now) (place_of origin.now) }
    {
        self.scheme.as_str() == origin.scheme
            && self.host.as_str() == origin.host
            && self.port == origin.port
    }
}

/// A connection that no request uses now.
#[derive(Drop)]
pub(crate) struct Idle<S> {
    place: OwnPlace,
    stream: S,
}

/// The idle connections, the last one used first, and how many there are at most.
#[derive(Drop)]
pub(crate) struct IdleConnections<S> {
    kept: Vec<Idle<S>>,
    most: usize,
}

impl<S: Drop> IdleConnections<S> {
    /// No connections yet, and at most `most` later.
    pub fn new(alloc: Global, most: usize) -> IdleConnections<S>
        ensures kept { result.kept.items ≡ [] }
        ensures most { result.most ≡ most }
    {
        IdleConnections {
            kept: Vec::new(alloc),
            most,
        }
    }

    /// Sets how many there are at most. Those used last stay.
    pub fn set_most(&mut self, most: usize)
        ensures kept { self.new.kept.items ≡ take most self.old.kept.items }
        ensures most { self.new.most ≡ most }
    {
        self.most = most;
        self.kept.truncate(most);
    }

    /// Makes room for one more.
    pub fn make_room(&mut self) -> Result<(), AllocError>
        ensures kept { self.new.kept.items ≡ self.old.kept.items }
        ensures most { self.new.most ≡ self.old.most }
        ensures room { OnOk result (vec_len self.new.kept < vec_capacity self.new.kept) }
    {
        self.kept.reserve(1)
    }

    // Where the first one to a place is.
    fn position(&self, to: &Origin<'_>) -> Option<usize>
        ensures found { IfSome result (λ i. IsFirstFor (place_of to.now) self.now.kept.items i) }
        ensures none { result ≡ None → find (place_of to.now) self.now.kept.items ≡ None }
        ensures others { result ≡ None
            → without (place_of to.now) self.now.kept.items ≡ self.now.kept.items }
    {
        let mut index = 0;
        while index < self.kept.len() {
            if self.kept[index].place.is(to) {
                return Some(index);
            }
            index += 1;
        }
        None
    }

    /// Takes out the connection to a place, if there is one.
    pub fn take(&mut self, to: &Origin<'_>) -> Option<S>
        ensures found { result ≡ find (place_of to.now) self.old.kept.items }
        ensures others { self.new.kept.items ≡ without (place_of to.now) self.old.kept.items }
        ensures none { result ≡ None → self.new.kept.items ≡ self.old.kept.items }
        ensures most { self.new.most ≡ self.old.most }
        ensures room { vec_len self.old.kept < vec_capacity self.old.kept
            → vec_len self.new.kept < vec_capacity self.new.kept }
    {
        match self.position(to) {
            Some(index) => {
                let idle = self.kept.remove(index);
                Some(idle.stream)
            }
            None => None,
        }
    }

    /// Keeps a connection if it may be used again, and else drops it. Those that were used least
    /// recently are dropped.
    pub fn hold(&mut self, keeps: bool, place: OwnPlace, stream: S)
        requires { vec_len self.old.kept < vec_capacity self.old.kept }
        ensures kept { keeps ≡ true → self.new.kept.items ≡ take self.old.most
            (record { place = place; stream = stream } ∷ self.old.kept.items) }
        ensures dropped { keeps ≡ false → self.new.kept.items ≡ self.old.kept.items }
        ensures most { self.new.most ≡ self.old.most }
    {
        if keeps {
            let _ = self.kept.insert(0, Idle { place, stream });
            self.kept.truncate(self.most);
        }
    }
}
