//! A store and the world of a keeper as one.

use crate::replaced::Replaced;
use crate::store::TokenStore;
use crate::timed_store::TimedStore;
use crate::world::KeeperWorld;
use jiff::Timestamp;
use oauth2_shared_token::{Content, StoredValue};
use std::time::Duration;

/// A store and a world as one: each call changes its own part, and leaves the other as it was.
#[derive(Drop)]
pub struct StoreAndWorld<S, W> {
    /// The store that the processes share.
    pub store: S,
    /// The clock, the sleep and the random names.
    pub world: W,
}

impl<T, S: TokenStore<T>, W: KeeperWorld> TokenStore<T> for StoreAndWorld<S, W> {
    ghost use Rattle.std.specs.Prelude.{◌≡◌};

    type Error = S::Error;

    ghost is_ready = { λ p. S.is_ready p.store × W.is_ready p.world };

    ghost loads = { λ before name answer after. S.loads before.store name answer after.store
        × (after.world ≡ before.world) };

    ghost replaces = { λ before name version content answer after.
        S.replaces before.store name version content answer after.store
        × (after.world ≡ before.world) };

    fn load(&mut self, name: &str) -> Result<StoredValue<T>, S::Error> {
        self.store.load(name)
    }

    fn replace_if(
        &mut self,
        name: &str,
        version: u64,
        content: &Content<T>,
    ) -> Result<Replaced, S::Error> {
        self.store.replace_if(name, version, content)
    }
}

impl<T, S: TokenStore<T>, W: KeeperWorld> TimedStore<T> for StoreAndWorld<S, W> {
    ghost use Rattle.std.specs.Prelude.{◌≡◌};

    ghost reads = { λ before now after. W.reads before.world now after.world
        × (after.store ≡ before.store) };

    ghost sleeps = { λ before wait after. W.sleeps before.world wait after.world
        × (after.store ≡ before.store) };

    ghost draws = { λ before name after. W.draws before.world name after.world
        × (after.store ≡ before.store) };

    fn now(&mut self) -> Timestamp {
        self.world.now()
    }

    fn sleep(&mut self, duration: Duration) {
        self.world.sleep(duration)
    }

    fn draw(&mut self) -> u128 {
        self.world.draw()
    }
}
