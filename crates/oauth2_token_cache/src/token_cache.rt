//! A cache of keepers of tokens.

ghost use Rattle.std.specs.Prelude.{◌≡◌, ◌≤◌, [], length, option_copied, IfOk, IfErr, OnOk, OnErr};
ghost use Rattle.std.specs.NonZero.{non_zero_usize_get};
ghost use Rattle.std.specs.Option.{option_copied_mut};
ghost use Rattle.std.specs.Borrow.{sem};
ghost use Rattle.std.specs.Map.{lookup, lookup_entry, remove_entry};
ghost use Rattle.lru.specs.LruCache.{lru_cache, displaced, put_entries};

use crate::token_name::TokenName;
use lru::LruCache;
use std::alloc::{AllocError, AllocFailed, Global};
use std::collections::hash_map::Equivalent;
use std::hash::Hash;
use std::num::NonZeroUsize;

/// Keepers by name. `K` is the type of a keeper, and `N` that of a name. Where there is no room
/// for another keeper, that one goes whose name was used longest ago.
#[derive(Drop)]
pub struct TokenCache<K, N: Eq + Hash = TokenName> {
    keepers: LruCache<N, K>,
}

impl<K, N: Eq + Hash> TokenCache<K, N> {
    ghost use Rattle.oauth2_token_cache.specs.Lending.{LendsKeeper};

    /// A cache that has no keeper yet, and never more than so many.
    pub fn new(alloc: Global, most: NonZeroUsize) -> Result<Self, AllocError>
        ensures { IfOk result (λ cache. cache.keepers ≡ lru_cache [] (non_zero_usize_get most)) }
    {
        Ok(TokenCache {
            keepers: LruCache::sparse(alloc, most)?,
        })
    }

    /// The keeper of this name, which becomes the one that was used last.
    pub fn keeper<Q: Equivalent<N>>(&mut self, name: Q) -> Option<&mut K>
        ensures* writes_back { sem 𝓛
            (LendsKeeper K.row N.row N.Hash self.entry (Q.equivalent name) result) }
        ensures keeper { option_copied_mut result
            ≡ lookup (Q.equivalent name) self.old.keepers.entries }
    {
        self.keepers.get_mut(name)
    }

    /// Keeps this keeper under this name, and hands out what it had under it, or the keeper for
    /// which there is no room now. That has its own refresh token, perhaps, which is to be stored
    /// or revoked. After an error nothing changed, and the error has what was handed in.
    pub fn insert(&mut self, name: N, keeper: K) -> Result<Option<(N, K)>, AllocFailed<(N, K)>>
        ensures displaced { IfOk result
            (λ pair. pair ≡ displaced N.eq self.old.keepers name keeper) }
        ensures kept { OnOk result (self.new.keepers
            ≡ lru_cache (put_entries N.eq self.old.keepers name keeper) self.old.keepers.cap) }
        ensures returned { IfErr result (λ error. error.value ≡ (name, keeper)) }
        ensures unchanged { OnErr result (self.new ≡ self.old) }
    {
        self.keepers.push(name, keeper)
    }

    /// Takes the keeper of this name out.
    pub fn remove<Q: Equivalent<N>>(&mut self, name: Q) -> Option<(N, K)>
        ensures keeper { result ≡ lookup_entry (Q.equivalent name) self.old.keepers.entries }
        ensures others { self.new.keepers ≡ lru_cache
            (remove_entry (Q.equivalent name) self.old.keepers.entries) self.old.keepers.cap }
    {
        self.keepers.pop_entry(name)
    }

    /// How many keepers it has.
    pub fn len(&self) -> usize
        ensures len { result ≡ length self.now.keepers.entries }
        ensures most { result ≤ self.now.keepers.cap }
    {
        self.keepers.len()
    }
}
