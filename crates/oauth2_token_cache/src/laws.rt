//! Laws of a cache of keepers over many calls.

ghost use Rattle.lru_laws.specs.Runs.{EachKeyHasItsOwnValue, EachValueFoundWasLeft};

use lru_laws::{each_key_has_its_own_value, each_value_found_was_left};

/// The calls of each name are those of a keeper of its own: whatever happens under other names, a
/// keeper is as it was when it was put under its name, or as the last call under it left it.
pub fn each_name_has_its_own_keeper<K, N: Eq>()
    ensures { EachKeyHasItsOwnValue K N.eq }
{
    each_key_has_its_own_value::<N, K>()
}

/// After any calls the keeper of a name is as its last call left it, or it had to go.
pub fn each_keeper_found_was_left<K, N: Eq>()
    ensures { EachValueFoundWasLeft K N.eq }
{
    each_value_found_was_left::<N, K>()
}
