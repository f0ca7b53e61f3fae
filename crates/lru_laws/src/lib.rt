//! What the values of an `lru::LruCache` are after many calls: laws for those who keep something
//! by name in one.

#![tactic(auto)]

ghost use Rattle.lru_laws.specs.Runs.{EachKeyHasItsOwnValue, EachValueFoundWasLeft};

/// Whatever happens to other keys, each value that is lent is as it was left when it was last put
/// or lent under that key.
#[tactic(auto, using(crate::proofs::RunLaws::has_its_own))]
pub fn each_key_has_its_own_value<K: Eq, V>()
    ensures { EachKeyHasItsOwnValue V K.eq }
{}

/// A look-up finds the value as it was left, or nothing, where the key was not used for long.
#[tactic(auto, using(crate::proofs::RunLaws::found_was_left))]
pub fn each_value_found_was_left<K: Eq, V>()
    ensures { EachValueFoundWasLeft V K.eq }
{}
