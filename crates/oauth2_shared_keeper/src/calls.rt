//! Single calls of a store.

ghost use Rattle.std.specs.Prelude.{◌≡◌, Result};
ghost use Rattle.oauth2_shared_token.specs.declared.renewal.StoredValue.{StoredValue};
ghost use Rattle.oauth2_shared_keeper.specs.declared.replaced.Replaced.{Replaced};
ghost use Rattle.oauth2_shared_keeper.specs.Call.{is_done, success_of};

use crate::replaced::Replaced;
use crate::store::TokenStore;
use oauth2_shared_token::{Content, StoredValue};

// What a load showed, if it told anything.
pub(crate) fn load<T, S: TokenStore<T>>(store: &mut S, name: &str) -> Option<StoredValue<T>>
    requires { S.is_ready store.old }
    ensures load { (answer : Result (StoredValue T) S.Error)
        × S.loads store.old name.now answer store.new
        × (result ≡ success_of answer) }
    ensures ready { S.is_ready store.new }
{
    match store.load(name) {
        Ok(value) => Some(value),
        Err(_) => None,
    }
}

// Whether the store said that it did what it was asked.
pub(crate) fn replace<T, S: TokenStore<T>>(
    store: &mut S,
    name: &str,
    version: u64,
    content: &Content<T>,
) -> bool
    requires { S.is_ready store.old }
    ensures replace { (answer : Result Replaced S.Error)
        × S.replaces store.old name.now version content.now answer store.new
        × (result ≡ is_done answer) }
    ensures ready { S.is_ready store.new }
{
    match store.replace_if(name, version, content) {
        Ok(Replaced::Done) => true,
        Ok(Replaced::Refused) => false,
        Err(_) => false,
    }
}
