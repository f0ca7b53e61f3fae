//! The mark: it is asked for once, and then looked for.

ghost use Rattle.std.specs.Prelude.{◌≡◌, List, Option, Some, IsSome, Result};
ghost use Rattle.oauth2_shared_token.specs.declared.renewal.StoredValue.{StoredValue};
ghost use Rattle.oauth2_shared_keeper.specs.Call.{Call, StoreLeads, success_of};
ghost use Rattle.oauth2_shared_keeper.specs.private.Part.{IsMarking, learnt_by, token_of};

use crate::calls::{load, replace};
use crate::store::TokenStore;
use oauth2_shared_token::{Content, Learnt, read_again};

// What became of the mark on this token.
#[derive(Drop)]
pub(crate) enum Marking<T> {
    // The store took it.
    Taken(T),
    // It can be taken no more.
    Passed,
    // No load within the limit told.
    Open(T),
}

// The token of a content that has one.
pub(crate) fn into_token<T: Drop>(content: Content<T>) -> T
    requires { IsSome (token_of content) }
    ensures { token_of content ≡ Some result }
{
    match content {
        Content::AtRest(token) => token,
        Content::Marked(token, _) => token,
        Content::Empty => unreachable!(),
    }
}

// Loads once, to learn of the mark of this renewal on this version.
fn look_for_mark<T: Drop, S: TokenStore<T>>(
    store: &mut S,
    name: &str,
    renewal: u128,
    version: u64,
) -> Learnt
    requires { S.is_ready store.old }
    ensures learnt { (shown : Option (StoredValue T))
        × ((answer : Result (StoredValue T) S.Error)
        × S.loads store.old name.now answer store.new × (shown ≡ success_of answer))
        × (result ≡ learnt_by renewal version shown) }
    ensures ready { S.is_ready store.new }
{
    match load(store, name) {
        Some(value) => read_again(renewal, version, &value),
        None => Learnt::Open,
    }
}

// Asks to mark this version, and loads until that is known.
pub(crate) fn mark<T: Drop, S: TokenStore<T>>(
    store: &mut S,
    name: &str,
    renewal: u128,
    version: u64,
    token: T,
    loads: u64,
) -> Marking<T>
    requires { S.is_ready store.old }
    ensures marking { (calls : List (Call T))
        × StoreLeads S.loads S.replaces name.now store.old calls store.new
        × IsMarking renewal version token loads calls result }
    ensures ready { S.is_ready store.new }
{
    let content = Content::Marked(token, renewal);
    let is_done = replace(store, name, version, &content);
    if is_done {
        let token = into_token(content);
        return Marking::Taken(token);
    }
    let mut left = loads;
    while left > 0 {
        left -= 1;
        match look_for_mark(store, name, renewal, version) {
            Learnt::Taken => {
                let seen = into_token(content);
                return Marking::Taken(seen);
            }
            Learnt::Lost => return Marking::Passed,
            Learnt::Open => {}
        }
    }
    let unseen = into_token(content);
    Marking::Open(unseen)
}
