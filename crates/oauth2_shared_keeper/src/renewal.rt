//! One renewal, over a store and a client.

ghost use Rattle.std.specs.Prelude.{◌≡◌, ℕ, ◌+◌, ◌^◌, ◌<◌, List, Err};
ghost use Rattle.oauth2_shared_token.specs.declared.renewal.Phase.TheVariants.{Looking};
ghost use Rattle.oauth2_shared_token.specs.declared.renewal.Told.TheVariants.{Stored};
ghost use Rattle.oauth2_shared_token.specs.Renewal.{next_turn};
ghost use Rattle.oauth2_shared_keeper.specs.Call.{Call, StoreLeads, ClientLeads, refreshes_in};
ghost use Rattle.oauth2_shared_keeper.specs.Renewal.{Renews, IsRenewal, IfUnanswered};
ghost use Rattle.oauth2_shared_keeper.specs.private.Part.{keeps_next, marks_next, sends_next};

use crate::calls::{load, replace};
use crate::client::RefreshClient;
use crate::limits::Limits;
use crate::marking::{Marking, into_token, mark};
use crate::renewed::Renewed;
use crate::store::TokenStore;
use oauth2_shared_token::{Content, StoredValue};

/// Renews the token that the store keeps under this name, once. `renewal` is the name of this
/// renewal: draw a new one for each call, at random, since none may be used twice.
pub fn renew<T: Drop, S: TokenStore<T>, C: RefreshClient<T>>(
    store: &mut S,
    client: &mut C,
    name: &str,
    renewal: u128,
    limits: Limits,
) -> Renewed<T, C::Error>
    requires store { S.is_ready store.old }
    requires client { C.is_ready client.old }
    ensures renewal { (calls : List (Call T))
        × StoreLeads S.loads S.replaces name.now store.old calls store.new
        × ClientLeads C.refreshes client.old calls client.new
        × IsRenewal renewal limits calls result }
    ensures error { IfUnanswered result
        (λ token error. C.refreshes client.old token (Err error) client.new) }
    ensures store { S.is_ready store.new }
    ensures client { C.is_ready client.new }
{
    let mut left = limits.loads;
    while left > 0 {
        left -= 1;
        if let Some(value) = load(store, name) {
            let rest = Limits {
                loads: left,
                repeats: limits.repeats,
            };
            return renew_value(store, client, name, renewal, value, rest);
        }
    }
    Renewed::Unread
}

// Goes on from what a load showed.
fn renew_value<T: Drop, S: TokenStore<T>, C: RefreshClient<T>>(
    store: &mut S,
    client: &mut C,
    name: &str,
    renewal: u128,
    value: StoredValue<T>,
    limits: Limits,
) -> Renewed<T, C::Error>
    requires store { S.is_ready store.old }
    requires client { C.is_ready client.old }
    ensures renewal { (calls : List (Call T))
        × StoreLeads S.loads S.replaces name.now store.old calls store.new
        × ClientLeads C.refreshes client.old calls client.new
        × Renews renewal (next_turn renewal Looking (Stored value)) limits.loads
        (limits.repeats + 2) calls result }
    ensures error { IfUnanswered result
        (λ token error. C.refreshes client.old token (Err error) client.new) }
    ensures store { S.is_ready store.new }
    ensures client { C.is_ready client.new }
{
    let StoredValue { version, content } = value;
    match content {
        Content::AtRest(token) => {
            if version == u64::MAX {
                Renewed::NoNextVersion(token)
            } else {
                renew_version(store, client, name, renewal, version, token, limits)
            }
        }
        Content::Marked(token, renewal) => Renewed::InUse { renewal, token },
        Content::Empty => Renewed::LoggedOut,
    }
}

// Renews the token of this version, which is at rest.
fn renew_version<T: Drop, S: TokenStore<T>, C: RefreshClient<T>>(
    store: &mut S,
    client: &mut C,
    name: &str,
    renewal: u128,
    version: u64,
    token: T,
    limits: Limits,
) -> Renewed<T, C::Error>
    requires version { version + 1 < 2 ^ 64 }
    requires store { S.is_ready store.old }
    requires client { C.is_ready client.old }
    ensures renewal { (calls : List (Call T))
        × StoreLeads S.loads S.replaces name.now store.old calls store.new
        × ClientLeads C.refreshes client.old calls client.new
        × Renews renewal (marks_next version token) limits.loads (limits.repeats + 2) calls result }
    ensures error { IfUnanswered result
        (λ token error. C.refreshes client.old token (Err error) client.new) }
    ensures store { S.is_ready store.new }
    ensures client { C.is_ready client.new }
{
    match mark(store, name, renewal, version, token, limits.loads) {
        Marking::Taken(token) => send(store, client, name, version, token, limits.repeats),
        Marking::Passed => Renewed::Lost,
        Marking::Open(token) => Renewed::Unclear {
            version: version + 1,
            token,
        },
    }
}

// Sends the refresh token of this version, on which the mark was taken.
fn send<T: Drop, S: TokenStore<T>, C: RefreshClient<T>>(
    store: &mut S,
    client: &mut C,
    name: &str,
    version: u64,
    token: T,
    repeats: u64,
) -> Renewed<T, C::Error>
    requires version { version + 1 < 2 ^ 64 }
    requires store { S.is_ready store.old }
    requires client { C.is_ready client.old }
    ensures renewal { (calls : List (Call T))
        × StoreLeads S.loads S.replaces name.now store.old calls store.new
        × ClientLeads C.refreshes client.old calls client.new
        × ((n loads : ℕ) → Renews n (sends_next version token) loads (repeats + 1) calls result) }
    ensures error { IfUnanswered result
        (λ token error. C.refreshes client.old token (Err error) client.new) }
    ensures store { S.is_ready store.new }
    ensures client { C.is_ready client.new }
{
    match client.refresh(&token) {
        Ok(new) => keep(store, name, version, new, repeats),
        Err(error) => Renewed::Unanswered {
            version: version + 1,
            token,
            error,
        },
    }
}

// Asks the store to keep this token in the place of the mark on this version.
fn keep<T: Drop, S: TokenStore<T>, E>(
    store: &mut S,
    name: &str,
    version: u64,
    new: T,
    repeats: u64,
) -> Renewed<T, E>
    requires version { version + 1 < 2 ^ 64 }
    requires store { S.is_ready store.old }
    ensures renewal { (calls : List (Call T))
        × StoreLeads S.loads S.replaces name.now store.old calls store.new
        × (refreshes_in calls ≡ 0)
        × ((n loads : ℕ) → Renews n (keeps_next version new) loads (repeats + 1) calls result) }
    ensures answered { IfUnanswered result (λ token error. ⊥) }
    ensures store { S.is_ready store.new }
{
    let content = Content::AtRest(new);
    let marked = version + 1;
    let is_kept = replace(store, name, marked, &content);
    if is_kept {
        let kept = into_token(content);
        return Renewed::Kept(kept);
    }
    let mut left = repeats;
    while left > 0 {
        left -= 1;
        let is_kept_now = replace(store, name, marked, &content);
        if is_kept_now {
            let kept_now = into_token(content);
            return Renewed::Kept(kept_now);
        }
    }
    let unkept = into_token(content);
    Renewed::Unkept {
        version: marked,
        token: unkept,
    }
}
