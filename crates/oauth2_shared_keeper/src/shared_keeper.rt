//! A keeper of a token that many processes share.

ghost use Rattle.std.specs.Prelude.{◌≡◌, List, Err};
ghost use Rattle.oauth2_shared_keeper.specs.Call.{ClientLeads};
ghost use Rattle.oauth2_shared_keeper.specs.Keeper.{
  Round,
  IsRound,
  IsHeld,
  TimedLeads,
  IfNoAnswer,
  calls_of,
  calls_in,
  keeper_calls_of,
  keeper_calls_in,
};
ghost use Rattle.oauth2_shared_keeper.specs.private.Turns.{IfWaits, told_by};

use crate::calls::load;
use crate::client::RefreshClient;
use crate::held::Held;
use crate::outcome::{Outcome, after_renewal, verdict};
use crate::renewal::renew;
use crate::settings::KeeperSettings;
use crate::shared_token::SharedToken;
use crate::timed_store::TimedStore;

/// Hands out the token that a store keeps while it is good, and else renews it.
#[derive(Drop)]
pub struct SharedKeeper<S, C> {
    /// The store that the processes share, with the clock, the sleep and the random names: a
    /// `StoreAndWorld`, or a `TimedStore` of yours.
    pub store: S,
    /// The client that refreshes a token.
    pub client: C,
    /// When it hands out a token, and how often it looks.
    pub settings: KeeperSettings,
}

impl<S, C> SharedKeeper<S, C> {
    /// Loads the token that the store has under `name`, and returns it if it stays good for
    /// `settings.margin`. If not, refreshes it (RFC 6749, section 6) and stores the new one. While
    /// another keeper refreshes it, the old token is returned if it stays good for
    /// `settings.old_margin`. After a round that decides nothing the keeper sleeps `settings.wait`
    /// and loads again, in at most `settings.rounds` rounds. Any other end is a variant of `Held`.
    ///
    /// Clause `call`: one list of rounds explains every call of the store, of its world and of the
    /// client, in order, and the result. Each round loads first, and the keeper sleeps only between
    /// two rounds. Clause `error`: an error in the result is the client's own.
    pub fn token<T: SharedToken + Drop>(&mut self, name: &str) -> Held<T, C::Error>
    where
        S: TimedStore<T>,
        C: RefreshClient<T>,
        requires store { S.is_ready self.old.store }
        requires client { C.is_ready self.old.client }
        ensures call { (rounds : List (Round T C.Error))
            × TimedLeads S.loads S.replaces S.reads S.sleeps S.draws name.now self.old.store
            (keeper_calls_in self.old.settings.wait rounds) self.new.store
            × ClientLeads C.refreshes self.old.client (calls_in rounds) self.new.client
            × IsHeld T.is_good self.old.settings rounds result }
        ensures error { IfNoAnswer result
            (λ token error. C.refreshes self.old.client token (Err error) self.new.client) }
        ensures settings { self.new.settings ≡ self.old.settings }
        ensures store { S.is_ready self.new.store }
        ensures client { C.is_ready self.new.client }
    {
        let settings = self.settings;
        hold(&mut self.store, &mut self.client, name, settings)
    }
}

// Looks in rounds, until one ends the call or none is left.
fn hold<T: SharedToken + Drop, S: TimedStore<T>, C: RefreshClient<T>>(
    store: &mut S,
    client: &mut C,
    name: &str,
    settings: KeeperSettings,
) -> Held<T, C::Error>
    requires store { S.is_ready store.old }
    requires client { C.is_ready client.old }
    ensures call { (rounds : List (Round T C.Error))
        × TimedLeads S.loads S.replaces S.reads S.sleeps S.draws name.now store.old
        (keeper_calls_in settings.wait rounds) store.new
        × ClientLeads C.refreshes client.old (calls_in rounds) client.new
        × IsHeld T.is_good settings rounds result }
    ensures error { IfNoAnswer result
        (λ token error. C.refreshes client.old token (Err error) client.new) }
    ensures store { S.is_ready store.new }
    ensures client { C.is_ready client.new }
{
    let mut left = settings.rounds;
    while left > 0 {
        left -= 1;
        match round(store, client, name, settings) {
            Outcome::Ends(told) => return told,
            Outcome::Waits(told) => {
                if left == 0 {
                    return told;
                }
                drop(told);
                store.sleep(settings.wait);
            }
        }
    }
    Held::Unread
}

// Looks once.
fn round<T: SharedToken + Drop, S: TimedStore<T>, C: RefreshClient<T>>(
    store: &mut S,
    client: &mut C,
    name: &str,
    settings: KeeperSettings,
) -> Outcome<T, C::Error>
    requires store { S.is_ready store.old }
    requires client { C.is_ready client.old }
    ensures round { (round : Round T C.Error)
        × TimedLeads S.loads S.replaces S.reads S.sleeps S.draws name.now store.old
        (keeper_calls_of round) store.new
        × ClientLeads C.refreshes client.old (calls_of round) client.new
        × IsRound T.is_good settings round result }
    ensures error { IfNoAnswer (told_by result)
        (λ token error. C.refreshes client.old token (Err error) client.new) }
    ensures unsent { IfWaits result (client.old ≡ client.new) }
    ensures store { S.is_ready store.new }
    ensures client { C.is_ready client.new }
{
    let Some(value) = load(store, name) else {
        return Outcome::Waits(Held::Unread);
    };
    let now = store.now();
    match verdict(value, now, settings) {
        Some(outcome) => outcome,
        None => {
            let renewal = store.draw();
            let renewed = renew(store, client, name, renewal, settings.limits);
            after_renewal(renewal, renewed)
        }
    }
}
