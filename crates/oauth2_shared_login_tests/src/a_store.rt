//! A keeper of a shared login, over a store that always has the same login.

use crate::refreshes::{NEW, client, text_of};
use jiff::Timestamp;
use oauth2::basic::BasicTokenResponse;
use oauth2_shared_keeper::{
    Content, Held, KeeperSettings, KeeperWorld, Limits, Replaced, SharedKeeper, StoreAndWorld,
    StoredValue, TokenStore,
};
use oauth2_shared_login::{BEARER, ClientAtEndpoint, ClockAndClient, LoginRefresher, SharedLogin};
use oauth2_tests_support::{NoReply, OneReply, check_text, read};
use std::alloc::Global;
use std::test::*;
use std::time::Duration;

/// A store that has a login that was good until the second 100, and does what it is asked.
#[derive(Drop)]
struct FullStore {
    alloc: Global,
    client: ClientAtEndpoint,
    replaced: u64,
}

impl TokenStore<SharedLogin<BasicTokenResponse>> for FullStore {
    type Error = NoReply;

    fn load(
        &mut self,
        _name: &str,
    ) -> Result<StoredValue<SharedLogin<BasicTokenResponse>>, NoReply> {
        let Ok(response) = read(self.alloc, NEW) else {
            return Err(NoReply);
        };
        let Ok(client) = self.client.try_clone(self.alloc) else {
            return Err(NoReply);
        };
        let at = Timestamp::from_second(40).unwrap_or(Timestamp::UNIX_EPOCH);
        let login = SharedLogin::new(response, at, Duration::ZERO, client);
        Ok(StoredValue {
            version: 4,
            content: Content::AtRest(login),
        })
    }

    fn replace_if(
        &mut self,
        _name: &str,
        _version: u64,
        _content: &Content<SharedLogin<BasicTokenResponse>>,
    ) -> Result<Replaced, NoReply> {
        self.replaced = self.replaced.saturating_add(1);
        Ok(Replaced::Done)
    }
}

/// A clock that stands still.
#[derive(Drop)]
struct StillWorld {
    second: i64,
}

impl KeeperWorld for StillWorld {
    fn now(&mut self) -> Timestamp {
        Timestamp::from_second(self.second).unwrap_or(Timestamp::UNIX_EPOCH)
    }

    fn sleep(&mut self, _duration: Duration) {}

    fn draw(&mut self) -> u128 {
        1
    }
}

fn settings() -> KeeperSettings {
    KeeperSettings {
        margin: Duration::from_secs(10),
        old_margin: Duration::from_secs(5),
        wait: Duration::from_secs(1),
        rounds: 3,
        limits: Limits {
            loads: 3,
            repeats: 2,
        },
    }
}

// The second, and what is handed out then, with how often the store was asked to replace
// something.
const ROWS: &[(i64, &str, u64)] = &[
    (90, "t2 for 60s, then r2", 0),
    (91, "t3 for 600s, then r3", 2),
];

fn handed_out(rt: &HostRuntime, second: i64) -> Result<(String, u64), Fail> {
    let client = client(rt)?;
    let reply =
        r#"{"access_token":"t3","token_type":"bearer","expires_in":600,"refresh_token":"r3"}"#;
    let refresher = LoginRefresher {
        alloc: rt.alloc(),
        client: &client,
        world: ClockAndClient {
            time_fn: || Timestamp::UNIX_EPOCH,
            http_client: OneReply::with_body(rt.alloc(), 200, reply)?,
        },
        default_lifetime: Duration::from_secs(300),
        token_types: BEARER,
    };
    let mut keeper = SharedKeeper {
        store: StoreAndWorld {
            store: FullStore {
                alloc: rt.alloc(),
                client: ClientAtEndpoint::of(rt.alloc(), &client)?,
                replaced: 0,
            },
            world: StillWorld { second },
        },
        client: refresher,
        settings: settings(),
    };
    let text = match keeper.token("mail") {
        Held::Good(login) => text_of(rt, &login)?,
        _ => return Err(Fail::new(format_args!("no good login at {second}"))),
    };
    Ok((text, keeper.store.store.replaced))
}

#[test]
fn a_login_is_handed_out_or_renewed(rt: HostRuntime) -> Result<(), Fail> {
    for (second, wanted, replaced) in ROWS {
        let (text, times) = handed_out(&rt, *second)?;
        check_text(text.as_str(), *wanted)?;
        assert_eq!(rt; times, *replaced);
    }
    Ok(())
}
