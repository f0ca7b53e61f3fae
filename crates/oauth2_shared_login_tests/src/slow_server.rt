//! A refresh at a slow server: its time counts.

use crate::refreshes::{NEW, client, login_of};
use jiff::Timestamp;
use oauth2::{HttpRequest, HttpResponse, SyncHttpClient};
use oauth2_shared_keeper::{RefreshClient, SharedToken};
use oauth2_shared_login::{BEARER, LoginRefresher, LoginWorld};
use oauth2_tests_support::{NoReply, OneReply};
use std::test::*;
use std::time::Duration;

/// A server that takes 30 seconds for a reply, and a clock.
#[derive(Drop)]
struct SlowServer {
    http_client: OneReply,
    second: i64,
}

impl SyncHttpClient for SlowServer {
    type Error = NoReply;

    fn call(&mut self, request: HttpRequest) -> Result<HttpResponse, NoReply> {
        self.second = self.second.saturating_add(30);
        self.http_client.call(request)
    }
}

impl LoginWorld for SlowServer {
    fn now(&mut self) -> Timestamp {
        at(self.second)
    }
}

fn at(second: i64) -> Timestamp {
    Timestamp::from_second(second).unwrap_or(Timestamp::UNIX_EPOCH)
}

#[test]
fn the_time_of_a_request_counts(rt: HostRuntime) -> Result<(), Fail> {
    let client = client(&rt)?;
    let login = login_of(&rt, &client, NEW, "")?;
    let mut refresher = LoginRefresher {
        alloc: rt.alloc(),
        client: &client,
        world: SlowServer {
            http_client: OneReply::with_body(rt.alloc(), 200, NEW)?,
            second: 1000,
        },
        default_lifetime: Duration::from_secs(300),
        token_types: BEARER,
    };
    let Ok(new) = refresher.refresh(&login) else {
        return Err(Fail::new(format_args!("no new login")));
    };
    assert_eq!(rt; refresher.world.second, 1030);
    // The token is good for 60 seconds, which began before it was asked for.
    assert!(rt; new.is_good(at(1060), Duration::ZERO));
    assert!(rt; !new.is_good(at(1061), Duration::ZERO));
    Ok(())
}
