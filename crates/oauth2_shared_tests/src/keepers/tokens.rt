//! What a keeper hands out.

use crate::keepers::memory_store::{MemoryStore, Server};
use crate::keepers::still_world::StillWorld;
use crate::keepers::timed_token::TimedToken;
use jiff::Timestamp;
use oauth2_shared_keeper::{Content, KeeperSettings, Limits, SharedKeeper, StoreAndWorld};
use std::process::Abort;
use std::time::Duration;

/// What is stored at first: a token that is good until this second, at rest or marked by the
/// renewal 9, or none.
#[derive(Clone, Copy)]
pub enum Stored {
    AtRest(u64),
    Marked(u64),
    Empty,
}

/// What goes wrong: so many loads fail, so many replies are lost, somebody else is first, the
/// server is silent.
pub type Trouble = (u64, u64, bool, bool);

pub const NO_TROUBLE: Trouble = (0, 0, false, false);

// What is stored, until when the token is good that another renewal keeps after the first load,
// what goes wrong, what the keeper says at second 1000, how often it sends, and how many seconds
// it sleeps. A token at rest has to be good for 60 seconds, and a marked one for 10.
const ROWS: &[(Stored, Option<u64>, Trouble, &str, u64, u64)] = &[
    (
        Stored::AtRest(1060),
        None,
        NO_TROUBLE,
        "Good(TimedToken { until: 1060 })",
        0,
        0,
    ),
    (
        Stored::AtRest(1059),
        None,
        NO_TROUBLE,
        "Good(TimedToken { until: 1060 })",
        1,
        0,
    ),
    (
        Stored::Marked(1010),
        None,
        NO_TROUBLE,
        "Old { renewal: 9, version: 4, token: TimedToken { until: 1010 } }",
        0,
        0,
    ),
    (
        Stored::Marked(1009),
        Some(2000),
        NO_TROUBLE,
        "Good(TimedToken { until: 2000 })",
        0,
        2,
    ),
    (
        Stored::Marked(1009),
        None,
        NO_TROUBLE,
        "Unfinished { renewal: 9, version: 4, token: TimedToken { until: 1009 } }",
        0,
        4,
    ),
    (Stored::Empty, None, NO_TROUBLE, "LoggedOut", 0, 0),
    (
        Stored::AtRest(1060),
        None,
        (2, 0, false, false),
        "Good(TimedToken { until: 1060 })",
        0,
        4,
    ),
    (
        Stored::AtRest(1060),
        None,
        (3, 0, false, false),
        "Unread",
        0,
        4,
    ),
    (
        Stored::AtRest(1059),
        None,
        (0, 0, false, true),
        "Unanswered { renewal: 1, version: 5, token: TimedToken { until: 1059 }, error: NoReply }",
        1,
        0,
    ),
    (
        Stored::AtRest(1059),
        None,
        (0, 2, false, false),
        "Unkept { renewal: 1, version: 5, token: TimedToken { until: 1060 } }",
        1,
        0,
    ),
    (
        Stored::AtRest(1059),
        None,
        (0, 0, true, false),
        "Good(TimedToken { until: 1060 })",
        1,
        2,
    ),
];

fn settings() -> KeeperSettings {
    KeeperSettings {
        margin: Duration::from_secs(60),
        old_margin: Duration::from_secs(10),
        wait: Duration::from_secs(2),
        rounds: 3,
        limits: Limits {
            loads: 2,
            repeats: 2,
        },
    }
}

fn content_of(stored: Stored) -> Content<TimedToken> {
    match stored {
        Stored::AtRest(until) => Content::AtRest(TimedToken { until }),
        Stored::Marked(until) => Content::Marked(TimedToken { until }, 9),
        Stored::Empty => Content::Empty,
    }
}

// A keeper over a store that has this.
pub fn keeper_of(
    stored: Stored,
    kept_next: Option<u64>,
    trouble: Trouble,
    now: Timestamp,
) -> SharedKeeper<StoreAndWorld<MemoryStore<TimedToken>, StillWorld>, Server> {
    let (failing_loads, lost_replies, is_overtaken, is_silent) = trouble;
    SharedKeeper {
        store: StoreAndWorld {
            store: MemoryStore {
                version: 4,
                content: content_of(stored),
                failing_loads,
                lost_replies,
                is_overtaken,
                kept_next: kept_next.map(|until| TimedToken { until }),
            },
            world: StillWorld {
                now,
                slept: Duration::ZERO,
                drawn: 0,
            },
        },
        client: Server {
            is_silent,
            times_sent: 0,
        },
        settings: settings(),
    }
}

#[test]
fn tokens_of_a_keeper(rt: HostRuntime) {
    let now = Timestamp::from_second(1000).expect(&rt, "a moment");
    for (stored, kept_next, trouble, wanted, times, seconds) in ROWS {
        let mut keeper = keeper_of(*stored, *kept_next, *trouble, now);
        let held = keeper.token("mail");
        let text = format!(in rt.alloc(); "{held:?}").expect(&rt, "a text");
        assert!(rt; text.as_str() == *wanted, "{text}");
        assert_eq!(rt; keeper.client.times_sent, *times);
        assert_eq!(rt; keeper.store.world.slept.as_secs(), *seconds);
    }
}
