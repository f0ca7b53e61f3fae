//! How renewals end.

use crate::keepers::memory_store::{MemoryStore, Server};
use oauth2_shared_keeper::{Content, Limits, renew};
use std::process::Abort;

/// What is stored at first: the token 1, at rest or marked by the renewal 9, or none.
#[derive(Clone, Copy, PartialEq, Eq)]
enum Held {
    AtRest,
    Marked,
    Empty,
}

/// What goes wrong: so many loads fail, so many replies are lost, somebody else is first, the server
/// is silent.
type Trouble = (u64, u64, bool, bool);

const LIMITS: Limits = Limits {
    loads: 3,
    repeats: 2,
};

// What is stored under which version, what goes wrong, how the renewal ends, and how often it sends.
const ROWS: &[(Held, u64, Trouble, &str, u64)] = &[
    (Held::AtRest, 4, (0, 0, false, false), "Kept(2)", 1),
    (Held::AtRest, 4, (2, 0, false, false), "Kept(2)", 1),
    (Held::AtRest, 4, (3, 0, false, false), "Unread", 0),
    (Held::AtRest, 4, (0, 1, false, false), "Kept(2)", 1),
    (
        Held::AtRest,
        4,
        (0, 2, false, false),
        "Unkept { version: 5, token: 2 }",
        1,
    ),
    (
        Held::AtRest,
        4,
        (2, 1, false, false),
        "Unclear { version: 5, token: 1 }",
        0,
    ),
    (Held::AtRest, 4, (0, 0, true, false), "Lost", 0),
    (
        Held::AtRest,
        4,
        (0, 0, false, true),
        "Unanswered { version: 5, token: 1, error: NoReply }",
        1,
    ),
    (
        Held::Marked,
        4,
        (0, 0, false, false),
        "InUse { renewal: 9, token: 1 }",
        0,
    ),
    (Held::Empty, 4, (0, 0, false, false), "LoggedOut", 0),
    (
        Held::AtRest,
        u64::MAX,
        (0, 0, false, false),
        "NoNextVersion(1)",
        0,
    ),
];

fn content_of(held: Held) -> Content<u64> {
    match held {
        Held::AtRest => Content::AtRest(1),
        Held::Marked => Content::Marked(1, 9),
        Held::Empty => Content::Empty,
    }
}

// How a renewal of this ends, and how often it sends.
fn end_of(
    rt: &(impl Abort + AllocGlobal),
    held: Held,
    version: u64,
    trouble: Trouble,
) -> (String, u64) {
    let (failing_loads, lost_replies, is_overtaken, is_silent) = trouble;
    let mut store = MemoryStore {
        version,
        content: content_of(held),
        failing_loads,
        lost_replies,
        is_overtaken,
        kept_next: None,
    };
    let mut server = Server {
        is_silent,
        times_sent: 0,
    };
    let end = renew(&mut store, &mut server, "mail", 7, LIMITS);
    let text = format!(in rt.alloc(); "{end:?}").expect(rt, "a text");
    (text, server.times_sent)
}

#[test]
fn ends_of_renewals(rt: HostRuntime) {
    for (held, version, trouble, wanted, times) in ROWS {
        let (end, times_sent) = end_of(&rt, *held, *version, *trouble);
        assert!(rt; end.as_str() == *wanted, "{version}: {end}");
        assert_eq!(rt; times_sent, *times);
    }
}
