//! What logins, answers and logouts leave in the store.

use crate::keepers::timed_token::TimedToken;
use crate::keepers::tokens::{NO_TROUBLE, Stored, Trouble, keeper_of};
use jiff::Timestamp;
use std::process::Abort;

/// What a caller does: he logs in, answers for a mark under this version, or logs out.
#[derive(Clone, Copy)]
enum Does {
    LogsIn,
    Answers(u64),
    LogsOut,
}

const LOST_REPLY: Trouble = (0, 1, false, false);

const FAILING_LOAD: Trouble = (1, 0, false, false);

const OVERTAKEN: Trouble = (0, 0, true, false);

// What is stored under version 4, what goes wrong, what the caller does, what he is told, and the
// version that is stored then. His token is good until the second 5000.
const ROWS: &[(Stored, Trouble, Does, &str, u64)] = &[
    (Stored::AtRest(1060), NO_TROUBLE, Does::LogsIn, "Done", 5),
    (Stored::Marked(1060), NO_TROUBLE, Does::LogsIn, "Done", 5),
    (Stored::Empty, NO_TROUBLE, Does::LogsIn, "Done", 5),
    (Stored::AtRest(1060), OVERTAKEN, Does::LogsIn, "Done", 6),
    (
        Stored::AtRest(1060),
        LOST_REPLY,
        Does::LogsIn,
        "Unclear { version: 4, token: TimedToken { until: 5000 } }",
        5,
    ),
    (
        Stored::AtRest(1060),
        FAILING_LOAD,
        Does::LogsIn,
        "Unread(TimedToken { until: 5000 })",
        4,
    ),
    (
        Stored::Marked(1060),
        NO_TROUBLE,
        Does::Answers(4),
        "Done",
        5,
    ),
    (
        Stored::Marked(1060),
        NO_TROUBLE,
        Does::Answers(3),
        "Refused(TimedToken { until: 5000 })",
        4,
    ),
    (
        Stored::Marked(1060),
        NO_TROUBLE,
        Does::Answers(u64::MAX),
        "NoNextVersion(TimedToken { until: 5000 })",
        4,
    ),
    (
        Stored::AtRest(1060),
        NO_TROUBLE,
        Does::LogsOut,
        "Done(AtRest(TimedToken { until: 1060 }))",
        5,
    ),
    (
        Stored::Marked(1060),
        OVERTAKEN,
        Does::LogsOut,
        "Done(Marked(TimedToken { until: 1060 }, 9))",
        6,
    ),
    (
        Stored::AtRest(1060),
        LOST_REPLY,
        Does::LogsOut,
        "Unclear { version: 4, content: AtRest(TimedToken { until: 1060 }) }",
        5,
    ),
    (
        Stored::AtRest(1060),
        FAILING_LOAD,
        Does::LogsOut,
        "Unread",
        4,
    ),
];

// What a caller is told, and the version that is stored then.
fn told(
    rt: &(impl Abort + AllocGlobal),
    stored: Stored,
    trouble: Trouble,
    does: Does,
) -> (String, u64) {
    let mut keeper = keeper_of(stored, None, trouble, Timestamp::UNIX_EPOCH);
    let token = TimedToken { until: 5000 };
    let text = match does {
        Does::LogsIn => {
            let told = keeper.log_in("mail", token);
            format!(in rt.alloc(); "{told:?}")
        }
        Does::Answers(version) => {
            let told = keeper.answer("mail", version, token);
            format!(in rt.alloc(); "{told:?}")
        }
        Does::LogsOut => {
            let told = keeper.log_out::<TimedToken>("mail");
            format!(in rt.alloc(); "{told:?}")
        }
    };
    (text.expect(rt, "a text"), keeper.store.store.version)
}

#[test]
fn logins_and_logouts(rt: HostRuntime) {
    for (stored, trouble, does, wanted, version) in ROWS {
        let (text, stored_version) = told(&rt, *stored, *trouble, *does);
        assert!(rt; text.as_str() == *wanted, "{text}");
        assert_eq!(rt; stored_version, *version);
    }
}
