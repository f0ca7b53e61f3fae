//! Tests of polls over lists of clock readings and answers, and of the sleeps after answers.

use crate::support::{Seen, assert_that, duration, moment, moments, slept};
use oauth2_poll::{DevicePoll, PollAnswer, PollEnd, PollEvent, PollReady, PollSettings, PollStep};
use std::process::Abort;
use std::time::Duration;

const LONGEST: u64 = 18_446_744_073_709_551_615;

const TOO_LONG: u64 = 9_223_372_036_854_775_808;

const FAILED: PollAnswer = PollAnswer::Failed;

const PENDING: PollAnswer = PollAnswer::Pending;

const SLOW_DOWN: PollAnswer = PollAnswer::SlowDown;

// A run of a poll with an interval of 1 second, a cap of 10 seconds and at most three requests: its
// timeout in seconds, the clock, the answers, the expected events, and how it ends.
#[derive(Clone, Copy)]
struct Run<'a> {
    timeout: u64,
    readings: &'a [i64],
    answers: &'a [PollAnswer],
    trace: &'a [Seen],
    end: PollEnd,
}

const RUNS: [Run<'static>; 9] = [
    Run {
        timeout: TOO_LONG,
        readings: &[],
        answers: &[],
        trace: &[],
        end: PollEnd::TimeoutTooLong,
    },
    Run {
        timeout: TOO_LONG - 1,
        readings: &[0],
        answers: &[],
        trace: &[Seen::Reading(0)],
        end: PollEnd::DeadlineOutOfRange,
    },
    Run {
        timeout: 2,
        readings: &[0, 1, 2, 3],
        answers: &[PENDING, PENDING],
        trace: &[
            Seen::Reading(0),
            Seen::Reading(1),
            Seen::Request,
            Seen::Answer(PENDING),
            Seen::Sleep(1, 0),
            Seen::Reading(2),
            Seen::Request,
            Seen::Answer(PENDING),
            Seen::Sleep(1, 0),
            Seen::Reading(3),
        ],
        end: PollEnd::Expired,
    },
    Run {
        timeout: 2,
        readings: &[0, 0, 0, 0],
        answers: &[SLOW_DOWN, FAILED, PENDING],
        trace: &[
            Seen::Reading(0),
            Seen::Reading(0),
            Seen::Request,
            Seen::Answer(SLOW_DOWN),
            Seen::Sleep(6, 0),
            Seen::Reading(0),
            Seen::Request,
            Seen::Answer(FAILED),
            Seen::Sleep(10, 0),
            Seen::Reading(0),
            Seen::Request,
            Seen::Answer(PENDING),
        ],
        end: PollEnd::Limit,
    },
    Run {
        timeout: 2,
        readings: &[0, 0],
        answers: &[PollAnswer::Deciding],
        trace: &[
            Seen::Reading(0),
            Seen::Reading(0),
            Seen::Request,
            Seen::Answer(PollAnswer::Deciding),
        ],
        end: PollEnd::Done,
    },
    Run {
        timeout: 2,
        readings: &[],
        answers: &[],
        trace: &[],
        end: PollEnd::OutOfInput,
    },
    Run {
        timeout: 2,
        readings: &[0],
        answers: &[],
        trace: &[Seen::Reading(0)],
        end: PollEnd::OutOfInput,
    },
    Run {
        timeout: 2,
        readings: &[0, 1],
        answers: &[],
        trace: &[Seen::Reading(0), Seen::Reading(1), Seen::Request],
        end: PollEnd::OutOfInput,
    },
    Run {
        timeout: 2,
        readings: &[0, 1],
        answers: &[PENDING],
        trace: &[
            Seen::Reading(0),
            Seen::Reading(1),
            Seen::Request,
            Seen::Answer(PENDING),
            Seen::Sleep(1, 0),
        ],
        end: PollEnd::OutOfInput,
    },
];

fn seen_of(event: PollEvent) -> Seen {
    match event {
        PollEvent::Reading(now) => Seen::Reading(now.as_second()),
        PollEvent::Request => Seen::Request,
        PollEvent::Answer(answer) => Seen::Answer(answer),
        PollEvent::Sleep(duration) => slept(duration),
    }
}

fn assert_trace(rt: &impl Abort, trace: &[PollEvent], wanted: &[Seen]) {
    assert_that(rt, trace.len() == wanted.len(), "a whole trace");
    for (event, seen) in trace.iter().zip(wanted.iter()) {
        assert_that(rt, seen_of(*event) == *seen, "an event");
    }
}

// Checks the events and the end of a run.
fn assert_run(rt: &(impl Abort + AllocGlobal), run: Run<'_>) {
    let readings = moments(rt, run.readings);
    let settings = PollSettings {
        interval: Duration::from_secs(1),
        cap: Duration::from_secs(10),
        max_polls: 3,
    };
    let timeout = Duration::from_secs(run.timeout);
    let found = DevicePoll::run(
        rt.alloc(),
        timeout,
        settings,
        readings.as_slice(),
        run.answers,
    )
    .expect(rt, "a run");
    assert_trace(rt, found.trace.as_slice(), run.trace);
    assert_that(rt, found.end == run.end, "an end");
}

#[test]
fn a_poll_runs(rt: HostRuntime) {
    for run in RUNS {
        assert_run(&rt, run);
    }
}

// How long a poll sleeps after each of some answers: its interval, its cap and the sleeps, each in
// seconds and nanoseconds.
#[derive(Clone, Copy)]
struct Pace<'a> {
    interval: (u64, u64),
    cap: (u64, u64),
    sleeps: &'a [(PollAnswer, Seen)],
}

const GREATEST: Seen = Seen::Sleep(LONGEST, 999_999_999);

const PACES: [Pace<'static>; 5] = [
    Pace {
        interval: (1, 0),
        cap: (10, 0),
        sleeps: &[
            (FAILED, Seen::Sleep(2, 0)),
            (SLOW_DOWN, Seen::Sleep(7, 0)),
            (PENDING, Seen::Sleep(7, 0)),
            (FAILED, Seen::Sleep(10, 0)),
        ],
    },
    Pace {
        interval: (1, 0),
        cap: (0, 500_000_000),
        sleeps: &[(FAILED, Seen::Sleep(1, 0))],
    },
    Pace {
        interval: (LONGEST, 0),
        cap: (10, 0),
        sleeps: &[(SLOW_DOWN, GREATEST)],
    },
    Pace {
        interval: (LONGEST, 0),
        cap: (10, 0),
        sleeps: &[
            (FAILED, Seen::Sleep(LONGEST, 0)),
            (SLOW_DOWN, GREATEST),
            (FAILED, GREATEST),
        ],
    },
    Pace {
        interval: (TOO_LONG - 1, 0),
        cap: (LONGEST, 999_999_999),
        sleeps: &[
            (FAILED, Seen::Sleep(LONGEST - 1, 0)),
            (FAILED, Seen::Sleep(LONGEST - 1, 0)),
        ],
    },
];

// A poll with these settings, which starts at second 0 and has a timeout of two seconds.
fn started(rt: &impl Abort, settings: PollSettings) -> DevicePoll {
    let timeout = Duration::from_secs(2);
    DevicePoll::new(moment(rt, 0, 0), timeout, settings).expect(rt, "a deadline")
}

fn assert_pace(rt: &impl Abort, pace: Pace<'_>) {
    let settings = PollSettings {
        interval: duration(pace.interval),
        cap: duration(pace.cap),
        max_polls: 100,
    };
    let mut poll = started(rt, settings);
    for (answer, wanted) in pace.sleeps.iter() {
        assert!(rt; 0 < poll.polls_left());
        let PollStep::Sleep(duration) = poll.answer(*answer) else {
            panic!(rt; "no sleep");
        };
        assert_that(rt, slept(duration) == *wanted, "a sleep");
    }
}

#[test]
fn sleeps_are_paced(rt: HostRuntime) {
    for pace in PACES {
        assert_pace(&rt, pace);
    }
}

#[test]
fn at_the_deadline_it_still_asks(rt: HostRuntime) {
    let settings = PollSettings {
        interval: Duration::from_secs(1),
        cap: Duration::from_secs(10),
        max_polls: 3,
    };
    let poll = started(&rt, settings);
    let at = poll.ready(moment(&rt, 2, 0));
    let after = poll.ready(moment(&rt, 2, 1));
    assert_that(&rt, at == PollReady::Ask, "at the deadline");
    assert_that(&rt, after == PollReady::Expired, "a nanosecond later");
    assert_that(&rt, poll.polls_left() == 3, "no request is counted");
}
