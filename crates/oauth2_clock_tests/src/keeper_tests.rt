//! Runs of a keeper. The expected results were worked out by hand from the rule for when a token is
//! used.

use crate::callers::{TokenClient, bearer};
use crate::support::{Scripted, assert_fault, assert_that, assert_token, client, duration, moment};
use oauth2_keeper::{BasicTokenKeeper, RenewalTimes, TokenKeeper};
use std::process::Abort;

// A call: its time in seconds and nanoseconds, the body of its request, which is empty if none is
// sent, and the token or the text of the error.
type Call<'a> = (i64, i32, &'a str, Result<&'a str, &'a str>);

// A keeper without a refresh token, which uses a lifetime of 0 for replies without one: its margin
// in seconds and nanoseconds, the replies to its requests, and its calls.
#[derive(Clone, Copy)]
struct Run<'a> {
    margin: (u64, u64),
    replies: &'a [(u16, &'a str)],
    calls: &'a [Call<'a>],
}

const KEPT: &str = "";

const ASKED: &str = "grant_type=client_credentials";

const REFRESHED: &str = "grant_type=refresh_token&refresh_token=r1";

const REFRESHED_BY_THE_SECOND: &str = "grant_type=refresh_token&refresh_token=r2";

const HUNDRED_SECONDS: (u16, &str) = (
    200,
    r#"{"access_token":"t1","token_type":"bearer","expires_in":100,"refresh_token":"r1"}"#,
);

const NEITHER: (u16, &str) = (200, r#"{"access_token":"t2","token_type":"bearer"}"#);

const ONE_SECOND: (u16, &str) = (
    200,
    r#"{"access_token":"u1","token_type":"bearer","expires_in":1}"#,
);

const TEN_SECONDS: (u16, &str) = (
    200,
    r#"{"access_token":"u2","token_type":"bearer","expires_in":10}"#,
);

const NO_TIME: (u16, &str) = (
    200,
    r#"{"access_token":"u3","token_type":"bearer","expires_in":0}"#,
);

const FOREVER: (u16, &str) = (
    200,
    r#"{"access_token":"u4","token_type":"bearer","expires_in":18446744073709551615}"#,
);

const SECOND_REFRESH_TOKEN: (u16, &str) = (
    200,
    r#"{"access_token":"u5","token_type":"bearer","expires_in":1,"refresh_token":"r2"}"#,
);

const UNREAD: (u16, &str) = (200, r#"{"access_token":"u6"}"#);

// A number that is no status, so the client fails.
const CLIENT_FAILS: (u16, &str) = (0, "");

const RUNS: [Run<'static>; 9] = [
    // A lifetime lasts to its last nanosecond.
    Run {
        margin: (0, 0),
        replies: &[ONE_SECOND, TEN_SECONDS],
        calls: &[
            (0, 0, ASKED, Ok("u1")),
            (1, 0, KEPT, Ok("u1")),
            (1, 1, ASKED, Ok("u2")),
            (11, 1, KEPT, Ok("u2")),
            (12, 0, ASKED, Err("Request failed")),
        ],
    },
    // So does the keeper's lifetime of 0, for a reply without one.
    Run {
        margin: (0, 0),
        replies: &[NEITHER, NEITHER],
        calls: &[
            (0, 0, ASKED, Ok("t2")),
            (0, 0, KEPT, Ok("t2")),
            (0, 1, ASKED, Ok("t2")),
        ],
    },
    // A margin of one nanosecond.
    Run {
        margin: (0, 1),
        replies: &[ONE_SECOND, ONE_SECOND],
        calls: &[
            (0, 0, ASKED, Ok("u1")),
            (0, 999_999_999, KEPT, Ok("u1")),
            (1, 0, ASKED, Ok("u1")),
        ],
    },
    // A margin of the whole lifetime or more: each call returns a token and requests a new one.
    Run {
        margin: (10, 0),
        replies: &[TEN_SECONDS, TEN_SECONDS, NO_TIME, NO_TIME],
        calls: &[
            (0, 0, ASKED, Ok("u2")),
            (0, 0, KEPT, Ok("u2")),
            (0, 1, ASKED, Ok("u2")),
            (1, 0, ASKED, Ok("u3")),
            (1, 0, ASKED, Ok("u3")),
        ],
    },
    // The greatest margin is greater than the greatest lifetime by less than a second.
    Run {
        margin: (18_446_744_073_709_551_615, 999_999_999),
        replies: &[FOREVER, FOREVER],
        calls: &[(0, 0, ASKED, Ok("u4")), (0, 0, ASKED, Ok("u4"))],
    },
    Run {
        margin: (18_446_744_073_709_551_615, 0),
        replies: &[FOREVER, FOREVER],
        calls: &[
            (0, 0, ASKED, Ok("u4")),
            (0, 0, KEPT, Ok("u4")),
            (0, 1, ASKED, Ok("u4")),
        ],
    },
    // A reply that cannot be read, and an error of the client, change nothing that is kept.
    Run {
        margin: (0, 0),
        replies: &[HUNDRED_SECONDS, UNREAD],
        calls: &[
            (0, 0, ASKED, Ok("t1")),
            (101, 0, REFRESHED, Err("Failed to parse server response")),
            (101, 0, REFRESHED, Err("Request failed")),
            (100, 0, KEPT, Ok("t1")),
        ],
    },
    // After a successful call the refresh token is that of the last reply that had one.
    Run {
        margin: (0, 0),
        replies: &[HUNDRED_SECONDS, NEITHER, SECOND_REFRESH_TOKEN, NEITHER],
        calls: &[
            (0, 0, ASKED, Ok("t1")),
            (100, 1, REFRESHED, Ok("t2")),
            (100, 2, REFRESHED, Ok("u5")),
            (101, 2, KEPT, Ok("u5")),
            (101, 3, REFRESHED_BY_THE_SECOND, Ok("t2")),
            (101, 4, REFRESHED_BY_THE_SECOND, Err("Request failed")),
        ],
    },
    // After an error of the client the keeper is unchanged: the token, its time, its lifetime, the
    // margin, the refresh token, and the lifetime for replies without one.
    Run {
        margin: (10, 0),
        replies: &[
            HUNDRED_SECONDS,
            CLIENT_FAILS,
            CLIENT_FAILS,
            NEITHER,
            NO_TIME,
        ],
        calls: &[
            (0, 0, ASKED, Ok("t1")),
            (90, 1, REFRESHED, Err("Request failed")),
            (90, 0, KEPT, Ok("t1")),
            (90, 1, REFRESHED, Err("Request failed")),
            (90, 0, KEPT, Ok("t1")),
            (90, 1, REFRESHED, Ok("t2")),
            (90, 1, REFRESHED, Ok("u3")),
        ],
    },
];

// Checks one call, and the request that it sends.
fn assert_call(
    rt: &(impl Abort + AllocGlobal),
    keeper: &mut BasicTokenKeeper<'_>,
    http_client: &mut Scripted<'_>,
    call: Call<'_>,
) {
    let (second, nanosecond, body, answer) = call;
    let now = moment(rt, second, nanosecond);
    http_client.body = Vec::new(rt.alloc());
    match keeper.token(rt.alloc(), now, http_client) {
        Ok(token) => assert_token(rt, token, answer),
        Err(error) => assert_fault(rt, &error, answer),
    }
    assert_that(rt, http_client.body.as_slice() == body.as_bytes(), body);
}

// Checks the requests and the results of the calls of a run, in order.
fn assert_run(rt: &(impl Abort + AllocGlobal), client: &TokenClient, run: Run<'_>) {
    let times = RenewalTimes {
        margin: duration(run.margin),
        default_lifetime: duration((0, 0)),
    };
    let mut keeper: BasicTokenKeeper<'_> = TokenKeeper::with_times(client, None, times);
    let mut http_client = Scripted::new(rt.alloc(), run.replies);
    for call in run.calls.iter() {
        assert_call(rt, &mut keeper, &mut http_client, *call);
    }
}

// Checks that a caller gets the token twice, and that one request is sent for it.
fn assert_bearer(rt: &(impl Abort + AllocGlobal), client: &TokenClient) {
    let times = RenewalTimes {
        margin: duration((0, 0)),
        default_lifetime: duration((60, 0)),
    };
    let mut keeper: BasicTokenKeeper<'_> = TokenKeeper::with_times(client, None, times);
    let mut http_client = Scripted::new(rt.alloc(), &[NEITHER]);
    assert_that(rt, keeper.get().is_none(), "no token at first");
    for second in [0, 60] {
        let text = bearer(
            rt.alloc(),
            &mut keeper,
            moment(rt, second, 0),
            &mut http_client,
        )
        .expect(rt, "a token");
        assert_that(rt, text.as_str() == "Bearer t2", text.as_str());
    }
    assert_that(rt, http_client.sent == 1, "one request");
}

#[test]
fn a_token_is_kept(rt: HostRuntime) {
    let client = client(&rt);
    for run in RUNS {
        assert_run(&rt, &client, run);
    }
    assert_bearer(&rt, &client);
}
