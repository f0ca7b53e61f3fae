//! Finds and runs the row of a name.

use crate::additions::{Addition, add_all};
use crate::calls::{Call, show_calls};
use crate::client::{Reply, TokenClient, client};
use crate::ends::{show_kept, show_lent};
use crate::stored::{Start, show_not_taken, show_stored, show_text, started};
use crate::values::{Moment, Span, duration, moment};
use oauth2_keeper::{BasicPatientKeeper, BasicTokenKeeper};
use oauth2_refusals_support::{Ended, Rows, find};
use std::alloc::{AllocError, Global};
use std::io::Write;

// A keeper: what it starts from, what of that it forgets, what is added to it, the types of tokens
// that its caller can use, its margin, how long it waits after a failed request, and how long at
// most if the server asks for it, whether it uses a token until the end of its lifetime, its calls,
// and a time at which its token is used.
#[derive(Clone, Copy)]
struct KeeperRow {
    start: Start<'static>,
    forgotten: Forgotten,
    additions: &'static [Addition<'static>],
    expected: Expected,
    margin: Span,
    wait: Span,
    most_wait: Span,
    until_end: bool,
    calls: &'static [Call<'static>],
    last: Moment,
}

#[derive(Clone, Copy)]
enum Forgotten {
    Nothing,
    Token,
    RefreshToken,
}

#[derive(Clone, Copy)]
enum Expected {
    Bearer,
    Types(&'static [&'static str]),
    Any,
}

#[derive(Clone, Copy)]
enum Row {
    Keeper(KeeperRow),
    Text(&'static str),
    NotTaken(&'static str),
}

// The reply of RFC 6749, section 5.1, and the reply of section 4.4.3, which has no refresh token.
const TOKENS: Reply<'static> = (
    200,
    "{\"access_token\":\"2YotnFZFEjr1zCsicMWpAA\",\"token_type\":\"example\",\
    \"expires_in\":3600,\"refresh_token\":\"tGzv3JOkF0XG5Qx2TlKWIA\",\
    \"example_parameter\":\"example_value\"}",
    None,
);

const TOKEN: Reply<'static> = (
    200,
    "{\"access_token\":\"2YotnFZFEjr1zCsicMWpAA\",\"token_type\":\"example\",\
    \"expires_in\":3600,\"example_parameter\":\"example_value\"}",
    None,
);

// The error of RFC 6749, section 5.2.
const REFUSED: Reply<'static> = (400, "{\"error\":\"invalid_request\"}", None);

const EMPTY: Reply<'static> = (500, "", None);

// Replies of a server that is busy, with the examples of Retry-After in RFC 9110, section 10.2.3,
// and RFC 6585, section 4.
const BUSY: Reply<'static> = (503, "", Some("120"));

const TOO_MANY: Reply<'static> = (429, "", Some("3600"));

const BUSY_TO_A_DATE: Reply<'static> = (503, "", Some("Fri, 31 Dec 1999 23:59:59 GMT"));

const USUAL: KeeperRow = KeeperRow {
    start: Start::Empty,
    forgotten: Forgotten::Nothing,
    additions: &[],
    expected: Expected::Types(&["Bearer", "Example"]),
    margin: (10, 0),
    wait: (30, 0),
    most_wait: (0, 0),
    until_end: false,
    calls: &[],
    last: (0, 0),
};

// Its lifetime ends at 110 seconds and 6 nanoseconds.
const STORED: Start<'static> = Start::Values(
    "abc",
    (100, 5),
    (10, 1),
    Some("tGzv3JOkF0XG5Qx2TlKWIA"),
);

const ROWS: [(&str, Row); 26] = [
    (
        "scopes",
        Row::Keeper(KeeperRow {
            start: STORED,
            additions: &[
                Addition::Extra("audience", "https://api.example.com/"),
                Addition::Scope("read"),
                Addition::Scopes(&["write", "admin"]),
                Addition::RefreshScope("read"),
                Addition::RefreshScope("write"),
                Addition::Extra("resource", "a b"),
            ],
            calls: &[((100, 5), TOKENS), ((101, 0), TOKENS), ((3691, 0), TOKEN)],
            last: (3691, 0),
            ..USUAL
        }),
    ),
    (
        "scopes_without_a_refresh_token",
        Row::Keeper(KeeperRow {
            start: Start::Json(
                "{\"access_token\":\"abc\",\"token_type\":\"example\",\"accepted_at\":-60,\
                \"accepted_at_nanoseconds\":0,\"lifetime\":60,\"lifetime_nanoseconds\":0}",
            ),
            additions: &[
                Addition::Scopes(&["read"]),
                Addition::Scope("write"),
                Addition::RefreshScope("admin"),
                Addition::Extra("audience", "https://api.example.com/"),
            ],
            calls: &[((0, 0), TOKEN), ((3591, 0), EMPTY)],
            last: (3590, 0),
            ..USUAL
        }),
    ),
    (
        "no_scope_in_a_refresh",
        Row::Keeper(KeeperRow {
            additions: &[Addition::Scope("read"), Addition::Extra("audience", "a")],
            calls: &[((0, 0), TOKENS), ((3591, 0), TOKENS)],
            last: (3591, 0),
            ..USUAL
        }),
    ),
    (
        "starting_from",
        Row::Keeper(KeeperRow {
            start: STORED,
            margin: (3, 0),
            calls: &[((107, 6), TOKEN), ((107, 7), TOKEN)],
            last: (3704, 7),
            ..USUAL
        }),
    ),
    (
        "starting_from_json",
        Row::Keeper(KeeperRow {
            start: Start::Json(
                "{\"access_token\":\"abc\",\"token_type\":\"example\",\"accepted_at\":-1,\
                \"accepted_at_nanoseconds\":999999999,\"lifetime\":10,\
                \"lifetime_nanoseconds\":2,\"refresh_token\":\"def\"}",
            ),
            margin: (0, 0),
            calls: &[((10, 1), TOKEN), ((10, 2), TOKEN)],
            last: (10, 2),
            ..USUAL
        }),
    ),
    (
        "starting_from_json_of_this_client",
        Row::Keeper(KeeperRow {
            start: Start::Json(
                "{\"access_token\":\"abc\",\"token_type\":\"example\",\"accepted_at\":0,\
                \"accepted_at_nanoseconds\":0,\"lifetime\":60,\"lifetime_nanoseconds\":0,\
                \"client_id\":\"s6BhdRkqt3\",\"token_url\":\"https://server.example.com/token\"}",
            ),
            last: (50, 0),
            ..USUAL
        }),
    ),
    (
        "forgotten_token",
        Row::Keeper(KeeperRow {
            start: STORED,
            forgotten: Forgotten::Token,
            calls: &[((100, 5), TOKEN)],
            last: (100, 5),
            ..USUAL
        }),
    ),
    (
        "forgotten_refresh_token",
        Row::Keeper(KeeperRow {
            start: STORED,
            forgotten: Forgotten::RefreshToken,
            margin: (0, 0),
            calls: &[((110, 6), TOKEN), ((110, 7), TOKEN)],
            last: (110, 7),
            ..USUAL
        }),
    ),
    // The last time that can be represented, and a time after it.
    (
        "good_until_the_end",
        Row::Keeper(KeeperRow {
            start: Start::Values("abc", (253_402_207_100, 0), (200, 0), None),
            margin: (99, 1),
            calls: &[((253_402_207_200, 999_999_999), TOKEN)],
            last: (253_402_207_200, 999_999_999),
            ..USUAL
        }),
    ),
    (
        "good_past_the_end",
        Row::Keeper(KeeperRow {
            start: Start::Values("abc", (253_402_207_100, 0), (200, 0), None),
            margin: (99, 0),
            last: (253_402_207_200, 999_999_999),
            ..USUAL
        }),
    ),
    ("empty", Row::Keeper(USUAL)),
    // It keeps the refresh token of a reply whose token it forgets, and waits.
    (
        "other_token_type",
        Row::Keeper(KeeperRow {
            expected: Expected::Bearer,
            most_wait: (300, 0),
            until_end: true,
            calls: &[
                ((0, 0), TOO_MANY),
                ((300, 0), TOKENS),
                ((329, 999_999_999), TOKENS),
                ((330, 0), TOKEN),
            ],
            last: (330, 0),
            ..USUAL
        }),
    ),
    (
        "starting_from_another_token_type",
        Row::Keeper(KeeperRow {
            start: STORED,
            expected: Expected::Bearer,
            calls: &[((100, 5), REFUSED), ((101, 0), TOKEN)],
            last: (101, 0),
            ..USUAL
        }),
    ),
    (
        "any_token_type",
        Row::Keeper(KeeperRow {
            start: STORED,
            expected: Expected::Any,
            calls: &[((100, 5), TOKEN), ((101, 0), TOKEN)],
            last: (101, 0),
            ..USUAL
        }),
    ),
    // The lifetime ends at 3,600 seconds, the first wait at 3,630 and the second at 3,660.
    (
        "waits",
        Row::Keeper(KeeperRow {
            calls: &[
                ((0, 0), TOKEN),
                ((3600, 0), REFUSED),
                ((3590, 0), TOKEN),
                ((3629, 999_999_999), TOKEN),
                ((3630, 0), EMPTY),
                ((3631, 0), TOKEN),
                ((3660, 0), TOKEN),
            ],
            last: (3660, 0),
            ..USUAL
        }),
    ),
    // After a request that failed at 1,000 seconds the clock is set back, twice.
    (
        "waits_after_the_clock_was_set_back",
        Row::Keeper(KeeperRow {
            calls: &[
                ((1000, 0), REFUSED),
                ((10, 0), TOKEN),
                ((0, 0), TOKEN),
                ((29, 999_999_999), TOKEN),
                ((30, 0), TOKEN),
            ],
            last: (30, 0),
            ..USUAL
        }),
    ),
    (
        "waits_with_the_token",
        Row::Keeper(KeeperRow {
            until_end: true,
            calls: &[
                ((0, 0), TOKEN),
                ((3591, 0), REFUSED),
                ((3600, 0), TOKEN),
                ((3600, 1), TOKEN),
                ((3621, 0), TOKEN),
            ],
            last: (3621, 0),
            ..USUAL
        }),
    ),
    (
        "waits_past_the_end",
        Row::Keeper(KeeperRow {
            wait: (18_446_744_073_709_551_615, 999_999_999),
            calls: &[((0, 0), REFUSED), ((1, 0), TOKEN)],
            ..USUAL
        }),
    ),
    // It waits for the greatest wait that it heeds, then for its own, since a date asks for none,
    // and then for the one that the server asks for.
    (
        "waits_as_the_server_asks",
        Row::Keeper(KeeperRow {
            most_wait: (300, 0),
            calls: &[
                ((0, 0), TOO_MANY),
                ((299, 999_999_999), TOKEN),
                ((300, 0), BUSY_TO_A_DATE),
                ((329, 999_999_999), TOKEN),
                ((330, 0), BUSY),
                ((449, 999_999_999), TOKEN),
                ((450, 0), TOKEN),
            ],
            last: (450, 0),
            ..USUAL
        }),
    ),
    (
        "waits_longer_than_the_server_asks",
        Row::Keeper(KeeperRow {
            wait: (120, 1),
            most_wait: (300, 0),
            calls: &[((0, 0), BUSY), ((120, 0), TOKEN), ((120, 1), TOKEN)],
            last: (121, 0),
            ..USUAL
        }),
    ),
    (
        "waits_no_longer_unasked",
        Row::Keeper(KeeperRow {
            calls: &[((0, 0), BUSY), ((30, 0), TOKEN)],
            last: (30, 0),
            ..USUAL
        }),
    ),
    (
        "stored_before_1970",
        Row::Text(
            "{\"access_token\":\"abc\",\"token_type\":\"example\",\"accepted_at\":-377705023201,\
            \"accepted_at_nanoseconds\":1,\"lifetime\":18446744073709551615,\
            \"lifetime_nanoseconds\":999999999}",
        ),
    ),
    (
        "stored_past_the_end",
        Row::Text(
            "{\"access_token\":\"abc\",\"token_type\":\"example\",\"accepted_at\":253402207200,\
            \"accepted_at_nanoseconds\":1000000000,\"lifetime\":0,\
            \"lifetime_nanoseconds\":0,\"refresh_token\":\"def\"}",
        ),
    ),
    (
        "stored_without_a_type",
        Row::Text(
            "{\"access_token\":\"abc\",\"accepted_at\":0,\"accepted_at_nanoseconds\":0,\
            \"lifetime\":0,\"lifetime_nanoseconds\":0}",
        ),
    ),
    (
        "stored_of_another_client",
        Row::NotTaken(
            "{\"access_token\":\"abc\",\"token_type\":\"example\",\"accepted_at\":0,\
            \"accepted_at_nanoseconds\":0,\"lifetime\":60,\"lifetime_nanoseconds\":0,\"refresh_token\":\"def\",\
            \"client_id\":\"s6BhdRkqt\",\"token_url\":\"https://other.example.com/token\"}",
        ),
    ),
    (
        "stored_of_another_endpoint",
        Row::NotTaken(
            "{\"access_token\":\"abc\",\"token_type\":\"example\",\"accepted_at\":0,\
            \"accepted_at_nanoseconds\":0,\"lifetime\":60,\"lifetime_nanoseconds\":0,\
            \"token_url\":\"https://server.example.com/token2\"}",
        ),
    ),
];

/// The rows of keepers and of stored tokens.
pub struct KeeperRows;

impl Rows for KeeperRows {
    fn show_row<W: Write>(alloc: Global, name: &str, out: &mut W) -> Result<bool, Ended> {
        match find(&ROWS, name) {
            Some(Row::Keeper(row)) => show_with_client(alloc, row, out)?,
            Some(Row::Text(json)) => show_text(alloc, json, out)?,
            Some(Row::NotTaken(json)) => show_by_client(alloc, json, out)?,
            None => return Err(Ended::Unknown),
        }
        Ok(true)
    }
}

fn show_by_client<W: Write>(alloc: Global, json: &str, out: &mut W) -> Result<(), Ended> {
    let client = client(alloc)?;
    show_not_taken(alloc, &client, json, out)
}

fn show_with_client<W: Write>(alloc: Global, row: KeeperRow, out: &mut W) -> Result<(), Ended> {
    let client = client(alloc)?;
    show_by(alloc, &client, row, out)
}

fn show_by<W: Write>(
    alloc: Global,
    client: &TokenClient,
    row: KeeperRow,
    out: &mut W,
) -> Result<(), Ended> {
    let mut keeper = started(alloc, client, duration(row.margin), row.start)?;
    let was_refused = add_all(alloc, &mut keeper, row.additions);
    let mut keeper = patient(keeper, row);
    show_keeper(alloc, &mut keeper, row, was_refused, out)
}

fn patient<'a>(keeper: BasicTokenKeeper<'a>, row: KeeperRow) -> BasicPatientKeeper<'a> {
    let keeper = keeper
        .set_retry_after(duration(row.wait))
        .heed_retry_after(duration(row.most_wait));
    let mut keeper = match row.expected {
        Expected::Bearer => keeper,
        Expected::Types(token_types) => keeper.expecting_token_types(token_types),
        Expected::Any => keeper.expecting_any_token_type(),
    };
    match row.forgotten {
        Forgotten::Nothing => {}
        Forgotten::Token => keeper.forget_token(),
        Forgotten::RefreshToken => keeper.forget_refresh_token(),
    }
    if row.until_end {
        keeper.use_token_until_end()
    } else {
        keeper
    }
}

// Prints the calls of a keeper, and what it keeps after them. `was_refused` says whether an
// addition to it ran out of memory, and was made again.
fn show_keeper<W: Write>(
    alloc: Global,
    keeper: &mut BasicPatientKeeper<'_>,
    row: KeeperRow,
    was_refused: Result<bool, Ended>,
    out: &mut W,
) -> Result<(), Ended> {
    let was_refused = was_refused?;
    show_calls(alloc, keeper, duration(row.wait), row.calls, out)?;
    show_kept(out, keeper.keeper())?;
    show_stored(alloc, keeper.keeper(), out)?;
    show_lent(alloc, keeper, moment(row.last)?, out)?;
    if was_refused {
        return Err(Ended::from(AllocError));
    }
    Ok(())
}
