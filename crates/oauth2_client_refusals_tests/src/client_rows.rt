//! The rows that need a client.

use crate::clients::{ClientTexts, RowClient, USUAL};
use crate::exchanges::show_exchange;
use crate::keepers::{show_first_token, show_renewed_token};
use crate::logins::show_login;
use crate::polls::{Poll, show_poll};
use crate::post_rows::{PostRow, show_post_row};
use crate::replies::ReplyTexts;
use crate::url_rows::{UrlRow, show_url_row};
use crate::web_logins::show_web_login;
use oauth2_refusals_support::{Ended, find};
use std::alloc::Global;
use std::io::Write;

const WITHOUT_A_SECRET: ClientTexts<'static> = ClientTexts {
    secret: None,
    ..USUAL
};

// The clients that differ from the usual one, each with the name of its row.
const CLIENTS: [(&str, ClientTexts<'static>); 9] = [
    (
        "basic_credentials",
        ClientTexts {
            id: "a:b",
            secret: Some("c+d e"),
            ..USUAL
        },
    ),
    (
        "empty_credentials",
        ClientTexts {
            id: "",
            secret: Some(""),
            ..USUAL
        },
    ),
    ("no_secret", WITHOUT_A_SECRET),
    ("empty_parameter", WITHOUT_A_SECRET),
    ("encoded_parameter", WITHOUT_A_SECRET),
    (
        "endpoint_with_a_query",
        ClientTexts {
            auth_url: "https://example.com/auth?foo=bar",
            ..USUAL
        },
    ),
    (
        "no_target",
        ClientTexts {
            token_url: "data:text/plain,hello",
            ..USUAL
        },
    ),
    (
        "insecure_revocation",
        ClientTexts {
            revocation_url: Some("http://revocation/url"),
            ..USUAL
        },
    ),
    (
        "no_revocation",
        ClientTexts {
            revocation_url: None,
            ..USUAL
        },
    ),
];

/// The texts that the client of a row is made of.
pub fn texts_of(name: &str) -> ClientTexts<'static> {
    find(&CLIENTS, name).unwrap_or(USUAL)
}

/// What a row with a client runs.
#[derive(Clone, Copy)]
pub enum ClientRow {
    Post(PostRow),
    Url(UrlRow),
    Exchange(ReplyTexts<'static>),
    Poll(Poll<'static>),
    Login,
    WebLogin(ReplyTexts<'static>),
    FirstToken,
    RenewedToken,
}

const TOKEN: ReplyTexts<'static> = ReplyTexts {
    status: 200,
    content_type: None,
    body: "{\"access_token\": \"12/34\", \"token_type\": \"BEARER\"}",
};

const PENDING: ReplyTexts<'static> = ReplyTexts {
    status: 400,
    content_type: None,
    body: "{\"error\":\"authorization_pending\"}",
};

const WAITING: Poll<'static> = Poll {
    timeout: None,
    max_polls: 5,
    readings: &[0, 1, 2, 3],
    reply: PENDING,
    replies: 2,
};

const ROWS: [(&str, ClientRow); 35] = [
    ("basic_credentials", ClientRow::Post(PostRow::Credentials)),
    ("empty_credentials", ClientRow::Post(PostRow::Credentials)),
    ("no_secret", ClientRow::Post(PostRow::Credentials)),
    ("device_codes", ClientRow::Post(PostRow::DeviceCodes)),
    (
        "extended_device_codes",
        ClientRow::Post(PostRow::ExtendedDeviceCodes),
    ),
    ("empty_scope", ClientRow::Post(PostRow::Scoped(""))),
    ("empty_scope_in_a_url", ClientRow::Url(UrlRow::EmptyScope)),
    (
        "empty_parameter",
        ClientRow::Post(PostRow::Extended("", "")),
    ),
    (
        "encoded_parameter",
        ClientRow::Post(PostRow::Extended("x y", "é&=")),
    ),
    ("mixed_parameters", ClientRow::Post(PostRow::Mixed)),
    ("refused_buffer", ClientRow::Post(PostRow::Buffer)),
    ("endpoint_with_a_query", ClientRow::Url(UrlRow::Plain)),
    ("other_redirect", ClientRow::Url(UrlRow::OtherRedirect)),
    ("response_type", ClientRow::Url(UrlRow::ResponseType)),
    (
        "created_status",
        ClientRow::Exchange(ReplyTexts {
            status: 201,
            ..TOKEN
        }),
    ),
    (
        "misplaced_pending",
        ClientRow::Poll(Poll {
            reply: ReplyTexts {
                status: 200,
                ..PENDING
            },
            ..WAITING
        }),
    ),
    (
        "media_type_with_a_parameter",
        ClientRow::Exchange(ReplyTexts {
            content_type: Some("APPLICATION/JSON; charset=utf-8"),
            ..TOKEN
        }),
    ),
    (
        "longer_media_type",
        ClientRow::Exchange(ReplyTexts {
            content_type: Some("application/jsonfoo"),
            ..TOKEN
        }),
    ),
    (
        "other_media_type",
        ClientRow::Exchange(ReplyTexts {
            content_type: Some("text/html"),
            ..TOKEN
        }),
    ),
    (
        "empty_error_response",
        ClientRow::Exchange(ReplyTexts {
            status: 500,
            body: "",
            ..TOKEN
        }),
    ),
    ("introspection", ClientRow::Post(PostRow::Introspection)),
    ("revocation", ClientRow::Post(PostRow::Revocation)),
    ("device_token", ClientRow::Post(PostRow::DeviceToken)),
    ("expired_poll", ClientRow::Poll(WAITING)),
    (
        "limited_poll",
        ClientRow::Poll(Poll {
            max_polls: 3,
            readings: &[0],
            replies: 3,
            ..WAITING
        }),
    ),
    (
        "long_timeout",
        ClientRow::Poll(Poll {
            timeout: Some(9_223_372_036_854_775_808),
            ..WAITING
        }),
    ),
    (
        "late_deadline",
        ClientRow::Poll(Poll {
            timeout: Some(9_223_372_036_854_775_807),
            ..WAITING
        }),
    ),
    ("insecure_revocation", ClientRow::Post(PostRow::Revocation)),
    ("no_revocation", ClientRow::Post(PostRow::Revocation)),
    ("no_target", ClientRow::Exchange(TOKEN)),
    ("user_password", ClientRow::Post(PostRow::Password)),
    ("code_flow", ClientRow::Login),
    ("web_login", ClientRow::WebLogin(TOKEN)),
    ("first_token", ClientRow::FirstToken),
    ("renewed_token", ClientRow::RenewedToken),
];

/// The row of this name, if there is one.
pub fn client_row(name: &str) -> Option<ClientRow> {
    find(&ROWS, name)
}

/// Runs a row with its client, and prints the result.
pub fn show_client_row<W: Write>(
    alloc: Global,
    client: &RowClient,
    row: ClientRow,
    out: &mut W,
) -> Result<(), Ended> {
    match row {
        ClientRow::Post(row) => show_post_row(alloc, client, row, out),
        ClientRow::Url(row) => show_url_row(alloc, client, row, out),
        ClientRow::Exchange(reply) => show_exchange(alloc, client, reply, out),
        ClientRow::Poll(poll) => show_poll(alloc, client, &poll, out),
        ClientRow::Login => show_login(alloc, client, out),
        ClientRow::WebLogin(reply) => show_web_login(alloc, client, reply, out),
        ClientRow::FirstToken => show_first_token(alloc, client, out),
        ClientRow::RenewedToken => show_renewed_token(alloc, client, out),
    }
}
