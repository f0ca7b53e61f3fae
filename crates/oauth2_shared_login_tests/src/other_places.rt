//! Logins of another client, of another token endpoint, or with a token of another type.

use crate::refreshes::{check_refresh, client, client_at, login_of};
use oauth2_shared_login::ClientAtEndpoint;
use oauth2_tests_support::{check, check_written, read};
use std::test::*;

/// The response that a login is kept with.
const KEPT: &str =
    r#"{"access_token":"t1","token_type":"bearer","expires_in":5,"refresh_token":"r1"}"#;

/// The body of the only request.
const SENT: &str = "grant_type=refresh_token&refresh_token=r1";

const BEARER_REPLY: &str =
    r#"{"access_token":"t2","token_type":"BeaReR","expires_in":60,"refresh_token":"r2"}"#;

/// A login that is kept for a client and its token endpoint, the reply to a refresh by the client
/// `aaa` at `https://as.example/token`, what becomes of the login, and the body that is sent.
struct Row {
    client_id: &'static str,
    endpoint: &'static str,
    reply: &'static str,
    becomes: &'static str,
    sent: &'static str,
}

const ROWS: &[Row] = &[
    Row {
        client_id: "aaa",
        endpoint: "https://as.example/token",
        reply: BEARER_REPLY,
        becomes: "t2 for 60s, then r2",
        sent: SENT,
    },
    // The same URL, as requests go to it (RFC 3986, 6.2).
    Row {
        client_id: "aaa",
        endpoint: "HTTPS://AS.example:443/token",
        reply: BEARER_REPLY,
        becomes: "t2 for 60s, then r2",
        sent: SENT,
    },
    Row {
        client_id: "AAA",
        endpoint: "https://as.example/token",
        reply: BEARER_REPLY,
        becomes: "other client",
        sent: "",
    },
    Row {
        client_id: "aaa",
        endpoint: "https://as.example/token2",
        reply: BEARER_REPLY,
        becomes: "other endpoint",
        sent: "",
    },
    Row {
        client_id: "aaa",
        endpoint: "https://evil.example/token",
        reply: BEARER_REPLY,
        becomes: "other endpoint",
        sent: "",
    },
    Row {
        client_id: "aab",
        endpoint: "https://evil.example/token",
        reply: BEARER_REPLY,
        becomes: "other client",
        sent: "",
    },
    // A token that must not be used as a bearer token (RFC 6749, 7.1; RFC 9449, 5). The new refresh
    // token is there.
    Row {
        client_id: "aaa",
        endpoint: "https://as.example/token",
        reply: r#"{"access_token":"t2","token_type":"DPoP","expires_in":60,"refresh_token":"r2"}"#,
        becomes: "other type: t2 for 60s, then r2",
        sent: SENT,
    },
    Row {
        client_id: "aaa",
        endpoint: "https://as.example/token",
        reply: r#"{"access_token":"t2","token_type":"mac"}"#,
        becomes: "other type: t2 for 300s, then r1",
        sent: SENT,
    },
];

fn check_row(rt: &HostRuntime, row: &Row) -> Result<(), Fail> {
    let client = client(rt)?;
    let other = client_at(rt, row.client_id, row.endpoint)?;
    let login = login_of(rt, &other, KEPT, "")?;
    check_refresh(rt, &client, &login, (200, row.reply), row.becomes, row.sent)
}

#[test]
fn refresh_tokens_go_to_their_server_alone(rt: HostRuntime) -> Result<(), Fail> {
    for row in ROWS {
        check_row(&rt, row)?;
    }
    Ok(())
}

/// What a store keeps of the client of a login, if its endpoint is `HTTPS://AS.example:443/token`.
const NAMED: &str = r#"{"client_id":"aaa","token_url":"https://as.example/token"}"#;

#[test]
fn a_client_is_named_in_json(rt: HostRuntime) -> Result<(), Fail> {
    let client = client_at(&rt, "aaa", "HTTPS://AS.example:443/token")?;
    let named = ClientAtEndpoint::of(rt.alloc(), &client)?;
    check_written(rt.alloc(), &named, NAMED)?;
    let read: ClientAtEndpoint = read(rt.alloc(), NAMED)?;
    check(read.is_client(client.client_id()), "the client")?;
    check(read.is_endpoint(client.token_uri()), "the endpoint")?;
    let other = client_at(&rt, "aab", "https://as.example/token/")?;
    check(!read.is_client(other.client_id()), "another client")?;
    check(!read.is_endpoint(other.token_uri()), "another endpoint")
}
