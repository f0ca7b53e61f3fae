//! What becomes of a login by one refresh.

use jiff::Timestamp;
use oauth2::basic::{BasicClient, BasicErrorResponse, BasicTokenResponse};
use oauth2::{
    ClientId, ClientSecret, EndpointNotSet, EndpointSet, ErrorResponse, RefreshToken,
    RequestTokenError, TokenResponse, TokenUrl,
};
use oauth2_shared_keeper::RefreshClient;
use oauth2_shared_login::{
    BEARER, ClientAtEndpoint, ClockAndClient, LoginRefresher, RefreshFault, SharedLogin,
};
use oauth2_tests_support::{NoReply, OneReply, check_text, read, text};
use std::test::*;
use std::time::Duration;

/// A client with a token endpoint.
pub type TokenClient = BasicClient<
    EndpointNotSet,
    EndpointNotSet,
    EndpointNotSet,
    EndpointNotSet,
    EndpointSet,
>;

pub const NEW: &str =
    r#"{"access_token":"t2","token_type":"bearer","expires_in":60,"refresh_token":"r2"}"#;

const WITH_REFRESH_TOKEN: &str =
    r#"{"access_token":"t1","token_type":"bearer","expires_in":5,"refresh_token":"r1"}"#;

const WITHOUT: &str = r#"{"access_token":"t1","token_type":"bearer"}"#;

/// A refresh: the response of the login, its earlier refresh token, the reply, the body that is
/// sent, and what becomes of the login.
struct Row {
    response: &'static str,
    earlier: &'static str,
    reply: (u16, &'static str),
    sent: &'static str,
    becomes: &'static str,
}

const ROWS: &[Row] = &[
    Row {
        response: WITH_REFRESH_TOKEN,
        earlier: "",
        reply: (200, NEW),
        sent: "grant_type=refresh_token&refresh_token=r1",
        becomes: "t2 for 60s, then r2",
    },
    // The refresh token stays where the reply has none (RFC 6749, 6), and so it does the next
    // time.
    Row {
        response: WITH_REFRESH_TOKEN,
        earlier: "r0",
        reply: (200, WITHOUT),
        sent: "grant_type=refresh_token&refresh_token=r1",
        becomes: "t1 for 300s, then r1",
    },
    Row {
        response: WITHOUT,
        earlier: "r0",
        reply: (200, WITHOUT),
        sent: "grant_type=refresh_token&refresh_token=r0",
        becomes: "t1 for 300s, then r0",
    },
    Row {
        response: WITHOUT,
        earlier: "",
        reply: (200, NEW),
        sent: "",
        becomes: "no refresh token",
    },
    Row {
        response: WITH_REFRESH_TOKEN,
        earlier: "",
        reply: (400, r#"{"error":"invalid_grant"}"#),
        sent: "grant_type=refresh_token&refresh_token=r1",
        becomes: "refused by invalid_grant",
    },
];

/// The client of the tests.
pub fn client(rt: &HostRuntime) -> Result<TokenClient, Fail> {
    client_at(rt, "aaa", "https://as.example/token")
}

/// A client with this identifier, at this token endpoint.
pub fn client_at(rt: &HostRuntime, id: &str, endpoint: &str) -> Result<TokenClient, Fail> {
    let id = ClientId::new(text(rt.alloc(), id)?);
    let secret = ClientSecret::new(text(rt.alloc(), "bbb")?);
    let url = TokenUrl::new(rt.alloc(), text(rt.alloc(), endpoint)?)?;
    Ok(
        BasicClient::new(id)
            .set_client_secret(secret)
            .set_token_uri(url),
    )
}

/// A login with this response, which this client got.
pub fn login_of(
    rt: &HostRuntime,
    client: &TokenClient,
    response: &str,
    earlier: &str,
) -> Result<SharedLogin<BasicTokenResponse>, Fail> {
    let response = read(rt.alloc(), response)?;
    let named = ClientAtEndpoint::of(rt.alloc(), client)?;
    let lifetime = Duration::from_secs(300);
    let mut login = SharedLogin::new(response, Timestamp::UNIX_EPOCH, lifetime, named);
    if !earlier.is_empty() {
        let earlier = text(rt.alloc(), earlier)?;
        login.earlier_refresh_token = Some(RefreshToken::new(earlier));
    }
    Ok(login)
}

/// The texts of a login, and how long it is good.
pub fn text_of(rt: &HostRuntime, login: &SharedLogin<BasicTokenResponse>) -> Result<String, Fail> {
    let access_token = login.response.access_token().secret();
    let seconds = login.lifetime.as_secs();
    let refresh_token = match login.refresh_token() {
        Some(refresh_token) => refresh_token.secret().as_str(),
        None => "-",
    };
    Ok(format!(in rt.alloc(); "{access_token} for {seconds}s, then {refresh_token}")?)
}

/// The name of a fault, with what it tells.
pub fn text_of_fault(
    rt: &HostRuntime,
    fault: &RefreshFault<NoReply, BasicErrorResponse, BasicTokenResponse>,
) -> Result<String, Fail> {
    Ok(match fault {
        RefreshFault::OtherClient => text(rt.alloc(), "other client")?,
        RefreshFault::OtherEndpoint => text(rt.alloc(), "other endpoint")?,
        RefreshFault::OtherTokenType(login) => {
            format!(in rt.alloc(); "other type: {}", text_of(rt, login)?)?
        }
        RefreshFault::NoRefreshToken => text(rt.alloc(), "no refresh token")?,
        RefreshFault::Request(RequestTokenError::ServerResponse(response)) => {
            format!(in rt.alloc(); "refused by {}", response.error())?
        }
        RefreshFault::Request(_) => text(rt.alloc(), "another fault")?,
    })
}

/// Refreshes a login by this client, whose server sends this reply; and checks what becomes of it,
/// and the body that is sent.
pub fn check_refresh(
    rt: &HostRuntime,
    client: &TokenClient,
    login: &SharedLogin<BasicTokenResponse>,
    reply: (u16, &str),
    becomes: &str,
    sent: &str,
) -> Result<(), Fail> {
    let (status, body) = reply;
    let world = ClockAndClient {
        time_fn: || Timestamp::UNIX_EPOCH,
        http_client: OneReply::with_body(rt.alloc(), status, body)?,
    };
    let mut refresher = LoginRefresher {
        alloc: rt.alloc(),
        client,
        world,
        default_lifetime: Duration::from_secs(300),
        token_types: BEARER,
    };
    let found = match refresher.refresh(login) {
        Ok(new) => text_of(rt, &new)?,
        Err(fault) => text_of_fault(rt, &fault)?,
    };
    check_text(found.as_str(), becomes)?;
    let body = str::from_utf8(refresher.world.http_client.sent()).unwrap_or("?");
    check_text(body, sent)
}

fn check_row(rt: &HostRuntime, client: &TokenClient, row: &Row) -> Result<(), Fail> {
    let login = login_of(rt, client, row.response, row.earlier)?;
    check_refresh(rt, client, &login, row.reply, row.becomes, row.sent)
}

#[test]
fn refreshes_of_logins(rt: HostRuntime) -> Result<(), Fail> {
    let client = client(&rt)?;
    for row in ROWS {
        check_row(&rt, &client, row)?;
    }
    Ok(())
}
