//! The examples of RFC 8707. Our requests have the same parameters as these, in an order of their
//! own: a code comes before `redirect_uri`. A space in a scope is a plus sign.

use crate::checks::{check_authorization, check_sent};
use crate::resource_indicators::sender::{Sender, authorization, check_url, client, with_both};
use oauth2::{AuthorizationCode, AuthorizationRequest, HttpRequest, RefreshToken, Scope};
use oauth2_resource_indicators::ResourceIndicators;
use oauth2_tests_support::text;
use std::alloc::Global;
use std::test::Fail;

// Section 2.1, figure 1, by the client of the other examples: the implicit grant.
#[test]
fn an_implicit_grant(rt: HostRuntime) -> Result<(), Fail> {
    let alloc = rt.alloc();
    let client = client(alloc)?;
    let request = authorization(alloc, &client, "XzZaJlcwYew1u0QBrRv_Gw")?
        .use_implicit_flow()
        .add_resource("https://api.example.com/app/".into())?;
    check_url(
        alloc,
        request,
        "https://authorization-server.example.com/as/authorization.oauth2?response_type=token\
&client_id=s6BhdRkqt3&state=XzZaJlcwYew1u0QBrRv_Gw\
&redirect_uri=https%3A%2F%2Fclient.example.org%2Fcb\
&resource=https%3A%2F%2Fapi.example.com%2Fapp%2F",
    )
}

// A request with two scopes.
fn with_scopes(alloc: Global, client: &Sender) -> Result<AuthorizationRequest<'_>, Fail> {
    let calendar = Scope::new(text(alloc, "calendar")?);
    let contacts = Scope::new(text(alloc, "contacts")?);
    let request = authorization(alloc, client, "tNwzQ87pC6llebpmac_IDeeq-mCR2wLDYljHUZUAWuI")?
        .add_scope(calendar)?
        .add_scope(contacts)?;
    Ok(request)
}

// Section 2.1, figure 2: a code for two resources.
#[test]
fn an_authorization(rt: HostRuntime) -> Result<(), Fail> {
    let alloc = rt.alloc();
    let client = client(alloc)?;
    let request = with_both(with_scopes(alloc, &client)?)?;
    check_url(
        alloc,
        request,
        "https://authorization-server.example.com/as/authorization.oauth2?response_type=code\
&client_id=s6BhdRkqt3&state=tNwzQ87pC6llebpmac_IDeeq-mCR2wLDYljHUZUAWuI\
&redirect_uri=https%3A%2F%2Fclient.example.org%2Fcb&scope=calendar+contacts\
&resource=https%3A%2F%2Fcal.example.com%2F&resource=https%3A%2F%2Fcontacts.example.com%2F",
    )
}

fn exchange_code(alloc: Global, client: &Sender) -> Result<HttpRequest, Fail> {
    let code = AuthorizationCode::new(text(alloc, "10esc29BWC2qZB0acc9v8zAv9ltc2pko105tQauZ")?);
    let request = client
        .exchange_code(alloc, code)
        .add_resource("https://cal.example.com/".into())?
        .prepare_request(alloc)?;
    Ok(request)
}

// Checks the body and the header of the exchange.
fn check_code(request: &HttpRequest) -> Result<(), Fail> {
    check_sent(
        request,
        "grant_type=authorization_code&code=10esc29BWC2qZB0acc9v8zAv9ltc2pko105tQauZ\
&redirect_uri=https%3A%2F%2Fclient.example.org%2Fcb&resource=https%3A%2F%2Fcal.example.com%2F",
    )?;
    check_authorization(
        request,
        b"Basic czZCaGRSa3F0Mzpoc3FFelFsVW9IQUU5cHg0RlNyNHlJ",
    )
}

// Section 2.2, figure 3: the code, for one of them.
#[test]
fn a_code(rt: HostRuntime) -> Result<(), Fail> {
    let alloc = rt.alloc();
    let client = client(alloc)?;
    let request = exchange_code(alloc, &client)?;
    check_code(&request)
}

fn check_refresh_token(alloc: Global, client: &Sender) -> Result<(), Fail> {
    let token = RefreshToken::new(text(alloc, "4LTC8lb0acc6Oy4esc1Nk9BWC0imAwH7kic16BDC2")?);
    let request = client
        .exchange_refresh_token(alloc, &token)
        .add_resource("https://contacts.example.com/".into())?
        .prepare_request(alloc)?;
    check_sent(
        &request,
        "grant_type=refresh_token&refresh_token=4LTC8lb0acc6Oy4esc1Nk9BWC0imAwH7kic16BDC2\
&resource=https%3A%2F%2Fcontacts.example.com%2F",
    )
}

// Section 2.2, figure 5: the refresh token, for the other one. To the byte.
#[test]
fn a_refresh_token(rt: HostRuntime) -> Result<(), Fail> {
    let client = client(rt.alloc())?;
    check_refresh_token(rt.alloc(), &client)
}
