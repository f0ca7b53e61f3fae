//! Tests of clients: how they are made and copied, and the URL of a login.

use crate::support::check_debug_in_lines;
use oauth2::basic::BasicClient;
use oauth2::url::Url;
use oauth2::{
    AuthUrl, AuthorizationRequest, Client, ClientId, ClientSecret, CsrfToken, EndpointMaybeSet,
    EndpointNotSet, EndpointSet, ReplyRule, TokenUrl, TryClone,
};
use oauth2_tests_support::{check_debug, check_equal, check_text, text};
use std::alloc::Global;
use std::test::Fail;

type PlainClient<HasAuthUrl = EndpointNotSet, HasTokenUrl = EndpointNotSet> = BasicClient<
    HasAuthUrl,
    EndpointNotSet,
    EndpointNotSet,
    EndpointNotSet,
    HasTokenUrl,
>;

type CodeClient = PlainClient<EndpointSet, EndpointSet>;

fn auth_url(alloc: Global) -> Result<AuthUrl, Fail> {
    Ok(AuthUrl::new(alloc, text(alloc, "https://example.com/auth")?)?)
}

fn token_url(alloc: Global) -> Result<TokenUrl, Fail> {
    Ok(TokenUrl::new(alloc, text(alloc, "https://example.com/token")?)?)
}

// A client with a secret and without endpoints.
fn plain_client(alloc: Global) -> Result<PlainClient, Fail> {
    let secret = ClientSecret::new(text(alloc, "bbb")?);
    let client: PlainClient = Client::new(ClientId::new(text(alloc, "aaa")?));
    Ok(client.set_client_secret(secret))
}

fn client(alloc: Global) -> Result<CodeClient, Fail> {
    let auth_url = auth_url(alloc)?;
    let token_url = token_url(alloc)?;
    let client = plain_client(alloc)?;
    Ok(client.set_auth_uri(auth_url).set_token_uri(token_url))
}

fn check_client(client: &CodeClient, rule: ReplyRule) -> Result<(), Fail> {
    check_text(client.client_id().as_str(), "aaa")?;
    check_text(client.token_uri().as_str(), "https://example.com/token")?;
    check_equal(client.reply_rule(), rule)
}

// Checks that the getters of the client and of its copy return the same.
fn check_client_and_copy(alloc: Global, client: &CodeClient, rule: ReplyRule) -> Result<(), Fail> {
    check_client(client, rule)?;
    let copy = client.try_clone(alloc)?;
    check_client(&copy, rule)
}

fn login<'a>(alloc: Global, client: &'a CodeClient) -> Result<AuthorizationRequest<'a>, Fail> {
    let state = CsrfToken::new(text(alloc, "csrf_token")?);
    Ok(client.authorize_url(alloc, move || state))
}

fn check_url_and_state(made: &Url, state: &CsrfToken, url: &str) -> Result<(), Fail> {
    check_text(made.as_str(), url)?;
    check_text(state.secret().as_str(), "csrf_token")
}

fn check_login_url(
    alloc: Global,
    request: AuthorizationRequest<'_>,
    url: &str,
) -> Result<(), Fail> {
    let (made, state) = request.url(alloc)?;
    check_url_and_state(&made, &state, url)
}

fn check_implicit_flow_url(alloc: Global, client: &CodeClient, url: &str) -> Result<(), Fail> {
    let request = login(alloc, client)?.use_implicit_flow();
    check_login_url(alloc, request, url)
}

#[test]
fn client_its_copies_and_its_implicit_flow(rt: HostRuntime) -> Result<(), Fail> {
    let client = client(rt.alloc())?;
    check_client_and_copy(rt.alloc(), &client, ReplyRule::Prefix)?;
    check_implicit_flow_url(
        rt.alloc(),
        &client,
        "https://example.com/auth?response_type=token&client_id=aaa&state=csrf_token",
    )?;
    let client = client.set_reply_rule(ReplyRule::MediaType);
    check_client_and_copy(rt.alloc(), &client, ReplyRule::MediaType)
}

// The debug text is that of the Rust crate, except that the Rust crate's last field is `phantom` in
// place of `reply_rule`.
#[test]
fn client_in_debug(rt: HostRuntime) -> Result<(), Fail> {
    let client = client(rt.alloc())?;
    check_debug(
        rt.alloc(),
        &client,
        "Client { client_id: ClientId(\"aaa\"), client_secret: Some(ClientSecret([redacted])), \
         auth_url: Some(AuthUrl(\"https://example.com/auth\")), auth_type: BasicAuth, \
         token_url: Some(TokenUrl(\"https://example.com/token\")), redirect_url: None, \
         introspection_url: None, revocation_url: None, device_authorization_url: None, \
         reply_rule: Prefix }",
    )?;
    check_debug_in_lines(
        rt.alloc(),
        &client,
        "Client {\n    client_id: ClientId(\n        \"aaa\",\n    ),\n    \
         client_secret: Some(\n        ClientSecret([redacted]),\n    ),\n    \
         auth_url: Some(\n        AuthUrl(\n            \
         \"https://example.com/auth\",\n        ),\n    ),\n    auth_type: BasicAuth,\n    \
         token_url: Some(\n        TokenUrl(\n            \"https://example.com/token\",\n        \
         ),\n    ),\n    redirect_url: None,\n    introspection_url: None,\n    \
         revocation_url: None,\n    device_authorization_url: None,\n    reply_rule: Prefix,\n}",
    )
}

#[test]
fn copies_of_endpoint_states(rt: HostRuntime) -> Result<(), Fail> {
    EndpointNotSet.try_clone(rt.alloc())?;
    EndpointSet.try_clone(rt.alloc())?;
    EndpointMaybeSet.try_clone(rt.alloc())?;
    Ok(())
}
