//! A resource server that introspects the tokens it receives (RFC 7662). Its authorization server
//! adds the member `tenant` to the response, which the standard doesn't name.

ghost use Rattle.std.specs.Prelude.{codes};

use crate::canned_client::CannedClient;
use oauth2::basic::{
    BasicErrorResponse, BasicRevocationErrorResponse, BasicTokenResponse, BasicTokenType,
};
use oauth2::url::ParseError;
use oauth2::{
    AccessToken, Client, ClientId, ClientSecret, EndpointNotSet, EndpointSet, IntrospectionUrl,
    NamedMember, StandardRevocableToken, StandardTokenIntrospectionResponse,
    TokenIntrospectionResponse, WithMember,
};
use std::alloc::Global;

/// The member `tenant`: whose data the token gives access to.
struct Tenant;

impl NamedMember for Tenant {
    type Value = String;

    ghost name = { codes "tenant" };

    fn name() -> &'static str {
        "tenant"
    }
}

type TenantFields = WithMember<Tenant>;

type Introspection = StandardTokenIntrospectionResponse<TenantFields, BasicTokenType>;

type ResourceClient = Client<
    BasicErrorResponse,
    BasicTokenResponse,
    Introspection,
    StandardRevocableToken,
    BasicRevocationErrorResponse,
    EndpointNotSet,
    EndpointNotSet,
    EndpointSet,
>;

fn client(alloc: Global) -> Result<ResourceClient, ParseError> {
    let id = ClientId::from_str(alloc, "api")?;
    let secret = ClientSecret::from_str(alloc, "s3cret")?;
    let url = IntrospectionUrl::parse(alloc, "https://as.example/introspect")?;
    Ok(
        Client::new(id)
            .set_client_secret(secret)
            .set_introspection_url(url),
    )
}

/// The HTTP status of the reply for this introspection response, and the tenant whose data may be
/// read.
fn verdict(found: &Introspection) -> (u16, Option<&String>) {
    let may_read = found.scopes().is_some_and(|scopes| scopes
        .iter()
        .any(|scope| scope.as_str() == "read"));
    match found.extra_fields().value() {
        _ if !found.active() => (401, None),
        Some(tenant) if may_read => (200, Some(tenant)),
        _ => (403, None),
    }
}

/// Answers a request with this Authorization value.
fn answer(
    rt: &HostRuntime,
    client: &ResourceClient,
    http_client: &mut CannedClient<'_>,
    authorization: &str,
) -> anyhow::Result<()> {
    let alloc = rt.alloc();
    let Some(token) = authorization.strip_prefix("Bearer ") else {
        println!(rt; "{authorization}: 401")?;
        return Ok(());
    };
    let token = AccessToken::from_str(alloc, token)?;
    let found = client
        .introspect(alloc, &token)
        .request(alloc, http_client)?;
    let (status, tenant) = verdict(&found);
    println!(rt; "{authorization}: {status} {tenant:?}")?;
    Ok(())
}

fn run(rt: &HostRuntime, client: &ResourceClient) -> anyhow::Result<()> {
    let replies = [
        (
            200,
            r#"{"active":true,"scope":"read write","tenant":"acme"}"#,
        ),
        (200, r#"{"active":true,"scope":"write","tenant":"acme"}"#),
        (200, r#"{"active":false}"#),
    ];
    let mut http_client = CannedClient::new(rt.alloc(), &replies);
    for value in ["Bearer one", "Bearer two", "Bearer three", "Basic YQ=="] {
        answer(rt, client, &mut http_client, value)?;
    }
    Ok(())
}

/// Answers four requests, and prints the status of each reply.
pub fn main(rt: HostRuntime) -> anyhow::Result<()> {
    run(&rt, &client(rt.alloc())?)
}
