//! The requests of OAuth 2.0, one for each command, and their answers as JSON.

use crate::over_connection::HttpClient;
use crate::over_connection::fault::Fault;
use crate::over_connection::settings::Settings;
use oauth2::basic::BasicClient;
use oauth2::{
    EndpointNotSet, EndpointSet, RefreshToken, RequestTokenError, ResourceOwnerPassword,
    ResourceOwnerUsername, StandardRevocableToken, ToJson,
};
use serde_json::{Value, json};
use std::alloc::Global;
use std::fmt::Display;

/// A client with a token endpoint.
pub type TokenClient = BasicClient<
    EndpointNotSet,
    EndpointNotSet,
    EndpointNotSet,
    EndpointNotSet,
    EndpointSet,
>;

/// A client with a revocation endpoint.
type RevocationClient = BasicClient<
    EndpointNotSet,
    EndpointNotSet,
    EndpointNotSet,
    EndpointSet,
    EndpointNotSet,
>;

// The answer as JSON, or the fault for a failed request.
fn answered<T: ToJson + Drop, E: Display + Drop, R: Display + ToJson + Drop>(
    alloc: Global,
    end: Result<T, RequestTokenError<E, R>>,
) -> Result<Value, Fault> {
    match end {
        Ok(answer) => match answer.to_json(alloc) {
            Ok(value) => Ok(value),
            Err(error) => Err(Fault::unanswered(alloc, &error)),
        },
        Err(error) => Err(Fault::of_request(alloc, &error)),
    }
}

/// Makes the client of the settings, with the setting `token_url` as its token endpoint.
pub fn token_client(settings: &mut Settings<'_>) -> Result<TokenClient, Fault> {
    let token_url = settings.needed("token_url")?;
    Ok(settings.client()?.set_token_uri(token_url))
}

/// A token for the client itself (RFC 6749, section 4.4).
pub fn client_credentials(
    settings: &mut Settings<'_>,
    http_client: &mut HttpClient,
) -> Result<Value, Fault> {
    let alloc = settings.alloc();
    let scopes = settings.scopes()?;
    let client = token_client(settings)?;
    let request = client
        .exchange_client_credentials(alloc)
        .add_scopes(scopes)?;
    answered(alloc, request.request(alloc, http_client))
}

/// A token for a user's name and password (RFC 6749, section 4.3).
pub fn password(settings: &mut Settings<'_>, http_client: &mut HttpClient) -> Result<Value, Fault> {
    let username = settings.needed("username")?;
    let password = settings.password()?;
    let client = token_client(settings)?;
    exchange_password(settings, &client, &username, &password, http_client)
}

fn exchange_password(
    settings: &mut Settings<'_>,
    client: &TokenClient,
    username: &ResourceOwnerUsername,
    password: &ResourceOwnerPassword,
    http_client: &mut HttpClient,
) -> Result<Value, Fault> {
    let alloc = settings.alloc();
    let scopes = settings.scopes()?;
    let request = client
        .exchange_password(alloc, username, password)
        .add_scopes(scopes)?;
    answered(alloc, request.request(alloc, http_client))
}

/// A token for the code of a redirect (RFC 6749, section 4.1.3; RFC 7636, section 4.5).
pub fn code(settings: &mut Settings<'_>, http_client: &mut HttpClient) -> Result<Value, Fault> {
    let client = token_client(settings)?;
    exchange_code(settings, &client, http_client)
}

fn exchange_code(
    settings: &mut Settings<'_>,
    client: &TokenClient,
    http_client: &mut HttpClient,
) -> Result<Value, Fault> {
    let alloc = settings.alloc();
    let mut request = client.exchange_code(alloc, settings.needed("code")?);
    if let Some(verifier) = settings.optional("verifier")? {
        request = request.set_pkce_verifier(verifier);
    }
    answered(alloc, request.request(alloc, http_client))
}

/// A token for a refresh token (RFC 6749, section 6).
pub fn refresh(settings: &mut Settings<'_>, http_client: &mut HttpClient) -> Result<Value, Fault> {
    let refresh_token = settings.needed("refresh_token")?;
    let client = token_client(settings)?;
    exchange_refresh_token(settings, &client, &refresh_token, http_client)
}

fn exchange_refresh_token(
    settings: &mut Settings<'_>,
    client: &TokenClient,
    refresh_token: &RefreshToken,
    http_client: &mut HttpClient,
) -> Result<Value, Fault> {
    let alloc = settings.alloc();
    let scopes = settings.scopes()?;
    let request = client
        .exchange_refresh_token(alloc, refresh_token)
        .add_scopes(scopes)?;
    answered(alloc, request.request(alloc, http_client))
}

/// Introspects a token: whether it is active, and its other members (RFC 7662, section 2).
pub fn introspect(
    settings: &mut Settings<'_>,
    http_client: &mut HttpClient,
) -> Result<Value, Fault> {
    let alloc = settings.alloc();
    let endpoint = settings.needed("introspection_url")?;
    let token = settings.needed("token")?;
    let client = settings.client()?.set_introspection_url(endpoint);
    answered(
        alloc,
        client.introspect(alloc, &token).request(alloc, http_client),
    )
}

/// Revokes an access token (RFC 7009, section 2). The endpoint needs an `https` URL.
pub fn revoke(settings: &mut Settings<'_>, http_client: &mut HttpClient) -> Result<Value, Fault> {
    let endpoint = settings.needed("revocation_url")?;
    let client = settings.client()?.set_revocation_url(endpoint);
    revoke_token(settings, &client, http_client)
}

fn revoke_token(
    settings: &mut Settings<'_>,
    client: &RevocationClient,
    http_client: &mut HttpClient,
) -> Result<Value, Fault> {
    let alloc = settings.alloc();
    let token = StandardRevocableToken::AccessToken(settings.needed("token")?);
    match client.revoke_token(alloc, token) {
        Ok(request) => revoked(alloc, request.request(alloc, http_client)),
        Err(error) => Err(Fault::unanswered(alloc, &error)),
    }
}

// The answer to print for a revocation, whose reply has no members (RFC 7009, section 2.2).
fn revoked<E: Display + Drop, R: Display + ToJson + Drop>(
    alloc: Global,
    end: Result<(), RequestTokenError<E, R>>,
) -> Result<Value, Fault> {
    match end {
        Ok(()) => Ok(json!(in alloc; {"revoked": true})?),
        Err(error) => Err(Fault::of_request(alloc, &error)),
    }
}
