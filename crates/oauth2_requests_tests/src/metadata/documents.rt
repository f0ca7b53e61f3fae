//! Tests of the replies of servers, and of what a program reads from them.

use oauth2::basic::BasicClient;
use oauth2::{AuthorizationCode, Client, ClientId, ConfigurationError, compact};
use oauth2_metadata::{
    Endpoint, EndpointCause, EndpointError, EndpointFault, MetadataError, MetadataRequest,
    ServerMetadata,
};
use oauth2_tests_support::{
    NoReply, OneReply, check_display, check_equal, check_text, check_written, read, text,
};
use std::alloc::{AllocError, Global};
use std::test::Fail;

// The example of RFC 8414, section 3.2.
const EXAMPLE: &str = r#"{"issuer":"https://server.example.com",
"authorization_endpoint":"https://server.example.com/authorize",
"token_endpoint":"https://server.example.com/token",
"token_endpoint_auth_methods_supported":["client_secret_basic","private_key_jwt"],
"token_endpoint_auth_signing_alg_values_supported":["RS256","ES256"],
"userinfo_endpoint":"https://server.example.com/userinfo",
"jwks_uri":"https://server.example.com/jwks.json",
"registration_endpoint":"https://server.example.com/register",
"scopes_supported":["openid","profile","email","address","phone","offline_access"],
"response_types_supported":["code","code token"],
"service_documentation":"http://server.example.com/service_documentation.html",
"ui_locales_supported":["en-US","en-GB","en-CA","fr-FR","fr-CA"]}"#;

// Requests the metadata of the example's issuer.
fn request(
    alloc: Global,
    http_client: &mut OneReply,
) -> Result<Result<ServerMetadata, MetadataError<NoReply>>, Fail> {
    let issuer = text(alloc, "https://server.example.com")?;
    Ok(MetadataRequest::new(alloc, issuer)?.request(alloc, http_client))
}

// Checks the members of the example.
fn check_example(metadata: &ServerMetadata) -> Result<(), Fail> {
    check_text(metadata.issuer(), "https://server.example.com")?;
    let keys = metadata.jwks_uri().unwrap_or("");
    check_text(keys, "https://server.example.com/jwks.json")?;
    let languages = metadata.ui_locales_supported().ok_or("no languages")?;
    check_equal(languages.len(), 5)?;
    check_equal(metadata.grant_types_supported().is_none(), true)?;
    check_equal(
        metadata.authorization_response_iss_parameter_supported(),
        false,
    )?;
    let user = metadata
        .extra_fields()
        .text("userinfo_endpoint")
        .unwrap_or("");
    check_text(user, "https://server.example.com/userinfo")
}

#[test]
fn example(rt: HostRuntime) -> Result<(), Fail> {
    let mut http_client = OneReply::with_body(rt.alloc(), 200, EXAMPLE)?;
    let metadata = request(rt.alloc(), &mut http_client)??;
    check_equal(http_client.calls, 1)?;
    check_example(&metadata)?;

    // The metadata is written as JSON that is read as the same metadata.
    let written = compact(rt.alloc(), &metadata)?;
    let again: ServerMetadata = read(rt.alloc(), written.as_str())?;
    check_written(rt.alloc(), &again, written.as_str())
}

fn new_client(alloc: Global) -> Result<BasicClient, AllocError> {
    Ok(Client::new(ClientId::new(text(alloc, "aaa")?)))
}

fn check_token_endpoint(alloc: Global, metadata: &ServerMetadata) -> Result<(), Fail> {
    let client = metadata.endpoints_of(alloc, new_client(alloc)?)?;
    let token = client.token_uri().ok_or("no URL")?;
    check_text(token.as_str(), "https://server.example.com/token")
}

fn check_code_exchange(alloc: Global, metadata: &ServerMetadata) -> Result<(), Fail> {
    let client = metadata.endpoints_of(alloc, new_client(alloc)?)?;
    let code = AuthorizationCode::new(text(alloc, "abc")?);
    check_equal(client.exchange_code(alloc, code).is_ok(), true)
}

fn check_no_device_endpoint(alloc: Global, metadata: &ServerMetadata) -> Result<(), Fail> {
    let client = metadata.endpoints_of(alloc, new_client(alloc)?)?;
    match client.exchange_device_code(alloc) {
        Err(ConfigurationError::MissingUrl(name)) => check_text(name, "device authorization"),
        _ => Err(Fail::new("an endpoint that is not told")),
    }
}

#[test]
fn endpoints(rt: HostRuntime) -> Result<(), Fail> {
    let metadata: ServerMetadata = read(rt.alloc(), EXAMPLE)?;
    check_token_endpoint(rt.alloc(), &metadata)?;
    check_code_exchange(rt.alloc(), &metadata)?;
    check_no_device_endpoint(rt.alloc(), &metadata)
}

fn check_login_client(alloc: Global, metadata: &ServerMetadata) -> Result<(), Fail> {
    let client = metadata.login_client_of(alloc, new_client(alloc)?)?;
    check_text(
        client.auth_uri().as_str(),
        "https://server.example.com/authorize",
    )?;
    check_text(
        client.token_uri().as_str(),
        "https://server.example.com/token",
    )
}

fn check_token_client(alloc: Global, metadata: &ServerMetadata) -> Result<(), Fail> {
    let client = metadata.token_client_of(alloc, new_client(alloc)?)?;
    check_text(
        client.token_uri().as_str(),
        "https://server.example.com/token",
    )
}

fn check_no_device_client(alloc: Global, metadata: &ServerMetadata) -> Result<(), Fail> {
    let client = metadata.device_client_of(alloc, new_client(alloc)?);
    let error = client.err().ok_or("no error")?;
    check_equal(error, EndpointError::Missing(Endpoint::DeviceAuthorization))?;
    check_display(
        alloc,
        &error,
        "metadata has no device_authorization_endpoint",
    )
}

#[test]
fn clients_for_a_task(rt: HostRuntime) -> Result<(), Fail> {
    let metadata: ServerMetadata = read(rt.alloc(), EXAMPLE)?;
    check_login_client(rt.alloc(), &metadata)?;
    check_token_client(rt.alloc(), &metadata)?;
    check_no_device_client(rt.alloc(), &metadata)
}

// Endpoints that no client may call (RFC 6749, sections 3.1 and 3.2; RFC 7009, section 2).
const REFUSED: [(&str, Endpoint, EndpointCause); 6] = [
    (
        r#"{"issuer":"i","authorization_endpoint":"http://a.example"}"#,
        Endpoint::Authorization,
        EndpointCause::NotHttps,
    ),
    (
        r#"{"issuer":"i","token_endpoint":"https://a.example/#"}"#,
        Endpoint::Token,
        EndpointCause::HasFragment,
    ),
    (
        r#"{"issuer":"i","device_authorization_endpoint":"ftp://localhost/#"}"#,
        Endpoint::DeviceAuthorization,
        EndpointCause::NotHttps,
    ),
    (
        r#"{"issuer":"i","introspection_endpoint":"http://128.0.0.1"}"#,
        Endpoint::Introspection,
        EndpointCause::NotHttps,
    ),
    (
        r#"{"issuer":"i","revocation_endpoint":"https://a.example#a"}"#,
        Endpoint::Revocation,
        EndpointCause::HasFragment,
    ),
    (
        r#"{"issuer":"j","revocation_endpoint":"a:b","token_endpoint":"http://[::2]"}"#,
        Endpoint::Token,
        EndpointCause::NotHttps,
    ),
];

fn check_refused(alloc: Global, body: &str, wanted: EndpointFault) -> Result<(), Fail> {
    let metadata: ServerMetadata = read(alloc, body)?;
    let client = metadata.login_client_of(alloc, new_client(alloc)?);
    check_equal(client.err(), Some(EndpointError::Refused(wanted)))
}

#[test]
fn refused_endpoints(rt: HostRuntime) -> Result<(), Fail> {
    for (body, endpoint, cause) in REFUSED {
        check_refused(rt.alloc(), body, EndpointFault { endpoint, cause })?;
    }
    Ok(())
}

// Replies that are errors by their status (RFC 8414, section 3.2; RFC 9110, section 15.4).
const STATUSES: [(u16, &str); 5] = [
    (404, "<html>"),
    (500, ""),
    (304, "{}"),
    (302, r#"{"error":"a"}"#),
    (308, EXAMPLE),
];

// Checks that a reply with this status and this body is returned as it came.
fn check_status(alloc: Global, status: u16, body: &str) -> Result<(), Fail> {
    let mut http_client = OneReply::with_body(alloc, status, body)?;
    match request(alloc, &mut http_client)? {
        Err(MetadataError::Status(reply)) => {
            check_equal(reply.status, status)?;
            check_equal(reply.body.as_slice(), body.as_bytes())
        }
        _ => Err(Fail::new("no status")),
    }
}

#[test]
fn statuses(rt: HostRuntime) -> Result<(), Fail> {
    for (status, body) in STATUSES {
        check_status(rt.alloc(), status, body)?;
    }
    Ok(())
}
