//! By which route a user logs in.

use oauth2::basic::{
    BasicClient, BasicErrorResponse, BasicRevocationErrorResponse, BasicTokenIntrospectionResponse,
    BasicTokenResponse,
};
use oauth2::{ClientId, StandardRevocableToken};
use oauth2_metadata::{Endpoint, EndpointCause, EndpointError, ServerMetadata};
use oauth2_pushed_login::{LoginRoute, LoginRouteError, PushMetadata, PushPreference, login_route};
use oauth2_tests_support::{check_display, check_equal, check_text, read, text};
use std::alloc::Global;
use std::test::Fail;

// The route of a client with the basic replies.
type Route = LoginRoute<
    BasicErrorResponse,
    BasicTokenResponse,
    BasicTokenIntrospectionResponse,
    StandardRevocableToken,
    BasicRevocationErrorResponse,
>;

// Metadata that have these members and the endpoints of a login.
fn metadata(alloc: Global, members: &str) -> Result<ServerMetadata<PushMetadata>, Fail> {
    let body = format!(in alloc;
        r#"{{"issuer":"https://as.example.com",
"authorization_endpoint":"https://as.example.com/authorize"{members}}}"#
    )?;
    Ok(read(alloc, body.as_str())?)
}

/// The route by metadata that have these members and the endpoints of a login.
pub(crate) fn route(
    alloc: Global,
    members: &str,
    preference: PushPreference,
) -> Result<Result<Route, LoginRouteError>, Fail> {
    let id = ClientId::new(text(alloc, "s6BhdRkqt3")?);
    let metadata = metadata(alloc, members)?;
    Ok(login_route(alloc, &metadata, BasicClient::new(id), preference))
}

const TOKEN: &str = r#","token_endpoint":"https://as.example.com/token""#;

const PUSH: &str = r#","pushed_authorization_request_endpoint":"https://as.example.com/as/par""#;

const REQUIRED: &str = r#","require_pushed_authorization_requests":true"#;

// Checks where the client pushes, which is empty if it does not, and one of its endpoints.
fn check_client(found: &Route, wanted: &str) -> Result<(), Fail> {
    match found {
        LoginRoute::ByUrl(client) => {
            check_text("", wanted)?;
            check_text(
                client.auth_uri().as_str(),
                "https://as.example.com/authorize",
            )
        }
        LoginRoute::ByPush(pushing) => {
            check_text(pushing.endpoint().as_str(), wanted)?;
            check_text(
                pushing.client().token_uri().as_str(),
                "https://as.example.com/token",
            )
        }
    }
}

fn check_route(
    alloc: Global,
    (push, required, preference): (&str, &str, PushPreference),
    wanted: &str,
) -> Result<(), Fail> {
    let members = format!(in alloc; "{TOKEN}{push}{required}")?;
    let found = route(alloc, members.as_str(), preference)??;
    check_client(&found, wanted)
}

#[test]
fn routes(rt: HostRuntime) -> Result<(), Fail> {
    let endpoint = "https://as.example.com/as/par";
    let here = r#","pushed_authorization_request_endpoint":"http://[::1]/par""#;
    for (row, wanted) in [
        (("", "", PushPreference::WherePossible), ""),
        (("", "", PushPreference::WhereRequired), ""),
        ((PUSH, "", PushPreference::WherePossible), endpoint),
        ((PUSH, "", PushPreference::WhereRequired), ""),
        ((PUSH, REQUIRED, PushPreference::WherePossible), endpoint),
        ((PUSH, REQUIRED, PushPreference::WhereRequired), endpoint),
        (
            (here, "", PushPreference::WherePossible),
            "http://[::1]/par",
        ),
    ] {
        check_route(rt.alloc(), row, wanted)?;
    }
    Ok(())
}

// Why metadata with these members give no route.
fn refusal(alloc: Global, members: &str) -> Result<LoginRouteError, Fail> {
    match route(alloc, members, PushPreference::WhereRequired)? {
        Ok(_) => Err(Fail::new(format_args!("a route by {members}"))),
        Err(error) => Ok(error),
    }
}

fn check_refused(
    alloc: Global,
    members: &str,
    wanted: LoginRouteError,
    shown: &str,
) -> Result<(), Fail> {
    let error = refusal(alloc, members)?;
    check_equal(error, wanted)?;
    check_display(alloc, &error, shown)
}

// What is wrong with pushes is told first.
#[test]
fn refusals(rt: HostRuntime) -> Result<(), Fail> {
    for (members, error, shown) in [
        (
            REQUIRED,
            LoginRouteError::NoPushEndpoint,
            "metadata requires pushes, and has no pushed_authorization_request_endpoint",
        ),
        (
            r#","pushed_authorization_request_endpoint":"http://as.example.com/as/par""#,
            LoginRouteError::PushEndpoint(EndpointCause::NotHttps),
            "pushed_authorization_request_endpoint: not an https URL",
        ),
        (
            r#","pushed_authorization_request_endpoint":"https://as.example.com/#par""#,
            LoginRouteError::PushEndpoint(EndpointCause::HasFragment),
            "pushed_authorization_request_endpoint: a URL with a fragment",
        ),
        (
            PUSH,
            LoginRouteError::Login(EndpointError::Missing(Endpoint::Token)),
            "metadata has no token_endpoint",
        ),
    ] {
        check_refused(rt.alloc(), members, error, shown)?;
    }
    Ok(())
}
