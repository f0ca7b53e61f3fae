//! What is pushed (RFC 9126, section 2.1).

use crate::checks::{check_authorization, check_sent};
use crate::pushed_requests::pusher::{PARAMETERS, Pusher};
use oauth2_pushed_requests::PushFault;
use oauth2_tests_support::{check_equal, check_text};
use oauth2_wire::{AuthType, HttpRequest};
use std::alloc::Global;
use std::test::Fail;

// Checks the body, the target and the header of the example.
fn check_example(alloc: Global, sent: &HttpRequest) -> Result<(), Fail> {
    check_sent(sent, PARAMETERS)?;
    check_text(
        sent.uri().to_string(alloc)?.as_str(),
        "https://as.example.com/as/par",
    )?;
    check_authorization(sent, b"Basic czZCaGRSa3F0Mzo3RmpmcDBaQnIxS3REUmJuZlZkbUl3")
}

// The request of section 2.1.
#[test]
fn the_example(rt: HostRuntime) -> Result<(), Fail> {
    let alloc = rt.alloc();
    let pusher = Pusher::of_the_example(alloc)?;
    let sent = pusher.post(alloc, PARAMETERS)?;
    check_example(alloc, &sent)
}

// Checks the body of a push by the client that shows this secret in this way.
fn check_credentials(
    alloc: Global,
    auth_type: AuthType,
    secret: Option<&str>,
    query: &str,
    body: &str,
) -> Result<(), Fail> {
    let pusher = Pusher::new(alloc, auth_type, secret, "")?;
    pusher.check_body(alloc, query, body)
}

// A client that shows its secret in the body, and one that has none.
#[test]
fn credentials_in_the_body(rt: HostRuntime) -> Result<(), Fail> {
    check_credentials(
        rt.alloc(),
        AuthType::RequestBody,
        Some("a b"),
        "response_type=code&client_id=s6BhdRkqt3&state=x",
        "response_type=code&client_id=s6BhdRkqt3&client_secret=a+b&state=x",
    )?;
    check_credentials(
        rt.alloc(),
        AuthType::BasicAuth,
        None,
        PARAMETERS,
        PARAMETERS,
    )
}

// The query of the endpoint is not pushed; what the URL encodes otherwise is the same parameter.
#[test]
fn queries_of_endpoints(rt: HostRuntime) -> Result<(), Fail> {
    let alloc = rt.alloc();
    let pusher = Pusher::new(alloc, AuthType::BasicAuth, None, "?tenant=a&b")?;
    pusher.check_body(
        alloc,
        "tenant=a&b&client_id=s6BhdRkqt3&x=%20%c3%a9",
        "client_id=s6BhdRkqt3&x=+%C3%A9",
    )?;
    pusher.check_body(
        alloc,
        "&t%65nant=a&&b=&client_id=s6BhdRkqt3&&tenant=a&",
        "client_id=s6BhdRkqt3&tenant=a",
    )
}

fn check_refused(
    alloc: Global,
    pusher: &Pusher,
    query: &str,
    wanted: PushFault,
) -> Result<(), Fail> {
    match pusher.push(alloc, query)? {
        Ok(_) => Err(Fail::new(format_args!("{query} is taken"))),
        Err(fault) => check_equal(fault, wanted),
    }
}

#[test]
fn refusals(rt: HostRuntime) -> Result<(), Fail> {
    let alloc = rt.alloc();
    let pusher = Pusher::new(alloc, AuthType::BasicAuth, None, "?t=1")?;
    for (query, fault) in [
        ("client_id=s6BhdRkqt3", PushFault::OtherEndpoint),
        ("t=12&client_id=s6BhdRkqt3", PushFault::OtherEndpoint),
        ("", PushFault::OtherEndpoint),
        ("t=1&client_id=s6BhdRkqt3&x=%ff", PushFault::NotText),
        (
            "t=1&client_id=s6BhdRkqt3&request_uri=",
            PushFault::HasRequestUri,
        ),
        (
            "t=1&client_id=s6BhdRkqt3&client_secret=x",
            PushFault::HasClientSecret,
        ),
        ("t=1&state=x", PushFault::OtherClient),
        ("t=1&client_id=other", PushFault::OtherClient),
        (
            "t=1&client_id=s6BhdRkqt3&client_id=s6BhdRkqt3",
            PushFault::OtherClient,
        ),
    ] {
        check_refused(alloc, &pusher, query, fault)?;
    }
    Ok(())
}

// Neither endpoint's own query may have what is sent to it beside (RFC 6749, sections 3.1 and 3.2).
#[test]
fn queries_that_send_twice(rt: HostRuntime) -> Result<(), Fail> {
    let alloc = rt.alloc();
    for (endpoint, query) in [
        ("https://as.example.com/as/par?client_id=x", ""),
        ("https://as.example.com/as/par?a=b&request_uri", ""),
        ("https://as.example.com/as/par?%63lient_id=", ""),
        ("https://as.example.com/as/par", "?client_id=s6BhdRkqt3"),
        ("https://as.example.com/as/par", "?a=b&request_uri=u"),
    ] {
        let pusher = Pusher::public_at(alloc, endpoint, query)?;
        check_refused(
            alloc,
            &pusher,
            "client_id=s6BhdRkqt3",
            PushFault::EndpointQuery,
        )?;
    }
    let pusher = Pusher::public_at(alloc, "https://as.example.com/as/par?a=b", "")?;
    pusher.check_body(alloc, "client_id=s6BhdRkqt3", "client_id=s6BhdRkqt3")
}
