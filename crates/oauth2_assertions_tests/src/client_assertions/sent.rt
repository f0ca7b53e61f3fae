//! What is sent.

use crate::client_assertions::requests::{
    TOKEN_ENDPOINT, form, form_to, get_from, of_a_client, post, post_to, with_header,
};
use crate::client_assertions::source::{NoFile, Written};
use oauth2_client_assertions::{AssertingClient, AssertingError, AssertionType, ServerEndpoints};
use oauth2_tests_support::{NoReply, OneReply, check, check_display, check_equal, check_text, url};
use oauth2_wire::{HttpRequest, RequestFault, SyncHttpClient};
use std::alloc::Global;
use std::test::Fail;

/// What a call sent and asked.
struct Outcome {
    error: Option<AssertingError<NoReply, NoFile>>,
    client: OneReply,
    source: Written,
}

impl Drop for Outcome {
    fn drop(self) {
        let Outcome {
            error: _,
            client: _,
            source: _,
        } = self;
    }
}

// The endpoints of a server: those for tokens and for revocation.
fn endpoints(alloc: Global) -> Result<ServerEndpoints, Fail> {
    let token = url(alloc, TOKEN_ENDPOINT)?;
    let revocation = url(alloc, "https://server.example.com/revoke?tenant=1")?;
    Ok(ServerEndpoints::new(alloc, &token)?.add(alloc, &revocation)?)
}

fn called(
    alloc: Global,
    assertion_type: AssertionType,
    assertion: Option<&'static str>,
    request: HttpRequest,
) -> Result<Outcome, Fail> {
    let reply = OneReply::with_body(alloc, 200, "{}")?;
    let source = Written::new(assertion);
    let client = AssertingClient::new(alloc, reply, source, endpoints(alloc)?);
    let mut client = client.set_assertion_type(assertion_type);
    let error = client.call(request).err();
    let (client, source) = client.into_parts();
    Ok(Outcome {
        error,
        client,
        source,
    })
}

// Checks that the source was asked this often, and that this body was sent.
fn check_sent(outcome: &Outcome, asked: u64, body: &str) -> Result<(), Fail> {
    check(outcome.error.is_none(), "error")?;
    check_equal(outcome.source.calls, asked)?;
    check_equal(outcome.client.calls, 1)?;
    check_text(std::str::from_utf8(outcome.client.sent())?, body)
}

// The request of RFC 7523, section 2.2, with a shorter JWT.
#[test]
fn a_jwt(rt: HostRuntime) -> Result<(), Fail> {
    let alloc = rt.alloc();
    let request = form(
        alloc,
        "grant_type=authorization_code&code=n0esc3NRze7LTCu7iYzS6a5acc3f0ogp4",
    )?;
    let jwt = "eyJhbGciOiJSUzI1NiIsImtpZCI6IjIyIn0.eyJpc3Mi.cC4hiUPo";
    check_sent(
        &called(alloc, AssertionType::JwtBearer, Some(jwt), request)?,
        1,
        "grant_type=authorization_code&code=n0esc3NRze7LTCu7iYzS6a5acc3f0ogp4\
&client_assertion_type=urn%3Aietf%3Aparams%3Aoauth%3Aclient-assertion-type%3Ajwt-bearer\
&client_assertion=eyJhbGciOiJSUzI1NiIsImtpZCI6IjIyIn0.eyJpc3Mi.cC4hiUPo",
    )
}

// The parameters of RFC 7521, section 4.2, with a SAML assertion, behind a body without any.
#[test]
fn a_saml_assertion(rt: HostRuntime) -> Result<(), Fail> {
    let alloc = rt.alloc();
    check_sent(
        &called(
            alloc,
            AssertionType::Saml2Bearer,
            Some("PHNhbW...ZT"),
            form(alloc, "")?,
        )?,
        1,
        "client_assertion_type=urn%3Aietf%3Aparams%3Aoauth%3Aclient-assertion-type%3Asaml2-bearer\
&client_assertion=PHNhbW...ZT",
    )
}

// A request that this library builds.
#[test]
fn a_request_of_a_client(rt: HostRuntime) -> Result<(), Fail> {
    let alloc = rt.alloc();
    check_sent(
        &called(
            alloc,
            AssertionType::JwtBearer,
            Some("a b"),
            of_a_client(alloc)?,
        )?,
        1,
        "grant_type=client_credentials&client_id=s6BhdRkqt3\
&client_assertion_type=urn%3Aietf%3Aparams%3Aoauth%3Aclient-assertion-type%3Ajwt-bearer\
&client_assertion=a+b",
    )
}

fn check_as_it_is(alloc: Global, request: HttpRequest, body: &str) -> Result<(), Fail> {
    check_sent(
        &called(alloc, AssertionType::JwtBearer, Some("a"), request)?,
        0,
        body,
    )
}

#[test]
fn other_requests(rt: HostRuntime) -> Result<(), Fail> {
    let alloc = rt.alloc();
    check_as_it_is(alloc, get_from(alloc, TOKEN_ENDPOINT, "a=b")?, "a=b")?;
    check_as_it_is(alloc, post(alloc, "application/json", "{}")?, "{}")?;
    let keys = "https://keys.example/jwks";
    check_as_it_is(alloc, get_from(alloc, keys, "a=b")?, "a=b")?;
    check_as_it_is(alloc, post_to(alloc, keys, "application/json", "{}")?, "{}")
}

// The endpoint that was added, and targets that are equal but for the case of scheme and host.
#[test]
fn targets_of_the_server(rt: HostRuntime) -> Result<(), Fail> {
    let alloc = rt.alloc();
    for target in [
        "https://server.example.com/revoke?tenant=1",
        "HTTPS://Server.example.com/token",
    ] {
        let request = form_to(alloc, target, "a=b")?;
        let outcome = called(alloc, AssertionType::JwtBearer, Some("a"), request)?;
        check_equal(outcome.source.calls, 1)?;
        check(outcome.error.is_none(), target)?;
    }
    Ok(())
}

// RFC 7523, section 3: an assertion is for one server. No other one is sent it, nor is the source
// asked, also if the request authenticates the client already.
fn check_other_target(alloc: Global, target: &str, body: &str) -> Result<(), Fail> {
    let request = form_to(alloc, target, body)?;
    let outcome = called(alloc, AssertionType::JwtBearer, Some("a"), request)?;
    match &outcome.error {
        Some(AssertingError::OtherTarget) => {
            check_equal(outcome.source.calls, 0)?;
            check_equal(outcome.client.calls, 0)
        }
        _ => Err(Fail::new(format_args!("it is sent to {target}"))),
    }
}

#[test]
fn other_targets(rt: HostRuntime) -> Result<(), Fail> {
    let alloc = rt.alloc();
    for target in [
        "https://other.example/token",
        "https://server.example.com.other.example/token",
        "https://server.example.com@other.example/token",
        "https://server.example.com:8443/token",
        "http://server.example.com/token",
        "https://server.example.com/Token",
        "https://server.example.com/token/",
        "https://server.example.com/token?a",
        "https://server.example.com/revoke",
        "/token",
    ] {
        check_other_target(alloc, target, "a=b")?;
    }
    check_other_target(alloc, "https://other.example/token", "client_secret=a")
}

// A URL that is no target of a request is no endpoint.
#[test]
fn endpoints_of_other_schemes(rt: HostRuntime) -> Result<(), Fail> {
    let alloc = rt.alloc();
    let mail = url(alloc, "mailto:?a")?;
    match endpoints(alloc)?.add(alloc, &mail) {
        Err(fault) => check_equal(fault, RequestFault::NotHttp),
        Ok(_) => Err(Fail::new(format_args!("it is taken"))),
    }
}

fn check_refused(alloc: Global, request: HttpRequest) -> Result<(), Fail> {
    let outcome = called(alloc, AssertionType::JwtBearer, Some("a"), request)?;
    match &outcome.error {
        Some(AssertingError::OtherAuthentication) => {
            check_equal(outcome.source.calls, 0)?;
            check_equal(outcome.client.calls, 0)
        }
        _ => Err(Fail::new(format_args!("it is sent"))),
    }
}

// RFC 6749, section 2.3: one method of authentication in a request.
#[test]
fn another_authentication(rt: HostRuntime) -> Result<(), Fail> {
    let alloc = rt.alloc();
    check_refused(alloc, with_header(alloc, "a=b")?)?;
    for body in [
        "client_id=a&client_secret=b",
        "client_assertion=a",
        "a=b&client_assertion_type=",
        "client%5Fsecret",
        "&&%63lient%5fassertion=",
    ] {
        check_refused(alloc, form(alloc, body)?)?;
    }
    Ok(())
}

fn check_taken(alloc: Global, body: &str) -> Result<(), Fail> {
    let outcome = called(
        alloc,
        AssertionType::JwtBearer,
        Some("a"),
        form(alloc, body)?,
    )?;
    check(outcome.error.is_none() && outcome.client.calls == 1, body)
}

#[test]
fn names_that_are_like_it(rt: HostRuntime) -> Result<(), Fail> {
    for body in [
        "client_secre=t",
        "client_secrets=a",
        "Client_secret=a",
        "a=client_secret",
        "client_secret+=a",
        "client%255Fsecret=a",
        "%",
    ] {
        check_taken(rt.alloc(), body)?;
    }
    Ok(())
}

#[test]
fn no_assertion(rt: HostRuntime) -> Result<(), Fail> {
    let alloc = rt.alloc();
    let outcome = called(alloc, AssertionType::JwtBearer, None, form(alloc, "a=b")?)?;
    check_equal(outcome.source.calls, 1)?;
    check_equal(outcome.client.calls, 0)?;
    match &outcome.error {
        Some(AssertingError::Source(error)) => check_display(alloc, error, "no file"),
        _ => Err(Fail::new(format_args!("another error"))),
    }
}

#[test]
fn texts(rt: HostRuntime) -> Result<(), Fail> {
    let alloc = rt.alloc();
    let errors: [(AssertingError<NoFile, NoFile>, &str); 4] = [
        (
            AssertingError::OtherTarget,
            "the request goes to no endpoint of the server",
        ),
        (
            AssertingError::OtherAuthentication,
            "the request authenticates the client already",
        ),
        (AssertingError::Source(NoFile), "no file"),
        (AssertingError::Memory, "out of memory"),
    ];
    for (error, wanted) in &errors {
        check_display(alloc, error, wanted)?;
    }
    Ok(())
}
