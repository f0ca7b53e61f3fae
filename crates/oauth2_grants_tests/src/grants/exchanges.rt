//! Token exchanges (RFC 8693).

use crate::checks::{check_authorization, check_sent};
use crate::grants::asking::{Asker, Asking};
use oauth2_grants::{GrantFault, TokenExchange, TokenTypeIdentifier};
use oauth2_tests_support::check;
use oauth2_wire::HttpRequest;
use std::alloc::Global;
use std::test::Fail;

const SUBJECT: &str = "accVkjcJyb4BWCxGsndESCJQbdFMogUC5PbRDqceLTC";

// The POST of an exchange.
fn post(alloc: Global, asker: &Asker, exchange: &TokenExchange<'_>) -> Result<HttpRequest, Fail> {
    let request: Asking<'_> = exchange.to_request(alloc, asker.at_endpoint())?;
    Ok(request.prepare_request(alloc)?)
}

fn example(alloc: Global) -> Result<TokenExchange<'static>, Fail> {
    let exchange = TokenExchange::new(alloc, SUBJECT, TokenTypeIdentifier::AccessToken)?;
    Ok(exchange.add_resource("https://backend.example.com/api")?)
}

// Checks the body and the header of the example.
fn check_example(sent: &HttpRequest) -> Result<(), Fail> {
    check_sent(
        sent,
        "grant_type=urn%3Aietf%3Aparams%3Aoauth%3Agrant-type%3Atoken-exchange\
&resource=https%3A%2F%2Fbackend.example.com%2Fapi\
&subject_token=accVkjcJyb4BWCxGsndESCJQbdFMogUC5PbRDqceLTC\
&subject_token_type=urn%3Aietf%3Aparams%3Aoauth%3Atoken-type%3Aaccess_token",
    )?;
    check_authorization(sent, b"Basic cnMwODpsb25nLXNlY3VyZS1yYW5kb20tc2VjcmV0")
}

// The request of RFC 8693, section 2.3.
#[test]
fn the_example(rt: HostRuntime) -> Result<(), Fail> {
    let alloc = rt.alloc();
    let asker = Asker::of_the_example(alloc)?;
    let exchange = example(alloc)?;
    let sent = post(alloc, &asker, &exchange)?;
    check_example(&sent)
}

// An exchange with every parameter, two of them repeated.
fn full_exchange(alloc: Global) -> Result<TokenExchange<'static>, Fail> {
    let exchange = TokenExchange::new(alloc, "s", TokenTypeIdentifier::Jwt)?
        .set_actor_token("a", TokenTypeIdentifier::Other("urn:example:actor"))?
        .set_requested_token_type(TokenTypeIdentifier::Saml2)?
        .add_audience("b c")?
        .add_audience("d")?
        .add_resource("https://rs.example/1")?
        .add_resource("https://rs.example/2?x=y")?;
    Ok(exchange)
}

// Every parameter of RFC 8693, section 2.1, in its order; two of them repeated.
#[test]
fn all_parameters(rt: HostRuntime) -> Result<(), Fail> {
    let alloc = rt.alloc();
    let asker = Asker::public(alloc)?;
    let exchange = full_exchange(alloc)?;
    let sent = post(alloc, &asker, &exchange)?;
    check_sent(
        &sent,
        "grant_type=urn%3Aietf%3Aparams%3Aoauth%3Agrant-type%3Atoken-exchange&client_id=aaa\
&resource=https%3A%2F%2Frs.example%2F1&resource=https%3A%2F%2Frs.example%2F2%3Fx%3Dy\
&audience=b+c&audience=d\
&requested_token_type=urn%3Aietf%3Aparams%3Aoauth%3Atoken-type%3Asaml2\
&subject_token=s&subject_token_type=urn%3Aietf%3Aparams%3Aoauth%3Atoken-type%3Ajwt\
&actor_token=a&actor_token_type=urn%3Aexample%3Aactor",
    )
}

fn is_no_resource(alloc: Global, resource: &str) -> Result<bool, Fail> {
    let exchange = TokenExchange::new(alloc, "s", TokenTypeIdentifier::Jwt)?;
    match exchange.add_resource(resource) {
        Err(GrantFault::ResourceIsNoUri) => Ok(true),
        _ => Ok(false),
    }
}

// RFC 8693, section 2.1: an absolute URI without a fragment.
#[test]
fn resources(rt: HostRuntime) -> Result<(), Fail> {
    for resource in [
        "",
        "/api",
        "https://rs.example/#f",
        "rs.example",
        "1a:b",
        "a:%4",
    ] {
        check(is_no_resource(rt.alloc(), resource)?, resource)?;
    }
    for resource in [
        "https://rs.example",
        "urn:example:rs",
        "a:",
        "a+b-c.1:%4F?q",
    ] {
        check(!is_no_resource(rt.alloc(), resource)?, resource)?;
    }
    Ok(())
}

#[test]
fn types_that_are_no_uris(rt: HostRuntime) -> Result<(), Fail> {
    match TokenExchange::new(rt.alloc(), "s", TokenTypeIdentifier::Other("jwt")) {
        Err(GrantFault::TokenTypeIsNoUri) => Ok(()),
        _ => Err(Fail::new(format_args!("it is taken"))),
    }
}
