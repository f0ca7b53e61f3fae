//! Scopes and parameters that are encoded as they are added.

use oauth2::{AuthType, ClientId, HttpRequest, ParamBuffer, endpoint_request_encoded};
use oauth2_tests_support::{check_equal, text, url};
use std::alloc::{AllocError, Global};
use std::test::Fail;

// What is added to a buffer: a scope, or an extra parameter.
#[derive(Clone, Copy)]
enum Addition<'a> {
    Scope(&'a str),
    Extra(&'a str, &'a str),
}

fn add(params: &mut ParamBuffer, addition: Addition<'_>) -> Result<(), AllocError> {
    match addition {
        Addition::Scope(scope) => params.add_scope(scope),
        Addition::Extra(name, value) => params.add_extra(name, value),
    }
}

// A client credentials request with the parameters of a buffer.
fn request_of(alloc: Global, params: &ParamBuffer) -> Result<HttpRequest, Fail> {
    let url = url(alloc, "https://example.com/token")?;
    let id = ClientId::new(text(alloc, "aaa")?);
    let pairs = [("grant_type", "client_credentials")];
    let auth = AuthType::BasicAuth;
    Ok(endpoint_request_encoded(alloc, &auth, &id, None, params, None, &url, &pairs)?)
}

fn add_all(params: &mut ParamBuffer, added: &[Addition<'_>]) -> Result<(), AllocError> {
    for addition in added {
        add(params, *addition)?;
    }
    Ok(())
}

// Checks whether a buffer has a scope, and the body of a request with its parameters.
fn check_params(
    alloc: Global,
    params: &ParamBuffer,
    has_scope: bool,
    body: &str,
) -> Result<(), Fail> {
    check_equal(params.has_scope(), has_scope)?;
    let request = request_of(alloc, params)?;
    check_equal(request.body().as_slice(), body.as_bytes())
}

fn check_sent(
    alloc: Global,
    added: &[Addition<'_>],
    has_scope: bool,
    body: &str,
) -> Result<(), Fail> {
    let mut params = ParamBuffer::new(alloc);
    add_all(&mut params, added)?;
    check_params(alloc, &params, has_scope, body)
}

// What is added, whether the buffer has a scope after that, and the body of the request.
const ROWS: [(&[Addition<'static>], bool, &str); 4] = [
    (&[], false, "grant_type=client_credentials&client_id=aaa"),
    (
        &[Addition::Scope("")],
        true,
        "grant_type=client_credentials&scope=&client_id=aaa",
    ),
    (
        &[Addition::Scope("a b"), Addition::Scope("c")],
        true,
        "grant_type=client_credentials&scope=a+b+c&client_id=aaa",
    ),
    (
        &[
            Addition::Extra("", ""),
            Addition::Scope("a"),
            Addition::Extra("a", ""),
        ],
        true,
        "grant_type=client_credentials&scope=a&client_id=aaa&=&a=",
    ),
];

#[test]
fn scopes_and_parameters(rt: HostRuntime) -> Result<(), Fail> {
    for (additions, has_scope, body) in ROWS {
        check_sent(rt.alloc(), additions, has_scope, body)?;
    }
    Ok(())
}
