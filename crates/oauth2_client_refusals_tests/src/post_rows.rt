//! The rows of requests to a client's endpoints.

use crate::additions::{Addition, add_all, request_of};
use crate::clients::RowClient;
use crate::polls::device;
use crate::posts;
use crate::show::show_post;
use oauth2::{
    AccessToken, HttpRequest, ParamBuffer, RefreshToken, RequestFault, ResourceOwnerPassword,
    ResourceOwnerUsername, StandardRevocableToken,
};
use oauth2_refusals_support::{Ended, Want, show_text, text};
use std::alloc::Global;
use std::io::Write;

/// Which request a row makes.
#[derive(Clone, Copy)]
pub enum PostRow {
    Credentials,
    Scoped(&'static str),
    Extended(&'static str, &'static str),
    Mixed,
    Buffer,
    Password,
    DeviceCodes,
    ExtendedDeviceCodes,
    DeviceToken,
    Introspection,
    Revocation,
}

/// Runs a row, and prints its request.
pub fn show_post_row<W: Write>(
    alloc: Global,
    client: &RowClient,
    row: PostRow,
    out: &mut W,
) -> Result<(), Ended> {
    let made = match row {
        PostRow::Credentials => posts::credentials(alloc, client),
        PostRow::Scoped(name) => posts::scoped_credentials(alloc, client, name),
        PostRow::Extended(name, value) => posts::extended_credentials(alloc, client, name, value),
        PostRow::Mixed => posts::mixed_credentials(alloc, client, "a"),
        PostRow::Buffer => return show_buffer(alloc, client, out),
        PostRow::Password => password(alloc, client),
        PostRow::DeviceCodes => posts::device_authorization(alloc, client),
        PostRow::ExtendedDeviceCodes => extended_device_codes(alloc, client),
        PostRow::DeviceToken => device_token(alloc, client),
        PostRow::Introspection => introspection(alloc, client),
        PostRow::Revocation => return show_revocation(alloc, client, out),
    };
    show_made(alloc, made, out)
}

// Prints the request, or returns why it was not made.
fn show_made<W: Write>(
    alloc: Global,
    made: Result<HttpRequest, Ended>,
    out: &mut W,
) -> Result<(), Ended> {
    let post = made?;
    show_post(alloc, &post, out)
}

fn password(alloc: Global, client: &RowClient) -> Result<HttpRequest, Ended> {
    let username = ResourceOwnerUsername::new(text(alloc, "user")?);
    let password = ResourceOwnerPassword::new(text(alloc, "p&w")?);
    scoped_password(alloc, client, &username, &password)
}

fn scoped_password(
    alloc: Global,
    client: &RowClient,
    username: &ResourceOwnerUsername,
    password: &ResourceOwnerPassword,
) -> Result<HttpRequest, Ended> {
    let read = posts::scope(alloc, "read")?;
    let write = posts::scope(alloc, "write")?;
    posts::password(alloc, client, username, password, read, write)
}

fn extended_device_codes(alloc: Global, client: &RowClient) -> Result<HttpRequest, Ended> {
    posts::extended_device_authorization(alloc, client, "openid", "foo", "bar")
}

fn device_token(alloc: Global, client: &RowClient) -> Result<HttpRequest, Ended> {
    let device = device(alloc)?;
    posts::device_token(alloc, client, &device)
}

fn introspection(alloc: Global, client: &RowClient) -> Result<HttpRequest, Ended> {
    let token = AccessToken::new(text(alloc, "access_token_123")?);
    posts::introspection(alloc, client, &token, "access_token")
}

const ADDITIONS: [Addition<'static>; 5] = [
    Addition::Extra("", ""),
    Addition::Scope("a"),
    Addition::Extra("a", ""),
    Addition::Scope("b c"),
    Addition::Extra("x y", "é&="),
];

// Adds to a buffer, trying again if memory runs out, and prints the request with its parameters.
fn show_buffer<W: Write>(alloc: Global, client: &RowClient, out: &mut W) -> Result<(), Ended> {
    let mut buffer = ParamBuffer::new(alloc);
    let was_refused = add_all(&mut buffer, &ADDITIONS)?;
    show_buffered(alloc, client, &buffer, was_refused, out)
}

fn show_buffered<W: Write>(
    alloc: Global,
    client: &RowClient,
    buffer: &ParamBuffer,
    was_refused: bool,
    out: &mut W,
) -> Result<(), Ended> {
    show_made(alloc, request_of(alloc, client, buffer), out)?;
    if was_refused {
        return Err(Ended::Starved(Want::AllocError));
    }
    Ok(())
}

// Prints the revocation request, or why there is none.
fn show_revocation<W: Write>(alloc: Global, client: &RowClient, out: &mut W) -> Result<(), Ended> {
    let token = RefreshToken::new(text(alloc, "refresh_token_123")?);
    match client.revoke_token(alloc, StandardRevocableToken::from(token)) {
        Ok(request) => show_prepared(alloc, request.prepare_request(alloc), out),
        Err(error) => show_text(out, &error),
    }
}

// Prints the request, or returns why it was not prepared.
fn show_prepared<W: Write>(
    alloc: Global,
    prepared: Result<HttpRequest, RequestFault>,
    out: &mut W,
) -> Result<(), Ended> {
    let post = prepared?;
    show_post(alloc, &post, out)
}
