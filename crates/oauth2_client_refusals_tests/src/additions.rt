//! A buffer of request parameters that can be used after it ran out of memory.

ghost use Rattle.std.specs.Prelude.{◌≡◌, OnErr, OnOk};
ghost use Rattle.oauth2_client_refusals_tests.specs.Additions.{with_addition};

use crate::clients::RowClient;
use oauth2::{HttpRequest, ParamBuffer, endpoint_request_encoded};
use oauth2_refusals_support::Ended;
use std::alloc::{AllocError, Global};

/// What is added to a buffer: a scope, or the name and the value of an extra parameter.
#[derive(Clone, Copy)]
pub enum Addition<'a> {
    Scope(&'a str),
    Extra(&'a str, &'a str),
}

fn add(buffer: &mut ParamBuffer, addition: Addition<'_>) -> Result<(), AllocError>
    ensures ok { OnOk result (buffer.new ≡ with_addition buffer.old addition.entry) }
    ensures refused { OnErr result (buffer.new ≡ buffer.old) }
{
    match addition {
        Addition::Scope(scope) => buffer.add_scope(scope),
        Addition::Extra(name, value) => buffer.add_extra(name, value),
    }
}

/// Adds to the buffer. If memory runs out, it tries once more. Returns whether it had to.
pub fn add_at_last(buffer: &mut ParamBuffer, addition: Addition<'_>) -> Result<bool, AllocError>
    ensures { OnOk result (buffer.new ≡ with_addition buffer.old addition.entry) }
{
    if add(buffer, addition).is_ok() {
        return Ok(false);
    }
    add(buffer, addition)?;
    Ok(true)
}

/// Adds all of them with `add_at_last`. Returns whether one had to be tried again.
pub fn add_all(buffer: &mut ParamBuffer, additions: &[Addition<'_>]) -> Result<bool, AllocError> {
    let mut was_refused = false;
    for addition in additions {
        if add_at_last(buffer, *addition)? {
            was_refused = true;
        }
    }
    Ok(was_refused)
}

/// The request to the token endpoint with the buffer's parameters.
pub fn request_of(
    alloc: Global,
    client: &RowClient,
    buffer: &ParamBuffer,
) -> Result<HttpRequest, Ended> {
    let request = endpoint_request_encoded(
        alloc,
        client.auth_type(),
        client.client_id(),
        None,
        buffer,
        None,
        client.token_uri().url(),
        &[],
    )?;
    Ok(request)
}
