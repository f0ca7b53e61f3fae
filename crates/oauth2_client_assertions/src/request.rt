//! Requests with an assertion.

ghost use Rattle.std.specs.Prelude.{◌≡◌, IfOk, option_copied};
ghost use Rattle.oauth2_wire.specs.Request.{view_of};
ghost use Rattle.oauth2_client_assertions.specs.Assertions.{assertion_pairs};
ghost use Rattle.oauth2_client_assertions.specs.Requests.{
  authenticates,
  is_form,
  is_form_post,
  IsExtended,
};

use crate::assertion_type::AssertionType;
use crate::form_names::has_credential;
use http::Request;
use http_header::{AUTHORIZATION, CONTENT_TYPE, HeaderValue};
use oauth2_form::append_pair;
use oauth2_wire::HttpRequest;
use std::alloc::AllocError;

// Whether a request is a POST of a form.
pub(crate) fn is_form_post(request: &HttpRequest) -> bool
    ensures { result ≡ is_form_post (view_of request.now) }
{
    request.method().as_str() == "POST" && is_form(request.headers().get(CONTENT_TYPE))
}

fn is_form(value: Option<&HeaderValue>) -> bool
    ensures { result ≡ is_form (option_copied value.entry) }
{
    match value {
        Some(value) => value.as_bytes() == b"application/x-www-form-urlencoded".as_slice(),
        None => false,
    }
}

// Whether a POST of a form authenticates the client already.
pub(crate) fn authenticates(request: &HttpRequest) -> bool
    ensures { result ≡ authenticates (view_of request.now) }
{
    request.headers().get(AUTHORIZATION).is_some() || has_credential(request.body())
}

// The request with an assertion behind the parameters of its form.
pub(crate) fn with_assertion(
    request: HttpRequest,
    assertion_type: AssertionType,
    assertion: &str,
) -> Result<HttpRequest, AllocError>
    ensures { IfOk result (λ sent. IsExtended (assertion_pairs assertion_type assertion.now)
        (view_of request) (view_of sent)) }
{
    let (head, mut body) = request.into_parts();
    append_pair(&mut body, "client_assertion_type", assertion_type.as_str())?;
    append_pair(&mut body, "client_assertion", assertion)?;
    Ok(Request::from_parts(head, body))
}
