//! A call of an API with a token (RFC 6750, section 2.1), and its reply as JSON.

use crate::over_connection::HttpClient;
use crate::over_connection::fault::Fault;
use crate::over_connection::settings::Settings;
use base64::engine::general_purpose::STANDARD;
use http::header::{AUTHORIZATION, CONTENT_TYPE};
use http::{HeaderValue, Request, Uri};
use http_header::HeaderValueError;
use http_uri::UriError;
use oauth2::{AccessToken, HttpRequest, HttpResponse, ParseCause, SyncHttpClient};
use serde_json::{Value, json};
use std::alloc::{AllocError, Global};
use std::str;

/// Makes a GET request to the setting `url`. The setting `token`, if set, is its Bearer token.
pub fn get(settings: &mut Settings<'_>, http_client: &mut HttpClient) -> Result<Value, Fault> {
    let alloc = settings.alloc();
    let url: String = settings.needed("url")?;
    let token: Option<AccessToken> = settings.optional("token")?;
    let mut request = get_request(alloc, url)?;
    if let Some(token) = token {
        let value = bearer(alloc, &token)?;
        if request.headers_mut().insert(AUTHORIZATION, value).is_err() {
            return Err(Fault::Memory);
        }
    }
    match http_client.call(request) {
        Ok(reply) => Ok(reply_value(alloc, &reply)?),
        Err(error) => Err(Fault::unanswered(alloc, &error)),
    }
}

fn get_request(alloc: Global, url: String) -> Result<HttpRequest, Fault> {
    match Uri::from_string(url) {
        Ok(uri) => {
            let mut request = Request::new(alloc, Vec::new(alloc));
            *request.uri_mut() = uri;
            Ok(request)
        }
        Err(UriError::Invalid(_)) => Err(Fault::setting(alloc, "url", ParseCause::BadUrl)),
        Err(UriError::OutOfMemory) => Err(Fault::Memory),
    }
}

// The value of the Authorization header. A token with a control character is refused.
fn bearer(alloc: Global, token: &AccessToken) -> Result<HeaderValue, Fault> {
    let secret = token.secret();
    match HeaderValue::from_string(format!(in alloc; "Bearer {secret}")?) {
        Ok(value) => Ok(value),
        Err(HeaderValueError::Invalid) => Err(Fault::setting(alloc, "token", ParseCause::Refused)),
        Err(HeaderValueError::OutOfMemory) => Err(Fault::Memory),
    }
}

// The reply as an object: the status, the first Content-Type if it is ASCII, and the body.
fn reply_value(alloc: Global, reply: &HttpResponse) -> Result<Value, AllocError> {
    let status = reply.status().as_u16() as u64;
    let content_type = content_type(alloc, reply)?;
    let bytes = reply.body().as_slice();
    match str::from_utf8(bytes) {
        Ok(body) => json!(in alloc; {"status": status, "content_type": content_type, "body": body}),
        Err(_) => {
            let body = STANDARD.encode(alloc, bytes)?;
            json!(in alloc; {"status": status, "content_type": content_type, "body_base64": body})
        }
    }
}

fn content_type(alloc: Global, reply: &HttpResponse) -> Result<Value, AllocError> {
    let Some(value) = reply.headers().get(CONTENT_TYPE) else {
        return Ok(Value::Null);
    };
    match value.to_str() {
        Ok(text) => Value::try_from_str(alloc, text),
        Err(_) => Ok(Value::Null),
    }
}
