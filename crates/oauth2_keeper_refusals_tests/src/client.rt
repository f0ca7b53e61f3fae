//! The client of the rows, and an HTTP client that returns the reply of a row.

use oauth2::basic::BasicClient;
use oauth2::http::header::RETRY_AFTER;
use oauth2::http::response::Parts;
use oauth2::http::{HeaderValue, Response, StatusCode};
use oauth2::{
    ClientId, ClientSecret, EndpointNotSet, EndpointSet, HttpRequest, HttpResponse, SyncHttpClient,
    TokenUrl,
};
use oauth2_refusals_support::{Ended, text};
use std::alloc::{AllocError, Global};

/// A client whose only endpoint is the token endpoint.
pub type TokenClient = BasicClient<
    EndpointNotSet,
    EndpointNotSet,
    EndpointNotSet,
    EndpointNotSet,
    EndpointSet,
>;

/// The client of RFC 6749.
pub fn client(alloc: Global) -> Result<TokenClient, Ended> {
    let id = ClientId::new(text(alloc, "s6BhdRkqt3")?);
    let secret = ClientSecret::new(text(alloc, "gX1fBat3bV")?);
    let url = TokenUrl::new(alloc, text(alloc, "https://server.example.com/token")?)?;
    Ok(
        BasicClient::new(id)
            .set_client_secret(secret)
            .set_token_uri(url),
    )
}

/// The status and the body of a reply, and its Retry-After if it has one.
pub type Reply<'a> = (u16, &'a str, Option<&'a str>);

/// No reply is left.
#[derive(Clone, Copy, Debug)]
pub struct NoReply;

/// An HTTP client that returns one reply, at its first call. The reply was made before, so a call
/// does not allocate.
#[derive(Drop)]
pub struct OneReply {
    pub calls: u64,
    /// The request of the last call.
    pub request: Option<HttpRequest>,
    reply: Option<HttpResponse>,
}

impl OneReply {
    /// A client with this reply.
    pub fn new(alloc: Global, (status, body, retry_after): Reply<'_>) -> Result<OneReply, Ended> {
        let mut head = Parts::new(alloc);
        let Ok(status) = StatusCode::from_u16(status) else {
            return Err(Ended::Refused);
        };
        head.status = status;
        if let Some(value) = retry_after {
            add_retry_after(alloc, &mut head, value)?;
        }
        let body = text(alloc, body)?;
        Ok(OneReply {
            calls: 0,
            request: None,
            reply: Some(Response::from_parts(head, body.into_bytes())),
        })
    }

    /// A client whose calls all fail.
    pub fn without_reply() -> OneReply {
        OneReply {
            calls: 0,
            request: None,
            reply: None,
        }
    }
}

fn add_retry_after(alloc: Global, head: &mut Parts, value: &str) -> Result<(), Ended> {
    let Ok(value) = HeaderValue::from_str(alloc, value) else {
        return Err(Ended::from(AllocError));
    };
    match head.headers.insert(RETRY_AFTER, value) {
        Ok(_) => Ok(()),
        Err(_) => Err(Ended::from(AllocError)),
    }
}

impl SyncHttpClient for OneReply {
    type Error = NoReply;

    fn call(&mut self, request: HttpRequest) -> Result<HttpResponse, NoReply> {
        self.request = Some(request);
        self.calls = self.calls.saturating_add(1);
        self.reply.take().ok_or(NoReply)
    }
}
