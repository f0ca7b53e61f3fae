//! The client of the rows, and an HTTP client that returns one reply.

use oauth2::http::Response;
use oauth2::{AuthUrl, Client, ClientId, HttpRequest, HttpResponse, SyncHttpClient, TokenUrl};
use oauth2_openid_login::{OpenIdClient, OpenIdProvider, RedirectIssuer};
use oauth2_refusals_support::{Ended, text};
use std::alloc::Global;
use std::time::Duration;

/// The identifier of the client of the standard's examples.
pub const CLIENT_ID: &str = "s6BhdRkqt3";

/// The client of the standard's examples.
pub fn client(alloc: Global) -> Result<OpenIdClient, Ended> {
    let id = ClientId::new(text(alloc, CLIENT_ID)?);
    let auth = AuthUrl::new(alloc, text(alloc, "https://server.example.com/authorize")?)?;
    let token = TokenUrl::new(alloc, text(alloc, "https://server.example.com/token")?)?;
    Ok(Client::new(id).set_auth_uri(auth).set_token_uri(token))
}

/// The provider of the standard's examples, which names its issuer in each redirect.
pub fn provider() -> OpenIdProvider<'static> {
    OpenIdProvider::new(
        "http://server.example.com",
        RedirectIssuer::InEachRedirect,
        Duration::from_secs(60),
    )
    .set_algorithm("RS256")
}

/// The reply was returned before.
#[derive(Clone, Copy, Debug)]
pub struct NoReply;

/// An HTTP client that returns one reply, at its first call. The reply was made before, so a call
/// does not allocate.
#[derive(Drop)]
pub struct OneReply {
    pub calls: u64,
    /// The request of the last call.
    pub request: Option<HttpRequest>,
    reply: Option<HttpResponse>,
}

impl OneReply {
    /// A client that returns a reply with status 200 and this body.
    pub fn new(alloc: Global, body: &str) -> Result<OneReply, Ended> {
        let body = text(alloc, body)?.into_bytes();
        Ok(OneReply {
            calls: 0,
            request: None,
            reply: Some(Response::new(alloc, body)),
        })
    }
}

impl SyncHttpClient for OneReply {
    type Error = NoReply;

    fn call(&mut self, request: HttpRequest) -> Result<HttpResponse, NoReply> {
        self.request = Some(request);
        self.calls = self.calls.saturating_add(1);
        self.reply.take().ok_or(NoReply)
    }
}
