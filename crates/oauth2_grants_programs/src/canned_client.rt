//! An HTTP client that opens no connection: it returns replies that are written in the program.
//! Your own program uses a client that sends requests instead.

use anyhow::anyhow;
use oauth2::http::Response;
use oauth2::{AlwaysReady, HttpRequest, HttpResponse, SyncHttpClient};
use std::alloc::Global;

/// Returns the replies in order, one for each call. A reply is a status and a body of JSON.
#[derive(Drop)]
pub struct CannedClient<'a> {
    alloc: Global,
    replies: &'a [(u16, &'a str)],
    next: usize,
}

impl<'a> CannedClient<'a> {
    /// A client with these replies. A call after the last one is an error.
    pub fn new(alloc: Global, replies: &'a [(u16, &'a str)]) -> CannedClient<'a> {
        CannedClient {
            alloc,
            replies,
            next: 0,
        }
    }
}

impl SyncHttpClient for CannedClient<'_> {
    type Error = anyhow::Error;

    fn call(&mut self, _request: HttpRequest) -> anyhow::Result<HttpResponse> {
        let Some(&(status, body)) = self.replies.get(self.next) else {
            return Err(anyhow!("no reply is left"));
        };
        self.next = self.next.saturating_add(1);
        let body = String::from_str(self.alloc, body)?.into_bytes();
        Ok(Response::builder(self.alloc).status(status).body(body)?)
    }
}

impl AlwaysReady for CannedClient<'_> {
    ghost always_ready = { λ _. tt };
}
