//! An HTTP client that returns the same reply to every request.

use oauth2::http::Response;
use oauth2::{HttpRequest, HttpResponse, SyncHttpClient};
use std::alloc::{AllocError, Global};

/// Answers every request with status 200, no header and this body.
#[derive(Drop)]
pub struct CannedClient {
    pub alloc: Global,
    pub body: String,
    /// The length of the last request's body, in bytes.
    pub sent: usize,
}

impl SyncHttpClient for CannedClient {
    ghost use Rattle.oauth2_bench.specs.Canned.{HandsBack};

    type Error = AllocError;

    ghost step = { HandsBack };

    fn call(&mut self, request: HttpRequest) -> Result<HttpResponse, AllocError> {
        self.sent = request.body().len();
        let body = String::from_str(self.alloc, self.body.as_str())?;
        Ok(Response::new(self.alloc, body.into_bytes()))
    }
}
