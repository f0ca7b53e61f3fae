//! An HTTP client that counts its calls.

ghost use Rattle.std.specs.Prelude.{◌≡◌, Some, None};

use oauth2::{HttpRequest, HttpResponse, SyncHttpClient};

/// The client has returned its reply in an earlier call.
#[derive(Clone, Copy)]
pub struct NoReply;

/// A client that returns a reply at its first call. The reply was made before, so a call takes no
/// memory.
pub struct CountingClient {
    pub calls: u64,
    /// The request of the last call.
    pub request: Option<HttpRequest>,
    reply: Option<HttpResponse>,
}

impl Drop for CountingClient {
    fn drop(self) {
        let CountingClient {
            calls: _,
            request: _,
            reply: _,
        } = self;
    }
}

impl CountingClient {
    /// A client that was not called yet, and returns this reply at its first call.
    pub fn new(reply: HttpResponse) -> CountingClient
        ensures { result ≡ record { calls = 0; request = None; reply = Some reply } }
    {
        CountingClient {
            calls: 0,
            request: None,
            reply: Some(reply),
        }
    }
}

impl SyncHttpClient for CountingClient {
    ghost use Rattle.oauth2_client_refusals_tests.specs.Counted.{Counts};

    type Error = NoReply;

    ghost step = { Counts };

    fn call(&mut self, request: HttpRequest) -> Result<HttpResponse, NoReply> {
        self.request = Some(request);
        self.calls = self.calls.saturating_add(1);
        match self.reply.take() {
            Some(reply) => Ok(reply),
            None => Err(NoReply),
        }
    }
}
