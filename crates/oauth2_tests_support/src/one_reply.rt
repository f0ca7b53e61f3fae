//! An HTTP client that returns one reply.

use crate::values::reply_of;
use oauth2_wire::{AlwaysReady, HttpRequest, HttpResponse, SyncHttpClient};
use std::alloc::Global;
use std::test::Fail;

/// The client has no reply, or returned it before.
#[derive(Clone, Copy, Debug)]
pub struct NoReply;

/// An HTTP client that returns one reply, at its first call. It counts its calls, and keeps its
/// last request. A call does not allocate.
pub struct OneReply {
    pub calls: u64,
    pub request: Option<HttpRequest>,
    reply: Option<HttpResponse>,
}

impl Drop for OneReply {
    fn drop(self) {
        let OneReply {
            calls: _,
            request: _,
            reply: _,
        } = self;
    }
}

impl OneReply {
    /// A client that returns this reply.
    pub fn new(reply: HttpResponse) -> OneReply {
        OneReply {
            calls: 0,
            request: None,
            reply: Some(reply),
        }
    }

    /// A client that returns a reply with this status and this body, and no header.
    pub fn with_body(alloc: Global, status: u16, body: &str) -> Result<OneReply, Fail> {
        Ok(OneReply::new(reply_of(alloc, status, &[], body.as_bytes())?))
    }

    /// The body of the last request; empty before the first call.
    pub fn sent(&self) -> &[u8] {
        match &self.request {
            Some(request) => request.body().as_slice(),
            None => &[],
        }
    }
}

impl SyncHttpClient for OneReply {
    type Error = NoReply;

    fn call(&mut self, request: HttpRequest) -> Result<HttpResponse, NoReply> {
        self.request = Some(request);
        self.calls = self.calls.saturating_add(1);
        self.reply.take().ok_or(NoReply)
    }
}

impl AlwaysReady for OneReply {
    ghost always_ready = { λ _. tt };
}
