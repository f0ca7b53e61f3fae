//! An HTTP client that returns replies that were made before.

use crate::replies::{add_field, reply_of};
use http_header::{CONTENT_TYPE, HeaderMap};
use oauth2_tests_support::NoReply;
use oauth2_wire::{HttpRequest, HttpResponse, SyncHttpClient};
use std::alloc::Global;

/// An HTTP client that returns each reply once, and counts its calls.
pub struct Canned {
    /// How many requests were sent.
    pub sent: u32,
    /// The last one.
    pub request: Option<HttpRequest>,
    reply: Option<HttpResponse>,
}

impl Drop for Canned {
    fn drop(self) {
        let Canned {
            sent: _,
            request: _,
            reply: _,
        } = self;
    }
}

impl Canned {
    /// A client without a reply.
    pub fn new() -> Canned {
        Canned {
            sent: 0,
            request: None,
            reply: None,
        }
    }

    /// Sets the reply to the next request: a status, a Content-Type unless it is `-`, and a body.
    /// Returns whether it is one.
    pub fn set_reply(&mut self, alloc: Global, status: &str, media_type: &str, body: &str) -> bool {
        match made_reply(alloc, status, media_type, body) {
            Some(reply) => {
                self.reply = Some(reply);
                true
            }
            None => false,
        }
    }
}

fn made_reply(alloc: Global, status: &str, media_type: &str, body: &str) -> Option<HttpResponse> {
    let mut headers = HeaderMap::new(alloc);
    if media_type != "-" && !add_field(alloc, &mut headers, CONTENT_TYPE, media_type.as_bytes()) {
        return None;
    }
    let body = String::from_str(alloc, body).ok()?;
    reply_of(alloc, status, headers, body.into_bytes())
}

impl SyncHttpClient for Canned {
    type Error = NoReply;

    fn call(&mut self, request: HttpRequest) -> Result<HttpResponse, NoReply> {
        self.request = Some(request);
        self.sent = self.sent.saturating_add(1);
        self.reply.take().ok_or(NoReply)
    }
}
