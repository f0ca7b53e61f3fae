//! A poll for a device's token, from the call to the token.

use crate::clients::{BenchClient, client};
use crate::fault::Fault;
use crate::operation::{Done, Operation};
use jiff::Timestamp;
use oauth2::basic::BasicTokenResponse;
use oauth2::http::response::Parts;
use oauth2::http::{Response, StatusCode};
use oauth2::{
    HttpRequest, HttpResponse, PollWorld, StandardDeviceAuthorizationResponse, TokenResponse,
    read_body,
};
use std::alloc::{AllocError, Global};
use std::time::Duration;

const DEVICE: &str = "{\"device_code\":\"12345\",\"user_code\":\"abcde\",\
    \"verification_uri\":\"https://verify/here\",\"expires_in\":3600,\"interval\":5}";

const PENDING: &str = "{\"error\":\"authorization_pending\"}";

// A world whose clock always shows the same time, and whose user grants the token after some polls.
#[derive(Drop)]
struct LateWorld {
    alloc: Global,
    /// The body of the reply with the token.
    token: String,
    /// How many `authorization_pending` replies come before it.
    pending: u32,
    /// The length of the last request's body, in bytes.
    sent: usize,
}

fn reply(alloc: Global, status: StatusCode, body: &str) -> Result<HttpResponse, AllocError> {
    let body = String::from_str(alloc, body)?;
    let mut head = Parts::new(alloc);
    head.status = status;
    Ok(Response::from_parts(head, body.into_bytes()))
}

impl PollWorld for LateWorld {
    type Error = AllocError;

    fn now(&mut self) -> Timestamp {
        Timestamp::UNIX_EPOCH
    }

    fn send(&mut self, request: HttpRequest) -> Result<HttpResponse, AllocError> {
        self.sent = request.body().len();
        if self.pending == 0 {
            return reply(self.alloc, StatusCode::OK, self.token.as_str());
        }
        self.pending -= 1;
        reply(self.alloc, StatusCode::BAD_REQUEST, PENDING)
    }

    fn sleep(&mut self, _duration: Duration) {}
}

/// A poll that gets `pending` replies `authorization_pending` before the token.
#[derive(Drop)]
pub struct PollOperation {
    client: BenchClient,
    device: StandardDeviceAuthorizationResponse,
    world: LateWorld,
    pending: u32,
}

impl PollOperation {
    /// The operation that ends with this body, after `pending` replies `authorization_pending`.
    pub fn new(alloc: Global, token: String, pending: u32) -> Result<PollOperation, Fault> {
        Ok(PollOperation {
            client: client(alloc)?,
            device: read_body(alloc, DEVICE.as_bytes())?,
            world: LateWorld {
                alloc,
                token,
                pending,
                sent: 0,
            },
            pending,
        })
    }
}

impl Operation for PollOperation {
    fn run(&mut self, alloc: Global) -> Result<Done, Fault> {
        self.world.pending = self.pending;
        let polls = self.pending as u64 + 1;
        let token: BasicTokenResponse = self
            .client
            .exchange_device_access_token(alloc, &self.device)
            .poll_with(alloc, &mut self.world, None, polls)?;
        Ok(Done {
            sent: self.world.sent,
            read: token.access_token().secret().len(),
        })
    }
}
