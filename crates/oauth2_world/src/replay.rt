//! A client that returns the replies of a script and collects the events of its calls.

ghost use Rattle.std.specs.Prelude.{◌≡◌, ◌++◌, ◌∷◌, [], Some, None, IfOk, OnOk};
ghost use Rattle.oauth2_wire.specs.Reply.{reply_of};
ghost use Rattle.oauth2_wire.specs.Request.{view_of};
ghost use Rattle.oauth2_world.specs.Events.{exchanged};
ghost use Rattle.oauth2_script.specs.Views.{http_reply_view};
ghost use Rattle.oauth2_world.specs.Replies.{view_of_http_reply};

use crate::event::{Event, Events};
use http::Response;
use http::response::Parts;
use http_header::{CONTENT_TYPE, HeaderMapError};
use oauth2_retry_after::AsksToWait;
use oauth2_script::{HttpReply, Reply};
use oauth2_wire::{HttpRequest, HttpResponse, SyncHttpClient};
use std::alloc::{AllocError, Global};
use std::collections::VecDeque;
use std::time::Duration;

/// The call failed: the script says so, or it has no further reply.
#[derive(Clone, Copy, Debug, PartialEq, Eq)]
pub struct NoReply;

impl AsksToWait for NoReply {
    fn asked_wait(&self) -> Option<Duration> {
        None
    }
}

/// Returns the replies of a script in order; after the last one every call fails.
#[derive(Drop)]
pub struct ScriptedClient {
    pub alloc: Global,
    pub replies: VecDeque<Reply>,
    /// The events of the run so far.
    pub events: Events,
    /// Whether memory for an event or a reply ran out.
    pub is_starved: bool,
}

fn response_of(alloc: Global, reply: HttpReply) -> Result<HttpResponse, AllocError>
    ensures { IfOk result (λ response. reply_of response
        ≡ view_of_http_reply (http_reply_view reply)) }
{
    let HttpReply {
        status,
        content_type,
        body,
    } = reply;
    let mut parts = Parts::new(alloc);
    parts.status = status;
    if let Some(value) = content_type {
        match parts.headers.insert(CONTENT_TYPE, value) {
            Ok(_) => {}
            Err(HeaderMapError::OutOfMemory) => return Err(AllocError),
            Err(HeaderMapError::MaxSizeReached) => unreachable!(),
        }
    }
    Ok(Response::from_parts(parts, body))
}

// A copy of a reply, for the event of its exchange.
fn copy_of(alloc: Global, reply: &HttpReply) -> Result<HttpReply, AllocError>
    ensures { IfOk result (λ copy. http_reply_view copy ≡ http_reply_view reply.now) }
{
    let content_type = match &reply.content_type {
        Some(value) => Some(value.clone()?),
        None => None,
    };
    Ok(HttpReply {
        status: reply.status,
        content_type,
        body: reply.body.as_slice().to_vec(alloc)?,
    })
}

// Adds the event of an exchange, and returns the reply as the client receives it.
fn show_exchange(
    alloc: Global,
    events: &mut Events,
    request: HttpRequest,
    reply: HttpReply,
) -> Result<HttpResponse, AllocError>
    ensures { IfOk result (λ response.
        (reply_of response ≡ view_of_http_reply (http_reply_view reply))
        × (events.new ≡ events.old ++ exchanged (view_of request)
        (Some (view_of_http_reply (http_reply_view reply))) ∷ [])) }
{
    let copy = copy_of(alloc, &reply)?;
    events.push(Event::Exchange(request, Some(copy)))?;
    let response = response_of(alloc, reply)?;
    Ok(response)
}

// Adds the event of a call that failed.
fn show_failed_call(events: &mut Events, request: HttpRequest) -> Result<(), AllocError>
    ensures { OnOk result (events.new ≡ events.old ++ exchanged (view_of request) None ∷ []) }
{
    events.push(Event::Exchange(request, None))?;
    Ok(())
}

impl SyncHttpClient for ScriptedClient {
    ghost use Rattle.oauth2_world.specs.Replay.{ReplaysOrStarves};

    type Error = NoReply;

    ghost step = { ReplaysOrStarves };

    fn call(&mut self, request: HttpRequest) -> Result<HttpResponse, NoReply> {
        match self.replies.pop_front() {
            Some(Reply::Replied(reply)) => {
                match show_exchange(self.alloc, &mut self.events, request, reply) {
                    Ok(response) => Ok(response),
                    Err(_) => {
                        self.is_starved = true;
                        Err(NoReply)
                    }
                }
            }
            Some(Reply::Failed) | None => {
                if show_failed_call(&mut self.events, request).is_err() {
                    self.is_starved = true;
                }
                Err(NoReply)
            }
        }
    }
}
