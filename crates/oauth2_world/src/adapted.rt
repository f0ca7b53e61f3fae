//! The replies of a script as the adapters of its client change them.

ghost use Rattle.std.specs.Prelude.{◌≡◌, IfOk, map};
ghost use Rattle.oauth2_adapters.specs.Reply.{reply_values};
ghost use Rattle.oauth2_script.specs.Views.{http_reply_view, stored_reply};
ghost use Rattle.oauth2_world.specs.Adapted.{
  received_reply,
  read_parts,
  adapted_by,
  adapted_by_each,
  adapted_reply,
  adapted_replies,
};

use http::Response;
use http::response::Parts;
use http_header::{CONTENT_TYPE, HeaderMapError, HeaderValue};
use oauth2_adapters::{
    CommasInScopes, ErrorsAtStatus200, FormBodies, NumbersAsTexts, OtherMediaTypes, ReplyAdapter,
};
use oauth2_script::{Adapter, HttpReply, Reply};
use oauth2_wire::HttpResponse;
use std::alloc::{AllocError, Global};

/// The replies of a script as these adapters change them, which is as an `AdaptedClient` returns
/// them. Without adapters they stay as they are.
pub fn adapt_replies(
    alloc: Global,
    adapters: &[Adapter],
    replies: Vec<Reply>,
) -> Result<Vec<Reply>, AllocError>
    ensures { IfOk result (λ new. map stored_reply new.items
        ≡ adapted_replies adapters.now (map stored_reply replies.items)) }
{
    if adapters.is_empty() {
        return Ok(replies);
    }
    let mut adapted = Vec::new(alloc);
    for reply in replies {
        adapted.push(adapt_reply(alloc, adapters, reply)?)?;
    }
    Ok(adapted)
}

// A reply, changed by these adapters; a failed call stays one.
fn adapt_reply(alloc: Global, adapters: &[Adapter], reply: Reply) -> Result<Reply, AllocError>
    ensures { IfOk result (λ new. stored_reply new
        ≡ adapted_reply adapters.now (stored_reply reply)) }
{
    match reply {
        Reply::Replied(reply) => {
            let received = receive(alloc, reply)?;
            let adapted = adapt_by_each(alloc, adapters, received)?;
            Ok(Reply::Replied(read_parts(adapted)?))
        }
        Reply::Failed => Ok(Reply::Failed),
    }
}

// A reply of the script as the HTTP client receives it.
fn receive(alloc: Global, reply: HttpReply) -> Result<HttpResponse, AllocError>
    ensures { IfOk result (λ response.
        reply_values response ≡ received_reply (http_reply_view reply)) }
{
    let HttpReply {
        status,
        content_type,
        body,
    } = reply;
    let mut parts = Parts::new(alloc);
    parts.status = status;
    if let Some(mut value) = content_type {
        value.set_sensitive(false);
        match parts.headers.insert(CONTENT_TYPE, value) {
            Ok(_) => {}
            Err(HeaderMapError::OutOfMemory) => return Err(AllocError),
            Err(HeaderMapError::MaxSizeReached) => unreachable!(),
        }
    }
    Ok(Response::from_parts(parts, body))
}

// The parts of a reply that a client reads.
fn read_parts(reply: HttpResponse) -> Result<HttpReply, AllocError>
    ensures { IfOk result (λ parts. http_reply_view parts ≡ read_parts (reply_values reply)) }
{
    let (head, body) = reply.into_parts();
    let content_type = match head.headers.get(CONTENT_TYPE) {
        Some(value) => Some(value.clone()?),
        None => None,
    };
    Ok(HttpReply {
        status: head.status,
        content_type,
        body,
    })
}

// The reply, changed by each adapter; the first one sees it as it came.
fn adapt_by_each(
    alloc: Global,
    adapters: &[Adapter],
    reply: HttpResponse,
) -> Result<HttpResponse, AllocError>
    ensures { IfOk result (λ new.
        reply_values new ≡ adapted_by_each adapters.now (reply_values reply)) }
{
    let mut adapted = reply;
    for adapter in adapters {
        adapted = adapt(alloc, *adapter, adapted)?;
    }
    Ok(adapted)
}

// The reply, changed by the adapter of this name.
fn adapt(alloc: Global, adapter: Adapter, reply: HttpResponse) -> Result<HttpResponse, AllocError>
    ensures { IfOk result (λ new. reply_values new ≡ adapted_by adapter (reply_values reply)) }
{
    match adapter {
        Adapter::CommasInScopes => CommasInScopes.adapt(alloc, reply),
        Adapter::ErrorsAtStatus200 => ErrorsAtStatus200.adapt(alloc, reply),
        Adapter::FormBodies => FormBodies.adapt(alloc, reply),
        Adapter::NumbersAsTexts => {
            NumbersAsTexts::new(&["expires_in", "interval"]).adapt(alloc, reply)
        }
        Adapter::OtherMediaTypes => {
            OtherMediaTypes::new(&["text/javascript", "text/plain"]).adapt(alloc, reply)
        }
    }
}
