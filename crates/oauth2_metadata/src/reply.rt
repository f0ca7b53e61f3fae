//! Sends a request for metadata, and reads its reply (RFC 8414, section 3.2).

ghost use Rattle.std.specs.Prelude.{◌≡◌, Some};
ghost use Rattle.oauth2_metadata.specs.Metadata.{metadata_seen, metadata_reading};
ghost use Rattle.oauth2_metadata.specs.Reply.{found_answer, found_seen, is_redirect};
ghost use Rattle.oauth2_metadata.specs.Reply.{other_reply_text};
ghost use Rattle.oauth2_metadata.specs.private.Found.{ShowsFailure};
ghost use Rattle.oauth2_wire.specs.Once.{SendsOnce};
ghost use Rattle.oauth2_wire.specs.Reply.{ShowsAnswer, reply_of};

use crate::metadata::ServerMetadata;
use oauth2_codes::BasicErrorResponse;
use oauth2_json::FromJson;
use oauth2_replies::ExtraTokenFields;
use oauth2_types::display::write_display;
use oauth2_wire::{
    HttpRequest, HttpResponse, ReplyRule, RequestFault, RequestTokenError, SyncHttpClient,
    endpoint_response_with,
};
use std::alloc::Global;
use std::fmt;

/// A redirect, or a reply with another status than 200 whose body is not an error response (RFC
/// 6749, section 5.2).
#[derive(Debug, Drop)]
pub struct OtherReply {
    /// The status. 301, 302, 303, 307 and 308 are redirects, which are not followed.
    pub status: u16,
    /// The body.
    pub body: Vec<u8>,
}

impl fmt::Display for OtherReply {
    ghost output = { λ reply. Some (other_reply_text reply.status) };

    ghost styled_output = { λ reply _. Some (other_reply_text reply.status) };

    fn fmt<W: fmt::Write>(&self, f: &mut fmt::Formatter<W>) -> fmt::Result {
        let status = self.status;
        if is_redirect(status) {
            return write_display(
                f,
                format_args!("server redirects the request for metadata, with status {status}"),
            );
        }
        write_display(
            f,
            format_args!("server answers the request for metadata with status {status}"),
        )
    }
}

// The document of a reply, or a reply without one.
pub(crate) type Found<EF> = Result<ServerMetadata<EF>, OtherReply>;

pub(crate) type Outcome<EF, RE> = Result<Found<EF>, RequestTokenError<RE, BasicErrorResponse>>;

// Sends a prepared request once, and reads its reply.
pub(crate) fn send<C: SyncHttpClient, EF: ExtraTokenFields + Drop>(
    alloc: Global,
    rule: ReplyRule,
    prepared: Result<HttpRequest, RequestFault>,
    http_client: &mut C,
) -> Outcome<EF, C::Error>
    requires { C.is_ready http_client.old }
    ensures once { SendsOnce (found_seen (metadata_seen EF.meaning))
        ⟦<BasicErrorResponse as FromJson>⟧.meaning C.step
        (found_answer rule (metadata_reading EF.reading)
        ⟦<BasicErrorResponse as FromJson>⟧.reading)
        http_client.old prepared result http_client.new }
    ensures ready { C.is_ready http_client.new }
{
    match prepared {
        Ok(request) => match http_client.call(request) {
            Ok(reply) => read_reply(alloc, rule, reply),
            Err(error) => Err(RequestTokenError::Request(error)),
        },
        Err(fault) => Err(RequestTokenError::unprepared(alloc, fault, false)),
    }
}

fn read_reply<RE, EF: ExtraTokenFields + Drop>(
    alloc: Global,
    rule: ReplyRule,
    reply: HttpResponse,
) -> Outcome<EF, RE>
    ensures { ShowsAnswer (found_seen (metadata_seen EF.meaning))
        ⟦<BasicErrorResponse as FromJson>⟧.meaning
        (found_answer rule (metadata_reading EF.reading)
        ⟦<BasicErrorResponse as FromJson>⟧.reading (reply_of reply)) result }
{
    let status = reply.status().as_u16();
    if is_redirect(status) {
        let body = reply.into_body();
        return Ok(Err(OtherReply { status, body }));
    }
    let read = endpoint_response_with(alloc, rule, reply);
    if status == 200 {
        read.map(Ok)
    } else {
        by_status(alloc, status, read)
    }
}

// Whether the status redirects the client to another URL.
fn is_redirect(status: u16) -> bool
    ensures { result ≡ is_redirect status }
{
    status == 301 || status == 302 || status == 303 || status == 307 || status == 308
}

// The result for a reply with this status: an error response, or else the status and the body.
fn by_status<RE, EF: ExtraTokenFields + Drop>(
    alloc: Global,
    status: u16,
    read: Result<ServerMetadata<EF>, RequestTokenError<RE, BasicErrorResponse>>,
) -> Outcome<EF, RE>
    ensures { ShowsFailure (metadata_seen EF.meaning)
        ⟦<BasicErrorResponse as FromJson>⟧.meaning status read result }
{
    match read {
        Ok(metadata) => Ok(Ok(metadata)),
        Err(RequestTokenError::Parse(_, body)) => Ok(Err(OtherReply { status, body })),
        Err(RequestTokenError::Other(_)) => Ok(Err(OtherReply {
            status,
            body: Vec::new(alloc),
        })),
        Err(error) => Err(error),
    }
}
