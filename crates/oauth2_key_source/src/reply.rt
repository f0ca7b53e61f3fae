//! What the reply to a request for keys is (RFC 7517, 5; OpenID Connect Discovery 1.0, 4.2).

ghost use Rattle.std.specs.Prelude.{◌≡◌, drop, take};
ghost use Rattle.oauth2_metadata.specs.Reply.{found_seen};
ghost use Rattle.oauth2_wire.specs.ContentType.{ends_the_type};
ghost use Rattle.oauth2_wire.specs.Once.{SendsOnce};
ghost use Rattle.oauth2_keys.specs.KeySet.{set_reading};
ghost use Rattle.oauth2_wire.specs.Reply.{ShowsAnswer, reply_of, success_answer};
ghost use Rattle.oauth2_key_source.specs.Request.{is_key_set_type, judged_type, keys_answer};
ghost use Rattle.oauth2_key_source.specs.Request.{names_key_set};

use http::Response;
use http_header::CONTENT_TYPE;
use oauth2_codes::BasicErrorResponse;
use oauth2_json::FromJson;
use oauth2_keys::JsonWebKeySet;
use oauth2_metadata::OtherReply;
use oauth2_wire::{
    HttpRequest, HttpResponse, ReplyRule, RequestFault, RequestTokenError, SyncHttpClient,
    endpoint_response_with,
};
use std::alloc::Global;

// The key set, or the reply that is none.
pub(crate) type Found = Result<JsonWebKeySet, OtherReply>;

pub(crate) type Outcome<RE> = Result<Found, RequestTokenError<RE, BasicErrorResponse>>;

// Sends a prepared request once, and reads its reply.
pub(crate) fn send<C: SyncHttpClient>(
    alloc: Global,
    rule: ReplyRule,
    prepared: Result<HttpRequest, RequestFault>,
    http_client: &mut C,
) -> Outcome<C::Error>
    requires { C.is_ready http_client.old }
    ensures once { SendsOnce (found_seen (λ keys. keys))
        ⟦<BasicErrorResponse as FromJson>⟧.meaning C.step (keys_answer rule)
        http_client.old prepared result http_client.new }
    ensures ready { C.is_ready http_client.new }
{
    match prepared {
        Ok(request) => match http_client.call(request) {
            Ok(reply) => read_reply(alloc, rule, reply),
            Err(error) => Err(RequestTokenError::Request(error)),
        },
        Err(fault) => Err(RequestTokenError::unprepared(alloc, fault, false)),
    }
}

fn read_reply<RE>(alloc: Global, rule: ReplyRule, reply: HttpResponse) -> Outcome<RE>
    ensures { ShowsAnswer (found_seen (λ keys. keys))
        ⟦<BasicErrorResponse as FromJson>⟧.meaning (keys_answer rule (reply_of reply)) result }
{
    let status = reply.status().as_u16();
    if status == 200 {
        read_keys(alloc, rule, reply).map(Ok)
    } else {
        let body = reply.into_body();
        Ok(Err(OtherReply { status, body }))
    }
}

// The key set of a success.
fn read_keys<RE>(
    alloc: Global,
    rule: ReplyRule,
    reply: HttpResponse,
) -> Result<JsonWebKeySet, RequestTokenError<RE, BasicErrorResponse>>
    requires { (reply_of reply).status ≡ 200 }
    ensures { let seen = reply_of reply in
        ShowsAnswer (λ keys. keys) ⟦<BasicErrorResponse as FromJson>⟧.meaning
        (success_answer rule set_reading (judged_type seen.content_type) seen.body) result }
{
    endpoint_response_with(alloc, rule, judged_reply(alloc, reply))
}

// The reply with the Content-Type that its rule judges.
fn judged_reply(alloc: Global, reply: HttpResponse) -> HttpResponse
    requires { (reply_of reply).status ≡ 200 }
    ensures { reply_of result ≡ record (reply_of reply) {
      content_type = judged_type (reply_of reply).content_type;
    } }
{
    if names_key_set(&reply) {
        Response::new(alloc, reply.into_body())
    } else {
        reply
    }
}

// Whether the Content-Type is that of a key set.
fn names_key_set(reply: &HttpResponse) -> bool
    ensures { result ≡ names_key_set (reply_of reply.now).content_type }
{
    match reply.headers().get(CONTENT_TYPE) {
        Some(value) => is_key_set_type(value.as_bytes()),
        None => false,
    }
}

// Whether a value names the media type of a key set, with any parameters.
fn is_key_set_type(value: &[u8]) -> bool
    ensures { result ≡ is_key_set_type value.now }
{
    front(value, 24).eq_ignore_ascii_case(b"application/jwk-set+json".as_slice())
        && ends_the_type(back(value, 24))
}

// The first n bytes, or all of fewer.
fn front(value: &[u8], n: usize) -> &[u8]
    ensures { result.now ≡ take n value.now }
{
    if value.len() < n { value } else { &value[..n] }
}

// What follows the first n bytes, or nothing after fewer.
fn back(value: &[u8], n: usize) -> &[u8]
    ensures { result.now ≡ drop n value.now }
{
    if value.len() < n { &[] } else { &value[n..] }
}

// Whether a media type ends before these bytes.
fn ends_the_type(rest: &[u8]) -> bool
    ensures { result ≡ ends_the_type rest.now }
{
    match rest {
        [] => true,
        [b, ..] => *b == b';' || *b == b' ' || *b == b'\t',
    }
}
