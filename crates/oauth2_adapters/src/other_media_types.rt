//! Media types that are treated as JSON.

ghost use Rattle.std.specs.Prelude.{◌≡◌, codes, map};
ghost use Rattle.std.specs.Bool.{OnTrue};
ghost use Rattle.std.specs.List.{list_any};
ghost use Rattle.http_header.specs.HeaderMap.{get, ContainsKey};
ghost use Rattle.oauth2_adapters.specs.OtherMediaTypes.{media_type, is_type, has_type_of};
ghost use Rattle.oauth2_adapters.specs.OtherMediaTypes.{with_json_type};
ghost use Rattle.oauth2_adapters.specs.Reply.{reply_values};

use crate::reply_adapter::ReplyAdapter;
use http::Response;
use http_header::{CONTENT_TYPE, HeaderMap, HeaderValue};
use oauth2_wire::HttpResponse;
use std::alloc::{AllocError, Global};
use std::marker::Model;

/// Treats replies with these media types, such as `text/javascript`, as `application/json`.
/// Contracts see the media types.
#[derive(Debug, Drop)]
pub struct OtherMediaTypes<'a> {
    types: &'a [&'a str],
}

impl<'a> Model for OtherMediaTypes<'a> {
    ghost use Rattle.std.specs.Prelude.{List, ℕ, map};

    ghost Value = { List (List ℕ) };

    ghost view = { λ a. map (λ t. t.now) a.types.now };
}

impl<'a> OtherMediaTypes<'a> {
    /// The adapter for replies with these media types, each `type/subtype` without parameters.
    pub fn new(types: &'a [&'a str]) -> OtherMediaTypes<'a>
        ensures { result ≡ map (λ t. t.now) types.now }
    {
        OtherMediaTypes { types }
    }
}

impl ReplyAdapter for OtherMediaTypes<'_> {
    ghost use Rattle.std.specs.Prelude.{false};
    ghost use Rattle.oauth2_adapters.specs.OtherMediaTypes.{as_json};

    ghost adapted = { as_json };

    ghost needs_memory = { λ _ _. false };

    fn adapt(&self, _alloc: Global, reply: HttpResponse) -> Result<HttpResponse, AllocError> {
        if has_type_of(self.types, &reply) {
            return Ok(as_json(reply));
        }
        Ok(reply)
    }
}

// Whether the first Content-Type has one of these media types.
pub(crate) fn has_type_of(types: &[&str], reply: &HttpResponse) -> bool
    ensures value { result ≡ has_type_of (map (λ t. t.now) types.now)
        (get (reply_values reply.now).headers (codes "content-type")) }
    ensures found { OnTrue result
        (ContainsKey (reply_values reply.now).headers (codes "content-type")) }
{
    match reply.headers().get(CONTENT_TYPE) {
        Some(value) => is_listed(types, media_type(value.as_bytes())),
        None => false,
    }
}

fn media_type(value: &[u8]) -> &[u8]
    ensures { result.now ≡ media_type value.now }
{
    let mut end = 0;
    while end < value.len() && value[end] != b';' && value[end] != b' ' && value[end] != b'\t' {
        end += 1;
    }
    &value[..end]
}

fn is_listed(types: &[&str], own: &[u8]) -> bool
    ensures { result ≡ list_any (is_type own.now) (map (λ t. t.now) types.now) }
{
    for listed in types {
        if is_type(own, *listed) {
            return true;
        }
    }
    false
}

fn is_type(own: &[u8], listed: &str) -> bool
    ensures { result ≡ is_type own.now listed.now }
{
    own.eq_ignore_ascii_case(listed.as_bytes())
}

pub(crate) fn as_json(reply: HttpResponse) -> HttpResponse
    requires { ContainsKey (reply_values reply).headers (codes "content-type") }
    ensures { reply_values result
        ≡ record (reply_values reply) { headers = with_json_type (reply_values reply).headers } }
{
    let (mut head, body) = reply.into_parts();
    set_json_type(&mut head.headers);
    Response::from_parts(head, body)
}

fn set_json_type(headers: &mut HeaderMap)
    requires { ContainsKey headers.old (codes "content-type") }
    ensures { headers.new ≡ with_json_type headers.old }
{
    let json = HeaderValue::from_static("application/json");
    drop(headers.insert(CONTENT_TYPE, json));
}
