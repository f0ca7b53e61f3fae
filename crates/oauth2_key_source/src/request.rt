//! The request for the keys of an issuer (RFC 8414, 2; RFC 7517, 5).

ghost use Rattle.std.specs.Prelude.{◌≡◌, Ok, Err, None, IfOk, IfErr, codes};
ghost use Rattle.http_uri.specs.Uri.{Spells, SpellsNone};
ghost use Rattle.url.specs.Parser.{parse_url};
ghost use Rattle.url.specs.Parts.{serialize};
ghost use Rattle.oauth2_wire.specs.Expected.{one_header};
ghost use Rattle.oauth2_wire.specs.Request.{view_of};
ghost use Rattle.oauth2_metadata.specs.Request.{IsGetOf};
ghost use Rattle.oauth2_key_source.specs.Request.{AsksForKeys, IsNoUrl, IsRequestTo};

use crate::key_set_error::KeySetError;
use crate::reply::send;
use crate::url_error::KeySetUrlError;
use http::request::Parts;
use http::{Method, Request, Version};
use http_header::{ACCEPT, HeaderMap, HeaderMapError, HeaderValue};
use http_uri::{Uri, UriError};
use oauth2_codes::BasicErrorResponse;
use oauth2_json::FromJson;
use oauth2_keys::JsonWebKeySet;
use oauth2_metadata::is_secure;
use oauth2_wire::{HttpRequest, ReplyRule, RequestFault, SyncHttpClient};
use std::alloc::{AllocError, Global};
use std::marker::Model;
use url::{ParseError, Url};

/// A request for the keys of an issuer, whose reply is read by the rule `Prefix`. It can be sent
/// any number of times.
#[derive(Debug)]
pub struct KeySetRequest {
    url: Url,
    reply_rule: ReplyRule,
}

impl Drop for KeySetRequest {
    fn drop(self) {
        let KeySetRequest {
            url: _,
            reply_rule: _,
        } = self;
    }
}

impl Model for KeySetRequest {
    ghost use Rattle.oauth2_key_source.specs.Request.{KeySetQuery};

    ghost Value = { KeySetQuery };

    ghost view = { λ r. record { url = r.url; reply_rule = r.reply_rule } };
}

impl KeySetRequest {
    /// A request to this URL, as the issuer's own metadata tell it (`jwks_uri`). It has to be
    /// `https`; with a loopback host `http` will do.
    pub fn new(alloc: Global, jwks_uri: &str) -> Result<KeySetRequest, KeySetUrlError>
        ensures { IsRequestTo jwks_uri.now result }
    {
        let url = parse_text(alloc, jwks_uri)?;
        if is_secure(&url) {
            Ok(KeySetRequest {
                url,
                reply_rule: ReplyRule::Prefix,
            })
        } else {
            Err(KeySetUrlError::NotHttps)
        }
    }

    /// Sets the rule for the Content-Type of the reply. That of a key set is taken by each rule
    /// (RFC 7517, 8.5.1).
    pub fn set_reply_rule(mut self, reply_rule: ReplyRule) -> KeySetRequest
        ensures { result ≡ record self { reply_rule = reply_rule } }
    {
        self.reply_rule = reply_rule;
        self
    }

    /// Where the keys are asked for.
    pub fn url(&self) -> &Url
        ensures { result.now ≡ self.now.url }
    {
        &self.url
    }

    /// The GET that `request` sends. `NotHttp` if the URL is not an HTTP target.
    pub fn prepare_request(&self, alloc: Global) -> Result<HttpRequest, RequestFault>
        ensures ok { IfOk result (λ r. IsGetOf (serialize self.now.url) (view_of r)) }
        ensures not_http { result ≡ Err RequestFault.NotHttp
            → SpellsNone (serialize self.now.url) }
    {
        let head = Parts {
            method: Method::GET,
            uri: target(alloc, &self.url)?,
            version: Version::HTTP_11,
            headers: accept_header(alloc)?,
        };
        Ok(Request::from_parts(head, Vec::new(alloc)))
    }

    /// Sends the request, once, and reads its reply. A reply whose status is not 200 is returned as
    /// the error `Status`.
    pub fn request<C: SyncHttpClient>(
        &self,
        alloc: Global,
        http_client: &mut C,
    ) -> Result<JsonWebKeySet, KeySetError<C::Error>>
        requires { C.is_ready http_client.old }
        ensures once { AsksForKeys ⟦<BasicErrorResponse as FromJson>⟧.meaning C.step self.now
            http_client.old result http_client.new }
        ensures ready { C.is_ready http_client.new }
    {
        let prepared = self.prepare_request(alloc);
        match send(alloc, self.reply_rule, prepared, http_client) {
            Ok(Ok(keys)) => Ok(keys),
            Ok(Err(reply)) => Err(KeySetError::Status(reply)),
            Err(error) => Err(KeySetError::Reply(error)),
        }
    }
}

// The URL that a text is.
fn parse_text(alloc: Global, text: &str) -> Result<Url, KeySetUrlError>
    ensures ok { IfOk result (λ url. parse_url None text.now ≡ Ok url) }
    ensures refusal { IfErr result (λ error. IsNoUrl text.now error) }
{
    match Url::parse(alloc, text) {
        Ok(url) => Ok(url),
        Err(ParseError::OutOfMemory | ParseError::Overflow) => Err(KeySetUrlError::Memory),
        Err(_) => Err(KeySetUrlError::NotUrl),
    }
}

// The target that the URL's text spells.
fn target(alloc: Global, url: &Url) -> Result<Uri, RequestFault>
    ensures ok { IfOk result (Spells (serialize url.now)) }
    ensures not_http { result ≡ Err RequestFault.NotHttp → SpellsNone (serialize url.now) }
{
    match Uri::from_str(alloc, url.as_str()) {
        Ok(uri) => Ok(uri),
        Err(UriError::Invalid(_)) => Err(RequestFault::NotHttp),
        Err(UriError::OutOfMemory) => Err(RequestFault::Memory),
    }
}

// The one header.
fn accept_header(alloc: Global) -> Result<HeaderMap, AllocError>
    ensures { IfOk result (λ headers. headers
        ≡ one_header (codes "accept") (codes "application/json")) }
{
    let mut headers = HeaderMap::new(alloc);
    match headers.insert(ACCEPT, HeaderValue::from_static("application/json")) {
        Ok(_) => Ok(headers),
        Err(HeaderMapError::OutOfMemory) => Err(AllocError),
        Err(HeaderMapError::MaxSizeReached) => unreachable!(),
    }
}
