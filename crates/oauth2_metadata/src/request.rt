//! The request for the metadata of an issuer (RFC 8414, section 3).

ghost use Rattle.std.specs.Prelude.{◌≡◌, ◌⊎◌, Ok, Err, None, Some, IfOk, IfErr, bytes_eq, codes};
ghost use Rattle.std.specs.Prelude.{string_bytes, if◌then◌else◌};
ghost use Rattle.http_uri.specs.Uri.{Spells, SpellsNone};
ghost use Rattle.url.specs.Parser.{parse_url};
ghost use Rattle.url.specs.Parts.{Parts, serialize};
ghost use Rattle.oauth2_wire.specs.declared.content_type.ReplyRule.TheVariants.{Prefix};
ghost use Rattle.oauth2_wire.specs.Expected.{one_header};
ghost use Rattle.oauth2_wire.specs.Request.{view_of};
ghost use Rattle.oauth2_metadata.specs.Issuer.{IsNoUrl, metadata_place, openid_place};
ghost use Rattle.oauth2_metadata.specs.Metadata.{metadata_seen, metadata_reading};
ghost use Rattle.oauth2_metadata.specs.EndpointFault.{endpoint_fault};
ghost use Rattle.oauth2_metadata.specs.Request.{AsksForMetadata, IsAsked, IsChecked, IsGetOf};

use crate::issuer::{IssuerError, metadata_url, openid_metadata_url};
use crate::metadata::ServerMetadata;
use crate::metadata_error::MetadataError;
use crate::reply::send;
use http::request::Parts;
use http::{Method, Request, Version};
use http_header::{ACCEPT, HeaderMap, HeaderMapError, HeaderValue};
use http_uri::{Uri, UriError};
use oauth2_codes::BasicErrorResponse;
use oauth2_json::FromJson;
use oauth2_replies::ExtraTokenFields;
use oauth2_wire::{HttpRequest, ReplyRule, RequestFault, SyncHttpClient};
use std::alloc::{AllocError, Global};
use std::marker::Model;
use url::{ParseError, Url};

/// A request for the metadata of an issuer. By default its reply is read by the rule `Prefix`.
#[derive(Debug)]
pub struct MetadataRequest {
    // The issuer that the metadata must name.
    issuer: String,
    url: Url,
    reply_rule: ReplyRule,
}

impl Drop for MetadataRequest {
    fn drop(self) {
        let MetadataRequest {
            issuer: _,
            url: _,
            reply_rule: _,
        } = self;
    }
}

impl Model for MetadataRequest {
    ghost use Rattle.std.specs.Prelude.{string_bytes};
    ghost use Rattle.oauth2_metadata.specs.Request.{MetadataQuery};

    ghost Value = { MetadataQuery };

    ghost view = { λ r. record {
      issuer = string_bytes r.issuer;
      url = r.url;
      reply_rule = r.reply_rule;
    } };
}

impl MetadataRequest {
    /// A request to the URL of RFC 8414, section 3.1. The issuer is passed as a text, since the
    /// metadata must name it byte for byte.
    pub fn new(alloc: Global, issuer: String) -> Result<MetadataRequest, IssuerError>
        ensures { IsAsked metadata_place (string_bytes issuer) result }
    {
        let url = metadata_url(alloc, &parse_issuer(alloc, issuer.as_str())?)?;
        Ok(MetadataRequest {
            issuer,
            url,
            reply_rule: ReplyRule::Prefix,
        })
    }

    /// A request to the URL of OpenID Connect Discovery 1.0, section 4.1.
    pub fn openid(alloc: Global, issuer: String) -> Result<MetadataRequest, IssuerError>
        ensures { IsAsked openid_place (string_bytes issuer) result }
    {
        let url = openid_metadata_url(alloc, &parse_issuer(alloc, issuer.as_str())?)?;
        Ok(MetadataRequest {
            issuer,
            url,
            reply_rule: ReplyRule::Prefix,
        })
    }

    /// Sets the rule for the Content-Type of the reply.
    pub fn set_reply_rule(mut self, reply_rule: ReplyRule) -> MetadataRequest
        ensures { result ≡ record self { reply_rule = reply_rule } }
    {
        self.reply_rule = reply_rule;
        self
    }

    /// Sets the issuer that the metadata must name, byte for byte, if it is not the requested one.
    /// It is for a server with one document for many issuers, such as Entra's `common`, which names
    /// `https://login.microsoftonline.com/{tenantid}/v2.0`. Do not set it for any other server: it
    /// replaces the issuer in the check of RFC 8414, section 3.3.
    pub fn set_expected_issuer(mut self, issuer: String) -> MetadataRequest
        ensures { result ≡ record self { issuer = string_bytes issuer } }
    {
        self.issuer = issuer;
        self
    }

    /// The URL that the request goes to.
    pub fn url(&self) -> &Url
        ensures { result.now ≡ self.now.url }
    {
        &self.url
    }

    /// The GET that `request` sends. `NotHttp` if the URL is not an HTTP target.
    pub fn prepare_request(&self, alloc: Global) -> Result<HttpRequest, RequestFault>
        ensures ok { IfOk result (λ r. IsGetOf (serialize self.now.url) (view_of r)) }
        ensures not_http { result ≡ Err RequestFault.NotHttp
            → SpellsNone (serialize self.now.url) }
    {
        let head = Parts {
            method: Method::GET,
            uri: target(alloc, &self.url)?,
            version: Version::HTTP_11,
            headers: accept_header(alloc)?,
        };
        Ok(Request::from_parts(head, Vec::new(alloc)))
    }

    /// Sends the request once, and reads its reply. A reply with another status than 200 is read as
    /// an error response. If it is none, or if it is a redirect, the error is
    /// `MetadataError::Status`.
    pub fn request<EF: ExtraTokenFields + Drop, C: SyncHttpClient>(
        self,
        alloc: Global,
        http_client: &mut C,
    ) -> Result<ServerMetadata<EF>, MetadataError<C::Error>>
        requires { C.is_ready http_client.old }
        ensures once { AsksForMetadata (metadata_seen EF.meaning)
            ⟦<BasicErrorResponse as FromJson>⟧.meaning (metadata_reading EF.reading)
            ⟦<BasicErrorResponse as FromJson>⟧.reading C.step self
            http_client.old result http_client.new }
        ensures ready { C.is_ready http_client.new }
    {
        let prepared = self.prepare_request(alloc);
        match send(alloc, self.reply_rule, prepared, http_client) {
            Ok(Ok(metadata)) => check_metadata(self.issuer.as_str(), metadata),
            Ok(Err(reply)) => Err(MetadataError::Status(reply)),
            Err(error) => Err(MetadataError::Reply(error)),
        }
    }
}

// The metadata, if a client may call its endpoints and it names this issuer.
fn check_metadata<EF: Drop, RE>(
    issuer: &str,
    metadata: ServerMetadata<EF>,
) -> Result<ServerMetadata<EF>, MetadataError<RE>>
    ensures { IsChecked issuer.now metadata (endpoint_fault metadata.endpoints) result }
{
    if let Some(fault) = metadata.endpoint_fault() {
        Err(MetadataError::Endpoint(fault))
    } else if metadata.issuer() == issuer {
        Ok(metadata)
    } else {
        Err(MetadataError::OtherIssuer(metadata.into_issuer()))
    }
}

// The text of an issuer as a URL.
fn parse_issuer(alloc: Global, issuer: &str) -> Result<Url, IssuerError>
    ensures ok { IfOk result (λ url. parse_url None issuer.now ≡ Ok url) }
    ensures refusal { IfErr result (λ error. IsNoUrl issuer.now error) }
{
    match Url::parse(alloc, issuer) {
        Ok(url) => Ok(url),
        Err(ParseError::OutOfMemory | ParseError::Overflow) => Err(IssuerError::Memory),
        Err(_) => Err(IssuerError::NotUrl),
    }
}

// The URL as the target of a request.
fn target(alloc: Global, url: &Url) -> Result<Uri, RequestFault>
    ensures ok { IfOk result (Spells (serialize url.now)) }
    ensures not_http { result ≡ Err RequestFault.NotHttp → SpellsNone (serialize url.now) }
{
    match Uri::from_str(alloc, url.as_str()) {
        Ok(uri) => Ok(uri),
        Err(UriError::Invalid(_)) => Err(RequestFault::NotHttp),
        Err(UriError::OutOfMemory) => Err(RequestFault::Memory),
    }
}

// The header `Accept: application/json`.
fn accept_header(alloc: Global) -> Result<HeaderMap, AllocError>
    ensures { IfOk result (λ headers. headers
        ≡ one_header (codes "accept") (codes "application/json")) }
{
    let mut headers = HeaderMap::new(alloc);
    match headers.insert(ACCEPT, HeaderValue::from_static("application/json")) {
        Ok(_) => Ok(headers),
        Err(HeaderMapError::OutOfMemory) => Err(AllocError),
        Err(HeaderMapError::MaxSizeReached) => unreachable!(),
    }
}
