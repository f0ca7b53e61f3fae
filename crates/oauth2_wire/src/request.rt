//! The requests of a client: a POST of a form to an endpoint (RFC 6749, sections 2.3.1 and 3.2).

ghost use Rattle.std.specs.Prelude.{◌≡◌, ◌<◌, ℕ, List, [], ◌∷◌, ◌++◌, length, map, codes};
ghost use Rattle.std.specs.Prelude.{Err, IfOk, IsErr, OnOk};
ghost use Rattle.std.specs.Prelude.{option_copied, option_and_then, option_map};
ghost use Rattle.form_urlencoded.specs.Form.{pair_text};
ghost use Rattle.http_header.specs.HeaderMap.{insert, value_count};
ghost use Rattle.http_uri.specs.Uri.{Spells, SpellsNone};
ghost use Rattle.url.specs.Parts.{serialize};
ghost use Rattle.oauth2_form.specs.Params.{with_scopes};
ghost use Rattle.oauth2_wire.specs.Texts.{param_pair, given_text};
ghost use Rattle.oauth2_wire.specs.Expected.{joined_scope, expected_pairs, optional_pair};
ghost use Rattle.oauth2_wire.specs.Expected.{Configuration, configuration_from};
ghost use Rattle.oauth2_wire.specs.Expected.{basic_credentials, body_credentials};
ghost use Rattle.oauth2_wire.specs.Expected.{authorization_header};
ghost use Rattle.oauth2_wire.specs.private.Headers.{headers_with, optional_authorization};
ghost use Rattle.oauth2_form.specs.Basic.{basic};
ghost use Rattle.oauth2_wire.specs.Request.{view_of, IsCopyOf, IsRequestOf};

use crate::texts::ParamText;
use http::request::Parts;
use http::{Method, Request, Version};
use http_header::{
    ACCEPT, AUTHORIZATION, CONTENT_TYPE, HeaderMap, HeaderMapError, HeaderName, HeaderValue,
};
use http_uri::{Uri, UriError};
use oauth2_form::{EncodedText, FormBody, ParamBuffer, basic_header};
use oauth2_types::{ClientId, ClientSecret, Scope, TryClone};
use oauth2_urls::RedirectUrl;
use std::alloc::{AllocError, Global};
use std::fmt;
use url::Url;

/// The request that an HTTP client receives.
pub type HttpRequest = Request<Vec<u8>>;

/// How a client sends its identifier and its secret (RFC 6749, section 2.3.1).
#[derive(Clone, Copy, Debug, PartialEq, Eq)]
pub enum AuthType {
    /// As parameters of the body.
    RequestBody,
    /// By HTTP Basic authentication; a client without a secret sends its identifier in the body.
    BasicAuth,
}

impl TryClone for AuthType {
    ghost use Rattle.oauth2_wire.specs.declared.request.AuthType.{AuthType};

    ghost Seen = { AuthType };

    ghost seen = { λ auth_type. auth_type };

    fn try_clone(&self, _alloc: Global) -> Result<AuthType, AllocError> {
        Ok(*self)
    }
}

/// Why a request could not be built.
#[derive(Clone, Copy, Debug, PartialEq, Eq)]
pub enum RequestFault {
    /// The endpoint's URL is not an HTTP target.
    NotHttp,
    /// Memory ran out.
    Memory,
}

impl fmt::Display for RequestFault {
    ghost use Rattle.oauth2_wire.specs.Display.{request_fault_text};

    ghost output = { request_fault_text };

    ghost styled_output = { λ fault _. request_fault_text fault };

    fn fmt<W: fmt::Write>(&self, f: &mut fmt::Formatter<W>) -> fmt::Result {
        match self {
            RequestFault::NotHttp => f.write_str("endpoint URL is not an HTTP target"),
            RequestFault::Memory => f.write_str("Out of memory"),
        }
    }
}

impl std::error::Error for RequestFault {}

impl From<AllocError> for RequestFault {
    ghost use Rattle.std.specs.Prelude.{◌≡◌};
    ghost use Rattle.oauth2_wire.specs.declared.request.RequestFault.TheVariants.{Memory};

    ghost from_gives = { λ _ e. e ≡ Memory };

    fn from(_: AllocError) -> RequestFault {
        RequestFault::Memory
    }
}

/// Builds the POST to an endpoint. Its body has, in this order, the own pairs of the request, the
/// scopes, the credentials (unless they are in the header), the redirect URL and the extra
/// parameters.
pub fn endpoint_request(
    alloc: Global,
    auth_type: &AuthType,
    client_id: &ClientId,
    client_secret: Option<&ClientSecret>,
    extra_params: &[(ParamText<'_>, ParamText<'_>)],
    redirect_url: Option<&RedirectUrl>,
    scopes: Option<&[Scope]>,
    url: &Url,
    own_pairs: &[(&str, &str)],
) -> Result<HttpRequest, RequestFault>
    ensures request { IfOk result (λ r. IsRequestOf (record {
      auth_type = auth_type.now;
      client_id = client_id.now;
      client_secret = option_copied client_secret.entry;
      own_pairs = map pair_text own_pairs.now;
      scope = joined_scope (option_copied scopes.entry);
      redirect_uri = option_map given_text (option_copied redirect_url.entry);
      extra_params = map param_pair extra_params.now;
    }) (serialize url.now) (view_of r)) }

    // If the URL is not an HTTP target, the result is an error; `NotHttp` is returned only then.
    ensures no_target { SpellsNone (serialize url.now) → IsErr result }
    ensures not_http { result ≡ Err RequestFault.NotHttp → SpellsNone (serialize url.now) }
{
    let buffer = filled_buffer(alloc, scopes, extra_params)?;
    endpoint_request_encoded(
        alloc,
        auth_type,
        client_id,
        client_secret,
        &buffer,
        redirect_url,
        url,
        own_pairs,
    )
}

/// Builds the POST to an endpoint from scopes and extra parameters that are already encoded.
#[tactic(auto, using(crate::proofs::ByNameLemmas::by_name))]
pub fn endpoint_request_encoded(
    alloc: Global,
    auth_type: &AuthType,
    client_id: &ClientId,
    client_secret: Option<&ClientSecret>,
    buffer: &ParamBuffer,
    redirect_url: Option<&RedirectUrl>,
    url: &Url,
    own_pairs: &[(&str, &str)],
) -> Result<HttpRequest, RequestFault>
    ensures request { let configuration = configuration_from auth_type.now client_id.now
        (option_copied client_secret.entry) (map pair_text own_pairs.now) buffer.now
        (option_copied redirect_url.entry) in
        IfOk result (λ r. IsRequestOf configuration (serialize url.now) (view_of r)) }

    // If the URL is not an HTTP target, the result is an error; `NotHttp` is returned only then.
    ensures no_target { SpellsNone (serialize url.now) → IsErr result }
    ensures not_http { result ≡ Err RequestFault.NotHttp → SpellsNone (serialize url.now) }
{
    let uri = target(alloc, url)?;
    let body = request_body(
        alloc,
        auth_type,
        client_id,
        client_secret,
        buffer,
        redirect_url,
        own_pairs,
    )?;
    let value = authorization(alloc, auth_type, client_id, client_secret)?;
    let head = Parts {
        method: Method::POST,
        uri,
        version: Version::HTTP_11,
        headers: request_headers(alloc, value)?,
    };
    Ok(Request::from_parts(head, body.into_bytes()))
}

/// Copies a request, for a client that takes its request by value.
pub fn copy_request(alloc: Global, request: &HttpRequest) -> Result<HttpRequest, AllocError>
    ensures copy { IfOk result (λ copy. IsCopyOf (view_of request.now) (view_of copy)) }

    // The copy is the request of every configuration that the original is the request of.
    ensures request { IfOk result (λ copy. (configuration : Configuration) (text : List ℕ)
        → IsRequestOf configuration text (view_of request.now)
        → IsRequestOf configuration text (view_of copy)) }
{
    let method = request.method().clone()?;
    let uri = request.uri().clone()?;
    let headers = request.headers().clone()?;
    let body = Vec::from_slice(alloc, request.body().as_slice())?;
    let head = Parts {
        method,
        uri,
        version: request.version(),
        headers,
    };
    Ok(Request::from_parts(head, body))
}

// A buffer with the scopes and the extra parameters.
fn filled_buffer(
    alloc: Global,
    scopes: Option<&[Scope]>,
    extra_params: &[(ParamText<'_>, ParamText<'_>)],
) -> Result<ParamBuffer, AllocError>
    ensures { IfOk result (λ buffer. buffer ≡ record {
      scope = joined_scope (option_copied scopes.entry);
      extra_params = map param_pair extra_params.now;
    }) }
{
    let mut buffer = scopes_buffer(alloc, scopes)?;
    add_extras(&mut buffer, extra_params)?;
    Ok(buffer)
}

// A buffer with the scopes and no extra parameter.
#[tactic(auto, using(crate::proofs::ParamsLemmas::joined))]
fn scopes_buffer(alloc: Global, scopes: Option<&[Scope]>) -> Result<ParamBuffer, AllocError>
    ensures { IfOk result (λ buffer. buffer ≡ record {
      scope = joined_scope (option_copied scopes.entry);
      extra_params = [];
    }) }
{
    let mut buffer = ParamBuffer::new(alloc);
    match scopes {
        Some(scopes) => {
            add_scopes(&mut buffer, scopes)?;
            Ok(buffer)
        }
        None => Ok(buffer),
    }
}

// Adds the scopes, in order.
fn add_scopes(buffer: &mut ParamBuffer, scopes: &[Scope]) -> Result<(), AllocError>
    ensures { OnOk result (buffer.new ≡ record buffer.old {
      scope = with_scopes buffer.old.scope scopes.now;
    }) }
{
    for scope in scopes {
        buffer.add_scope(scope.as_str())?;
    }
    Ok(())
}

// Adds the extra parameters, in order.
fn add_extras(
    buffer: &mut ParamBuffer,
    extra_params: &[(ParamText<'_>, ParamText<'_>)],
) -> Result<(), AllocError>
    ensures { OnOk result (buffer.new ≡ record buffer.old {
      extra_params = buffer.old.extra_params ++ map param_pair extra_params.now;
    }) }
{
    for (name, value) in extra_params {
        buffer.add_extra(name.as_str(), value.as_str())?;
    }
    Ok(())
}

// The HTTP target that the text of the URL spells.
fn target(alloc: Global, url: &Url) -> Result<Uri, RequestFault>
    ensures ok { IfOk result (Spells (serialize url.now)) }
    ensures not_http { result ≡ Err RequestFault.NotHttp → SpellsNone (serialize url.now) }
{
    match Uri::from_str(alloc, url.as_str()) {
        Ok(uri) => Ok(uri),
        Err(UriError::Invalid(_)) => Err(RequestFault::NotHttp),
        Err(UriError::OutOfMemory) => Err(RequestFault::Memory),
    }
}

// How many bytes a body has room for before it reallocates, besides its extra parameters.
const ROOM: usize = 256;

// The body: the own pairs of the request, the scopes, the credentials that are not sent in the
// header, the redirect URL, and the extra parameters.
fn request_body(
    alloc: Global,
    auth_type: &AuthType,
    client_id: &ClientId,
    client_secret: Option<&ClientSecret>,
    buffer: &ParamBuffer,
    redirect_url: Option<&RedirectUrl>,
    own_pairs: &[(&str, &str)],
) -> Result<FormBody, AllocError>
    ensures { let configuration = configuration_from auth_type.now client_id.now
        (option_copied client_secret.entry) (map pair_text own_pairs.now) buffer.now
        (option_copied redirect_url.entry) in
        IfOk result (λ body. body ≡ expected_pairs configuration) }
{
    let room = ROOM.saturating_add(buffer.extra_params().byte_len());
    let mut body = FormBody::with_capacity(alloc, room)?;
    push_all(&mut body, own_pairs)?;
    let mut body = with_encoded(body, "scope", buffer.scope())?;
    push_credentials(&mut body, auth_type, client_id, client_secret)?;
    push_redirect(&mut body, redirect_url)?;
    Ok(body.append(buffer.extra_params())?)
}

// Appends the pairs, in order.
fn push_all(body: &mut FormBody, pairs: &[(&str, &str)]) -> Result<(), AllocError>
    ensures { OnOk result (body.new ≡ body.old ++ map pair_text pairs.now) }
{
    for &(name, value) in pairs {
        body.push(name, value)?;
    }
    Ok(())
}

// The body with one more pair, if there is a value.
fn with_encoded(
    body: FormBody,
    name: &str,
    value: Option<&EncodedText>,
) -> Result<FormBody, AllocError>
    ensures { IfOk result (λ new. new
        ≡ body ++ optional_pair name.now (option_copied value.entry)) }
{
    match value {
        Some(value) => Ok(body.push_encoded(name, value)?),
        None => Ok(body),
    }
}

// Appends the credentials, unless they are sent in the header.
fn push_credentials(
    body: &mut FormBody,
    auth_type: &AuthType,
    client_id: &ClientId,
    client_secret: Option<&ClientSecret>,
) -> Result<(), AllocError>
    ensures { let secret = option_copied client_secret.entry in
        let credentials = basic_credentials auth_type.now client_id.now secret in
        OnOk result (body.new ≡ body.old ++ body_credentials credentials client_id.now secret) }
{
    match (auth_type, client_secret) {
        (AuthType::BasicAuth, Some(_)) => Ok(()),
        (_, None) => {
            push_id(body, client_id)?;
            Ok(())
        }
        (AuthType::RequestBody, Some(secret)) => {
            push_id(body, client_id)?;
            push_secret(body, secret)?;
            Ok(())
        }
    }
}

fn push_id(body: &mut FormBody, client_id: &ClientId) -> Result<(), AllocError>
    ensures { OnOk result (body.new ≡ body.old ++ (codes "client_id", client_id.now) ∷ []) }
{
    body.push_plain("client_id", client_id.as_str())?;
    Ok(())
}

fn push_secret(body: &mut FormBody, client_secret: &ClientSecret) -> Result<(), AllocError>
    ensures { OnOk result (body.new
        ≡ body.old ++ (codes "client_secret", client_secret.now) ∷ []) }
{
    body.push_plain("client_secret", client_secret.secret().as_str())?;
    Ok(())
}

// Appends the text of the redirect URL, if there is one.
fn push_redirect(body: &mut FormBody, redirect_url: Option<&RedirectUrl>) -> Result<(), AllocError>
    ensures { let text = option_map given_text (option_copied redirect_url.entry) in
        OnOk result (body.new ≡ body.old ++ optional_pair (codes "redirect_uri") text) }
{
    match redirect_url {
        Some(url) => {
            body.push_plain("redirect_uri", url.as_str())?;
            Ok(())
        }
        None => Ok(()),
    }
}

// The value of the Authorization header, if the credentials are sent in it.
fn authorization(
    alloc: Global,
    auth_type: &AuthType,
    client_id: &ClientId,
    client_secret: Option<&ClientSecret>,
) -> Result<Option<HeaderValue>, AllocError>
    ensures { let secret = option_copied client_secret.entry in
        let credentials = basic_credentials auth_type.now client_id.now secret in
        IfOk result (λ value. authorization_header credentials ≡ optional_authorization value
        × (option_and_then (λ v. basic v.bytes) value ≡ credentials)) }
{
    match (auth_type, client_secret) {
        (AuthType::BasicAuth, Some(secret)) => {
            Ok(Some(basic_header(alloc, client_id.as_str(), secret.secret().as_str())?))
        }
        _ => Ok(None),
    }
}

// Every header of a request.
fn request_headers(
    alloc: Global,
    authorization: Option<HeaderValue>,
) -> Result<HeaderMap, AllocError>
    ensures { IfOk result (λ headers. headers ≡ headers_with authorization) }
{
    let Ok(mut headers) = HeaderMap::with_capacity(alloc, 3) else {
        return Err(AllocError);
    };
    add_header(
        &mut headers,
        ACCEPT,
        HeaderValue::from_static("application/json"),
    )?;
    add_header(
        &mut headers,
        CONTENT_TYPE,
        HeaderValue::from_static("application/x-www-form-urlencoded"),
    )?;
    if let Some(value) = authorization {
        add_header(&mut headers, AUTHORIZATION, value)?;
    }
    Ok(headers)
}

fn add_header(
    headers: &mut HeaderMap,
    name: HeaderName,
    value: HeaderValue,
) -> Result<(), AllocError>
    requires names { length headers.old < 3 }
    requires values { value_count headers.old < 3 }
    ensures { OnOk result (headers.new ≡ insert headers.old name value) }
{
    match headers.insert(name, value) {
        Ok(_) => Ok(()),
        Err(HeaderMapError::OutOfMemory) => Err(AllocError),
        Err(HeaderMapError::MaxSizeReached) => unreachable!(),
    }
}
