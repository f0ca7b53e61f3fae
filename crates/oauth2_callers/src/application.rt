//! An application that defines its own HTTP client, and reads the `id_token` that its server
//! returns next to the access token.

ghost use Rattle.std.specs.Prelude.{
  ◌≡◌,
  Ok,
  IfOk,
  codes,
  option_and_then,
  option_copied,
  option_map,
  string_bytes,
};
ghost use Rattle.serde_json.specs.Find.{as_str, get_member};
ghost use Rattle.oauth2_replies.specs.Extra.{extra_members};
ghost use Rattle.url.specs.Parts.{serialize};
ghost use Rattle.oauth2_requests.specs.Code.{code_configuration};
ghost use Rattle.oauth2_wire.specs.Request.{HttpRequest, IsRequestOf, view_of};
ghost use Rattle.oauth2_wire.specs.Reply.{HttpResponse, accepted, answer_of, reply_of};

use oauth2::basic::{
    BasicErrorResponse, BasicRequestTokenError, BasicRevocationErrorResponse,
    BasicTokenIntrospectionResponse, BasicTokenType,
};
use oauth2::url::ParseError;
use oauth2::{
    AuthorizationCode, Client, ClientId, CodeTokenRequest, EndpointMaybeSet, EndpointNotSet,
    EndpointSet, ExtraFields, FromJson, HttpRequest, HttpResponse, ParamText, RequestTokenError,
    Scope, StandardRevocableToken, StandardTokenResponse, SyncHttpClient, TokenUrl,
};
use std::alloc::{AllocError, Global};
use std::fmt;

/// Why this application's HTTP client got no reply.
#[derive(Debug, Drop)]
pub enum CannedError {
    /// The client was called before, and has no other reply.
    Spent,
}

impl fmt::Display for CannedError {
    fn fmt<W: fmt::Write>(&self, f: &mut fmt::Formatter<W>) -> fmt::Result {
        match self {
            CannedError::Spent => f.write_str("the reply was handed out before"),
        }
    }
}

impl std::error::Error for CannedError {}

/// An HTTP client that returns one reply at its first call, and an error after that.
pub struct CannedClient {
    reply: Option<HttpResponse>,
}

impl Drop for CannedClient {
    fn drop(self) {
        let CannedClient { reply: _ } = self;
    }
}

impl CannedClient {
    /// A client that returns this reply at its first call.
    pub fn new(reply: HttpResponse) -> CannedClient {
        CannedClient { reply: Some(reply) }
    }
}

impl SyncHttpClient for CannedClient {
    type Error = CannedError;

    fn call(&mut self, _request: HttpRequest) -> Result<HttpResponse, CannedError> {
        self.reply.take().ok_or(CannedError::Spent)
    }
}

/// A token response that also keeps the members that the standard does not name.
pub type IdentityTokenResponse = StandardTokenResponse<ExtraFields, BasicTokenType>;

/// A client of a server with such token responses.
pub type IdentityClient<HasTokenUrl = EndpointMaybeSet> = Client<
    BasicErrorResponse,
    IdentityTokenResponse,
    BasicTokenIntrospectionResponse,
    StandardRevocableToken,
    BasicRevocationErrorResponse,
    EndpointNotSet,
    EndpointNotSet,
    EndpointNotSet,
    EndpointNotSet,
    HasTokenUrl,
>;

/// Makes a client, with a token endpoint if `token_url` is `Some`.
pub fn identity_client(
    alloc: Global,
    id: String,
    token_url: Option<String>,
) -> Result<IdentityClient, ParseError> {
    let token_url = match token_url {
        Some(text) => Some(TokenUrl::new(alloc, text)?),
        None => None,
    };
    Ok(Client::new(ClientId::new(id)).set_token_uri_option(token_url))
}

/// Requests a token for the application itself, with one scope and one audience (RFC 6749, section
/// 4.4).
pub fn own_token<'a>(
    alloc: Global,
    client: &'a IdentityClient<EndpointSet>,
    http_client: &mut CannedClient,
    scope: Scope,
    audience: &'a str,
) -> Result<IdentityTokenResponse, BasicRequestTokenError<CannedError>> {
    client
        .exchange_client_credentials(alloc)
        .add_scope(scope)
        .map_err(RequestTokenError::refused)?
        .add_extra_param(
            ParamText::Borrowed("audience"),
            ParamText::Borrowed(audience),
        )
        .map_err(RequestTokenError::refused)?
        .request(alloc, http_client)
}

/// The member `id_token` of a response, if it is a text.
pub fn id_token(token: &IdentityTokenResponse) -> Option<&str>
    ensures { option_copied result
        ≡ option_and_then as_str
        (get_member (codes "id_token") (extra_members token.now.extra_fields)) }
{
    token.extra_fields().text("id_token")
}

/// Sends a token request with a code. If it returns a response, the HTTP client was called exactly
/// once, with this request, and the response is what its reply is read as.
pub fn token_response<C: SyncHttpClient>(
    alloc: Global,
    started: CodeTokenRequest<'_, BasicErrorResponse, IdentityTokenResponse>,
    http_client: &mut C,
) -> Result<IdentityTokenResponse, BasicRequestTokenError<C::Error>>
    requires { C.is_ready http_client.old }
    ensures token { IfOk result (λ token. (request : HttpRequest)
        × IsRequestOf (code_configuration started.entry) (serialize started.entry.token_url.url)
        (view_of request)
        × (reply : HttpResponse) × C.step http_client.old request (Ok reply) http_client.new
        × (answer_of started.entry.base.reply_rule ⟦<IdentityTokenResponse as FromJson>⟧.reading
        ⟦<BasicErrorResponse as FromJson>⟧.reading (reply_of reply)
        ≡ accepted (⟦<IdentityTokenResponse as FromJson>⟧.meaning token))) }
    ensures ready { C.is_ready http_client.new }
{
    started.request(alloc, http_client)
}

/// Exchanges a code, and returns the text of the reply's member `id_token`, if it has one.
pub fn id_token_for_code<C: SyncHttpClient>(
    alloc: Global,
    client: &IdentityClient,
    http_client: &mut C,
    code: String,
) -> anyhow::Result<Option<String>>
where
    C::Error: fmt::Debug,
    requires { C.is_ready http_client.old }
    ensures id_token { IfOk result (λ id_token. (request : HttpRequest) × (reply : HttpResponse)
        × C.step http_client.old request (Ok reply) http_client.new
        × (token : ⟦<IdentityTokenResponse as FromJson>⟧.Meaning)
        × (answer_of client.now.reply_rule ⟦<IdentityTokenResponse as FromJson>⟧.reading
        ⟦<BasicErrorResponse as FromJson>⟧.reading (reply_of reply)
        ≡ accepted token)
        × (option_map string_bytes id_token
        ≡ option_and_then as_str (get_member (codes "id_token") token.extra_fields))) }
    ensures ready { C.is_ready http_client.new }
{
    let started = client.exchange_code(alloc, AuthorizationCode::new(code))?;
    let token = token_response(alloc, started, http_client)?;
    let id_token = owned(alloc, id_token(&token))?;
    Ok(id_token)
}

fn owned(alloc: Global, text: Option<&str>) -> Result<Option<String>, AllocError>
    ensures { IfOk result (λ copy. option_map string_bytes copy ≡ option_copied text.entry) }
{
    match text {
        Some(text) => Ok(Some(String::from_str(alloc, text)?)),
        None => Ok(None),
    }
}

// The client `application` with this token endpoint.
fn application_client(alloc: Global, token_url: String) -> anyhow::Result<IdentityClient> {
    let id = String::from_str(alloc, "application")?;
    Ok(identity_client(alloc, id, Some(token_url))?)
}

/// Exchanges a code by a client that returns `reply`, and returns the `id_token`. Every error is
/// turned into an `anyhow::Error`.
pub fn canned_id_token(
    alloc: Global,
    token_url: String,
    code: String,
    reply: HttpResponse,
) -> anyhow::Result<Option<String>> {
    let client = application_client(alloc, token_url)?;
    id_token_for_code(alloc, &client, &mut CannedClient::new(reply), code)
}
