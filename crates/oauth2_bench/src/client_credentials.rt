//! A request for the client's own token, with scopes and many parameters.

ghost use Rattle.std.specs.Prelude.{◌≡◌, ◌++◌, IfOk, map, string_bytes};
ghost use Rattle.oauth2_form.specs.Params.{with_scopes};
ghost use Rattle.oauth2_wire.specs.Reply.{accepted, answer_of};
ghost use Rattle.oauth2_wire.specs.ServerView.{pair_texts};
ghost use Rattle.oauth2_bench.specs.Canned.{canned_reply};

use crate::canned::CannedClient;
use crate::clients::{BenchClient, client};
use crate::fault::Fault;
use crate::operation::{Done, Operation};
use oauth2::basic::{BasicErrorResponse, BasicTokenResponse};
use oauth2::{
    ClientCredentialsTokenRequest, FromJson, ParamText, RequestTokenError, Scope, TokenResponse,
};
use std::alloc::{AllocError, Global};

type CredentialsRequest<'a> = ClientCredentialsTokenRequest<
    'a,
    BasicErrorResponse,
    BasicTokenResponse,
>;

/// Requests a token with these scopes and extra parameters.
#[derive(Drop)]
pub struct ClientCredentials {
    client: BenchClient,
    http_client: CannedClient,
    scopes: Vec<String>,
    params: Vec<(String, String)>,
}

impl ClientCredentials {
    /// The operation whose request gets a reply with this body.
    pub fn new(
        alloc: Global,
        body: String,
        scopes: Vec<String>,
        params: Vec<(String, String)>,
    ) -> Result<ClientCredentials, Fault> {
        Ok(ClientCredentials {
            client: client(alloc)?,
            http_client: CannedClient {
                alloc,
                body,
                sent: 0,
            },
            scopes,
            params,
        })
    }
}

fn with_all_scopes<'a>(
    alloc: Global,
    request: CredentialsRequest<'a>,
    scopes: &[String],
) -> Result<CredentialsRequest<'a>, AllocError>
    ensures { IfOk result (λ r. r ≡ record request.entry {
      base = record request.entry.base {
        scope = with_scopes request.entry.base.scope (map string_bytes scopes.now);
      };
    }) }
{
    let mut request = request;
    for scope in scopes {
        request = request.add_scope(Scope::new(String::from_str(alloc, scope.as_str())?))?;
    }
    Ok(request)
}

fn with_all_params<'a>(
    request: CredentialsRequest<'a>,
    params: &'a [(String, String)],
) -> Result<CredentialsRequest<'a>, AllocError>
    ensures { IfOk result (λ r. r ≡ record request.entry {
      base = record request.entry.base {
        extra_params = request.entry.base.extra_params ++ map pair_texts params.now;
      };
    }) }
{
    let mut request = request;
    for (name, value) in params {
        request = request.add_extra_param(
            ParamText::Borrowed(name.as_str()),
            ParamText::Borrowed(value.as_str()),
        )?;
    }
    Ok(request)
}

// Sends the request. The token is the one in the client's body.
fn ask(
    alloc: Global,
    request: CredentialsRequest<'_>,
    http_client: &mut CannedClient,
) -> Result<BasicTokenResponse, RequestTokenError<AllocError, BasicErrorResponse>>
    ensures { IfOk result (λ token.
        answer_of request.entry.base.reply_rule ⟦<BasicTokenResponse as FromJson>⟧.reading
        ⟦<BasicErrorResponse as FromJson>⟧.reading
        (canned_reply (string_bytes http_client.old.body))
        ≡ accepted (⟦<BasicTokenResponse as FromJson>⟧.meaning token)) }
{
    request.request(alloc, http_client)
}

impl Operation for ClientCredentials {
    fn run(&mut self, alloc: Global) -> Result<Done, Fault> {
        let request = self.client.exchange_client_credentials(alloc);
        let request = with_all_scopes(alloc, request, self.scopes.as_slice())?;
        let request = with_all_params(request, self.params.as_slice())?;
        let token = ask(alloc, request, &mut self.http_client)?;
        Ok(Done {
            sent: self.http_client.sent,
            read: token.access_token().secret().len(),
        })
    }
}
