//! The introspection of a token, from the call to the response.

ghost use Rattle.std.specs.Prelude.{◌≡◌, IfOk, string_bytes};
ghost use Rattle.oauth2_wire.specs.Reply.{accepted, answer_of};
ghost use Rattle.oauth2_bench.specs.Canned.{canned_reply};

use crate::canned::CannedClient;
use crate::clients::{IntrospectionClient, introspection_client};
use crate::fault::Fault;
use crate::operation::{Done, Operation};
use oauth2::basic::{BasicErrorResponse, BasicTokenIntrospectionResponse};
use oauth2::{AccessToken, FromJson, RequestTokenError, TokenIntrospectionResponse};
use std::alloc::{AllocError, Global};

/// Introspects the token `access_token_123`.
#[derive(Drop)]
pub struct IntrospectionOperation {
    client: IntrospectionClient,
    token: AccessToken,
    http_client: CannedClient,
}

impl IntrospectionOperation {
    /// The operation whose request gets a reply with this body.
    pub fn new(alloc: Global, body: String) -> Result<IntrospectionOperation, Fault> {
        let client = introspection_client(alloc)?;
        let token = AccessToken::new(String::from_str(alloc, "access_token_123")?);
        let http_client = CannedClient {
            alloc,
            body,
            sent: 0,
        };
        Ok(IntrospectionOperation {
            client,
            token,
            http_client,
        })
    }
}

// Sends the request. The response is the one in the client's body.
fn introspect(
    alloc: Global,
    client: &IntrospectionClient,
    token: &AccessToken,
    http_client: &mut CannedClient,
) -> Result<BasicTokenIntrospectionResponse, RequestTokenError<AllocError, BasicErrorResponse>>
    ensures { IfOk result (λ answer.
        answer_of client.now.reply_rule ⟦<BasicTokenIntrospectionResponse as FromJson>⟧.reading
        ⟦<BasicErrorResponse as FromJson>⟧.reading
        (canned_reply (string_bytes http_client.old.body))
        ≡ accepted (⟦<BasicTokenIntrospectionResponse as FromJson>⟧.meaning answer)) }
{
    client.introspect(alloc, token).request(alloc, http_client)
}

impl Operation for IntrospectionOperation {
    fn run(&mut self, alloc: Global) -> Result<Done, Fault> {
        let answer = introspect(alloc, &self.client, &self.token, &mut self.http_client)?;
        let Some(scopes) = answer.scopes() else {
            return Err(Fault::Refused);
        };
        Ok(Done {
            sent: self.http_client.sent,
            read: scopes.len(),
        })
    }
}
