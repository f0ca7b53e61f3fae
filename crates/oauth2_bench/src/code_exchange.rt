//! The exchange of a code, from the call to the token.

ghost use Rattle.std.specs.Prelude.{◌≡◌, IfOk, string_bytes};
ghost use Rattle.oauth2_wire.specs.Reply.{accepted, answer_of};
ghost use Rattle.oauth2_bench.specs.Canned.{canned_reply};

use crate::canned::CannedClient;
use crate::clients::{BenchClient, client};
use crate::fault::Fault;
use crate::operation::{Done, Operation};
use oauth2::basic::{BasicErrorResponse, BasicTokenResponse};
use oauth2::{AuthorizationCode, FromJson, RequestTokenError, TokenResponse};
use std::alloc::{AllocError, Global};

/// Exchanges the code `ccc`.
#[derive(Drop)]
pub struct CodeExchange {
    client: BenchClient,
    http_client: CannedClient,
}

impl CodeExchange {
    /// The operation whose request gets a reply with this body.
    pub fn new(alloc: Global, body: String) -> Result<CodeExchange, Fault> {
        Ok(CodeExchange {
            client: client(alloc)?,
            http_client: CannedClient {
                alloc,
                body,
                sent: 0,
            },
        })
    }
}

// Sends the request. The token is the one in the client's body.
fn exchange(
    alloc: Global,
    client: &BenchClient,
    code: String,
    http_client: &mut CannedClient,
) -> Result<BasicTokenResponse, RequestTokenError<AllocError, BasicErrorResponse>>
    ensures { IfOk result (λ token.
        answer_of client.now.reply_rule ⟦<BasicTokenResponse as FromJson>⟧.reading
        ⟦<BasicErrorResponse as FromJson>⟧.reading
        (canned_reply (string_bytes http_client.old.body))
        ≡ accepted (⟦<BasicTokenResponse as FromJson>⟧.meaning token)) }
{
    client
        .exchange_code(alloc, AuthorizationCode::new(code))
        .request(alloc, http_client)
}

impl Operation for CodeExchange {
    fn run(&mut self, alloc: Global) -> Result<Done, Fault> {
        let code = String::from_str(alloc, "ccc")?;
        let token = exchange(alloc, &self.client, code, &mut self.http_client)?;
        Ok(Done {
            sent: self.http_client.sent,
            read: token.access_token().secret().len(),
        })
    }
}
