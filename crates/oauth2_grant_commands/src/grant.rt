//! The commands for further grants and for a pushed request.

ghost use Rattle.std.specs.Prelude.{◌≡◌, false, IfOk};
ghost use Rattle.oauth2_grant_commands.specs.Grant.{IsGrantOutput};
ghost use Rattle.oauth2_request_commands.specs.Out.{Adds};
ghost use Rattle.oauth2_script.specs.Views.{client_view, grant_view};
ghost use Rattle.oauth2_world.specs.Replay.{client_replies};

use crate::assertion::run_assertion;
use crate::exchange_token::run_exchange_token;
use crate::extension::run_extension;
use crate::push::run_push;
use oauth2_request_commands::RunStatus;
use oauth2_script::{ClientPart, GrantCommand};
use oauth2_world::ScriptedClient;
use std::alloc::{AllocError, Global};

/// Runs a command for a further grant or for a pushed request, and shows its request and its
/// result.
pub fn run_grant(
    alloc: Global,
    client: &ClientPart,
    command: GrantCommand,
    http_client: &mut ScriptedClient,
) -> Result<RunStatus, AllocError>
    ensures { IfOk result (λ status. http_client.new.is_starved ≡ false
        → Adds http_client.old.events http_client.new.events status
        (IsGrantOutput (client_view client.now) (client_replies http_client.old)
        (grant_view command))) }
{
    match command {
        GrantCommand::Extension(params) => run_extension(alloc, client, params, http_client),
        GrantCommand::ExchangeToken(params) => {
            run_exchange_token(alloc, client, params, http_client)
        }
        GrantCommand::Assertion(params) => run_assertion(alloc, client, params, http_client),
        GrantCommand::Push(params) => run_push(alloc, client, params, http_client),
    }
}
