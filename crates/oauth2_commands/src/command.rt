//! Each command of a script and the function that runs it.

ghost use Rattle.std.specs.Prelude.{◌≡◌, false, string_bytes, IfOk};
ghost use Rattle.oauth2_request_commands.specs.Out.{Adds};
ghost use Rattle.oauth2_world.specs.Replay.{client_replies};
ghost use Rattle.oauth2_commands.specs.Run.{IsCommandOutput};
ghost use Rattle.oauth2_script.specs.Views.{command_view};

use crate::access_token::run_access_token;
use crate::id_token::run_id_token;
use crate::keeper::run_keeper;
use crate::metadata::run_metadata;
use crate::redirect::run_redirect;
use oauth2_request_commands::{
    RunStatus, ScriptClient, run_authorize, run_client_credentials, run_code,
    run_device_authorization, run_device_poll, run_introspect, run_password, run_refresh,
    run_revoke,
};
use oauth2_script::Command;
use oauth2_shared_keeper_command::run_shared_keeper;
use oauth2_world::ScriptedWorld;
use std::alloc::{AllocError, Global};

/// Runs a command, and adds its events to those of the client in `world`.
pub fn run_command(
    alloc: Global,
    client: &ScriptClient,
    command: Command,
    world: &mut ScriptedWorld,
) -> Result<RunStatus, AllocError>
    ensures { IfOk result (λ status. world.new.http_client.is_starved ≡ false
        → Adds world.old.http_client.events
        world.new.http_client.events status
        (IsCommandOutput client.now world.old.clock (client_replies world.old.http_client)
        (command_view command))) }
{
    let http_client = &mut world.http_client;
    match command {
        Command::Code(params) => run_code(alloc, client, params, http_client),
        Command::Refresh(params) => run_refresh(alloc, client, params, http_client),
        Command::Password(params) => run_password(alloc, client, params, http_client),
        Command::ClientCredentials(params) => run_client_credentials(
            alloc,
            client,
            params,
            http_client,
        ),
        Command::Introspect(params) => run_introspect(alloc, client, params, http_client),
        Command::Revoke(params) => run_revoke(alloc, client, params, http_client),
        Command::DeviceAuthorization(params) => run_device_authorization(
            alloc,
            client,
            params,
            http_client,
        ),
        Command::DevicePoll(params) => run_device_poll(alloc, client, params, world),
        Command::Keeper(params) => run_keeper(
            alloc,
            client,
            params,
            world.clock.moments(),
            http_client,
        ),
        Command::SharedKeeper(params) => run_shared_keeper(alloc, client, params, http_client),
        Command::Metadata(params) => run_metadata(alloc, client, params, http_client),
        Command::IdToken(params) => run_id_token(
            alloc,
            client,
            params,
            &mut world.clock,
            &mut http_client.events,
        ),
        Command::AccessToken(params) => run_access_token(
            alloc,
            params,
            &mut world.clock,
            &mut http_client.events,
        ),
        Command::Authorize(params) => run_authorize(alloc, client, params, &mut http_client.events),
        Command::Redirect(params) => run_redirect(alloc, client, params, &mut http_client.events),
    }
}
