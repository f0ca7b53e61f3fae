//! A whole run: reads the input, runs the script, and writes the output.

ghost use Rattle.std.specs.Prelude.{◌≡◌, List, ℕ, Ok, false, map, string_bytes, IfOk, IfSome};
ghost use Rattle.std.specs.Io.KnownBytes.{Appends};
ghost use Rattle.oauth2_request_commands.specs.Client.{settings_of};
ghost use Rattle.oauth2_request_commands.specs.Out.{Adds};
ghost use Rattle.oauth2_commands.specs.Input.{Calls};
ghost use Rattle.oauth2_commands.specs.Run.{
  IsCommandOutput,
  IsResultOf,
  IsRunOutput,
  IsScriptOutput,
  Shows,
};
ghost use Rattle.oauth2_script.specs.Views.{
  client_view,
  command_view,
  read_view,
  script_command_view,
  script_view,
  stored_reply,
};
ghost use Rattle.oauth2_world.specs.Adapted.{adapted_replies};
ghost use Rattle.oauth2_world.specs.Replay.{client_replies};

use crate::command::run_command;
use crate::input::{ScriptReader, read_input};
use crate::status::RunFault;
use oauth2_grant_commands::run_grant;
use oauth2_request_commands::{RunStatus, client_of};
use oauth2_results::text_of;
use oauth2_script::{
    ClientPart, Command, Reply, Script, ScriptCommand, ScriptFault, ScriptInput, script_input,
};
use oauth2_world::{Event, Events, ScriptedClient, ScriptedClock, ScriptedWorld, adapt_replies};
use std::alloc::{AllocError, Global};
use std::collections::VecDeque;
use std::io::Write;

// Makes the client of the script, runs the command with it, and drops the client.
fn run_plain(
    alloc: Global,
    client: ClientPart,
    command: Command,
    world: &mut ScriptedWorld,
) -> Result<RunStatus, AllocError>
    ensures { IfOk result (λ status. world.new.http_client.is_starved ≡ false
        → Adds world.old.http_client.events
        world.new.http_client.events status
        (IsCommandOutput (settings_of (client_view client)) world.old.clock
        (client_replies world.old.http_client) (command_view command))) }
{
    run_command(alloc, &client_of(client), command, world)
}

// Runs the command, of either kind, with the client of the script, and drops the client.
fn run_by(
    alloc: Global,
    client: ClientPart,
    command: ScriptCommand,
    world: &mut ScriptedWorld,
) -> Result<RunStatus, AllocError>
    ensures { IfOk result (λ status. world.new.http_client.is_starved ≡ false
        → Adds world.old.http_client.events
        world.new.http_client.events status
        (IsRunOutput (client_view client) world.old.clock
        (client_replies world.old.http_client) (script_command_view command))) }
{
    match command {
        ScriptCommand::Plain(command) => run_plain(alloc, client, command, world),
        ScriptCommand::Grant(command) => run_grant(alloc, &client, command, &mut world.http_client),
    }
}

// The replies as the adapters of this client change them.
fn adapt_for(
    alloc: Global,
    client: &ClientPart,
    replies: Vec<Reply>,
) -> Result<Vec<Reply>, AllocError>
    ensures { IfOk result (λ new. map stored_reply new.items
        ≡ adapted_replies (client_view client.now).adapters (map stored_reply replies.items)) }
{
    adapt_replies(alloc, client.adapters.as_slice(), replies)
}

// Runs a script; returns its events and its status.
fn events_of(alloc: Global, script: Script) -> Result<(Events, RunStatus), AllocError>
    ensures { IfOk result (λ r. Shows r.0 r.1 (IsScriptOutput (Ok (script_view script)))) }
{
    let Script {
        client,
        command,
        replies,
        readings,
    } = script;
    let replies = adapt_for(alloc, &client, replies)?;
    let mut world = ScriptedWorld {
        http_client: ScriptedClient {
            alloc,
            replies: VecDeque::from(replies),
            events: Events::new(alloc),
            is_starved: false,
        },
        clock: ScriptedClock::new(readings),
    };
    let status = run_by(alloc, client, command, &mut world)?;
    let http_client = world.http_client;
    if http_client.is_starved {
        return Err(AllocError);
    }
    Ok((http_client.events, status))
}

// Runs the script that was read, or shows its fault; returns the events and the status.
fn run_read(
    alloc: Global,
    read: Result<Script, ScriptFault>,
) -> Result<(Events, RunStatus), AllocError>
    ensures { IfOk result (λ r. Shows r.0 r.1 (IsScriptOutput (read_view read))) }
{
    match read {
        Ok(script) => events_of(alloc, script),
        Err(fault) => {
            let mut events = Events::new(alloc);
            events.push(Event::BadScript(fault))?;
            Ok((events, RunStatus::BadScript))
        }
    }
}

// Runs the script in this input; returns the text of its result, in the form that the input asks
// for, and its status.
fn output_of(alloc: Global, input: &[u8]) -> Result<(String, RunStatus), AllocError>
    ensures { IfOk result (λ r. IsResultOf input.now (string_bytes r.0) r.1) }
{
    let ScriptInput { form, script } = script_input(alloc, input)?;
    let (events, status) = run_read(alloc, script)?;
    let text = text_of(alloc, form, &events)?;
    Ok((text, status))
}

/// Reads a script to its end, runs its command, and writes the result of the run, as lines or as
/// JSON.
///
/// The reader is called at most 1,048,576 times, and not again after its end or a failure. If the
/// input has not ended by then, `Read` is returned.
pub fn run_script<R: ScriptReader, W: Write>(
    alloc: Global,
    reader: &mut R,
    writer: &mut W,
) -> Result<RunStatus, RunFault>
    // What is written is the text of an output that `IsOutputOf` allows for the input.
    ensures shown { IfOk result (λ status. IfSome (R.remaining reader.old) (λ input.
        (written : List ℕ) × Appends (W.contents writer.old) (W.contents writer.new) written
        × IsResultOf input written status)) }
    // The reader is not called again after its end or a failure. `Read` is returned after a failed
    // read, or if the last allowed read is not the end.
    ensures calls { Calls R.reads result reader.old reader.new }
    // If the input can't be read, nothing is written.
    ensures unread { result ≡ Err RunFault.Read → writer.new ≡ writer.old }
    // Nothing is written if memory ran out outside a call of the client.
    ensures unfed { result ≡ Err RunFault.Memory → writer.new ≡ writer.old }
{
    let input = read_input(alloc, reader)?;
    let (text, status) = output_of(alloc, input.as_slice())?;
    if writer.write_all(text.as_bytes()).is_err() {
        return Err(RunFault::Write);
    }
    if writer.flush().is_err() {
        return Err(RunFault::Write);
    }
    Ok(status)
}
