//! The command of a script, of either kind.

ghost use Rattle.serde_json.specs.View.{view};
ghost use Rattle.oauth2_script.specs.ScriptCommand as spec;
ghost use Rattle.oauth2_script_values.specs.Gives.{Gives};
ghost use Rattle.oauth2_script.specs.Views.{script_command_view};

use crate::command::{Command, command_of};
use crate::grant_command::GrantCommand;
use oauth2_script_values::{PartError, of_params};
use serde_json::Value;
use std::alloc::Global;

/// The command of a script, with its parameters.
#[derive(Drop)]
pub enum ScriptCommand {
    Plain(Command),
    Grant(GrantCommand),
}

/// Reads the command of this name from the object `params`.
#[tactic(auto, unfolding(crate::specs::ScriptCommand::script_command_of))]
pub fn script_command_of(
    alloc: Global,
    name: &str,
    params: &Value,
) -> Result<ScriptCommand, PartError>
    ensures { Gives script_command_view result
        (spec.script_command_of name.now (view params.now)) }
{
    match name {
        "extension" => Ok(ScriptCommand::Grant(GrantCommand::Extension(of_params(alloc, params)?))),
        "exchange_token" => Ok(ScriptCommand::Grant(GrantCommand::ExchangeToken(of_params(
            alloc, params,
        )?))),
        "assertion" => Ok(ScriptCommand::Grant(GrantCommand::Assertion(of_params(alloc, params)?))),
        "push" => Ok(ScriptCommand::Grant(GrantCommand::Push(of_params(alloc, params)?))),
        _ => Ok(ScriptCommand::Plain(command_of(alloc, name, params)?)),
    }
}
