//! A script, and how it is read from a JSON value.

ghost use Rattle.std.specs.Prelude.{◌≡◌, option_map, IfErr, IfOk};
ghost use Rattle.serde_json.specs.View.{view};
ghost use Rattle.serde_json.specs.Data.{object, no_members};
ghost use Rattle.oauth2_script.specs.Fault.{told};
ghost use Rattle.oauth2_script.specs.Script as spec;
ghost use Rattle.oauth2_script_values.specs.Gives.{Gives, IsBad, fault_view};
ghost use Rattle.oauth2_script.specs.Views.{client_view, read_view, script_view};

use crate::client_part::ClientPart;
use crate::form::ResultForm;
use crate::reply::Reply;
use crate::script_command::{ScriptCommand, script_command_of};
use crate::script_fault::{ScriptFault, script_fault};
use jiff_core::Timestamp;
use oauth2_script_values::{
    PartError, PartFault, Path, ScriptCause, Step, an_object, bad_member, listed, needed, optional,
};
use serde_json::{Map, Value};
use std::alloc::{AllocError, Global};

/// A script: the client, one command, the replies of the server and the readings of the clock.
#[derive(Drop)]
pub struct Script {
    pub client: ClientPart,
    pub command: ScriptCommand,
    /// One reply for each call, in order; after the last one a call fails.
    pub replies: Vec<Reply>,
    /// What the clock shows, one after the other.
    pub readings: Vec<Timestamp>,
}

fn params_of<'v>(params: Option<&'v Value>, empty: &'v Value) -> Result<&'v Value, PartError>
    requires { view empty.now ≡ object no_members }
    ensures read { Gives (λ v. view v.now) result
        (spec.object_or_empty (option_map (λ v. view v.now) params.entry)) }
    ensures fed { IfErr result IsBad }
{
    match params {
        None => Ok(empty),
        Some(value) => {
            if value.is_object() {
                Ok(value)
            } else {
                Err(PartError::Bad(bad_member("params", ScriptCause::NotObject)))
            }
        }
    }
}

// The fault of an assertion that the secret excludes.
fn twice_authenticated() -> PartFault
    ensures { fault_view result ≡ spec.twice_authenticated }
{
    let path = Path {
        first: Step::Member("params"),
        second: Step::Member("client_assertion"),
        third: Step::End,
        fourth: Step::End,
    };
    PartFault {
        path,
        why: ScriptCause::Excluded,
    }
}

// The client; a fault if it has a secret and an assertion.
fn once_authenticated(
    assertion: Option<&Value>,
    client: ClientPart,
) -> Result<ClientPart, PartError>
    ensures read { Gives client_view result (spec.once_authenticated
        (option_map (λ v. view v.now) assertion.entry) (client_view client)) }
    ensures fed { IfErr result IsBad }
{
    if assertion.is_some() && client.secret.is_some() {
        return Err(PartError::Bad(twice_authenticated()));
    }
    Ok(client)
}

#[tactic(auto, unfolding(crate::specs::Script::script_of))]
fn script_of(alloc: Global, value: &Value) -> Result<Script, PartError>
    ensures { Gives script_view result (spec.script_of (view value.now)) }
{
    an_object(value)?;
    let _form: Option<ResultForm> = optional(alloc, value, "result")?;
    let name: String = needed(alloc, value, "command")?;
    let replies: Vec<Reply> = listed(alloc, value, "replies")?;
    let readings = listed(alloc, value, "readings")?;
    let empty = Value::Object(Map::new(alloc));
    let params = params_of(value.get("params"), &empty)?;
    let command = script_command_of(alloc, name.as_str(), params)?;
    let client: ClientPart = needed(alloc, value, "client")?;
    let client = once_authenticated(params.get("client_assertion"), client)?;
    Ok(Script {
        client,
        command,
        replies,
        readings,
    })
}

/// Reads a value as a script; if it is bad, tells the first member that is, and why.
pub fn read_script(alloc: Global, value: &Value) -> Result<Result<Script, ScriptFault>, AllocError>
    ensures { IfOk result (λ read. read_view read ≡ told (spec.script_of (view value.now))) }
{
    match script_of(alloc, value) {
        Ok(script) => Ok(Ok(script)),
        Err(PartError::Bad(fault)) => Ok(Err(script_fault(alloc, fault)?)),
        Err(PartError::Memory) => Err(AllocError),
    }
}
