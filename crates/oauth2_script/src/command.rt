//! The commands of a script.

ghost use Rattle.serde_json.specs.View.{view};
ghost use Rattle.oauth2_script.specs.Command as spec;
ghost use Rattle.oauth2_script_values.specs.Gives.{Gives};
ghost use Rattle.oauth2_script.specs.Views.{command_view};

use crate::access_token_params::AccessTokenParams;
use crate::authorize_params::AuthorizeParams;
use crate::client_credentials_params::ClientCredentialsParams;
use crate::code_params::CodeParams;
use crate::device_authorization_params::DeviceAuthorizationParams;
use crate::device_poll_params::DevicePollParams;
use crate::id_token_params::IdTokenParams;
use crate::introspect_params::IntrospectParams;
use crate::keeper_params::KeeperParams;
use crate::metadata_params::MetadataParams;
use crate::password_params::PasswordParams;
use crate::redirect_params::RedirectParams;
use crate::refresh_params::RefreshParams;
use crate::revoke_params::RevokeParams;
use crate::shared_keeper_params::SharedKeeperParams;
use oauth2_script_values::{PartError, ScriptCause, bad_member, of_params};
use serde_json::Value;
use std::alloc::Global;

/// A command, with its parameters.
#[derive(Drop)]
pub enum Command {
    Code(CodeParams),
    Refresh(RefreshParams),
    Password(PasswordParams),
    ClientCredentials(ClientCredentialsParams),
    Introspect(IntrospectParams),
    Revoke(RevokeParams),
    DeviceAuthorization(DeviceAuthorizationParams),
    DevicePoll(DevicePollParams),
    Authorize(AuthorizeParams),
    Redirect(RedirectParams),
    Keeper(KeeperParams),
    SharedKeeper(SharedKeeperParams),
    Metadata(MetadataParams),
    IdToken(IdTokenParams),
    AccessToken(AccessTokenParams),
}

/// Reads the command of this name from the object `params`; another name is an `UnknownWord`.
#[tactic(auto, unfolding(crate::specs::Command::command_of))]
pub fn command_of(alloc: Global, name: &str, params: &Value) -> Result<Command, PartError>
    ensures { Gives command_view result (spec.command_of name.now (view params.now)) }
{
    match name {
        "code" => Ok(Command::Code(of_params(alloc, params)?)),
        "refresh" => Ok(Command::Refresh(of_params(alloc, params)?)),
        "password" => Ok(Command::Password(of_params(alloc, params)?)),
        "introspect" => Ok(Command::Introspect(of_params(alloc, params)?)),
        "revoke" => Ok(Command::Revoke(of_params(alloc, params)?)),
        "device_authorization" => Ok(Command::DeviceAuthorization(of_params(alloc, params)?)),
        "device_poll" => Ok(Command::DevicePoll(of_params(alloc, params)?)),
        "authorize" => Ok(Command::Authorize(of_params(alloc, params)?)),
        "redirect" => Ok(Command::Redirect(of_params(alloc, params)?)),
        "client_credentials" => Ok(Command::ClientCredentials(of_params(alloc, params)?)),
        "keeper" => Ok(Command::Keeper(of_params(alloc, params)?)),
        "shared_keeper" => Ok(Command::SharedKeeper(of_params(alloc, params)?)),
        "metadata" => Ok(Command::Metadata(of_params(alloc, params)?)),
        "id_token" => Ok(Command::IdToken(of_params(alloc, params)?)),
        "access_token" => Ok(Command::AccessToken(of_params(alloc, params)?)),
        _ => Err(PartError::Bad(bad_member("command", ScriptCause::UnknownWord))),
    }
}
