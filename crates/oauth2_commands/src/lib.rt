//! The commands of a JSON script, run with a client that returns the replies of the script.

#![tactic(auto)]

mod access_token;
mod command;
mod id_token;
mod id_token_json;
mod input;
mod keeper;
mod metadata;
mod redirect;
mod run;
mod script_keeper;
mod status;

pub use input::{MOST_READS, ScriptReader, ScriptSource};
pub use oauth2_request_commands::RunStatus;
pub use run::run_script;
pub use status::RunFault;
