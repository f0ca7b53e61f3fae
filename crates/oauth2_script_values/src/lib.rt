//! The values of which a script of the program is made, read from JSON values.

#![tactic(auto)]

mod device;
mod json;
mod kinds;
mod part;
mod part_error;
mod path;
mod script_cause;
mod texts;
mod urls;
mod words;

pub use json::json_in;
pub use part::{Part, an_object, each, listed, needed, of_params, optional, read_inside};
pub use part_error::{PartError, PartFault, bad, bad_member, bad_step};
pub use path::{Path, Step, path_text};
pub use script_cause::ScriptCause;
