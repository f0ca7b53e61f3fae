//! The commands of a script that send a request or make its URL, and how answers and faults are
//! shown.
//!
//! Each function that shows something appends its events to those of the run. Its only error is
//! that memory ran out; then a part of the events may be there.

#![tactic(auto)]

mod answer;
mod authorize;
mod client;
mod client_credentials;
mod code;
mod device_authorization;
mod device_poll;
mod extra;
mod introspect;
mod password;
mod refresh;
mod revoke;
mod shown_error;
mod status;

pub use answer::{
    add_answer, add_fault, show_answer, show_configuration_error, show_end, show_error_text,
    show_fault, show_missing,
};
pub use authorize::{authorization_url, run_authorize};
pub use client::{ScriptClient, client_of};
pub use client_credentials::run_client_credentials;
pub use code::run_code;
pub use device_authorization::run_device_authorization;
pub use device_poll::run_device_poll;
pub use introspect::run_introspect;
pub use password::run_password;
pub use refresh::run_refresh;
pub use revoke::run_revoke;
pub use shown_error::ShownError;
pub use status::RunStatus;
