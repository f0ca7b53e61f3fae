//! What several crates of tests share: an HTTP client that returns one reply, replies and texts,
//! and checks. A check that fails returns a `Fail`, so nothing here ends the process.

#![tactic(auto)]

mod checks;
mod one_reply;
mod values;

pub use checks::{
    check, check_debug, check_display, check_equal, check_fault, check_text, check_written,
};
pub use one_reply::{NoReply, OneReply};
pub use values::{read, reply_of, text, url};
