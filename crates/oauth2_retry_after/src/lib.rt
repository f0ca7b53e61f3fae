//! What a server that is busy asks for: the Retry-After of a reply with status 429 or 503, told in
//! the error of an HTTP client.

#![tactic(auto)]

mod asks_to_wait;
mod busy_reply;
mod error;
mod tells_busy;

pub use asks_to_wait::AsksToWait;
pub use busy_reply::{is_busy, retry_after};
pub use error::BusyError;
pub use tells_busy::TellsBusy;
