//! Reading the values of OAuth 2.0 from JSON, and writing them as JSON.

#![tactic(auto)]

mod body;
mod challenge;
mod floats;
pub mod helpers;
mod lowered;
mod member_readers;
mod member_writers;
pub mod members;
mod numbers;
mod read;
mod secrets;
mod spaced;
mod text_lists;
mod texts;
mod urls;
mod write;

pub use body::{compact, read_body};
pub use read::{FromJson, ParseCause, ParseFault, ReadError};
pub use write::{ToJson, WriteError};
