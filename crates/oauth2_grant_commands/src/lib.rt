//! The commands of a script for grants whose type is a URI, and for a pushed authorization request.

#![tactic(auto)]

mod assertion;
mod exchange_token;
mod extension;
mod grant;
mod push;
mod token_grant;

pub use grant::run_grant;
