//! The token that a keeper keeps, as a value that can be stored over a restart.

#![tactic(auto)]

mod client_at_endpoint;
mod client_at_endpoint_json;
mod keepers;
mod stored_token;
mod stored_token_error;
mod stored_token_json;

pub use client_at_endpoint::ClientAtEndpoint;
pub use keepers::{start_from_stored, to_stored};
pub use stored_token::StoredToken;
pub use stored_token_error::StoredTokenError;
