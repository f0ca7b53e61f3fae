//! Keepers of tokens by what their tokens are for: for each scope, audience or user one of its
//! own.

#![tactic(auto)]

mod laws;
mod token_cache;
mod token_name;

pub use laws::{each_keeper_found_was_left, each_name_has_its_own_keeper};
pub use token_cache::TokenCache;
pub use token_name::TokenName;
