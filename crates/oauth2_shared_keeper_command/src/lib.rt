//! The command `shared_keeper` of a script: keepers that share a token, and go step by step.
//!
//! A keeper is a machine of `oauth2_shared_token` here, which renews the token again and again, and
//! reads no clock. The store is a part of the script.

#![tactic(auto)]

mod action;
mod effect;
mod fleet;
mod refreshing;
mod renewal;
mod run;
mod sending;
mod texts;
mod turn;

pub use run::run_shared_keeper;
