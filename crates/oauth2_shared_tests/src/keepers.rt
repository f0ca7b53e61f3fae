//! Tests of `oauth2_shared_keeper`: renewals, calls of a keeper and logins over a store in memory,
//! whose replies can be lost, with a server that gives a new refresh token each time and a clock that
//! stands still.

mod live_store;
mod logins;
mod memory_store;
mod renewals;
mod still_world;
mod timed_token;
mod tokens;
