//! Tests of `oauth2_shared_login`: logins that are refreshed at a canned server.

#![tactic(auto)]

#[cfg(test)]
mod a_store;
#[cfg(test)]
mod other_places;
#[cfg(test)]
mod refreshes;
#[cfg(test)]
mod slow_server;
