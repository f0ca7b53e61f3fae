//! Tests of logins by a push: metadata, routes, and what is pushed.

#![tactic(auto)]

#[cfg(test)]
mod fields;
#[cfg(test)]
mod pushes;
#[cfg(test)]
mod routes;
