//! Tests of clients that show who they are by an assertion: any, and one that a client signs with
//! its secret.

#![tactic(auto)]

#[cfg(test)]
mod client_assertions;
#[cfg(test)]
mod client_secret_jwt;
