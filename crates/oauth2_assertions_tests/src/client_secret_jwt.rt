//! Tests of assertions that a client signs with its secret.

mod clock;
mod failures;
mod issuers;
mod parts;
mod tokens;
