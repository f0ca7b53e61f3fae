//! Tests of authentication by an assertion: what is sent, and what is not.

mod requests;
mod sent;
mod source;
