//! Tests of resource indicators: the examples of RFC 8707, each request that takes a resource, and
//! what is refused.

mod examples;
mod refusals;
mod requests;
mod sender;
