//! Tests of authorization details: the examples of RFC 9396, and what is refused.

mod examples;
mod refusals;
mod responses;
