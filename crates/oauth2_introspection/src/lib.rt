//! The response of an OAuth 2.0 server to an introspection (RFC 7662), and the times in it.

#![tactic(auto)]

mod introspection;
mod introspection_json;

pub use introspection::{
    // The response of RFC 7662, and the trait of every introspection response.
    BasicTokenIntrospectionResponse, StandardTokenIntrospectionResponse,
    TokenIntrospectionResponse,
};
