//! Authentication of a client by an assertion (RFC 7521, section 4.2): an HTTP client that adds one
//! to each form that it sends to an endpoint of its server, from a source that makes it.

#![tactic(auto)]

mod asserting_client;
mod assertion_source;
mod assertion_type;
mod error;
mod form_names;
mod law;
mod request;
mod server_endpoints;

pub use asserting_client::AssertingClient;
pub use assertion_source::AssertionSource;
pub use assertion_type::AssertionType;
pub use error::AssertingError;
pub use law::each_request_is_asserted;
pub use server_endpoints::ServerEndpoints;
