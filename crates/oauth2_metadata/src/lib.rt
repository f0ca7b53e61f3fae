//! The metadata of an authorization server, by which a client finds its endpoints (RFC 8414; OpenID
//! Connect Discovery 1.0, section 4).

#![tactic(auto)]

mod endpoint_error;
mod endpoint_fault;
mod endpoints;
mod groups;
mod issuer;
mod metadata;
mod metadata_error;
mod metadata_json;
mod reply;
mod request;
mod rows;

pub use endpoint_error::EndpointError;
pub use endpoint_fault::{Endpoint, EndpointCause, EndpointFault};
pub use endpoints::{
    DiscoveredClient, DiscoveredDeviceClient, DiscoveredLoginClient, DiscoveredTokenClient,
};
pub use issuer::{IssuerError, is_secure, metadata_url, openid_metadata_url};
pub use metadata::ServerMetadata;
pub use metadata_error::MetadataError;
pub use reply::OtherReply;
pub use request::MetadataRequest;
