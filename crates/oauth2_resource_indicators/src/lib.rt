//! Resource indicators (RFC 8707), on each request that takes them.

#![tactic(auto)]

mod absolute_uri;
mod extensible_request;
mod resource_fault;
mod resource_indicators;

pub use absolute_uri::is_absolute_uri;
pub use extensible_request::ExtensibleRequest;
pub use resource_fault::ResourceFault;
pub use resource_indicators::ResourceIndicators;
