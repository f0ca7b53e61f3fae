//! Authorization details (RFC 9396): what a client asks for, in more words than scopes have.

mod authorization_details;
mod details_fault;
mod faults;
mod fields;
mod rich_request;

pub use authorization_details::AuthorizationDetails;
pub use details_fault::DetailsFault;
pub use fields::{AuthorizationDetailsFields, AuthorizationDetailsMember};
pub use rich_request::RichAuthorizationRequest;
