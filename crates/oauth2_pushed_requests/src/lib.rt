//! Pushed authorization requests (RFC 9126): the parameters of an authorization URL are sent to the
//! server before the user is.

#![tactic(auto)]

mod created_reply;
mod laws;
mod push_fault;
mod push_form;
mod pushed_authorization_request;
mod pushed_authorization_response;
mod pushing_client;
mod query_pairs;
mod reference_url;

pub use laws::{added_pairs_laws, push_law};
pub use push_fault::PushFault;
pub use pushed_authorization_request::PushedAuthorizationRequest;
pub use pushed_authorization_response::PushedAuthorizationResponse;
pub use pushing_client::PushingClient;
