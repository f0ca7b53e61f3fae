//! Logins by a push, from a server's metadata to the URL for the user (RFC 9126, section 5).

#![tactic(auto)]

mod endpoint_url;
mod laws;
mod push_login_error;
mod push_metadata;
mod push_metadata_json;
mod pushing_login_client;
mod route_error;
mod routes;

pub use laws::push_metadata_law;
pub use push_login_error::PushLoginError;
pub use push_metadata::PushMetadata;
pub use pushing_login_client::PushingLoginClient;
pub use route_error::LoginRouteError;
pub use routes::{LoginRoute, PushPreference, login_route};
