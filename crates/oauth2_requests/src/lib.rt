//! The requests of an OAuth 2.0 client (RFC 6749): what each one holds, the HTTP request or the URL
//! that it becomes, and how it is sent.

#![tactic(auto)]

mod authorization_request;
mod base_request;
mod client_credentials_token_request;
mod code_token_request;
mod device_authorization_request;
mod introspection_request;
mod password_token_request;
mod query_len;
mod refresh_token_request;
mod revocation_request;

pub use authorization_request::AuthorizationRequest;
pub use base_request::BaseRequest;
pub use client_credentials_token_request::ClientCredentialsTokenRequest;
pub use code_token_request::CodeTokenRequest;
pub use device_authorization_request::DeviceAuthorizationRequest;
pub use introspection_request::IntrospectionRequest;
pub use password_token_request::PasswordTokenRequest;
pub use refresh_token_request::RefreshTokenRequest;
pub use revocation_request::RevocationRequest;
