//! The URLs of an OAuth 2.0 client. Each value keeps the text that was given, with its parsed URL.

#![tactic(auto)]

mod addressed;
mod auth_url;
mod device_authorization_url;
mod end_user_verification_url;
mod introspection_url;
mod redirect_url;
mod revocation_url;
mod token_url;

pub use auth_url::AuthUrl;
pub use device_authorization_url::DeviceAuthorizationUrl;
pub use end_user_verification_url::EndUserVerificationUrl;
pub use introspection_url::IntrospectionUrl;
pub use redirect_url::RedirectUrl;
pub use revocation_url::RevocationUrl;
pub use token_url::TokenUrl;
