//! The texts and secrets of an OAuth 2.0 client, and the code challenges of RFC 7636.

#![tactic(auto)]

mod access_token;
mod authorization_code;
mod client_id;
mod client_secret;
mod csrf_token;
mod device_code;
pub mod display;
mod pkce_code_challenge;
mod pkce_code_challenge_method;
mod pkce_code_verifier;
mod plain_text;
mod random_text;
mod refresh_token;
mod resource_owner_password;
mod resource_owner_username;
mod response_type;
mod scope;
mod secret;
mod try_clone;
mod user_code;
mod verification_uri_complete;

pub use access_token::AccessToken;
pub use authorization_code::AuthorizationCode;
pub use client_id::ClientId;
pub use client_secret::ClientSecret;
pub use csrf_token::CsrfToken;
pub use device_code::DeviceCode;
pub use pkce_code_challenge::PkceCodeChallenge;
pub use pkce_code_challenge_method::PkceCodeChallengeMethod;
pub use pkce_code_verifier::PkceCodeVerifier;
pub use refresh_token::RefreshToken;
pub use resource_owner_password::ResourceOwnerPassword;
pub use resource_owner_username::ResourceOwnerUsername;
pub use response_type::ResponseType;
pub use scope::Scope;
pub use try_clone::TryClone;
pub use user_code::UserCode;
pub use verification_uri_complete::VerificationUriComplete;
