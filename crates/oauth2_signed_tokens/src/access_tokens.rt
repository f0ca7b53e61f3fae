//! JWT access tokens (RFC 9068) at a resource server: reading them, and checking them.

mod access_token;
mod check;
mod expected;
mod fault;
mod introspection;
mod own_claims;
mod verified;

pub use access_token::{JwtAccessToken, JwtAccessTokenReadError};
pub use expected::{ExpectedAccessToken, SenderConstraint};
pub use fault::AccessTokenFault;
pub use verified::{RefusedAccessToken, VerifiedAccessToken};
