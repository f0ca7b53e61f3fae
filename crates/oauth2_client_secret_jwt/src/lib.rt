//! Authentication by `client_secret_jwt` (OpenID Connect Core 1.0, section 9): a client signs a JWT
//! with its secret, which it never sends.

#![tactic(auto)]

mod audience;
mod claims;
mod client_secret_jwt;
mod clock;
mod error;
mod identifier_source;
mod issuer_identifier;
mod signed_jwt;

pub use audience::Audience;
pub use client_secret_jwt::ClientSecretJwt;
pub use clock::{Clock, RuntimeClock};
pub use error::{ClientSecretJwtError, SecretTooShort};
pub use identifier_source::IdentifierSource;
pub use issuer_identifier::{IssuerFault, IssuerIdentifier};
