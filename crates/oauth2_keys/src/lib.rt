//! An issuer's JSON Web Keys (RFC 7517), and the check of an ID token's signature with them.

#![tactic(auto)]

mod algorithm;
mod choice;
mod curves;
mod json_web_key;
mod key_error;
mod key_members;
mod key_set;
mod public_key;
mod secret_algorithm;
mod signature_check;
mod signature_error;
mod thumbprints;

pub use algorithm::SignatureAlgorithm;
pub use json_web_key::{JsonWebKey, ListedKey, UnusableKey};
pub use key_error::{KeyError, KeyMember};
pub use key_members::KeyReadError;
pub use key_set::JsonWebKeySet;
pub use public_key::PublicKey;
pub use secret_algorithm::SecretAlgorithm;
pub use signature_check::SignatureCheck;
pub use signature_error::SignatureError;
pub use thumbprints::thumbprint;
