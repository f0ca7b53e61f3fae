//! Checks RSA signatures by a public key: RSASSA-PKCS1-v1_5 (RFC 8017, 8.2.2) and RSASSA-PSS
//! (8.1.2) with SHA-256, SHA-384 or SHA-512.

#![tactic(auto)]

mod key_error;
mod octets;
mod pkcs1;
mod pss;
mod public_key;
mod signature_scheme;

pub use hash_functions::HashFunction;
pub use key_error::RsaKeyError;
pub use public_key::RsaPublicKey;
pub use signature_scheme::SignatureScheme;
