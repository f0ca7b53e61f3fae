//! HMAC (RFC 2104) with SHA-256, SHA-384 or SHA-512: makes and checks message authentication codes.

#![tactic(auto)]

mod authentication_code;
mod hmac;
mod key_error;
mod secret_key;

pub use authentication_code::AuthenticationCode;
pub use hash_functions::HashFunction;
pub use key_error::HmacKeyError;
pub use secret_key::HmacKey;
