//! The ID token that comes with the code in the hybrid flow of OpenID Connect (Core 1.0, section
//! 3.3), verified before the code is sent.

mod code_hash;
mod front_expected;
mod front_token;
mod front_token_error;
mod verified_front_token;

pub use front_expected::FrontExpected;
pub use front_token_error::FrontTokenError;
pub use verified_front_token::VerifiedFrontToken;
