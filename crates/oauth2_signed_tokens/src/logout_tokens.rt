//! Logout tokens (OpenID Connect Back-Channel Logout 1.0) at a client: reading them, and checking
//! them.

mod check;
mod claims;
mod expected;
mod fault;
mod logout_token;
mod type_rule;
mod verified;

pub use expected::ExpectedLogoutToken;
pub use fault::LogoutTokenFault;
pub use logout_token::{ClientSession, LogoutToken, LogoutTokenReadError};
pub use type_rule::TypeRule;
pub use verified::{RefusedLogoutToken, VerifiedLogoutToken};
