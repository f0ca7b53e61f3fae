//! Signed tokens that are no ID tokens: JWT access tokens at a resource server (RFC 9068), and the
//! logout tokens of an OpenID provider (Back-Channel Logout 1.0).

#![tactic(auto)]

mod access_tokens;
mod logout_tokens;

pub use access_tokens::{
    AccessTokenFault, ExpectedAccessToken, JwtAccessToken, JwtAccessTokenReadError,
    RefusedAccessToken, SenderConstraint, VerifiedAccessToken,
};
pub use logout_tokens::{
    ClientSession, ExpectedLogoutToken, LogoutToken, LogoutTokenFault, LogoutTokenReadError,
    RefusedLogoutToken, TypeRule, VerifiedLogoutToken,
};
