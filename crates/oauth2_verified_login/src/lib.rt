//! A login with OpenID Connect whose ID token is verified: the login of `oauth2_openid_login`, and
//! the check of the token's signature by `oauth2_keys` (Core 1.0, section 3.1.3.7).

#![tactic(auto)]

mod hybrid;
mod login_end;
mod login_error;
mod provider;

pub use hybrid::{FrontExpected, FrontTokenError, VerifiedFrontToken};
pub use login_end::{UnverifiedLogin, VerifiedLoginEnd};
pub use login_error::VerifiedLoginError;
pub use oauth2_keys::SignatureCheck;
pub use provider::VerifiedProvider;
