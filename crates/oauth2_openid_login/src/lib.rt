//! A login with OpenID Connect (Core 1.0, section 3.1): the login by a code of `oauth2_redirect`,
//! with a nonce and an ID token that is checked.

#![tactic(auto)]

mod login;
mod login_end;
mod login_error;
mod login_json;
mod login_refusal;
mod login_request;
mod login_url_error;
mod provider;
mod redirect_issuer;
mod token_response;

pub use login::OpenIdLogin;
pub use login_end::OpenIdLoginEnd;
pub use login_error::OpenIdLoginError;
pub use login_refusal::{OpenIdLoginRefusal, RefusedOpenIdLogin};
pub use login_request::OpenIdLoginRequest;
pub use login_url_error::{OpenIdLoginUrlError, OpenIdLoginUrlFault};
pub use provider::OpenIdProvider;
pub use redirect_issuer::RedirectIssuer;
pub use token_response::{HasIdToken, OpenIdClient, OpenIdTokenResponse};
