//! The redirect by which a user comes back from the authorization endpoint, and a login that reads
//! it before it requests a token.

#![tactic(auto)]

mod authorized_login;
mod binding;
mod comparing;
mod decoding;
mod issuer;
mod laws;
mod login;
mod login_error;
mod login_json;
mod login_refusal;
mod login_request;
mod login_url_error;
mod place;
mod query;
mod redirect;

pub use authorized_login::AuthorizedLogin;
pub use binding::LoginBinding;
pub use issuer::{ExpectedIssuer, LoginIssuer};
pub use laws::{login_passes_check, login_repeats_redirect_uri};
pub use login::Login;
pub use login_error::LoginError;
pub use login_refusal::{LoginMismatch, LoginRefusal, RefusedLogin};
pub use login_request::LoginRequest;
pub use login_url_error::{LoginUrlError, LoginUrlFault};
pub use place::is_at_redirect_uri;
pub use redirect::{AuthorizationErrorResponse, RedirectError, read_redirect, read_redirect_query};
