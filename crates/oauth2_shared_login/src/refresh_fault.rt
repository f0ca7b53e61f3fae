//! Why a login was not refreshed.

use crate::shared_login::SharedLogin;
use oauth2::{ErrorResponse, RequestTokenError};

/// Why a login was not refreshed. `RE` is the error of the HTTP client, `TE` an error response, and
/// `TR` a response.
#[derive(Debug, Drop)]
pub enum RefreshFault<RE, TE, TR> {
    /// The login belongs to another client. Nothing was sent.
    OtherClient,
    /// The login belongs to another token endpoint. Nothing was sent.
    OtherEndpoint,
    /// The login has no refresh token. Nothing was sent.
    NoRefreshToken,
    /// The server gave this login, whose token type is none of those that the caller can use, so its
    /// access token must not be used (RFC 6749, section 7.1). Its refresh token is the one that
    /// counts now.
    OtherTokenType(SharedLogin<TR>),
    /// The request failed. It was not sent where the error is `Memory` with `sent: false`, or
    /// where the endpoint's URL is no HTTP target.
    Request(RequestTokenError<RE, TE>),
}
