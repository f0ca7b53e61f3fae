//! Why the ID token of the front channel is refused.

ghost use Rattle.std.specs.Prelude.{◌≡◌, Some, codes};
ghost use Rattle.oauth2_verified_login.specs.hybrid.FrontToken.{front_token_error_text};

use oauth2_keys::SignatureError;
use oauth2_openid::{ClaimsError, IdTokenReadError};
use oauth2_types::display::write_display;
use std::fmt;

/// Why the ID token that came with the code is refused. The checks are tried in this order, and the
/// code is not sent.
#[derive(Debug, Drop)]
pub enum FrontTokenError {
    /// The text is not that of an ID token. Out of memory is reported as `Memory` instead.
    Read(IdTokenReadError),
    /// The ID token does not meet this rule of 3.1.3.7, such as the one for the nonce.
    Claims(ClaimsError),
    /// The ID token has no `c_hash`, which is required here (3.3.2.11).
    NoCodeHash,
    /// Its `c_hash` is not the hash of the code (3.3.2.10).
    OtherCode,
    /// Its signature is refused. At `NoKey` the provider may have a new key.
    Signature(SignatureError),
    /// Memory ran out while the ID token was read. A text without three parts is `Read` instead.
    Memory,
}

impl fmt::Display for FrontTokenError {
    ghost output = { λ error. Some (front_token_error_text error) };

    ghost styled_output = { λ error _. Some (front_token_error_text error) };

    fn fmt<W: fmt::Write>(&self, f: &mut fmt::Formatter<W>) -> fmt::Result {
        match self {
            FrontTokenError::Read(error) => write_display(f, format_args!("ID token: {error}")),
            FrontTokenError::Claims(error) => write_display(f, format_args!("ID token: {error}")),
            FrontTokenError::NoCodeHash => f.write_str("ID token: no hash of the code"),
            FrontTokenError::OtherCode => f.write_str("ID token: the hash is that of another code"),
            FrontTokenError::Signature(error) => {
                write_display(f, format_args!("ID token: {error}"))
            }
            FrontTokenError::Memory => f.write_str("out of memory"),
        }
    }
}

impl std::error::Error for FrontTokenError {}
