//! Why a keeper does not take a stored token.

ghost use Rattle.std.specs.Prelude.{◌≡◌, Some, codes};
ghost use Rattle.oauth2_stored_token.specs.ErrorTexts.{stored_token_error_text};
ghost use Rattle.oauth2_stored_token.specs.Started.{stored_in};

use crate::stored_token::StoredToken;
use std::fmt;

/// Why a keeper did not take a stored token. The error holds that token.
#[derive(Debug, Drop)]
pub enum StoredTokenError {
    /// The stored token belongs to another client.
    OtherClient(StoredToken),
    /// The stored token belongs to another token endpoint.
    OtherEndpoint(StoredToken),
}

impl StoredTokenError {
    /// The stored token.
    pub fn into_stored(self) -> StoredToken
        ensures { result ≡ stored_in self }
    {
        match self {
            StoredTokenError::OtherClient(stored) => stored,
            StoredTokenError::OtherEndpoint(stored) => stored,
        }
    }
}

impl fmt::Display for StoredTokenError {
    ghost output = { λ error. Some (stored_token_error_text error) };

    ghost styled_output = { λ error _. Some (stored_token_error_text error) };

    fn fmt<W: fmt::Write>(&self, f: &mut fmt::Formatter<W>) -> fmt::Result {
        f.write_str(match self {
            StoredTokenError::OtherClient(_) => "The stored token is of another client",
            StoredTokenError::OtherEndpoint(_) => "The stored token is of another token endpoint",
        })
    }
}

impl std::error::Error for StoredTokenError {}
