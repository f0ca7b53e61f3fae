//! Why there is no source of assertions, or no assertion.

ghost use Rattle.std.specs.Prelude.{Some};

use oauth2_types::display::write_display;
use std::fmt;

/// The client's secret is shorter than 32 bytes, which is too short for HMAC with SHA-256 (RFC 7518,
/// section 3.2; OpenID Connect Core 1.0, section 10.1).
#[derive(Clone, Copy, Debug, PartialEq, Eq, Drop)]
pub struct SecretTooShort;

impl fmt::Display for SecretTooShort {
    ghost use Rattle.oauth2_client_secret_jwt.specs.ErrorTexts.{too_short_text};

    ghost output = { λ _. Some too_short_text };

    ghost styled_output = { λ _ _. Some too_short_text };

    fn fmt<W: fmt::Write>(&self, f: &mut fmt::Formatter<W>) -> fmt::Result {
        f.write_str("the client secret is shorter than 32 bytes")
    }
}

impl std::error::Error for SecretTooShort {}

/// Why there is no assertion. `K` is the error of the clock, and `R` that of the generator.
#[derive(Debug, Drop)]
pub enum ClientSecretJwtError<K, R> {
    /// The clock showed no time.
    Clock(K),
    /// The clock showed a time before 1970, which is not written as a claim.
    Before1970,
    /// The generator drew nothing.
    Generator(R),
    /// Memory ran out.
    Memory,
}

impl<K: fmt::Display, R: fmt::Display> fmt::Display for ClientSecretJwtError<K, R> {
    ghost use Rattle.oauth2_client_secret_jwt.specs.ErrorTexts.{client_secret_jwt_error_text};

    ghost output = { client_secret_jwt_error_text K.output R.output };

    ghost styled_output = { λ error _. client_secret_jwt_error_text K.output R.output error };

    fn fmt<W: fmt::Write>(&self, f: &mut fmt::Formatter<W>) -> fmt::Result {
        match self {
            ClientSecretJwtError::Clock(error) => write_display(f, error),
            ClientSecretJwtError::Before1970 => f.write_str("the clock shows a time before 1970"),
            ClientSecretJwtError::Generator(error) => write_display(f, error),
            ClientSecretJwtError::Memory => f.write_str("out of memory"),
        }
    }
}

impl<K, R> std::error::Error for ClientSecretJwtError<K, R>
where
    K: fmt::Debug + fmt::Display + Drop,
    R: fmt::Debug + fmt::Display + Drop,
{}
