//! Types whose values are written as JSON strings.

ghost use Rattle.std.specs.Prelude.{◌≡◌, IfOk, refl, string_bytes};
ghost use Rattle.serde_json.specs.Data.{string};
ghost use Rattle.serde_json.specs.View.{view};

use oauth2_json::{ToJson, WriteError};
use oauth2_types::{
    AccessToken, ClientId, CsrfToken, DeviceCode, PkceCodeVerifier, RefreshToken, UserCode,
    VerificationUriComplete,
};
use oauth2_urls::{
    AuthUrl, DeviceAuthorizationUrl, EndUserVerificationUrl, IntrospectionUrl, RedirectUrl,
    RevocationUrl, TokenUrl,
};
use serde_json::Value;
use std::alloc::{AllocError, Global};

/// A type of which each value is written as a JSON string, and none is refused.
pub trait WriteText: ToJson {
    ghost use Rattle.std.specs.Prelude.{◌≡◌, ℕ, List, Ok};
    ghost use Rattle.serde_json.specs.Data.{string};

    /// The text of the string.
    ghost text: { Self → List ℕ };

    ghost is_text: { (x : Self) → Self.writing x ≡ Ok (string (text x)) };
}

// The JSON string of a value.
pub(crate) fn text_of<T: WriteText>(alloc: Global, value: &T) -> Result<Value, AllocError>
    ensures { IfOk result (λ v. view v ≡ string (T.text value.now)) }
{
    match value.to_json(alloc) {
        Ok(value) => Ok(value),
        Err(WriteError::Memory) => Err(AllocError),
        Err(WriteError::NameClash) => unreachable!(),
        Err(WriteError::Float) => unreachable!(),
    }
}

impl WriteText for String {
    ghost text = { string_bytes };

    ghost is_text = { λ _. refl };
}

impl WriteText for AccessToken {
    ghost text = { λ t. t };

    ghost is_text = { λ _. refl };
}

impl WriteText for ClientId {
    ghost text = { λ t. t };

    ghost is_text = { λ _. refl };
}

impl WriteText for CsrfToken {
    ghost text = { λ t. t };

    ghost is_text = { λ _. refl };
}

impl WriteText for PkceCodeVerifier {
    ghost text = { λ t. t };

    ghost is_text = { λ _. refl };
}

impl WriteText for RefreshToken {
    ghost text = { λ t. t };

    ghost is_text = { λ _. refl };
}

impl WriteText for RedirectUrl {
    ghost text = { λ t. t.text };

    ghost is_text = { λ _. refl };
}

impl WriteText for AuthUrl {
    ghost text = { λ t. t.text };

    ghost is_text = { λ _. refl };
}

impl WriteText for DeviceAuthorizationUrl {
    ghost text = { λ t. t.text };

    ghost is_text = { λ _. refl };
}

impl WriteText for IntrospectionUrl {
    ghost text = { λ t. t.text };

    ghost is_text = { λ _. refl };
}

impl WriteText for RevocationUrl {
    ghost text = { λ t. t.text };

    ghost is_text = { λ _. refl };
}

impl WriteText for TokenUrl {
    ghost text = { λ t. t.text };

    ghost is_text = { λ _. refl };
}

impl WriteText for DeviceCode {
    ghost text = { λ t. t };

    ghost is_text = { λ _. refl };
}

impl WriteText for UserCode {
    ghost text = { λ t. t };

    ghost is_text = { λ _. refl };
}

impl WriteText for VerificationUriComplete {
    ghost text = { λ t. t };

    ghost is_text = { λ _. refl };
}

impl WriteText for EndUserVerificationUrl {
    ghost text = { λ t. t.text };

    ghost is_text = { λ _. refl };
}
