//! Secrets as JSON strings.

ghost use Rattle.std.specs.Prelude.{ℕ, List, Ok};
ghost use Rattle.serde_json.specs.Data.{string};
ghost use Rattle.oauth2_json.specs.Values.{text};

use crate::read::{FromJson, ReadError};
use crate::write::{ToJson, WriteError};
use oauth2_types::{
    AccessToken, AuthorizationCode, ClientSecret, CsrfToken, DeviceCode, PkceCodeVerifier,
    RefreshToken, UserCode, VerificationUriComplete,
};
use serde_json::Value;
use std::alloc::Global;

impl FromJson for AccessToken {
    ghost Meaning = { List ℕ };

    ghost meaning = { λ t. t };

    ghost reading = { text };

    fn from_json(alloc: Global, value: Value) -> Result<AccessToken, ReadError> {
        Ok(AccessToken::new(String::from_json(alloc, value)?))
    }
}

impl ToJson for AccessToken {
    ghost writing = { λ t. Ok (string t) };

    fn to_json(&self, alloc: Global) -> Result<Value, WriteError> {
        self.secret().to_json(alloc)
    }
}

impl FromJson for AuthorizationCode {
    ghost Meaning = { List ℕ };

    ghost meaning = { λ t. t };

    ghost reading = { text };

    fn from_json(alloc: Global, value: Value) -> Result<AuthorizationCode, ReadError> {
        Ok(AuthorizationCode::new(String::from_json(alloc, value)?))
    }
}

impl ToJson for AuthorizationCode {
    ghost writing = { λ t. Ok (string t) };

    fn to_json(&self, alloc: Global) -> Result<Value, WriteError> {
        self.secret().to_json(alloc)
    }
}

impl FromJson for ClientSecret {
    ghost Meaning = { List ℕ };

    ghost meaning = { λ t. t };

    ghost reading = { text };

    fn from_json(alloc: Global, value: Value) -> Result<ClientSecret, ReadError> {
        Ok(ClientSecret::new(String::from_json(alloc, value)?))
    }
}

impl ToJson for ClientSecret {
    ghost writing = { λ t. Ok (string t) };

    fn to_json(&self, alloc: Global) -> Result<Value, WriteError> {
        self.secret().to_json(alloc)
    }
}

impl FromJson for CsrfToken {
    ghost Meaning = { List ℕ };

    ghost meaning = { λ t. t };

    ghost reading = { text };

    fn from_json(alloc: Global, value: Value) -> Result<CsrfToken, ReadError> {
        Ok(CsrfToken::new(String::from_json(alloc, value)?))
    }
}

impl ToJson for CsrfToken {
    ghost writing = { λ t. Ok (string t) };

    fn to_json(&self, alloc: Global) -> Result<Value, WriteError> {
        self.secret().to_json(alloc)
    }
}

impl FromJson for DeviceCode {
    ghost Meaning = { List ℕ };

    ghost meaning = { λ t. t };

    ghost reading = { text };

    fn from_json(alloc: Global, value: Value) -> Result<DeviceCode, ReadError> {
        Ok(DeviceCode::new(String::from_json(alloc, value)?))
    }
}

impl ToJson for DeviceCode {
    ghost writing = { λ t. Ok (string t) };

    fn to_json(&self, alloc: Global) -> Result<Value, WriteError> {
        self.secret().to_json(alloc)
    }
}

impl FromJson for PkceCodeVerifier {
    ghost Meaning = { List ℕ };

    ghost meaning = { λ t. t };

    ghost reading = { text };

    fn from_json(alloc: Global, value: Value) -> Result<PkceCodeVerifier, ReadError> {
        Ok(PkceCodeVerifier::new(String::from_json(alloc, value)?))
    }
}

impl ToJson for PkceCodeVerifier {
    ghost writing = { λ t. Ok (string t) };

    fn to_json(&self, alloc: Global) -> Result<Value, WriteError> {
        self.secret().to_json(alloc)
    }
}

impl FromJson for RefreshToken {
    ghost Meaning = { List ℕ };

    ghost meaning = { λ t. t };

    ghost reading = { text };

    fn from_json(alloc: Global, value: Value) -> Result<RefreshToken, ReadError> {
        Ok(RefreshToken::new(String::from_json(alloc, value)?))
    }
}

impl ToJson for RefreshToken {
    ghost writing = { λ t. Ok (string t) };

    fn to_json(&self, alloc: Global) -> Result<Value, WriteError> {
        self.secret().to_json(alloc)
    }
}

impl FromJson for UserCode {
    ghost Meaning = { List ℕ };

    ghost meaning = { λ t. t };

    ghost reading = { text };

    fn from_json(alloc: Global, value: Value) -> Result<UserCode, ReadError> {
        Ok(UserCode::new(String::from_json(alloc, value)?))
    }
}

impl ToJson for UserCode {
    ghost writing = { λ t. Ok (string t) };

    fn to_json(&self, alloc: Global) -> Result<Value, WriteError> {
        self.secret().to_json(alloc)
    }
}

impl FromJson for VerificationUriComplete {
    ghost Meaning = { List ℕ };

    ghost meaning = { λ t. t };

    ghost reading = { text };

    fn from_json(alloc: Global, value: Value) -> Result<VerificationUriComplete, ReadError> {
        Ok(VerificationUriComplete::new(String::from_json(alloc, value)?))
    }
}

impl ToJson for VerificationUriComplete {
    ghost writing = { λ t. Ok (string t) };

    fn to_json(&self, alloc: Global) -> Result<Value, WriteError> {
        self.secret().to_json(alloc)
    }
}
