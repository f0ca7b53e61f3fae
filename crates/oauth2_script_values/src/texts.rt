//! How texts are read, and the types of `oauth2_types` that accept any text.

ghost use Rattle.std.specs.Prelude.{ℕ, List, string_bytes};
ghost use Rattle.oauth2_script_values.specs.Part.{text};

use crate::part::Part;
use crate::part_error::{PartError, bad};
use crate::script_cause::ScriptCause;
use oauth2_types::{
    AccessToken, AuthorizationCode, ClientId, ClientSecret, CsrfToken, RefreshToken,
    ResourceOwnerPassword, ResourceOwnerUsername, ResponseType, Scope,
};
use serde_json::Value;
use std::alloc::Global;

impl Part for String {
    ghost Meaning = { List ℕ };

    ghost meaning = { string_bytes };

    ghost reading = { text };

    fn from_value(alloc: Global, value: &Value) -> Result<String, PartError> {
        let text = value.as_str().ok_or(bad(ScriptCause::WrongType))?;
        Ok(String::from_str(alloc, text)?)
    }
}

impl Part for AccessToken {
    ghost Meaning = { List ℕ };

    ghost meaning = { λ text. text };

    ghost reading = { text };

    fn from_value(alloc: Global, value: &Value) -> Result<AccessToken, PartError> {
        Ok(AccessToken::new(String::from_value(alloc, value)?))
    }
}

impl Part for AuthorizationCode {
    ghost Meaning = { List ℕ };

    ghost meaning = { λ text. text };

    ghost reading = { text };

    fn from_value(alloc: Global, value: &Value) -> Result<AuthorizationCode, PartError> {
        Ok(AuthorizationCode::new(String::from_value(alloc, value)?))
    }
}

impl Part for ClientId {
    ghost Meaning = { List ℕ };

    ghost meaning = { λ text. text };

    ghost reading = { text };

    fn from_value(alloc: Global, value: &Value) -> Result<ClientId, PartError> {
        Ok(ClientId::new(String::from_value(alloc, value)?))
    }
}

impl Part for ClientSecret {
    ghost Meaning = { List ℕ };

    ghost meaning = { λ text. text };

    ghost reading = { text };

    fn from_value(alloc: Global, value: &Value) -> Result<ClientSecret, PartError> {
        Ok(ClientSecret::new(String::from_value(alloc, value)?))
    }
}

impl Part for CsrfToken {
    ghost Meaning = { List ℕ };

    ghost meaning = { λ text. text };

    ghost reading = { text };

    fn from_value(alloc: Global, value: &Value) -> Result<CsrfToken, PartError> {
        Ok(CsrfToken::new(String::from_value(alloc, value)?))
    }
}

impl Part for RefreshToken {
    ghost Meaning = { List ℕ };

    ghost meaning = { λ text. text };

    ghost reading = { text };

    fn from_value(alloc: Global, value: &Value) -> Result<RefreshToken, PartError> {
        Ok(RefreshToken::new(String::from_value(alloc, value)?))
    }
}

impl Part for ResourceOwnerPassword {
    ghost Meaning = { List ℕ };

    ghost meaning = { λ text. text };

    ghost reading = { text };

    fn from_value(alloc: Global, value: &Value) -> Result<ResourceOwnerPassword, PartError> {
        Ok(ResourceOwnerPassword::new(String::from_value(alloc, value)?))
    }
}

impl Part for ResourceOwnerUsername {
    ghost Meaning = { List ℕ };

    ghost meaning = { λ text. text };

    ghost reading = { text };

    fn from_value(alloc: Global, value: &Value) -> Result<ResourceOwnerUsername, PartError> {
        Ok(ResourceOwnerUsername::new(String::from_value(alloc, value)?))
    }
}

impl Part for ResponseType {
    ghost Meaning = { List ℕ };

    ghost meaning = { λ text. text };

    ghost reading = { text };

    fn from_value(alloc: Global, value: &Value) -> Result<ResponseType, PartError> {
        Ok(ResponseType::new(String::from_value(alloc, value)?))
    }
}

impl Part for Scope {
    ghost Meaning = { List ℕ };

    ghost meaning = { λ text. text };

    ghost reading = { text };

    fn from_value(alloc: Global, value: &Value) -> Result<Scope, PartError> {
        Ok(Scope::new(String::from_value(alloc, value)?))
    }
}
