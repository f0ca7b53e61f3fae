//! A list of authorization details.

ghost use Rattle.std.specs.Prelude.{◌≡◌, true};
ghost use Rattle.serde_json.specs.View.{view};
ghost use Rattle.oauth2_grants.specs.authorization_details.Details.{are_details};

use crate::authorization_details::details_fault::DetailsFault;
use crate::authorization_details::faults::{details_fault, json_value};
use serde_json::Value;
use std::alloc::{AllocError, Global};

/// Authorization details (RFC 9396, section 2): a JSON array of objects, each of which has a text
/// under `type`. `{:?}` shows them.
#[derive(Debug, Drop)]
pub struct AuthorizationDetails {
    value: Value,
    ghost valid: { are_details (view value) ≡ true },
}

impl AuthorizationDetails {
    ghost use Rattle.std.specs.Prelude.{Some, None, IfOk, IfErr, string_bytes};
    ghost use Rattle.serde_json.specs.Read.{read};
    ghost use Rattle.oauth2_grants.specs.authorization_details.Details.{IsTextOf, details_fault};
    ghost use Rattle.oauth2_grants.specs.authorization_details.Details.{TellsFault, text_fault};
    ghost use Rattle.oauth2_grants.specs.authorization_details.Shown.{details_of};

    /// The details that a JSON text holds.
    #[tactic(auto, using(crate::proofs::authorization_details::Judged::tells))]
    pub fn from_text(alloc: Global, text: &str) -> Result<AuthorizationDetails, DetailsFault>
        ensures ok { IfOk result (λ d. (read text.now ≡ Some (details_of d))
            × (details_fault (details_of d) ≡ None)) }
        ensures err { IfErr result (λ fault. TellsFault fault (text_fault (read text.now))) }
    {
        let value = json_value(alloc, text)?;
        let details = AuthorizationDetails::from_value(value)?;
        Ok(details)
    }

    /// The details that a JSON value holds, such as one of `json!`.
    pub fn from_value(value: Value) -> Result<AuthorizationDetails, DetailsFault>
        ensures ok { IfOk result (λ d. (details_of d ≡ view value)
            × (details_fault (view value) ≡ None)) }
        ensures err { IfErr result (λ fault. details_fault (view value) ≡ Some fault) }
    {
        match details_fault(&value) {
            None => Ok(AuthorizationDetails { value }),
            Some(fault) => Err(fault),
        }
    }

    /// The JSON array.
    pub fn as_value(&self) -> &Value
        ensures { view result.now ≡ details_of self.now }
    {
        &self.value
    }

    /// The details as a compact JSON text, with the members of each object in byte order of their
    /// names.
    pub fn to_text(&self, alloc: Global) -> Result<String, AllocError>
        ensures { IfOk result (λ text. IsTextOf (details_of self.now) (string_bytes text)) }
    {
        let text = self.value.to_string(alloc)?;
        Ok(text)
    }

    // A copy.
    pub(crate) fn copy(&self) -> Result<AuthorizationDetails, AllocError>
        ensures { IfOk result (λ copy. details_of copy ≡ details_of self.now) }
    {
        Ok(AuthorizationDetails {
            value: self.value.clone()?,
        })
    }
}
