//! The parameters of the command `assertion`.

ghost use Rattle.oauth2_script.specs.AssertionParams as spec;

use crate::sent_params::sent_params;
use oauth2_script_values::{Part, PartError, ScriptCause, bad, listed, needed};
use oauth2_types::Scope;
use serde_json::Value;
use std::alloc::Global;

/// The kind of the assertion that is the grant.
#[derive(Clone, Copy, Debug, PartialEq, Eq)]
pub enum AssertionKind {
    /// A JWT (RFC 7523, section 2.1).
    Jwt,
    /// A SAML 2.0 assertion (RFC 7522, section 2.1).
    Saml2,
}

/// The parameters of a request by an assertion of another party (RFC 7521, section 4.1).
#[derive(Drop)]
pub struct AssertionParams {
    pub kind: AssertionKind,
    /// The JWT in its compact form, or the XML of the SAML assertion.
    pub assertion: String,
    pub scopes: Vec<Scope>,
    pub extra_params: Vec<(String, String)>,
}

impl Part for AssertionKind {
    ghost use Rattle.std.specs.Prelude.{false};
    ghost use Rattle.oauth2_script.specs.declared.assertion_params.AssertionKind.{AssertionKind};

    ghost Meaning = { AssertionKind };

    ghost meaning = { λ kind. kind };

    ghost reading = { spec.assertion_kind };

    ghost allocates = { false };

    #[tactic(auto, unfolding(crate::specs::AssertionParams::assertion_kind_of))]
    fn from_value(_alloc: Global, value: &Value) -> Result<AssertionKind, PartError> {
        match value.as_str() {
            Some("jwt") => Ok(AssertionKind::Jwt),
            Some("saml2") => Ok(AssertionKind::Saml2),
            Some(_) => Err(bad(ScriptCause::UnknownWord)),
            None => Err(bad(ScriptCause::WrongType)),
        }
    }
}

impl Part for AssertionParams {
    ghost use Rattle.oauth2_script.specs.Views.{assertion_view};

    ghost Meaning = { spec.AssertionParams };

    ghost meaning = { assertion_view };

    ghost reading = { spec.assertion_params };

    #[tactic(auto, unfolding(crate::specs::AssertionParams::assertion_params))]
    fn from_value(alloc: Global, value: &Value) -> Result<AssertionParams, PartError> {
        let kind = needed(alloc, value, "kind")?;
        let assertion = needed(alloc, value, "assertion")?;
        let scopes = listed(alloc, value, "scopes")?;
        let extra_params = sent_params(alloc, value)?;
        Ok(AssertionParams {
            kind,
            assertion,
            scopes,
            extra_params,
        })
    }
}
