//! The parameters of the command `code`.

ghost use Rattle.oauth2_script.specs.CodeParams as spec;

use crate::sent_params::sent_params;
use oauth2_script_values::{Part, PartError, needed, optional};
use oauth2_types::{AuthorizationCode, PkceCodeVerifier};
use oauth2_urls::RedirectUrl;
use serde_json::Value;
use std::alloc::Global;

/// The parameters of the exchange of a code (RFC 6749, section 4.1.3).
#[derive(Drop)]
pub struct CodeParams {
    pub code: AuthorizationCode,
    pub verifier: Option<PkceCodeVerifier>,
    pub redirect: Option<RedirectUrl>,
    pub extra_params: Vec<(String, String)>,
}

impl Part for CodeParams {
    ghost use Rattle.oauth2_script.specs.Views.{code_view};

    ghost Meaning = { spec.CodeParams };

    ghost meaning = { code_view };

    ghost reading = { spec.code_params };

    #[tactic(auto, unfolding(crate::specs::CodeParams::code_params))]
    fn from_value(alloc: Global, value: &Value) -> Result<CodeParams, PartError> {
        let code = needed(alloc, value, "code")?;
        let verifier = optional(alloc, value, "verifier")?;
        let redirect = optional(alloc, value, "redirect")?;
        let extra_params = sent_params(alloc, value)?;
        Ok(CodeParams {
            code,
            verifier,
            redirect,
            extra_params,
        })
    }
}
