//! The parameters of the command `redirect`.

ghost use Rattle.std.specs.Prelude.{option_map, string_bytes};
ghost use Rattle.oauth2_script_values.specs.Gives.{Gives};
ghost use Rattle.oauth2_script.specs.RedirectParams as spec;
ghost use Rattle.oauth2_script.specs.Views.{expected_issuer_view};

use crate::kept_login::KeptLogin;
use oauth2_script_values::{Part, PartError, ScriptCause, bad_member, needed, optional};
use oauth2_types::CsrfToken;
use oauth2_urls::RedirectUrl;
use serde_json::Value;
use std::alloc::Global;

/// The issuer that is expected in a redirect (RFC 9207, section 2.4).
#[derive(Drop)]
pub enum ExpectedIssuerParam {
    /// The redirect has to name this issuer.
    Required(String),
    /// The redirect may leave the issuer out, but may name no other one.
    Compared(String),
    /// The issuer of the redirect is ignored.
    Unknown,
}

/// The parameters of the command `redirect`.
#[derive(Drop)]
pub struct RedirectParams {
    pub state: CsrfToken,
    /// The URL that the user was sent back to.
    pub redirect: RedirectUrl,
    /// What was kept of the login, if it is to be compared.
    pub login: Option<KeptLogin>,
    pub issuer: ExpectedIssuerParam,
}

impl Part for RedirectParams {
    ghost use Rattle.oauth2_script.specs.Views.{redirect_view};

    ghost Meaning = { spec.RedirectParams };

    ghost meaning = { redirect_view };

    ghost reading = { spec.redirect_params };

    #[tactic(auto, unfolding(crate::specs::RedirectParams::redirect_params))]
    fn from_value(alloc: Global, value: &Value) -> Result<RedirectParams, PartError> {
        let state = needed(alloc, value, "state")?;
        let redirect = needed(alloc, value, "redirect")?;
        let login = optional(alloc, value, "login")?;
        let issuer = optional(alloc, value, "issuer")?;
        let issuer_compared = optional(alloc, value, "issuer_compared")?;
        Ok(RedirectParams {
            state,
            redirect,
            login,
            issuer: issuer_of(issuer, issuer_compared)?,
        })
    }
}

// The expected issuer of the two members; a fault if both are given.
fn issuer_of(
    required: Option<String>,
    compared: Option<String>,
) -> Result<ExpectedIssuerParam, PartError>
    ensures { Gives expected_issuer_view result (spec.issuer_of (option_map string_bytes required)
        (option_map string_bytes compared)) }
{
    match (required, compared) {
        (Some(issuer), None) => Ok(ExpectedIssuerParam::Required(issuer)),
        (None, Some(issuer)) => Ok(ExpectedIssuerParam::Compared(issuer)),
        (None, None) => Ok(ExpectedIssuerParam::Unknown),
        (Some(_), Some(_)) => Err(PartError::Bad(bad_member(
            "issuer_compared",
            ScriptCause::Excluded,
        ))),
    }
}
