//! The parameters of the command `metadata`.

ghost use Rattle.oauth2_script.specs.MetadataParams as spec;

use oauth2_script_values::{Part, PartError, ScriptCause, bad, needed, optional};
use serde_json::Value;
use std::alloc::Global;

/// The registered name of the well-known URI of an issuer's metadata (RFC 8414, section 7.3;
/// OpenID Connect Discovery 1.0, section 4).
#[derive(Clone, Copy, Debug, PartialEq, Eq)]
pub enum WellKnown {
    OauthAuthorizationServer,
    OpenidConfiguration,
}

/// The parameters of a request for an issuer's metadata (RFC 8414, section 3.1).
#[derive(Drop)]
pub struct MetadataParams {
    pub issuer: String,
    pub well_known: WellKnown,
    /// The issuer that the metadata has to name, if it is another one than `issuer`.
    pub expected_issuer: Option<String>,
}

impl Part for WellKnown {
    ghost use Rattle.std.specs.Prelude.{false};
    ghost use Rattle.oauth2_script.specs.declared.metadata_params.WellKnown.{WellKnown};

    ghost Meaning = { WellKnown };

    ghost meaning = { λ well_known. well_known };

    ghost reading = { spec.well_known };

    ghost allocates = { false };

    #[tactic(auto, unfolding(crate::specs::MetadataParams::well_known_of))]
    fn from_value(_alloc: Global, value: &Value) -> Result<WellKnown, PartError> {
        match value.as_str() {
            Some("oauth-authorization-server") => Ok(WellKnown::OauthAuthorizationServer),
            Some("openid-configuration") => Ok(WellKnown::OpenidConfiguration),
            Some(_) => Err(bad(ScriptCause::UnknownWord)),
            None => Err(bad(ScriptCause::WrongType)),
        }
    }
}

impl Part for MetadataParams {
    ghost use Rattle.oauth2_script.specs.Views.{metadata_view};

    ghost Meaning = { spec.MetadataParams };

    ghost meaning = { metadata_view };

    ghost reading = { spec.metadata_params };

    #[tactic(auto, unfolding(crate::specs::MetadataParams::metadata_params))]
    fn from_value(alloc: Global, value: &Value) -> Result<MetadataParams, PartError> {
        let issuer = needed(alloc, value, "issuer")?;
        let well_known = optional(alloc, value, "well_known")?;
        let expected_issuer = optional(alloc, value, "expected_issuer")?;
        Ok(MetadataParams {
            issuer,
            well_known: well_known.unwrap_or(WellKnown::OauthAuthorizationServer),
            expected_issuer,
        })
    }
}
