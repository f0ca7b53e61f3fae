//! Texts that are absolute URIs.

ghost use Rattle.std.specs.Prelude.{◌≡◌, IsTrue};
ghost use Rattle.oauth2_resource_indicators.specs.AbsoluteUri.{is_absolute_uri};
ghost use Rattle.oauth2_script.specs.Uri as spec;

use oauth2_resource_indicators::is_absolute_uri;
use oauth2_script_values::{Part, PartError, ScriptCause, bad};
use serde_json::Value;
use std::alloc::Global;
use std::marker::Model;

/// A text that is an absolute URI without a fragment, as a resource is (RFC 8707, section 2).
#[derive(Drop)]
pub struct AbsoluteUri {
    text: String,
}

impl Model for AbsoluteUri {
    ghost use Rattle.std.specs.Prelude.{ℕ, List, IsTrue, string_bytes};
    ghost use Rattle.oauth2_resource_indicators.specs.AbsoluteUri.{is_absolute_uri};

    ghost Value = { List ℕ };

    ghost view = { λ u. string_bytes u.text };

    ghost invariant = { λ u. IsTrue (is_absolute_uri (string_bytes u.text)) };
}

impl AbsoluteUri {
    /// The text, as the script has it.
    pub fn as_str(&self) -> &str
        ensures text { result.now ≡ self.now }
        ensures uri { IsTrue (is_absolute_uri self.now) }
    {
        self.text.as_str()
    }
}

impl Part for AbsoluteUri {
    ghost use Rattle.std.specs.Prelude.{ℕ, List};

    ghost Meaning = { List ℕ };

    ghost meaning = { λ uri. uri };

    ghost reading = { spec.uri };

    fn from_value(alloc: Global, value: &Value) -> Result<AbsoluteUri, PartError> {
        let text = String::from_value(alloc, value)?;
        if !is_absolute_uri(text.as_str()) {
            return Err(bad(ScriptCause::BadUrl));
        }
        Ok(AbsoluteUri { text })
    }
}
