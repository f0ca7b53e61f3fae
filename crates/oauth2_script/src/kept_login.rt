//! What the script's caller kept of a login when it began.

ghost use Rattle.oauth2_script.specs.KeptLogin as spec;

use oauth2_script_values::{Part, PartError, an_object, needed};
use oauth2_types::ClientId;
use oauth2_urls::{RedirectUrl, TokenUrl};
use serde_json::Value;
use std::alloc::Global;

/// The client, the server and the place of a login, as they were when it began (RFC 9700, sections
/// 2.1 and 4.4.2).
#[derive(Drop)]
pub struct KeptLogin {
    pub client_id: ClientId,
    pub token_url: TokenUrl,
    pub redirect_uri: RedirectUrl,
}

impl Part for KeptLogin {
    ghost use Rattle.oauth2_script.specs.Views.{kept_login_view};

    ghost Meaning = { spec.KeptLogin };

    ghost meaning = { kept_login_view };

    ghost reading = { spec.kept_login };

    #[tactic(auto, unfolding(crate::specs::KeptLogin::kept_login))]
    fn from_value(alloc: Global, value: &Value) -> Result<KeptLogin, PartError> {
        an_object(value)?;
        let client_id = needed(alloc, value, "client_id")?;
        let token_url = needed(alloc, value, "token_url")?;
        let redirect_uri = needed(alloc, value, "redirect_uri")?;
        Ok(KeptLogin {
            client_id,
            token_url,
            redirect_uri,
        })
    }
}
