//! The client that a script names.

ghost use Rattle.oauth2_script.specs.Client as spec;

use crate::adapter::Adapter;
use oauth2_script_values::{Part, PartError, an_object, listed, needed, optional};
use oauth2_types::{ClientId, ClientSecret};
use oauth2_urls::{
    AuthUrl, DeviceAuthorizationUrl, IntrospectionUrl, RedirectUrl, RevocationUrl, TokenUrl,
};
use oauth2_wire::{AuthType, ReplyRule};
use serde_json::Value;
use std::alloc::Global;
use url::Url;

/// The client of a script; endpoints that the script does not set are `None`.
#[derive(Drop)]
pub struct ClientPart {
    pub id: ClientId,
    pub secret: Option<ClientSecret>,
    pub auth_type: AuthType,
    pub reply_rule: ReplyRule,
    pub redirect: Option<RedirectUrl>,
    pub endpoints: ClientEndpoints,
    /// What changes each reply, one after the other; the first one sees the reply as it came.
    pub adapters: Vec<Adapter>,
}

/// The endpoints that a script sets.
#[derive(Drop)]
pub struct ClientEndpoints {
    pub auth: Option<AuthUrl>,
    pub token: Option<TokenUrl>,
    pub device: Option<DeviceAuthorizationUrl>,
    pub introspection: Option<IntrospectionUrl>,
    pub revocation: Option<RevocationUrl>,
    /// The pushed authorization request endpoint (RFC 9126, section 2).
    pub push: Option<Url>,
}

impl Part for ClientEndpoints {
    ghost use Rattle.oauth2_script.specs.Views.{endpoints_view};

    ghost Meaning = { spec.ClientEndpoints };

    ghost meaning = { endpoints_view };

    ghost reading = { spec.endpoints };

    #[tactic(auto, using(crate::proofs::Parts::kept), unfolding(crate::specs::Client::endpoints))]
    fn from_value(alloc: Global, value: &Value) -> Result<ClientEndpoints, PartError> {
        let auth = optional(alloc, value, "auth_url")?;
        let token = optional(alloc, value, "token_url")?;
        let device = optional(alloc, value, "device_url")?;
        let introspection = optional(alloc, value, "introspection_url")?;
        let revocation = optional(alloc, value, "revocation_url")?;
        let push = optional(alloc, value, "push_url")?;
        Ok(ClientEndpoints {
            auth,
            token,
            device,
            introspection,
            revocation,
            push,
        })
    }
}

impl Part for ClientPart {
    ghost use Rattle.oauth2_script.specs.Views.{client_view};

    ghost Meaning = { spec.Client };

    ghost meaning = { client_view };

    ghost reading = { spec.client };

    #[tactic(auto, unfolding(crate::specs::Client::client))]
    fn from_value(alloc: Global, value: &Value) -> Result<ClientPart, PartError> {
        an_object(value)?;
        let id = needed(alloc, value, "id")?;
        let secret = optional(alloc, value, "secret")?;
        let auth_type = optional(alloc, value, "auth")?;
        let reply_rule = optional(alloc, value, "reply_rule")?;
        let redirect = optional(alloc, value, "redirect")?;
        let endpoints = ClientEndpoints::from_value(alloc, value)?;
        let adapters = listed(alloc, value, "adapters")?;
        Ok(ClientPart {
            id,
            secret,
            auth_type: auth_type.unwrap_or(AuthType::BasicAuth),
            reply_rule: reply_rule.unwrap_or(ReplyRule::Prefix),
            redirect,
            endpoints,
            adapters,
        })
    }
}
