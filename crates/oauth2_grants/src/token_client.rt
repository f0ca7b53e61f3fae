//! A client at its token endpoint.

ghost use Rattle.std.specs.Prelude.{◌≡◌, option_copied};

use oauth2_types::{ClientId, ClientSecret};
use oauth2_urls::TokenUrl;
use oauth2_wire::{AuthType, ReplyRule};
use std::marker::Model;

/// A client at its token endpoint: who asks, how it shows its secret, and by which rule it reads
/// the Content-Type of a reply. Contracts see it as a `TokenClientView`.
#[derive(Drop)]
pub struct TokenClient<'a> {
    pub(crate) auth_type: &'a AuthType,
    pub(crate) client_id: &'a ClientId,
    pub(crate) client_secret: Option<&'a ClientSecret>,
    pub(crate) reply_rule: ReplyRule,
    pub(crate) token_url: &'a TokenUrl,
}

impl<'a> Model for TokenClient<'a> {
    ghost use Rattle.std.specs.Prelude.{option_copied};
    ghost use Rattle.oauth2_grants.specs.Extension.{TokenClientView};

    ghost Value = { TokenClientView };

    ghost view = { λ c. record {
      auth_type = c.auth_type.now;
      client_id = c.client_id.now;
      client_secret = option_copied c.client_secret;
      reply_rule = c.reply_rule;
      token_url = c.token_url.now;
    } };
}

impl<'a> TokenClient<'a> {
    /// A client of these settings.
    pub fn new(
        auth_type: &'a AuthType,
        client_id: &'a ClientId,
        client_secret: Option<&'a ClientSecret>,
        reply_rule: ReplyRule,
        token_url: &'a TokenUrl,
    ) -> TokenClient<'a>
        ensures { result ≡ record {
          auth_type = auth_type.now;
          client_id = client_id.now;
          client_secret = option_copied client_secret.entry;
          reply_rule = reply_rule;
          token_url = token_url.now;
        } }
    {
        TokenClient {
            auth_type,
            client_id,
            client_secret,
            reply_rule,
            token_url,
        }
    }
}
