//! A client at its pushed authorization request endpoint.

ghost use Rattle.std.specs.Prelude.{◌≡◌, option_copied};

use oauth2_types::{ClientId, ClientSecret};
use oauth2_wire::{AuthType, ReplyRule};
use std::marker::Model;
use url::Url;

/// A client at its pushed authorization request endpoint (RFC 9126, section 2): who asks, how it
/// shows its secret, and by which rule it reads the Content-Type of a reply. Contracts see it as a
/// `PushingClientView`.
#[derive(Drop)]
pub struct PushingClient<'a> {
    pub(crate) auth_type: &'a AuthType,
    pub(crate) client_id: &'a ClientId,
    pub(crate) client_secret: Option<&'a ClientSecret>,
    pub(crate) reply_rule: ReplyRule,
    pub(crate) endpoint: &'a Url,
}

impl<'a> Model for PushingClient<'a> {
    ghost use Rattle.std.specs.Prelude.{option_copied};
    ghost use Rattle.oauth2_pushed_requests.specs.Pushed.{PushingClientView};

    ghost Value = { PushingClientView };

    ghost view = { λ c. record {
      auth_type = c.auth_type.now;
      client_id = c.client_id.now;
      client_secret = option_copied c.client_secret;
      reply_rule = c.reply_rule;
      endpoint = c.endpoint.now;
    } };
}

impl<'a> PushingClient<'a> {
    /// A client of these settings. `endpoint` is the `pushed_authorization_request_endpoint` of the
    /// server's metadata.
    pub fn new(
        auth_type: &'a AuthType,
        client_id: &'a ClientId,
        client_secret: Option<&'a ClientSecret>,
        reply_rule: ReplyRule,
        endpoint: &'a Url,
    ) -> PushingClient<'a>
        ensures { result ≡ record {
          auth_type = auth_type.now;
          client_id = client_id.now;
          client_secret = option_copied client_secret.entry;
          reply_rule = reply_rule;
          endpoint = endpoint.now;
        } }
    {
        PushingClient {
            auth_type,
            client_id,
            client_secret,
            reply_rule,
            endpoint,
        }
    }
}
