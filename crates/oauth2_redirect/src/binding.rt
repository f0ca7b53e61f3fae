//! The client, the server and the place of a login.

ghost use Rattle.std.specs.Prelude.{◌≡◌, option_copied};
ghost use Rattle.oauth2_redirect.specs.Bound.{mismatch_of};

use crate::login_refusal::LoginMismatch;
use crate::place::is_at_redirect_uri;
use oauth2_types::ClientId;
use oauth2_urls::TokenUrl;
use std::marker::Model;
use url::Url;

/// What a login is bound to besides its issuer, as it was when the login began. `Login` keeps this
/// itself; this type is for a caller that keeps logins in another form.
#[derive(Drop)]
pub struct LoginBinding<'a> {
    /// What the client is called at the server.
    pub client_id: &'a ClientId,
    /// The URL of the token endpoint, as `Url::as_str` returns it.
    pub token_url: &'a str,
    /// The redirect URI.
    pub redirect_uri: &'a Url,
}

impl<'a> Model for LoginBinding<'a> {
    ghost use Rattle.oauth2_redirect.specs.Bound.{Binding};

    ghost Value = { Binding };

    ghost view = { λ b. record {
      client_id = b.client_id.now;
      token_url = b.token_url.now;
      redirect_uri = b.redirect_uri.now;
    } };
}

impl<'a> LoginBinding<'a> {
    /// What is not the login's of a client's identifier, its token endpoint, and the URL to which
    /// the redirect came. They are compared in this order (RFC 9700, sections 2.1 and 4.4.2). A
    /// client without a token endpoint has another one than the login.
    pub fn mismatch(
        &self,
        client_id: &ClientId,
        token_url: Option<&TokenUrl>,
        called: &Url,
    ) -> Option<LoginMismatch>
        ensures { result
            ≡ mismatch_of client_id.now (option_copied token_url.entry) self.now called.now }
    {
        if client_id.as_str() != self.client_id.as_str() {
            return Some(LoginMismatch::OtherClient);
        }
        match token_url {
            Some(endpoint) if endpoint.url().as_str() == self.token_url => {}
            _ => return Some(LoginMismatch::OtherTokenEndpoint),
        }
        if !is_at_redirect_uri(self.redirect_uri, called) {
            return Some(LoginMismatch::OtherRedirectUri);
        }
        None
    }
}
