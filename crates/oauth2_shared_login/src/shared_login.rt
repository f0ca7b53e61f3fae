//! The token of a login that many processes share.

ghost use Rattle.std.specs.Prelude.{◌≡◌, None, option_copied, unwrap_or};
ghost use Rattle.std.specs.Duration.{as_nanos};
ghost use Rattle.oauth2_shared_login.specs.Login.{is_good_at, refresh_token_of};

use jiff::Timestamp;
use oauth2::{RefreshToken, TokenResponse};
use oauth2_shared_keeper::SharedToken;
use oauth2_stored_token::ClientAtEndpoint;
use oauth2_times::nanosecond_after;
use std::marker::Model;
use std::time::Duration;

/// The token of a login that many processes share. `TR` is the type of the server's response, with
/// all that it has; a store keeps it as its JSON.
#[derive(Debug, Drop)]
pub struct SharedLogin<TR> {
    /// The last response of the token endpoint.
    pub response: TR,
    /// The moment that the clock read before it was asked for.
    pub accepted_at: Timestamp,
    /// How long its access token is good after that.
    pub lifetime: Duration,
    /// The refresh token that was sent for it, which counts on where the response has none.
    pub earlier_refresh_token: Option<RefreshToken>,
    /// The client and the token endpoint that it belongs to. Its refresh token goes nowhere else.
    pub client: ClientAtEndpoint,
}

impl<TR> Model for SharedLogin<TR> {
    ghost use Rattle.std.specs.Duration.{as_nanos};
    ghost use Rattle.oauth2_shared_login.specs.Login.{Login};

    ghost Value = { Login TR };

    ghost view = { λ l. record {
      response = l.response;
      accepted_at = l.accepted_at.nanosecond;
      lifetime = as_nanos l.lifetime;
      earlier_refresh_token = l.earlier_refresh_token;
      client = l.client;
    } };
}

impl<TR: TokenResponse> SharedLogin<TR> {
    /// The login of a response that was asked for at `now`, by this client at this token endpoint.
    /// Its access token is good for `default_lifetime` if the response does not say for how long.
    pub fn new(
        response: TR,
        now: Timestamp,
        default_lifetime: Duration,
        client: ClientAtEndpoint,
    ) -> Self
        ensures { result ≡ record {
          response = response;
          accepted_at = now.nanosecond;
          lifetime = unwrap_or (TR.lifetime response) (as_nanos default_lifetime);
          earlier_refresh_token = None;
          client = client;
        } }
    {
        let lifetime = response.expires_in().unwrap_or(default_lifetime);
        SharedLogin {
            response,
            accepted_at: now,
            lifetime,
            earlier_refresh_token: None,
            client,
        }
    }

    /// The refresh token: that of the response or, if that has none, the one that was sent for it
    /// (RFC 6749, 6).
    pub fn refresh_token(&self) -> Option<&RefreshToken>
        ensures { option_copied result ≡ refresh_token_of TR.refresh_token self.now }
    {
        match self.response.refresh_token() {
            Some(refresh_token) => Some(refresh_token),
            None => self.earlier_refresh_token.as_ref(),
        }
    }
}

impl<TR> SharedToken for SharedLogin<TR> {
    ghost is_good = { is_good_at };

    fn is_good(&self, now: Timestamp, margin: Duration) -> bool {
        nanosecond_after(now, margin) <= nanosecond_after(self.accepted_at, self.lifetime)
    }
}
