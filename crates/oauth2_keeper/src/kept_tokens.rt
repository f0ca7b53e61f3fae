//! The token and the refresh token that a keeper keeps, in the replies that have them.

ghost use Rattle.std.specs.Prelude.{
  ◌≡◌,
  Some,
  None,
  option_copied,
  option_map,
  string_bytes,
};
ghost use Rattle.std.specs.Duration.{as_nanos};
ghost use Rattle.std.specs.Option.{option_or};
ghost use Rattle.oauth2_keeper.specs.Keeper.{accepted_token, given_by};
ghost use Rattle.oauth2_keeper.specs.Sources.{refresh_text};

use crate::kept_token::{AccessSource, KeptToken};
use crate::refresh_source::RefreshSource;
use jiff::Timestamp;
use oauth2::TokenResponse;
use oauth2_types::{AccessToken, RefreshToken};
use std::marker::Model;
use std::time::Duration;

// The token and the refresh token that a keeper keeps. No call of it takes memory.
pub(crate) struct KeptTokens<TR>
where
    TR: TokenResponse + Drop,
{
    token: Option<KeptToken<TR>>,
    refresh: RefreshSource<TR>,
}

impl<TR> Drop for KeptTokens<TR>
where
    TR: TokenResponse + Drop,
{
    fn drop(self) {
        let KeptTokens {
            token: _,
            refresh: _,
        } = self;
    }
}

impl<TR> Model for KeptTokens<TR>
where
    TR: TokenResponse + Drop,
{
    ghost use Rattle.std.specs.Prelude.{option_map};
    ghost use Rattle.oauth2_keeper.specs.Sources.{Tokens, refresh_text};

    ghost Value = { Tokens };

    ghost view = { λ k. record {
      token = option_map (λ held. held.token) k.token;
      refresh_token = refresh_text TR.refresh_token k.token k.refresh;
    } };
}

impl<TR> KeptTokens<TR>
where
    TR: TokenResponse + Drop,
{
    // No token, and this refresh token.
    pub(crate) fn new(refresh_token: Option<RefreshToken>) -> KeptTokens<TR>
        ensures { result ≡ record { token = None; refresh_token = refresh_token } }
    {
        KeptTokens {
            token: None,
            refresh: match refresh_token {
                Some(refresh_token) => RefreshSource::Given(refresh_token),
                None => RefreshSource::Absent,
            },
        }
    }

    // The kept token.
    pub(crate) fn token(&self) -> Option<&KeptToken<TR>>
        ensures { option_map (λ held. held.now.token) result ≡ self.now.token }
    {
        self.token.as_ref()
    }

    // The kept refresh token.
    pub(crate) fn refresh_token(&self) -> Option<&RefreshToken>
        ensures { option_copied result ≡ self.now.refresh_token }
    {
        match &self.refresh {
            RefreshSource::Absent => None,
            RefreshSource::Given(refresh_token) => Some(refresh_token),
            RefreshSource::Kept => match &self.token {
                Some(token) => token.refresh_token(),
                None => None,
            },
            RefreshSource::Earlier(reply) => reply.refresh_token(),
        }
    }

    // Forgets the refresh token.
    pub(crate) fn forget_refresh_token(&mut self)
        ensures { self.new ≡ record self.old { refresh_token = None } }
    {
        self.refresh = RefreshSource::Absent;
    }

    // Takes the token out, and where the refresh token is without it.
    fn take_refresh_source(&mut self) -> RefreshSource<TR>
        ensures kept { self.new ≡ record { token = None; refresh_token = None } }
        ensures taken { refresh_text TR.refresh_token None result ≡ self.old.refresh_token }
    {
        let token = self.token.take();
        match std::mem::replace(&mut self.refresh, RefreshSource::Absent) {
            RefreshSource::Kept => match token {
                Some(token) => token.into_refresh_source(),
                None => RefreshSource::Absent,
            },
            RefreshSource::Absent => RefreshSource::Absent,
            RefreshSource::Given(refresh_token) => RefreshSource::Given(refresh_token),
            RefreshSource::Earlier(reply) => RefreshSource::Earlier(reply),
        }
    }

    // Forgets the token.
    pub(crate) fn forget_token(&mut self)
        ensures { self.new ≡ record self.old { token = None } }
    {
        let refresh = self.take_refresh_source();
        self.token = None;
        self.refresh = refresh;
    }

    // Keeps a token that was stored, and this refresh token in place of the kept one.
    pub(crate) fn start_from(
        &mut self,
        access_token: AccessToken,
        token_type: String,
        accepted_at: Timestamp,
        lifetime: Duration,
        refresh_token: Option<RefreshToken>,
    )
        ensures { self.new ≡ record {
          token = Some (record {
            access_token = access_token;
            token_type = string_bytes token_type;
            accepted_at = accepted_at.nanosecond;
            lifetime = as_nanos lifetime;
          });
          refresh_token = refresh_token;
        } }
    {
        self.token = Some(KeptToken {
            source: AccessSource::Stored(access_token, token_type),
            accepted_at,
            lifetime,
        });
        self.refresh = match refresh_token {
            Some(refresh_token) => RefreshSource::Given(refresh_token),
            None => RefreshSource::Absent,
        };
    }

    // Keeps the token of a reply that was accepted at `now`, and its refresh token if it has one.
    pub(crate) fn accept(&mut self, now: Timestamp, reply: TR, default_lifetime: Duration)
        ensures { let given = given_by TR.TokenType.writing TR.access_token TR.token_type
            TR.lifetime TR.refresh_token reply in
            self.new ≡ record {
              token = Some (accepted_token (as_nanos default_lifetime) now.nanosecond given);
              refresh_token = option_or given.refresh_token self.old.refresh_token;
            } }
    {
        let refresh = self.take_refresh_source();
        let lifetime = reply.expires_in().unwrap_or(default_lifetime);
        self.refresh = if reply.refresh_token().is_some() {
            RefreshSource::Kept
        } else {
            refresh
        };
        self.token = Some(KeptToken {
            source: AccessSource::Reply(reply),
            accepted_at: now,
            lifetime,
        });
    }
}
