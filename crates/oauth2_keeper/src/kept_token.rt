//! A token that was accepted, and how long it is good.

ghost use Rattle.std.specs.Prelude.{◌≡◌, ◌↔◌, None, IsSome, IfSome, option_copied};
ghost use Rattle.std.specs.Duration.{as_nanos};
ghost use Rattle.jiff_core.specs.Timestamp.{IsTimestampNanos};
ghost use Rattle.oauth2_keeper.specs.Keeper.{is_good_at, good_until_of};
ghost use Rattle.oauth2_keeper.specs.Sources.{refresh_text};

use crate::refresh_source::RefreshSource;
use crate::token_types::{NamedTokenType, name_of};
use jiff::Timestamp;
use oauth2::TokenResponse;
use oauth2_times::nanosecond_after;
use oauth2_types::{AccessToken, RefreshToken};
use std::marker::Model;
use std::time::Duration;

// Where the texts of a kept access token and of its type are.
#[derive(Drop)]
pub(crate) enum AccessSource<TR> {
    // They were stored, and have no reply.
    Stored(AccessToken, String),
    // They are in this reply.
    Reply(TR),
}

// An access token, the moment of the call that got it, and its lifetime. The token is not copied
// out of its reply, so keeping it takes no memory.
pub(crate) struct KeptToken<TR>
where
    TR: TokenResponse + Drop,
{
    pub(crate) source: AccessSource<TR>,
    pub(crate) accepted_at: Timestamp,
    pub(crate) lifetime: Duration,
}

impl<TR> Drop for KeptToken<TR>
where
    TR: TokenResponse + Drop,
{
    fn drop(self) {
        let KeptToken {
            source: _,
            accepted_at: _,
            lifetime: _,
        } = self;
    }
}

impl<TR> Model for KeptToken<TR>
where
    TR: TokenResponse + Drop,
{
    ghost use Rattle.std.specs.Duration.{as_nanos};
    ghost use Rattle.oauth2_keeper.specs.Sources.{Held, access_text, source_type, refresh_text_in};
    ghost use Rattle.oauth2_keeper.specs.TokenTypes.{type_in};

    ghost Value = { Held };

    ghost view = { λ k. record {
      token = record {
        access_token = access_text TR.access_token k.source;
        token_type = source_type (type_in TR.TokenType.writing TR.token_type) k.source;
        accepted_at = k.accepted_at.nanosecond;
        lifetime = as_nanos k.lifetime;
      };
      refresh_token = refresh_text_in TR.refresh_token k.source;
    } };
}

impl<TR> KeptToken<TR>
where
    TR: TokenResponse + Drop,
{
    // The access token.
    pub(crate) fn access_token(&self) -> &AccessToken
        ensures { result.now ≡ self.now.token.access_token }
    {
        match &self.source {
            AccessSource::Stored(access_token, _) => access_token,
            AccessSource::Reply(reply) => reply.access_token(),
        }
    }

    // The refresh token in its reply.
    pub(crate) fn refresh_token(&self) -> Option<&RefreshToken>
        ensures { option_copied result ≡ self.now.refresh_token }
    {
        match &self.source {
            AccessSource::Stored(_, _) => None,
            AccessSource::Reply(reply) => reply.refresh_token(),
        }
    }

    // The refresh token in its reply, without the access token.
    pub(crate) fn into_refresh_source(self) -> RefreshSource<TR>
        ensures { refresh_text TR.refresh_token None result ≡ self.refresh_token }
    {
        let KeptToken {
            source,
            accepted_at: _,
            lifetime: _,
        } = self;
        match source {
            AccessSource::Stored(_, _) => RefreshSource::Absent,
            AccessSource::Reply(reply) => RefreshSource::Earlier(reply),
        }
    }

    // Whether the token is good at `now`: its lifetime ends no earlier than `margin` after that.
    pub(crate) fn is_good(&self, margin: Duration, now: Timestamp) -> bool
        ensures { result ≡ is_good_at (as_nanos margin) now.nanosecond self.now.token }
    {
        nanosecond_after(now, margin) <= nanosecond_after(self.accepted_at, self.lifetime)
    }

    // Whether the token's lifetime has not ended at `now`.
    pub(crate) fn lasts(&self, now: Timestamp) -> bool
        ensures { result ≡ is_good_at 0 now.nanosecond self.now.token }
    {
        now.as_nanosecond() <= nanosecond_after(self.accepted_at, self.lifetime)
    }

    // The last nanosecond since 1970 at which the token is good.
    fn last_nanosecond(&self, margin: Duration) -> i128
        ensures { result ≡ good_until_of (as_nanos margin) self.now.token }
    {
        nanosecond_after(self.accepted_at, self.lifetime) - margin.as_nanos() as i128
    }

    // The last time at which the token is good; `None` if it is out of the range of `Timestamp`.
    pub(crate) fn good_until(&self, margin: Duration) -> Option<Timestamp>
        ensures variant { IsSome result
            ↔ IsTimestampNanos (good_until_of (as_nanos margin) self.now.token) }
        ensures some { IfSome result
            (λ end. end.nanosecond ≡ good_until_of (as_nanos margin) self.now.token) }
    {
        moment_of(self.last_nanosecond(margin))
    }
}

// The moment so many nanoseconds after 1970; `None` if it is out of the range of `Timestamp`.
fn moment_of(nanosecond: i128) -> Option<Timestamp>
    ensures variant { IsSome result ↔ IsTimestampNanos nanosecond }
    ensures some { IfSome result (λ moment. moment.nanosecond ≡ nanosecond) }
{
    Timestamp::from_nanosecond(nanosecond).ok()
}

impl<TR> KeptToken<TR>
where
    TR: TokenResponse + Drop,
    TR::TokenType: NamedTokenType,
{
    // The type of the token.
    pub(crate) fn token_type(&self) -> &str
        ensures { result.now ≡ self.now.token.token_type }
    {
        match &self.source {
            AccessSource::Stored(_, token_type) => token_type.as_str(),
            AccessSource::Reply(reply) => name_of(reply.token_type()),
        }
    }
}
