//! An answer that is kept, and how long it is good.

ghost use Rattle.std.specs.Prelude.{◌≡◌, option_map};
ghost use Rattle.std.specs.Duration.{as_nanos};
ghost use Rattle.oauth2_introspection_cache.specs.Cache.{is_before, is_good_at};

use jiff::Timestamp;
use oauth2::TokenIntrospectionResponse;
use oauth2_times::nanosecond_after;
use std::marker::Model;
use std::time::Duration;

// The answer that a token is active, and the moment of the call that asked for it.
#[derive(Drop)]
pub(crate) struct KeptAnswer<TIR> {
    pub(crate) answer: TIR,
    pub(crate) asked_at: Timestamp,
}

impl<TIR> Model for KeptAnswer<TIR> {
    ghost use Rattle.oauth2_introspection_cache.specs.Cache.{KeptAnswer as View};

    ghost Value = { View TIR };

    ghost view = { λ k. record { answer = k.answer; asked_at = k.asked_at.nanosecond } };
}

impl<TIR: TokenIntrospectionResponse> KeptAnswer<TIR> {
    // Whether it may be used at `now`, if none may that is older than `longest`.
    pub(crate) fn is_good(&self, longest: Duration, now: Timestamp) -> bool
        ensures { result ≡ is_good_at TIR.exp (as_nanos longest) now.nanosecond self.now }
    {
        self.asked_at.as_nanosecond() <= now.as_nanosecond()
            && now.as_nanosecond() < nanosecond_after(self.asked_at, longest)
            && is_before(now, self.answer.exp())
    }
}

// Whether a token that expires then, if ever, has not expired.
pub(crate) fn is_before(now: Timestamp, expires: Option<Timestamp>) -> bool
    ensures { result ≡ is_before now.nanosecond
        (option_map (λ end. end.nanosecond) expires) }
{
    match expires {
        Some(end) => now.as_nanosecond() < end.as_nanosecond(),
        None => true,
    }
}
