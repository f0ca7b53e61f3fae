//! A source of keys: it keeps a key set, and asks for another one when that is due.

ghost use Rattle.std.specs.Prelude.{
  ◌≡◌,
  ◌+ℤ◌,
  pos,
  true,
  false,
  Some,
  None,
  IsSome,
  IsSomeAnd,
  OnOk,
  option_copied,
  option_map,
};
ghost use Rattle.std.specs.Borrow.{sem};
ghost use Rattle.std.specs.Duration.{as_nanos};
ghost use Rattle.oauth2_openid.specs.Seen.{token_of};
ghost use Rattle.oauth2_key_source.specs.Request.{AsksForKeys};
ghost use Rattle.oauth2_key_source.specs.Source.{
  IsUntil,
  Renews,
  Rests,
  Source,
  SourceAnswers,
  SourceCalls,
  SourceVerifies,
  keys_found_at,
  earlier,
  found_at,
  is_due,
  is_given,
  is_waiting,
  suffices,
};

use crate::kept_keys::{KeptKeys, earlier};
use crate::request::KeySetRequest;
use crate::source_error::KeySourceError;
use crate::verify_error::VerifyError;
use jiff::Timestamp;
use oauth2_codes::BasicErrorResponse;
use oauth2_json::FromJson;
use oauth2_keys::{JsonWebKeySet, SignatureAlgorithm};
use oauth2_openid::IdToken;
use oauth2_times::nanosecond_after;
use oauth2_wire::SyncHttpClient;
use std::alloc::Global;
use std::marker::Model;
use std::time::Duration;

/// The keys of an issuer. A source keeps the last key set, and asks for another one where that is
/// too old or does not have the key that a call wants, but never twice within a wait.
///
/// Contracts see it as a `Source`.
pub struct KeySource {
    request: KeySetRequest,
    lifetime: Duration,
    wait: Duration,
    uses_old: bool,
    kept: Option<KeptKeys>,
    asked_at: Option<Timestamp>,
}

impl Drop for KeySource {
    fn drop(self) {
        let KeySource {
            request: _,
            lifetime: _,
            wait: _,
            uses_old: _,
            kept: _,
            asked_at: _,
        } = self;
    }
}

impl Model for KeySource {
    ghost use Rattle.std.specs.Prelude.{option_map};
    ghost use Rattle.std.specs.Duration.{as_nanos};
    ghost use Rattle.oauth2_key_source.specs.Source.{Source};

    ghost Value = { Source };

    ghost view = { λ s. record {
      query = s.request;
      lifetime = as_nanos s.lifetime;
      wait = as_nanos s.wait;
      uses_old = s.uses_old;
      kept = s.kept;
      asked_at = option_map (λ moment. moment.nanosecond) s.asked_at;
    } };
}

impl KeySource {
    ghost use Rattle.oauth2_key_source.specs.Lending.{LendsKeys};

    /// A source that keeps no set yet. A set that is older than `lifetime` is asked for again.
    /// After a request no other one is made until `wait` has passed, whatever came of it.
    pub fn new(request: KeySetRequest, lifetime: Duration, wait: Duration) -> KeySource
        ensures { result ≡ record {
          query = request;
          lifetime = as_nanos lifetime;
          wait = as_nanos wait;
          uses_old = false;
          kept = None;
          asked_at = None;
        } }
    {
        KeySource {
            request,
            lifetime,
            wait,
            uses_old: false,
            kept: None,
            asked_at: None,
        }
    }

    /// Hands out a kept set that is older than the lifetime while no request may be made, as when
    /// the issuer cannot be reached. A key that the issuer has withdrawn counts for longer then.
    /// Unless this is set, such a call returns `Waits`.
    pub fn use_old_keys(mut self) -> KeySource
        ensures { result ≡ record self { uses_old = true } }
    {
        self.uses_old = true;
        self
    }

    /// The set that is kept, however old it is.
    pub fn kept_keys(&self) -> Option<&JsonWebKeySet>
        ensures { option_map (λ keys. keys.now) result ≡ option_map (λ k. k.keys) self.now.kept }
    {
        match &self.kept {
            Some(kept) => Some(&kept.keys),
            None => None,
        }
    }

    // Counts the age of the set and the wait from a call that comes before the moments from which
    // they counted.
    fn note_clock(&mut self, now: Timestamp)
        ensures { self.new ≡ found_at self.old now.nanosecond }
    {
        self.note_age(now);
        self.note_wait(now);
    }

    fn note_age(&mut self, now: Timestamp)
        ensures { self.new ≡ record self.old {
          kept = option_map (keys_found_at now.nanosecond) self.old.kept;
        } }
    {
        if let Some(kept) = &mut self.kept {
            kept.note_clock(now);
        }
    }

    fn note_wait(&mut self, now: Timestamp)
        ensures { self.new ≡ record self.old {
          asked_at = option_map (earlier now.nanosecond) self.old.asked_at;
        } }
    {
        if let Some(asked_at) = self.asked_at {
            self.asked_at = Some(earlier(now, asked_at));
        }
    }

    // Whether the kept set need not be asked for again.
    fn suffices(&self, key_id: Option<&str>, now: Timestamp) -> bool
        ensures { result ≡ suffices self.now.lifetime (option_copied key_id.entry)
            now.nanosecond self.now.kept }
    {
        match &self.kept {
            Some(kept) => kept.suffices(self.lifetime, key_id, now),
            None => false,
        }
    }

    // Whether less than the wait has passed.
    fn is_waiting(&self, now: Timestamp) -> bool
        ensures { result ≡ is_waiting self.now.wait now.nanosecond self.now.asked_at }
    {
        match self.asked_at {
            Some(asked_at) => now.as_nanosecond() < nanosecond_after(asked_at, self.wait),
            None => false,
        }
    }

    // Whether a request is to be made.
    fn is_due(&self, key_id: Option<&str>, now: Timestamp) -> bool
        ensures { result ≡ is_due self.now (option_copied key_id.entry) now.nanosecond }
    {
        !self.suffices(key_id, now) && !self.is_waiting(now)
    }

    // Whether the kept set is handed out without a request.
    fn is_given(&self, now: Timestamp) -> bool
        ensures { result ≡ is_given self.now now.nanosecond }
    {
        match &self.kept {
            Some(kept) => kept.is_fresh(self.lifetime, now) || self.uses_old,
            None => false,
        }
    }

    // The end of the wait.
    fn end_of_wait(&self) -> Option<Timestamp>
        requires { IsSome self.now.asked_at }
        ensures { IsSomeAnd self.now.asked_at
            (λ from. IsUntil (from +ℤ pos self.now.wait) result) }
    {
        match self.asked_at {
            Some(asked_at) => end_after(asked_at, self.wait),
            None => None,
        }
    }

    // Makes a request.
    fn renew<C: SyncHttpClient>(
        &mut self,
        alloc: Global,
        now: Timestamp,
        http_client: &mut C,
    ) -> Result<(), KeySourceError<C::Error>>
        requires { C.is_ready http_client.old }
        ensures call { Renews (AsksForKeys ⟦<BasicErrorResponse as FromJson>⟧.meaning C.step)
            self.old now.nanosecond http_client.old result http_client.new self.new }
        ensures kept { OnOk result (IsSome self.new.kept) }
        ensures ready { C.is_ready http_client.new }
    {
        let answer = self.request.request(alloc, http_client);
        self.asked_at = Some(now);
        match answer {
            Ok(keys) => {
                self.kept = Some(KeptKeys { keys, got_at: now });
                Ok(())
            }
            Err(error) => Err(KeySourceError::Request(error)),
        }
    }

    // Makes none.
    #[tactic(auto, using(crate::proofs::Calls::kept))]
    fn rest<RE>(&self, now: Timestamp) -> Result<(), KeySourceError<RE>>
        requires { is_given self.now now.nanosecond ≡ false → IsSome self.now.asked_at }
        ensures rests { Rests self.now now.nanosecond result }
        ensures kept { OnOk result (IsSome self.now.kept) }
    {
        if self.is_given(now) {
            Ok(())
        } else {
            Err(KeySourceError::Waits(self.end_of_wait()))
        }
    }

    /// Makes sure that a set is kept that may be used at this moment, and that has a key of this
    /// name (`kid`), if one is given. If the kept set is older than the lifetime, or has no such
    /// key, another one is asked for; at a fault the old one stays. After a request nothing is sent
    /// until the wait has passed: then the kept set has to do, or the call returns `Waits`. If the
    /// call comes before the last one, the clock was set back, and both the age and the wait are
    /// counted from this call.
    #[tactic(auto, using(crate::proofs::Calls::asked))]
    pub fn keep_keys<C: SyncHttpClient>(
        &mut self,
        alloc: Global,
        key_id: Option<&str>,
        now: Timestamp,
        http_client: &mut C,
    ) -> Result<(), KeySourceError<C::Error>>
        requires { C.is_ready http_client.old }
        ensures call { SourceCalls (AsksForKeys ⟦<BasicErrorResponse as FromJson>⟧.meaning C.step)
            self.old (option_copied key_id.entry) now.nanosecond
            http_client.old result http_client.new self.new }
        ensures kept { OnOk result (IsSome self.new.kept) }
        ensures ready { C.is_ready http_client.new }
    {
        self.note_clock(now);
        if self.is_due(key_id, now) {
            self.renew(alloc, now, http_client)
        } else {
            self.rest(now)
        }
    }

    /// Calls `keep_keys`, and lends the kept set. If that call fails, nothing is lent, and its error
    /// is in `fault`, which else is `None`. Once the set is given back, the source is as that call
    /// left it.
    pub fn lend_keys<C: SyncHttpClient>(
        &mut self,
        alloc: Global,
        key_id: Option<&str>,
        now: Timestamp,
        http_client: &mut C,
        fault: &mut Option<KeySourceError<C::Error>>,
    ) -> Option<&JsonWebKeySet>
        requires { C.is_ready http_client.old }
        ensures* rests { sem 𝓛 (LendsKeys
            (AsksForKeys ⟦<BasicErrorResponse as FromJson>⟧.meaning C.step) self.entry
            (option_copied key_id.entry) now.nanosecond http_client.old result fault.new
            http_client.new) }
        ensures ready { C.is_ready http_client.new }
    {
        match self.keep_keys(alloc, key_id, now, http_client) {
            Ok(()) => {
                *fault = None;
                Some(self.kept_keys().unwrap())
            }
            Err(error) => {
                *fault = Some(error);
                None
            }
        }
    }

    /// Calls `lend_keys` for no certain key, and returns the kept set, or the error. This contract
    /// does not say what the source keeps afterwards, nor does the next one: that of `lend_keys`
    /// does.
    pub fn keys<C: SyncHttpClient>(
        &mut self,
        alloc: Global,
        now: Timestamp,
        http_client: &mut C,
    ) -> Result<&JsonWebKeySet, KeySourceError<C::Error>>
        requires { C.is_ready http_client.old }
        ensures call { (kept : Source)
            × SourceAnswers (AsksForKeys ⟦<BasicErrorResponse as FromJson>⟧.meaning C.step)
            (λ keys answer. answer.now ≡ keys)
            self.old None now.nanosecond http_client.old result http_client.new kept }
        ensures ready { C.is_ready http_client.new }
    {
        let mut fault = None;
        match self.lend_keys(alloc, None, now, http_client, &mut fault) {
            Some(keys) => Ok(keys),
            None => Err(fault.unwrap()),
        }
    }

    /// Calls `lend_keys` for a key of this name, and returns the kept set, or the error. If nobody
    /// has such a key, the set is returned without it.
    pub fn keys_for<C: SyncHttpClient>(
        &mut self,
        alloc: Global,
        key_id: &str,
        now: Timestamp,
        http_client: &mut C,
    ) -> Result<&JsonWebKeySet, KeySourceError<C::Error>>
        requires { C.is_ready http_client.old }
        ensures call { (kept : Source)
            × SourceAnswers (AsksForKeys ⟦<BasicErrorResponse as FromJson>⟧.meaning C.step)
            (λ keys answer. answer.now ≡ keys)
            self.old (Some key_id.now) now.nanosecond
            http_client.old result http_client.new kept }
        ensures ready { C.is_ready http_client.new }
    {
        let mut fault = None;
        match self.lend_keys(alloc, Some(key_id), now, http_client, &mut fault) {
            Some(keys) => Ok(keys),
            None => Err(fault.unwrap()),
        }
    }

    /// Whether a token has the algorithm that the client registered, and is signed by the key that
    /// is chosen for it of the kept set, after `keep_keys` for its `kid`. So a key that the issuer
    /// began to use since is asked for once. The rules for the claims are not looked at.
    pub fn verify<C: SyncHttpClient>(
        &mut self,
        alloc: Global,
        token: &IdToken,
        algorithm: SignatureAlgorithm,
        now: Timestamp,
        http_client: &mut C,
    ) -> Result<(), VerifyError<C::Error>>
        requires { C.is_ready http_client.old }
        ensures call { SourceVerifies
            (AsksForKeys ⟦<BasicErrorResponse as FromJson>⟧.meaning C.step)
            self.old algorithm (token_of token.now) now.nanosecond
            http_client.old result http_client.new self.new }
        ensures ready { C.is_ready http_client.new }
    {
        match self.keep_keys(alloc, token.header().key_id(), now, http_client) {
            Ok(()) => match self.kept_keys().unwrap().verify(token, algorithm) {
                Ok(()) => Ok(()),
                Err(error) => Err(VerifyError::Signature(error)),
            },
            Err(error) => Err(VerifyError::Keys(error)),
        }
    }
}

// The end of a wait.
fn end_after(asked_at: Timestamp, wait: Duration) -> Option<Timestamp>
    ensures { IsUntil (asked_at.nanosecond +ℤ pos (as_nanos wait)) result }
{
    Timestamp::from_nanosecond(nanosecond_after(asked_at, wait)).ok()
}
