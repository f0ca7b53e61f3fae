//! The rules for a JWT access token at a resource server (RFC 9068, 4).

ghost use Rattle.std.specs.Prelude.{◌≡◌, ◌↔◌, IfErr, IsOk, option_copied};
ghost use Rattle.oauth2_keys.specs.Verified.{IsVerified};
ghost use Rattle.oauth2_signed_tokens.specs.access_tokens.Rules.{
  AccessTokenHolds,
  IsFirstFault,
  IsSignatureFault,
  access_token_checked,
  algorithm_rule,
  audience_rule,
  critical_rule,
  expiry_rule,
  issuer_rule,
  names_access_token,
  payload_rule,
  sender_rule,
  start_rule,
  suffices,
  type_of,
  type_rule,
};
ghost use Rattle.oauth2_signed_tokens.specs.access_tokens.Seen.{access_token_of};

use crate::access_tokens::access_token::JwtAccessToken;
use crate::access_tokens::expected::{ExpectedAccessToken, SenderConstraint};
use crate::access_tokens::fault::AccessTokenFault;
use jiff::Timestamp;
use oauth2_keys::JsonWebKeySet;
use oauth2_openid::kinds::is_encoded;
use oauth2_openid::texts::is_among;
use oauth2_times::nanosecond_after;
use serde_json::Value;
use std::time::Duration;

impl JwtAccessToken {
    /// Checks each rule for the token at the moment `now`, for a resource server that expects this
    /// and has these keys of the issuer. The error is the first broken rule, in the order of
    /// `AccessTokenFault`. It allocates nothing.
    pub fn check(
        &self,
        expected: &ExpectedAccessToken,
        keys: &JsonWebKeySet,
        now: Timestamp,
    ) -> Result<(), AccessTokenFault>
        ensures succeeds { IsOk result
            ↔ AccessTokenHolds expected.now keys.now now.nanosecond (access_token_of self.now) }
        ensures refused { IfErr result
            (IsFirstFault expected.now keys.now now.nanosecond (access_token_of self.now)) }
    {
        match self.first_broken(expected, now) {
            Ok(()) => self.check_signature(expected, keys),
            Err(fault) => Err(fault),
        }
    }

    // Checks each rule except that of the signature. The error is the first broken rule.
    fn first_broken(
        &self,
        expected: &ExpectedAccessToken,
        now: Timestamp,
    ) -> Result<(), AccessTokenFault>
        ensures { result
            ≡ access_token_checked expected.now now.nanosecond (access_token_of self.now) }
    {
        self.check_type()?;
        self.check_algorithm(expected)?;
        self.check_critical()?;
        self.check_payload()?;
        self.check_issuer(expected)?;
        self.check_audience(expected)?;
        self.check_expiry(expected, now)?;
        self.check_start(expected, now)?;
        self.check_sender(expected)
    }

    // The type of the token (`typ`) in its header, if it is a string.
    fn token_type(&self) -> Option<&str>
        ensures { option_copied result ≡ type_of (access_token_of self.now).token }
    {
        self.token
            .other_header_members()
            .get("typ")
            .and_then(Value::as_str)
    }

    fn check_type(&self) -> Result<(), AccessTokenFault>
        ensures { result ≡ type_rule (access_token_of self.now).token }
    {
        if names_access_token(self.token_type()) {
            Ok(())
        } else {
            Err(AccessTokenFault::OtherType)
        }
    }

    fn check_algorithm(&self, expected: &ExpectedAccessToken) -> Result<(), AccessTokenFault>
        ensures { result ≡ algorithm_rule expected.now (access_token_of self.now).token }
    {
        if self.token.header().algorithm() == expected.algorithm.name() {
            Ok(())
        } else {
            Err(AccessTokenFault::OtherAlgorithm)
        }
    }

    fn check_critical(&self) -> Result<(), AccessTokenFault>
        ensures { result ≡ critical_rule (access_token_of self.now).token }
    {
        if self.token.other_header_members().get("crit").is_none() {
            Ok(())
        } else {
            Err(AccessTokenFault::CriticalExtension)
        }
    }

    fn check_payload(&self) -> Result<(), AccessTokenFault>
        ensures { result ≡ payload_rule (access_token_of self.now).token }
    {
        if is_encoded(self.token.other_header_members().get("b64")) {
            Ok(())
        } else {
            Err(AccessTokenFault::UnencodedPayload)
        }
    }

    fn check_issuer(&self, expected: &ExpectedAccessToken) -> Result<(), AccessTokenFault>
        ensures { result ≡ issuer_rule expected.now (access_token_of self.now).token }
    {
        if self.issuer() == expected.issuer.as_str() {
            Ok(())
        } else {
            Err(AccessTokenFault::OtherIssuer)
        }
    }

    fn check_audience(&self, expected: &ExpectedAccessToken) -> Result<(), AccessTokenFault>
        ensures { result ≡ audience_rule expected.now (access_token_of self.now).token }
    {
        if is_among(self.audience(), expected.audience.as_str()) {
            Ok(())
        } else {
            Err(AccessTokenFault::OtherAudience)
        }
    }

    fn check_expiry(
        &self,
        expected: &ExpectedAccessToken,
        now: Timestamp,
    ) -> Result<(), AccessTokenFault>
        ensures { result
            ≡ expiry_rule expected.now now.nanosecond (access_token_of self.now).token }
    {
        if now.as_nanosecond() < nanosecond_after(self.expires_at(), expected.leeway) {
            Ok(())
        } else {
            Err(AccessTokenFault::Expired)
        }
    }

    fn check_start(
        &self,
        expected: &ExpectedAccessToken,
        now: Timestamp,
    ) -> Result<(), AccessTokenFault>
        ensures { result ≡ start_rule expected.now now.nanosecond (access_token_of self.now) }
    {
        let Some(start) = self.own.not_before else {
            return Ok(());
        };
        if start.as_nanosecond() <= nanosecond_after(now, expected.leeway) {
            Ok(())
        } else {
            Err(AccessTokenFault::NotYetValid)
        }
    }

    fn check_sender(&self, expected: &ExpectedAccessToken) -> Result<(), AccessTokenFault>
        ensures { result ≡ sender_rule expected.now (access_token_of self.now).token }
    {
        let is_bound = self.other_claims().get("cnf").is_some();
        if suffices(expected.constraint, is_bound) {
            Ok(())
        } else {
            Err(AccessTokenFault::SenderConstrained)
        }
    }

    fn check_signature(
        &self,
        expected: &ExpectedAccessToken,
        keys: &JsonWebKeySet,
    ) -> Result<(), AccessTokenFault>
        ensures verified { IsOk result
            ↔ IsVerified keys.now expected.now.algorithm (access_token_of self.now).token }
        ensures refused { IfErr result
            (IsSignatureFault keys.now expected.now.algorithm (access_token_of self.now).token) }
    {
        match keys.verify(&self.token, expected.algorithm) {
            Ok(()) => Ok(()),
            Err(error) => Err(AccessTokenFault::Signature(error)),
        }
    }
}

// Whether a header's type is that of an access token.
fn names_access_token(token_type: Option<&str>) -> bool
    ensures { result ≡ names_access_token (option_copied token_type.entry) }
{
    match token_type {
        Some(token_type) => {
            token_type.eq_ignore_ascii_case("at+jwt")
                || token_type.eq_ignore_ascii_case("application/at+jwt")
        }
        None => false,
    }
}

// Whether what a request proved of a key suffices for a token that is bound to one, or not.
fn suffices(constraint: SenderConstraint, is_bound: bool) -> bool
    ensures { result ≡ suffices constraint is_bound }
{
    match constraint {
        SenderConstraint::NoKeyProven => !is_bound,
    }
}
