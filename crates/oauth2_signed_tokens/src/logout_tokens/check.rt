//! The rules for a logout token at a client (OpenID Connect Back-Channel Logout 1.0, 2.6).

ghost use Rattle.std.specs.Prelude.{◌≡◌, ◌↔◌, IfErr, IsOk, option_copied, option_map};
ghost use Rattle.serde_json.specs.View.{view};
ghost use Rattle.oauth2_keys.specs.Secret.{IsSecretRefusal, IsVerifiedBySecret};
ghost use Rattle.oauth2_keys.specs.Signature.{IsSignatureRefusal, IsSigned, check_of};
ghost use Rattle.oauth2_keys.specs.Verified.{IsRefusal, IsVerified};
ghost use Rattle.oauth2_openid.specs.TokenRules.{tenant_of};
ghost use Rattle.oauth2_signed_tokens.specs.logout_tokens.LogoutToken.{as_id_token};
ghost use Rattle.oauth2_signed_tokens.specs.logout_tokens.Rules.{
  IsFirstFault,
  IsSignatureFault,
  LogoutTokenHolds,
  algorithm_rule,
  audience_rule,
  claims_checked,
  critical_rule,
  event_rule,
  expiry_rule,
  header_checked,
  identifier_rule,
  is_empty_text,
  issued_rule,
  issuer_rule,
  logout_checked,
  logout_token_checked,
  nonce_rule,
  payload_rule,
  session_rule,
  start_rule,
  told_event,
  trust_rule,
  type_rule,
};
ghost use Rattle.oauth2_signed_tokens.specs.logout_tokens.Seen.{logout_token_of};

use crate::logout_tokens::expected::ExpectedLogoutToken;
use crate::logout_tokens::fault::LogoutTokenFault;
use crate::logout_tokens::logout_token::LogoutToken;
use hmac_signatures::HmacKey;
use jiff::Timestamp;
use oauth2_keys::{
    JsonWebKeySet, SecretAlgorithm, SignatureAlgorithm, SignatureCheck, SignatureError,
};
use oauth2_openid::kinds::{has_started, is_encoded};
use oauth2_openid::texts::{are_known, is_among};
use oauth2_times::nanosecond_after;
use oauth2_types::ClientSecret;
use serde_json::Value;
use std::ops::Deref;
use std::time::Duration;

impl LogoutToken {
    /// Checks each rule for the token at the moment `now`, for a client that expects this, and that
    /// checks signatures by the issuer's keys or by its own secret, with the algorithm that it
    /// registered. The error is the first broken rule, in the order of `LogoutTokenFault`. It
    /// allocates nothing.
    pub fn check(
        &self,
        expected: &ExpectedLogoutToken,
        check: SignatureCheck<'_>,
        now: Timestamp,
    ) -> Result<(), LogoutTokenFault>
        ensures succeeds { IsOk result ↔ LogoutTokenHolds expected.now (check_of check.entry)
            now.nanosecond (logout_token_of self.now) }
        ensures refused { IfErr result (IsFirstFault expected.now (check_of check.entry)
            now.nanosecond (logout_token_of self.now)) }
    {
        match self.first_broken(expected, check, now) {
            Ok(()) => self.check_signature(check),
            Err(fault) => Err(fault),
        }
    }

    // Checks each rule except that of the signature. The error is the first broken rule.
    fn first_broken(
        &self,
        expected: &ExpectedLogoutToken,
        check: SignatureCheck<'_>,
        now: Timestamp,
    ) -> Result<(), LogoutTokenFault>
        ensures { result ≡ logout_token_checked expected.now (check_of check.entry)
            now.nanosecond (logout_token_of self.now) }
    {
        self.check_header(expected, check)?;
        self.check_claims(expected, now)?;
        self.check_logout()
    }

    fn check_header(
        &self,
        expected: &ExpectedLogoutToken,
        check: SignatureCheck<'_>,
    ) -> Result<(), LogoutTokenFault>
        ensures { result
            ≡ header_checked expected.now (check_of check.entry) (logout_token_of self.now) }
    {
        self.check_type(expected)?;
        self.check_algorithm(check)?;
        self.check_critical()?;
        self.check_payload()
    }

    fn check_claims(
        &self,
        expected: &ExpectedLogoutToken,
        now: Timestamp,
    ) -> Result<(), LogoutTokenFault>
        ensures { result ≡ claims_checked expected.now now.nanosecond (logout_token_of self.now) }
    {
        self.check_issuer(expected)?;
        self.check_audience(expected)?;
        self.check_trust(expected)?;
        self.check_expiry(expected, now)?;
        self.check_issued(expected, now)?;
        self.check_start(expected, now)
    }

    fn check_logout(&self) -> Result<(), LogoutTokenFault>
        ensures { result ≡ logout_checked (logout_token_of self.now) }
    {
        self.check_session()?;
        self.check_identifiers()?;
        self.check_event()?;
        self.check_nonce()
    }

    fn check_type(&self, expected: &ExpectedLogoutToken) -> Result<(), LogoutTokenFault>
        ensures { result ≡ type_rule expected.now (logout_token_of self.now) }
    {
        let token_type = self.other_header_members().get("typ");
        if expected.type_rule.takes(token_type) {
            Ok(())
        } else {
            Err(LogoutTokenFault::OtherType)
        }
    }

    fn check_algorithm(&self, check: SignatureCheck<'_>) -> Result<(), LogoutTokenFault>
        ensures { result ≡ algorithm_rule (check_of check.entry) (logout_token_of self.now) }
    {
        if self.algorithm() == check.algorithm_name() {
            Ok(())
        } else {
            Err(LogoutTokenFault::OtherAlgorithm)
        }
    }

    fn check_critical(&self) -> Result<(), LogoutTokenFault>
        ensures { result ≡ critical_rule (logout_token_of self.now) }
    {
        if self.other_header_members().get("crit").is_none() {
            Ok(())
        } else {
            Err(LogoutTokenFault::CriticalExtension)
        }
    }

    fn check_payload(&self) -> Result<(), LogoutTokenFault>
        ensures { result ≡ payload_rule (logout_token_of self.now) }
    {
        if is_encoded(self.other_header_members().get("b64")) {
            Ok(())
        } else {
            Err(LogoutTokenFault::UnencodedPayload)
        }
    }

    // The tenant that the token names in its claim `tid`, as those of Microsoft Entra do.
    fn tenant(&self) -> Option<&str>
        ensures { option_copied result ≡ tenant_of (logout_token_of self.now).claims.others }
    {
        self.other_claims().get("tid").and_then(Value::as_str)
    }

    fn check_issuer(&self, expected: &ExpectedLogoutToken) -> Result<(), LogoutTokenFault>
        ensures { result ≡ issuer_rule expected.now (logout_token_of self.now) }
    {
        if expected.issuer.names(self.tenant(), self.issuer()) {
            Ok(())
        } else {
            Err(LogoutTokenFault::OtherIssuer)
        }
    }

    fn check_audience(&self, expected: &ExpectedLogoutToken) -> Result<(), LogoutTokenFault>
        ensures { result ≡ audience_rule expected.now (logout_token_of self.now) }
    {
        if is_among(self.audience(), expected.client_id.deref().as_str()) {
            Ok(())
        } else {
            Err(LogoutTokenFault::OtherAudience)
        }
    }

    fn check_trust(&self, expected: &ExpectedLogoutToken) -> Result<(), LogoutTokenFault>
        ensures { result ≡ trust_rule expected.now (logout_token_of self.now) }
    {
        let client = expected.client_id.deref().as_str();
        if are_known(self.audience(), client, expected.other_audiences.as_slice()) {
            Ok(())
        } else {
            Err(LogoutTokenFault::UntrustedAudience)
        }
    }

    fn check_expiry(
        &self,
        expected: &ExpectedLogoutToken,
        now: Timestamp,
    ) -> Result<(), LogoutTokenFault>
        ensures { result ≡ expiry_rule expected.now now.nanosecond (logout_token_of self.now) }
    {
        if now.as_nanosecond() < nanosecond_after(self.expires_at(), expected.leeway) {
            Ok(())
        } else {
            Err(LogoutTokenFault::Expired)
        }
    }

    fn check_issued(
        &self,
        expected: &ExpectedLogoutToken,
        now: Timestamp,
    ) -> Result<(), LogoutTokenFault>
        ensures { result ≡ issued_rule expected.now now.nanosecond (logout_token_of self.now) }
    {
        if self.issued_at().as_nanosecond() <= nanosecond_after(now, expected.leeway) {
            Ok(())
        } else {
            Err(LogoutTokenFault::IssuedLater)
        }
    }

    fn check_start(
        &self,
        expected: &ExpectedLogoutToken,
        now: Timestamp,
    ) -> Result<(), LogoutTokenFault>
        ensures { result ≡ start_rule expected.now now.nanosecond (logout_token_of self.now) }
    {
        if has_started(self.other_claims().get("nbf"), now, expected.leeway) {
            Ok(())
        } else {
            Err(LogoutTokenFault::NotYetValid)
        }
    }

    fn check_session(&self) -> Result<(), LogoutTokenFault>
        ensures { result ≡ session_rule (logout_token_of self.now) }
    {
        if self.subject().is_some() || self.session_id().is_some() {
            Ok(())
        } else {
            Err(LogoutTokenFault::NoSession)
        }
    }

    fn check_identifiers(&self) -> Result<(), LogoutTokenFault>
        ensures { result ≡ identifier_rule (logout_token_of self.now) }
    {
        let is_empty = is_empty_text(self.subject())
            || is_empty_text(self.session_id())
            || self.token_id().is_empty();
        if is_empty {
            Err(LogoutTokenFault::EmptyIdentifier)
        } else {
            Ok(())
        }
    }

    // What the claim `events` tells of the logout.
    fn told_event(&self) -> Option<&Value>
        ensures { option_map (λ v. view v.now) result
            ≡ told_event (logout_token_of self.now).claims.others }
    {
        match self.other_claims().get("events") {
            Some(events) => events.get("http://schemas.openid.net/event/backchannel-logout"),
            None => None,
        }
    }

    fn check_event(&self) -> Result<(), LogoutTokenFault>
        ensures { result ≡ event_rule (logout_token_of self.now) }
    {
        match self.told_event() {
            Some(event) => if event.is_object() {
                Ok(())
            } else {
                Err(LogoutTokenFault::NoLogoutEvent)
            },
            None => Err(LogoutTokenFault::NoLogoutEvent),
        }
    }

    fn check_nonce(&self) -> Result<(), LogoutTokenFault>
        ensures { result ≡ nonce_rule (logout_token_of self.now) }
    {
        if self.other_claims().get("nonce").is_none() {
            Ok(())
        } else {
            Err(LogoutTokenFault::HasNonce)
        }
    }

    fn check_signature(&self, check: SignatureCheck<'_>) -> Result<(), LogoutTokenFault>
        ensures verified { IsOk result
            ↔ IsSigned (check_of check.entry) (as_id_token (logout_token_of self.now)) }
        ensures refused { IfErr result
            (IsSignatureFault (check_of check.entry) (as_id_token (logout_token_of self.now))) }
    {
        match self.verify(check) {
            Ok(()) => Ok(()),
            Err(error) => Err(LogoutTokenFault::Signature(error)),
        }
    }

    fn verify(&self, check: SignatureCheck<'_>) -> Result<(), SignatureError>
        ensures verified { IsOk result
            ↔ IsSigned (check_of check.entry) (as_id_token (logout_token_of self.now)) }
        ensures refused { IfErr result
            (IsSignatureRefusal (check_of check.entry) (as_id_token (logout_token_of self.now))) }
    {
        match check {
            SignatureCheck::Keys(keys, algorithm) => self.verify_by_keys(keys, algorithm),
            SignatureCheck::Secret(secret, algorithm) => self.verify_by_secret(secret, algorithm),
        }
    }

    // Whether the token has this algorithm and no `crit`, and is signed by the key that is chosen for
    // it.
    fn verify_by_keys(
        &self,
        keys: &JsonWebKeySet,
        algorithm: SignatureAlgorithm,
    ) -> Result<(), SignatureError>
        ensures verified { IsOk result
            ↔ IsVerified keys.now algorithm (as_id_token (logout_token_of self.now)) }
        ensures refused { IfErr result
            (IsRefusal keys.now algorithm (as_id_token (logout_token_of self.now))) }
    {
        if self.algorithm() != algorithm.name() {
            return Err(SignatureError::OtherAlgorithm);
        }
        if self.other_header_members().get("crit").is_some() {
            return Err(SignatureError::CriticalExtension);
        }
        let key = keys.chosen_key(algorithm, self.key_id())?;
        if key.verify(algorithm, self.signed_part().as_bytes(), self.signature()) {
            Ok(())
        } else {
            Err(SignatureError::WrongSignature)
        }
    }

    // Whether the token has this algorithm and no `crit`, and is signed with the client's secret.
    fn verify_by_secret(
        &self,
        secret: &ClientSecret,
        registered: SecretAlgorithm,
    ) -> Result<(), SignatureError>
        ensures verified { IsOk result
            ↔ IsVerifiedBySecret secret.now registered (as_id_token (logout_token_of self.now)) }
        ensures refused { IfErr result
            (IsSecretRefusal secret.now registered (as_id_token (logout_token_of self.now))) }
    {
        if self.algorithm() != registered.name() {
            return Err(SignatureError::OtherAlgorithm);
        }
        if self.other_header_members().get("crit").is_some() {
            return Err(SignatureError::CriticalExtension);
        }
        let Ok(key) = HmacKey::new(registered.hash_function(), secret.secret().as_bytes()) else {
            return Err(SignatureError::ShortSecret);
        };
        if key.verify(self.signed_part().as_bytes(), self.signature()) {
            Ok(())
        } else {
            Err(SignatureError::WrongSignature)
        }
    }
}

// Whether a text is there and empty.
fn is_empty_text(text: Option<&str>) -> bool
    ensures { result ≡ is_empty_text (option_copied text.entry) }
{
    match text {
        Some(text) => text.is_empty(),
        None => false,
    }
}
