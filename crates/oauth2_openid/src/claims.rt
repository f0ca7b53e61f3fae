//! The claims of an ID token (OpenID Connect Core 1.0, section 2), and their rules (3.1.3.7).

ghost use Rattle.std.specs.Prelude.{◌≡◌, ◌+ℤ◌, pos, map, option_map, option_copied, string_bytes};
ghost use Rattle.std.specs.Duration.{as_nanos};
ghost use Rattle.oauth2_openid.specs.Rules.{
  issuer_rule,
  subject_rule,
  audience_rule,
  trust_rule,
  party_rule,
  expiry_rule,
  issued_rule,
  nonce_rule,
  age_rule,
  claims_checked,
};

use crate::claims_error::ClaimsError;
use crate::expected::Expected;
use crate::nonce::Nonce;
use crate::texts::{are_known, is_among, is_known};
use jiff::Timestamp;
use oauth2_times::nanosecond_after;
use std::marker::Model;
use std::ops::Deref;
use std::time::Duration;

/// The claims of an ID token that a client needs.
pub struct IdTokenClaims {
    pub(crate) issuer: String,
    pub(crate) subject: String,
    pub(crate) audience: Vec<String>,
    pub(crate) expires_at: Timestamp,
    pub(crate) issued_at: Timestamp,
    pub(crate) auth_time: Option<Timestamp>,
    pub(crate) nonce: Option<Nonce>,
    pub(crate) authentication_context_class: Option<String>,
    pub(crate) authentication_methods: Option<Vec<String>>,
    pub(crate) authorized_party: Option<String>,
    pub(crate) access_token_hash: Option<String>,
}

impl Drop for IdTokenClaims {
    fn drop(self) {
        let IdTokenClaims {
            issuer: _,
            subject: _,
            audience: _,
            expires_at: _,
            issued_at: _,
            auth_time: _,
            nonce: _,
            authentication_context_class: _,
            authentication_methods: _,
            authorized_party: _,
            access_token_hash: _,
        } = self;
    }
}

impl Model for IdTokenClaims {
    ghost use Rattle.std.specs.Prelude.{map, option_map, string_bytes};
    ghost use Rattle.oauth2_openid.specs.Claims.{Claims};

    ghost Value = { Claims };

    ghost view = { λ c. record {
      issuer = string_bytes c.issuer;
      subject = string_bytes c.subject;
      audience = map string_bytes c.audience.items;
      expires_at = c.expires_at.nanosecond;
      issued_at = c.issued_at.nanosecond;
      auth_time = option_map (λ time. time.nanosecond) c.auth_time;
      nonce = c.nonce;
      authentication_context_class = option_map string_bytes c.authentication_context_class;
      authentication_methods = option_map (λ list. map string_bytes list.items)
          c.authentication_methods;
      authorized_party = option_map string_bytes c.authorized_party;
      access_token_hash = option_map string_bytes c.access_token_hash;
    } };
}

impl IdTokenClaims {
    /// Who issued the token (`iss`).
    pub fn issuer(&self) -> &str
        ensures { result.now ≡ self.now.issuer }
    {
        self.issuer.as_str()
    }

    /// The identifier of the user, which the issuer gives to no other user (`sub`).
    pub fn subject(&self) -> &str
        ensures { result.now ≡ self.now.subject }
    {
        self.subject.as_str()
    }

    /// For whom the token is meant (`aud`).
    pub fn audience(&self) -> &[String]
        ensures { map string_bytes result.now ≡ self.now.audience }
    {
        self.audience.as_slice()
    }

    /// The moment from which on the token must not be accepted (`exp`).
    pub fn expires_at(&self) -> Timestamp
        ensures { result.nanosecond ≡ self.now.expires_at }
    {
        self.expires_at
    }

    /// When the token was issued (`iat`).
    pub fn issued_at(&self) -> Timestamp
        ensures { result.nanosecond ≡ self.now.issued_at }
    {
        self.issued_at
    }

    /// When the user logged in (`auth_time`).
    pub fn auth_time(&self) -> Option<Timestamp>
        ensures { option_map (λ time. time.nanosecond) result ≡ self.now.auth_time }
    {
        self.auth_time
    }

    /// The nonce of the request that the token is for (`nonce`).
    pub fn nonce(&self) -> Option<&Nonce>
        ensures { option_copied result ≡ self.now.nonce }
    {
        self.nonce.as_ref()
    }

    /// The class of the login that the user went through (`acr`).
    pub fn authentication_context_class(&self) -> Option<&str>
        ensures { option_copied result ≡ self.now.authentication_context_class }
    {
        text_of(&self.authentication_context_class)
    }

    /// How the user logged in, as by a password or a one-time password (`amr`).
    pub fn authentication_methods(&self) -> Option<&[String]>
        ensures { option_map (λ list. map string_bytes list.now) result
            ≡ self.now.authentication_methods }
    {
        match &self.authentication_methods {
            Some(methods) => Some(methods.as_slice()),
            None => None,
        }
    }

    /// The party to which the token was issued (`azp`).
    pub fn authorized_party(&self) -> Option<&str>
        ensures { option_copied result ≡ self.now.authorized_party }
    {
        text_of(&self.authorized_party)
    }

    /// The hash of the access token that came with the token (`at_hash`).
    pub fn access_token_hash(&self) -> Option<&str>
        ensures { option_copied result ≡ self.now.access_token_hash }
    {
        text_of(&self.access_token_hash)
    }

    // Checks each rule for the claims of a token that names this tenant, at the moment `now`. The
    // error is the first broken rule.
    pub(crate) fn check(
        &self,
        expected: &Expected,
        tenant: Option<&str>,
        now: Timestamp,
    ) -> Result<(), ClaimsError>
        ensures { result
            ≡ claims_checked expected.now now.nanosecond (option_copied tenant.entry) self.now }
    {
        self.check_issuer(expected, tenant)?;
        self.check_subject()?;
        self.check_audience(expected)?;
        self.check_trust(expected)?;
        self.check_party(expected)?;
        self.check_expiry(expected, now)?;
        self.check_issued(expected, now)?;
        self.check_nonce(expected)?;
        self.check_age(expected, now)
    }

    fn check_issuer(&self, expected: &Expected, tenant: Option<&str>) -> Result<(), ClaimsError>
        ensures { result ≡ issuer_rule expected.now (option_copied tenant.entry) self.now }
    {
        if expected.issuer.names(tenant, self.issuer()) {
            Ok(())
        } else {
            Err(ClaimsError::OtherIssuer)
        }
    }

    fn check_subject(&self) -> Result<(), ClaimsError>
        ensures { result ≡ subject_rule self.now }
    {
        if self.subject().is_empty() {
            Err(ClaimsError::NoSubject)
        } else {
            Ok(())
        }
    }

    fn check_audience(&self, expected: &Expected) -> Result<(), ClaimsError>
        ensures { result ≡ audience_rule expected.now self.now }
    {
        if is_among(self.audience(), expected.client_id.deref().as_str()) {
            Ok(())
        } else {
            Err(ClaimsError::OtherAudience)
        }
    }

    fn check_trust(&self, expected: &Expected) -> Result<(), ClaimsError>
        ensures { result ≡ trust_rule expected.now self.now }
    {
        let client = expected.client_id.deref().as_str();
        if are_known(self.audience(), client, expected.other_audiences.as_slice()) {
            Ok(())
        } else {
            Err(ClaimsError::UntrustedAudience)
        }
    }

    fn check_party(&self, expected: &Expected) -> Result<(), ClaimsError>
        ensures { result ≡ party_rule expected.now self.now }
    {
        let client = expected.client_id.deref().as_str();
        match self.authorized_party() {
            Some(party) => if is_known(party, client, expected.authorized_parties.as_slice()) {
                Ok(())
            } else {
                Err(ClaimsError::OtherAuthorizedParty)
            },
            None => if self.audience.len() <= 1 {
                Ok(())
            } else {
                Err(ClaimsError::NoAuthorizedParty)
            },
        }
    }

    fn check_expiry(&self, expected: &Expected, now: Timestamp) -> Result<(), ClaimsError>
        ensures { result ≡ expiry_rule expected.now now.nanosecond self.now }
    {
        if now.as_nanosecond() < nanosecond_after(self.expires_at, expected.leeway) {
            Ok(())
        } else {
            Err(ClaimsError::Expired)
        }
    }

    fn check_issued(&self, expected: &Expected, now: Timestamp) -> Result<(), ClaimsError>
        ensures { result ≡ issued_rule expected.now now.nanosecond self.now }
    {
        if self.issued_at.as_nanosecond() <= nanosecond_after(now, expected.leeway) {
            Ok(())
        } else {
            Err(ClaimsError::IssuedLater)
        }
    }

    fn check_nonce(&self, expected: &Expected) -> Result<(), ClaimsError>
        ensures { result ≡ nonce_rule expected.now self.now }
    {
        match (&expected.nonce, &self.nonce) {
            (None, None) => Ok(()),
            (None, Some(_)) => Err(ClaimsError::NonceNotSent),
            (Some(_), None) => Err(ClaimsError::NoNonce),
            (Some(sent), Some(told)) => if told == sent {
                Ok(())
            } else {
                Err(ClaimsError::OtherNonce)
            },
        }
    }

    fn check_age(&self, expected: &Expected, now: Timestamp) -> Result<(), ClaimsError>
        ensures { result ≡ age_rule expected.now now.nanosecond self.now }
    {
        let Some(max_age) = expected.max_age else {
            return Ok(());
        };
        let Some(auth_time) = self.auth_time else {
            return Err(ClaimsError::NoAuthTime);
        };
        if auth_time.as_nanosecond() > nanosecond_after(now, expected.leeway) {
            return Err(ClaimsError::AuthLater);
        }
        if now.as_nanosecond() <= latest_use(auth_time, max_age, expected.leeway) {
            Ok(())
        } else {
            Err(ClaimsError::AuthTooOld)
        }
    }
}

// The last nanosecond since 1970 at which a login is not too old. The sum always fits: a moment has
// less than 2^69 nanoseconds, a duration less than 2^94.
fn latest_use(auth_time: Timestamp, max_age: Duration, leeway: Duration) -> i128
    ensures { result ≡ auth_time.nanosecond +ℤ pos (as_nanos max_age) +ℤ pos (as_nanos leeway) }
{
    auth_time.as_nanosecond() + max_age.as_nanos() as i128 + leeway.as_nanos() as i128
}

fn text_of(text: &Option<String>) -> Option<&str>
    ensures { option_copied result ≡ option_map string_bytes text.now }
{
    match text {
        Some(text) => Some(text.as_str()),
        None => None,
    }
}
