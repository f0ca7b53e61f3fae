//! An ID token as it was read.

ghost use Rattle.std.specs.Prelude.{◌≡◌, ◌↔◌, IfOk, IsOk, Some, codes, option_copied};
ghost use Rattle.std.specs.Fmt.{DisplaysOnOk, WritesStyledOnOk};
ghost use Rattle.serde_json.specs.View.{view};
ghost use Rattle.oauth2_openid.specs.Token.{TokenReadsAs, compact_of};
ghost use Rattle.oauth2_openid.specs.Seen.{token_of};
ghost use Rattle.oauth2_openid.specs.TokenRules.{
  algorithm_rule,
  critical_rule,
  header_checked,
  names_no_signature,
  payload_rule,
  rules_checked,
  start_rule,
  tenant_of,
  token_checked,
  type_rule,
  Holds,
};
ghost use Rattle.oauth2_openid.specs.Reading.{claims_reading, compact_token_reading, text_reading};

use crate::access_token_hash::{AccessTokenHash, check_hash};
use crate::claims::IdTokenClaims;
use crate::claims_error::ClaimsError;
use crate::claims_json::AllClaims;
use crate::compact::Encoded;
use crate::compact_token::CompactToken;
use crate::expected::Expected;
use crate::header::IdTokenHeader;
use crate::kinds::{has_started, is_encoded, takes_plain};
use crate::read_error::IdTokenReadError;
use jiff::Timestamp;
use oauth2_types::AccessToken;
use oauth2_types::display::write_display;
use serde_json::Value;
use std::alloc::Global;
use std::fmt;

/// An ID token (OpenID Connect Core 1.0, section 2) whose signature nobody has checked.
///
/// Anyone can make a text with any claims. So rely on an ID token only if your own client
/// received it directly from the issuer's token endpoint over TLS, whose certificate it checked:
/// then TLS may replace the signature (3.1.3.7, 6). A token that came any other way, such as
/// through the user's browser, in a request to your server or out of a store that others can write,
/// says nothing until its signature has been checked against the issuer's keys. The crate
/// `oauth2_keys` does that, and so can any library, over `signed_part` and `signature`.
pub struct IdToken {
    token: CompactToken<AllClaims>,
}

impl Drop for IdToken {
    fn drop(self) {
        let IdToken { token: _ } = self;
    }
}

impl IdToken {
    /// Reads a token in compact form (RFC 7515, section 7.1), if it has at most 64 KiB.
    pub fn from_text(alloc: Global, text: &str) -> Result<IdToken, IdTokenReadError>
        ensures read { TokenReadsAs token_of result (compact_token_reading text.now) }
        // No byte of the text is lost.
        ensures compact { IfOk result (λ t. text.now ≡ compact_of (token_of t)) }
    {
        Ok(IdToken {
            token: CompactToken::from_text(alloc, text)?,
        })
    }

    /// Reads a token in compact form, if it has at most `limit` bytes.
    pub fn from_text_with_limit(
        alloc: Global,
        text: &str,
        limit: usize,
    ) -> Result<IdToken, IdTokenReadError>
        ensures read { TokenReadsAs token_of result
            (text_reading claims_reading limit text.now) }
        // No byte of the text is lost.
        ensures compact { IfOk result (λ t. text.now ≡ compact_of (token_of t)) }
    {
        Ok(IdToken {
            token: CompactToken::from_text_with_limit(alloc, text, limit)?,
        })
    }

    /// The header.
    pub fn header(&self) -> &IdTokenHeader
        ensures { result.now ≡ (token_of self.now).header.own }
    {
        self.token.header()
    }

    /// The claims.
    pub fn claims(&self) -> &IdTokenClaims
        ensures { result.now ≡ (token_of self.now).claims.own }
    {
        &self.token.claims().claims
    }

    /// The object of the header's members that `IdTokenHeader` has no method for.
    pub fn other_header_members(&self) -> &Value
        ensures { view result.now ≡ (token_of self.now).header.others }
    {
        self.token.other_header_members()
    }

    /// The object of the claims that `IdTokenClaims` has no method for. `auth_time`, `acr` and
    /// `amr` are in it too if they could not be read.
    pub fn other_claims(&self) -> &Value
        ensures { view result.now ≡ (token_of self.now).claims.others }
    {
        &self.token.claims().others
    }

    /// The text that the signature is over.
    pub fn signed_part(&self) -> &str
        ensures { result.now ≡ (token_of self.now).signed }
    {
        self.token.signed_part()
    }

    /// The bytes of the signature; empty for a token without one.
    pub fn signature(&self) -> &[u8]
        ensures { result.now ≡ (token_of self.now).signature }
    {
        self.token.signature()
    }

    /// Checks each rule of 3.1.3.7 at the moment `now`, and the hash of the access token that came
    /// with the token. The error is the first broken rule, in the order of `ClaimsError`. The
    /// signature is not checked: see the type.
    pub fn check(
        &self,
        expected: &Expected,
        access_token: &AccessToken,
        now: Timestamp,
    ) -> Result<AccessTokenHash, ClaimsError>
        ensures rules { result
            ≡ token_checked expected.now access_token.now now.nanosecond (token_of self.now) }
        ensures succeeds { IsOk result
            ↔ Holds expected.now access_token.now now.nanosecond (token_of self.now) }
    {
        self.first_broken(expected, access_token, now)
    }

    fn first_broken(
        &self,
        expected: &Expected,
        access_token: &AccessToken,
        now: Timestamp,
    ) -> Result<AccessTokenHash, ClaimsError>
        ensures { result
            ≡ token_checked expected.now access_token.now now.nanosecond (token_of self.now) }
    {
        self.check_rules(expected, now)?;
        check_hash(
            self.header().algorithm(),
            access_token.secret().as_bytes(),
            self.claims().access_token_hash(),
        )
    }

    fn check_rules(&self, expected: &Expected, now: Timestamp) -> Result<(), ClaimsError>
        ensures { result ≡ rules_checked expected.now now.nanosecond (token_of self.now) }
    {
        self.check_header(expected)?;
        self.claims().check(expected, self.tenant(), now)?;
        self.check_start(expected, now)
    }

    fn check_header(&self, expected: &Expected) -> Result<(), ClaimsError>
        ensures { result ≡ header_checked expected.now (token_of self.now).header }
    {
        self.check_algorithm(expected)?;
        self.check_critical()?;
        self.check_payload()?;
        self.check_type()
    }

    // The tenant that the token names in its claim `tid`, as those of Microsoft Entra do.
    fn tenant(&self) -> Option<&str>
        ensures { option_copied result ≡ tenant_of (token_of self.now).claims.others }
    {
        self.other_claims().get("tid").and_then(Value::as_str)
    }

    fn check_algorithm(&self, expected: &Expected) -> Result<(), ClaimsError>
        ensures { result ≡ algorithm_rule expected.now (token_of self.now).header.own }
    {
        let algorithm = self.header().algorithm();
        match &expected.algorithm {
            Some(registered) => if algorithm == registered.as_str() {
                Ok(())
            } else {
                Err(ClaimsError::OtherAlgorithm)
            },
            None => if names_no_signature(algorithm) {
                Err(ClaimsError::NoSignature)
            } else {
                Ok(())
            },
        }
    }

    fn check_critical(&self) -> Result<(), ClaimsError>
        ensures { result ≡ critical_rule (token_of self.now).header }
    {
        if self.other_header_members().get("crit").is_none() {
            Ok(())
        } else {
            Err(ClaimsError::CriticalExtension)
        }
    }

    fn check_payload(&self) -> Result<(), ClaimsError>
        ensures { result ≡ payload_rule (token_of self.now).header }
    {
        if is_encoded(self.other_header_members().get("b64")) {
            Ok(())
        } else {
            Err(ClaimsError::UnencodedPayload)
        }
    }

    fn check_type(&self) -> Result<(), ClaimsError>
        ensures { result ≡ type_rule (token_of self.now).header }
    {
        if takes_plain(self.other_header_members().get("typ")) {
            Ok(())
        } else {
            Err(ClaimsError::OtherType)
        }
    }

    fn check_start(&self, expected: &Expected, now: Timestamp) -> Result<(), ClaimsError>
        ensures { result ≡ start_rule expected.now now.nanosecond (token_of self.now).claims.others }
    {
        if has_started(self.other_claims().get("nbf"), now, expected.leeway) {
            Ok(())
        } else {
            Err(ClaimsError::NotYetValid)
        }
    }
}

// Whether an algorithm means no signature: `none` in any case of letters, or the empty text.
fn names_no_signature(algorithm: &str) -> bool
    ensures { result ≡ names_no_signature algorithm.now }
{
    algorithm.is_empty() || algorithm.eq_ignore_ascii_case("none")
}

/// Writes the whole token in compact form, as an `id_token_hint` carries it.
impl fmt::Display for IdToken {
    ghost output = { λ t. Some (compact_of (token_of t)) };

    ghost styled_output = { λ t _. Some (compact_of (token_of t)) };

    fn fmt<W: fmt::Write>(&self, f: &mut fmt::Formatter<W>) -> fmt::Result {
        let signature = Encoded {
            bytes: self.signature(),
        };
        write_display(f, format_args!("{}.{}", self.signed_part(), signature))
    }
}

impl fmt::Debug for IdToken {
    ghost debug_output = { λ _. Some (codes "IdToken([redacted])") };

    fn fmt<W: fmt::Write>(&self, f: &mut fmt::Formatter<W>) -> fmt::Result
        ensures writes { DisplaysOnOk W.write_str_gives f.old result
            (Some (codes "IdToken([redacted])")) f.new }
        // Whatever options the formatter has, as under `{:#?}`.
        ensures styled { WritesStyledOnOk W.write_str_gives f.old result
            (codes "IdToken([redacted])") f.new }
    {
        f.write_str("IdToken([redacted])")
    }
}
