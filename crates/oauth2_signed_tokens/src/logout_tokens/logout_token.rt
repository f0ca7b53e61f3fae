//! A logout token as it was read.

ghost use Rattle.std.specs.Prelude.{◌≡◌, Some, codes, map, option_copied, string_bytes};
ghost use Rattle.std.specs.Fmt.{DisplaysOnOk, WritesStyledOnOk};
ghost use Rattle.serde_json.specs.View.{view};
ghost use Rattle.oauth2_openid.specs.Token.{TokenReadsAs};
ghost use Rattle.oauth2_signed_tokens.specs.logout_tokens.Reading.{logout_token_reading};
ghost use Rattle.oauth2_signed_tokens.specs.logout_tokens.Seen.{logout_token_of, session_of};
ghost use Rattle.oauth2_signed_tokens.specs.logout_tokens.Sessions.{agrees, is_of};

use crate::logout_tokens::claims::AllClaims;
use jiff::Timestamp;
use oauth2_openid::{CompactToken, IdTokenReadError};
use serde_json::Value;
use std::alloc::Global;
use std::fmt;

/// Why a text could not be read as a logout token: the errors are those of an ID token. A claim
/// that is missing or of a wrong type is `Fault(TokenPart::Payload, ..)`, whose `member` is its
/// name.
pub type LogoutTokenReadError = IdTokenReadError;

/// A logout token (OpenID Connect Back-Channel Logout 1.0, 2.4) that nobody has checked.
///
/// Anyone can make a text with any claims, and anyone can send it to the address to which an issuer
/// sends its logout tokens. So end a session only for a `VerifiedLogoutToken`, which `verified`
/// returns.
pub struct LogoutToken {
    token: CompactToken<AllClaims>,
}

impl Drop for LogoutToken {
    fn drop(self) {
        let LogoutToken { token: _ } = self;
    }
}

/// A session of a client, as the ID token of its login names it.
#[derive(Clone, Copy)]
pub struct ClientSession<'a> {
    /// Who issued that ID token (`iss`).
    pub issuer: &'a str,
    /// The user (`sub`).
    pub subject: &'a str,
    /// The identifier of the session (`sid`), if that ID token has one.
    pub session_id: Option<&'a str>,
}

impl LogoutToken {
    /// Reads a token in compact form (RFC 7515, section 7.1), as the parameter `logout_token` of a
    /// logout request carries it (2.5). An encrypted token has five parts and is not read.
    pub fn from_text(alloc: Global, text: &str) -> Result<LogoutToken, LogoutTokenReadError>
        ensures { TokenReadsAs logout_token_of result (logout_token_reading text.now) }
    {
        Ok(LogoutToken {
            token: CompactToken::from_text(alloc, text)?,
        })
    }

    /// The algorithm of the signature (`alg`).
    pub fn algorithm(&self) -> &str
        ensures { result.now ≡ (logout_token_of self.now).header.own.algorithm }
    {
        self.token.header().algorithm()
    }

    /// The identifier of the key that made the signature (`kid`).
    pub fn key_id(&self) -> Option<&str>
        ensures { option_copied result ≡ (logout_token_of self.now).header.own.key_id }
    {
        self.token.header().key_id()
    }

    /// The object of the header's other members, such as `typ`.
    pub fn other_header_members(&self) -> &Value
        ensures { view result.now ≡ (logout_token_of self.now).header.others }
    {
        self.token.other_header_members()
    }

    /// The text that the signature is over.
    pub fn signed_part(&self) -> &str
        ensures { result.now ≡ (logout_token_of self.now).signed }
    {
        self.token.signed_part()
    }

    /// The bytes of the signature; empty for a token without one.
    pub fn signature(&self) -> &[u8]
        ensures { result.now ≡ (logout_token_of self.now).signature }
    {
        self.token.signature()
    }

    /// Who issued the token (`iss`).
    pub fn issuer(&self) -> &str
        ensures { result.now ≡ (logout_token_of self.now).claims.own.issuer }
    {
        self.token.claims().claims.issuer.as_str()
    }

    /// The user whose sessions end (`sub`); `None` if only `session_id` says which session ends.
    pub fn subject(&self) -> Option<&str>
        ensures { option_copied result ≡ (logout_token_of self.now).claims.own.subject }
    {
        match &self.token.claims().claims.subject {
            Some(subject) => Some(subject.as_str()),
            None => None,
        }
    }

    /// The clients for which the token is meant (`aud`).
    pub fn audience(&self) -> &[String]
        ensures { map string_bytes result.now ≡ (logout_token_of self.now).claims.own.audience }
    {
        self.token.claims().claims.audience.as_slice()
    }

    /// When the token was issued (`iat`).
    pub fn issued_at(&self) -> Timestamp
        ensures { result.nanosecond ≡ (logout_token_of self.now).claims.own.issued_at }
    {
        self.token.claims().claims.issued_at
    }

    /// The moment from which on the token must not be accepted (`exp`).
    pub fn expires_at(&self) -> Timestamp
        ensures { result.nanosecond ≡ (logout_token_of self.now).claims.own.expires_at }
    {
        self.token.claims().claims.expires_at
    }

    /// The identifier of the token, which its issuer gives to no other token (`jti`). A client that
    /// keeps those of recent tokens can refuse a token that was sent before (2.6, 8).
    pub fn token_id(&self) -> &str
        ensures { result.now ≡ (logout_token_of self.now).claims.own.token_id }
    {
        self.token.claims().claims.token_id.as_str()
    }

    /// The session that ends (`sid`), as the ID tokens of that session name it; `None` if all
    /// sessions of the user end (2.4).
    pub fn session_id(&self) -> Option<&str>
        ensures { option_copied result ≡ (logout_token_of self.now).claims.own.session_id }
    {
        match &self.token.claims().claims.session_id {
            Some(session_id) => Some(session_id.as_str()),
            None => None,
        }
    }

    /// The object of the claims that have no method here: `events`, and those that the standard
    /// does not define.
    pub fn other_claims(&self) -> &Value
        ensures { view result.now ≡ (logout_token_of self.now).claims.others }
    {
        &self.token.claims().others
    }

    /// Whether the token ends this session (2.6, 10 and 11; 2.7). The issuer is compared, and `sub`
    /// and `sid`, if the token has them. A token without `sid` ends each session of its `sub`; a
    /// token with neither ends none.
    pub fn is_of(&self, session: &ClientSession<'_>) -> bool
        ensures { result ≡ is_of (logout_token_of self.now).claims.own (session_of session.now) }
    {
        self.issuer() == session.issuer
            && (self.subject().is_some() || self.session_id().is_some())
            && agrees(self.subject(), Some(session.subject))
            && agrees(self.session_id(), session.session_id)
    }
}

// Whether a claim of a token agrees with what a session has.
fn agrees(told: Option<&str>, known: Option<&str>) -> bool
    ensures { result ≡ agrees (option_copied told.entry) (option_copied known.entry) }
{
    match told {
        None => true,
        Some(told) => match known {
            Some(known) => told == known,
            None => false,
        },
    }
}

impl fmt::Debug for LogoutToken {
    ghost debug_output = { λ _. Some (codes "LogoutToken([redacted])") };

    fn fmt<W: fmt::Write>(&self, f: &mut fmt::Formatter<W>) -> fmt::Result
        ensures writes { DisplaysOnOk W.write_str_gives f.old result
            (Some (codes "LogoutToken([redacted])")) f.new }
        // Whatever options the formatter has, as under `{:#?}`.
        ensures styled { WritesStyledOnOk W.write_str_gives f.old result
            (codes "LogoutToken([redacted])") f.new }
    {
        f.write_str("LogoutToken([redacted])")
    }
}
