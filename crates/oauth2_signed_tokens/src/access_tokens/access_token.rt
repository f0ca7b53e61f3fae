//! A JWT access token as it was read.

ghost use Rattle.std.specs.Prelude.{
  ◌≡◌,
  IfOk,
  Some,
  codes,
  map,
  option_copied,
  option_map,
  string_bytes,
};
ghost use Rattle.std.specs.Fmt.{DisplaysOnOk, WritesStyledOnOk};
ghost use Rattle.serde_json.specs.View.{view};
ghost use Rattle.oauth2_openid.specs.Checks.{is_among};
ghost use Rattle.oauth2_openid.specs.Seen.{token_of};
ghost use Rattle.oauth2_openid.specs.Token.{TokenReadsAs, compact_of};
ghost use Rattle.oauth2_signed_tokens.specs.access_tokens.AccessToken.{access_token_reading, own_reading};
ghost use Rattle.oauth2_signed_tokens.specs.access_tokens.Introspection.{is_in_scope};
ghost use Rattle.oauth2_signed_tokens.specs.access_tokens.Seen.{access_token_of};

use crate::access_tokens::own_claims::{AccessTokenClaims, own_claims};
use jiff::Timestamp;
use oauth2_json::ReadError;
use oauth2_openid::{IdToken, IdTokenReadError, TokenPart};
use oauth2_types::{ClientId, Scope};
use serde_json::Value;
use std::alloc::Global;
use std::convert::AsStr;
use std::fmt;

/// Why a text could not be read as a JWT access token: the errors are those of an ID token. A claim
/// that is missing or of a wrong type is `Fault(TokenPart::Payload, ..)`, whose `member` is its
/// name. This includes a `nonce`, `azp` or `at_hash` of a wrong type, which RFC 9068 does not have.
pub type JwtAccessTokenReadError = IdTokenReadError;

/// A JWT access token (RFC 9068, 2) that nobody has checked.
///
/// Anyone can make a text with any claims. So accept a request only with a `VerifiedAccessToken`,
/// which `verified` returns.
pub struct JwtAccessToken {
    pub(crate) token: IdToken,
    pub(crate) own: AccessTokenClaims,
}

impl Drop for JwtAccessToken {
    fn drop(self) {
        let JwtAccessToken { token: _, own: _ } = self;
    }
}

#[tactic(auto, using(crate::proofs::access_tokens::Parts::own_has_parts))]
fn with_own_claims(alloc: Global, token: IdToken) -> Result<JwtAccessToken, JwtAccessTokenReadError>
    ensures read { TokenReadsAs access_token_of result (own_reading (token_of token)) }
    ensures compact { IfOk result (λ t. compact_of (token_of token)
        ≡ compact_of (access_token_of t).token) }
{
    match own_claims(alloc, token.other_claims()) {
        Ok(own) => Ok(JwtAccessToken { token, own }),
        Err(ReadError::Fault(fault)) => Err(IdTokenReadError::Fault(TokenPart::Payload, fault)),
        Err(ReadError::Memory) => Err(IdTokenReadError::Memory),
    }
}

impl JwtAccessToken {
    /// Reads a token in compact form (RFC 7515, section 7.1), as a request carries it.
    pub fn from_text(alloc: Global, text: &str) -> Result<JwtAccessToken, JwtAccessTokenReadError>
        ensures read { TokenReadsAs access_token_of result (access_token_reading text.now) }
        // No byte of the text is lost.
        ensures compact { IfOk result (λ t. text.now ≡ compact_of (access_token_of t).token) }
    {
        match IdToken::from_text(alloc, text) {
            Ok(token) => with_own_claims(alloc, token),
            Err(error) => Err(error),
        }
    }

    /// The decoded JSON Web Token: its header, what is signed, the signature, and the claims with
    /// no method here, such as when and how the user logged in (`auth_time`, `acr`, `amr`; RFC
    /// 9068, 2.2.1).
    pub fn token(&self) -> &IdToken
        ensures { token_of result.now ≡ (access_token_of self.now).token }
    {
        &self.token
    }

    /// Who issued the token (`iss`).
    pub fn issuer(&self) -> &str
        ensures { result.now ≡ (access_token_of self.now).token.claims.own.issuer }
    {
        self.token.claims().issuer()
    }

    /// The user, or the client itself where no user takes part (`sub`; RFC 9068, 2.2).
    pub fn subject(&self) -> &str
        ensures { result.now ≡ (access_token_of self.now).token.claims.own.subject }
    {
        self.token.claims().subject()
    }

    /// The resource servers for which the token is meant (`aud`).
    pub fn audience(&self) -> &[String]
        ensures { map string_bytes result.now
            ≡ (access_token_of self.now).token.claims.own.audience }
    {
        self.token.claims().audience()
    }

    /// The client that the token was issued to (`client_id`).
    pub fn client_id(&self) -> &ClientId
        ensures { result.now ≡ (access_token_of self.now).own.client_id }
    {
        &self.own.client_id
    }

    /// The moment from which on the token must not be accepted (`exp`).
    pub fn expires_at(&self) -> Timestamp
        ensures { result.nanosecond ≡ (access_token_of self.now).token.claims.own.expires_at }
    {
        self.token.claims().expires_at()
    }

    /// When the token was issued (`iat`).
    pub fn issued_at(&self) -> Timestamp
        ensures { result.nanosecond ≡ (access_token_of self.now).token.claims.own.issued_at }
    {
        self.token.claims().issued_at()
    }

    /// The moment before which the token must not be accepted (`nbf`).
    pub fn not_before(&self) -> Option<Timestamp>
        ensures { option_map (λ time. time.nanosecond) result
            ≡ (access_token_of self.now).own.not_before }
    {
        self.own.not_before
    }

    /// The identifier of the token, which its issuer gives to no other token (`jti`).
    pub fn token_id(&self) -> &str
        ensures { result.now ≡ (access_token_of self.now).own.token_id }
    {
        self.own.token_id.as_str()
    }

    /// The scope (`scope`), split at every space (RFC 6749, 3.3); `None` if the token has none.
    pub fn scopes(&self) -> Option<&[Scope]>
        ensures { option_map (λ list. list.now) result ≡ (access_token_of self.now).own.scopes }
    {
        match &self.own.scopes {
            Some(scopes) => Some(scopes.as_slice()),
            None => None,
        }
    }

    /// Whether this is one of the scopes, byte for byte.
    pub fn has_scope(&self, scope: &str) -> bool
        ensures { result ≡ is_in_scope scope.now (access_token_of self.now).own.scopes }
    {
        match &self.own.scopes {
            Some(scopes) => is_scope_among(scopes.as_slice(), scope),
            None => false,
        }
    }

    /// The object of the claims that an ID token has no method for: `client_id`, `jti`, `scope` and
    /// `nbf` as they came, and claims without a method, such as `roles` (RFC 9068, 2.2.3.1).
    pub fn other_claims(&self) -> &Value
        ensures { view result.now ≡ (access_token_of self.now).token.claims.others }
    {
        self.token.other_claims()
    }
}

fn is_scope_among(scopes: &[Scope], scope: &str) -> bool
    ensures { result ≡ is_among scope.now scopes.now }
{
    for each in scopes {
        if each.as_str() == scope {
            return true;
        }
    }
    false
}

impl fmt::Debug for JwtAccessToken {
    ghost debug_output = { λ _. Some (codes "JwtAccessToken([redacted])") };

    fn fmt<W: fmt::Write>(&self, f: &mut fmt::Formatter<W>) -> fmt::Result
        ensures writes { DisplaysOnOk W.write_str_gives f.old result
            (Some (codes "JwtAccessToken([redacted])")) f.new }
        // Whatever options the formatter has, as under `{:#?}`.
        ensures styled { WritesStyledOnOk W.write_str_gives f.old result
            (codes "JwtAccessToken([redacted])") f.new }
    {
        f.write_str("JwtAccessToken([redacted])")
    }
}
