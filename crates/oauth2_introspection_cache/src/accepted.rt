//! What a resource server accepts, and what follows from an answer about a token.

ghost use Rattle.std.specs.Prelude.{◌≡◌, map, option_copied, option_map, string_bytes};
ghost use Rattle.oauth2_introspection_cache.specs.Cache.{is_before};
ghost use Rattle.oauth2_introspection_cache.specs.Decision.{
  are_among,
  has_scopes,
  is_among,
  is_audience,
  is_constraint_met,
  is_issuer,
  is_type,
  judged,
  rule,
  said_by,
};

use crate::confirmation::TellsConfirmation;
use crate::kept_answer::is_before;
use crate::refusal::TokenRefusal;
use crate::refusal::TokenRefusal::{
    Expired, Inactive, InsufficientScope, OtherAudience, OtherIssuer, OtherTokenType,
    SenderConstrained,
};
use jiff::Timestamp;
use oauth2::{Scope, TokenType};

/// The audience that a token has to have (RFC 9700, 2.3).
#[derive(Debug, PartialEq, Eq, Drop)]
pub enum AcceptedAudience {
    /// The name of this resource server, as the authorization server writes it. It has to be one of
    /// `aud`, byte for byte; an answer without `aud` does not suffice.
    Named(String),
    /// The authorization server issues tokens for this resource server alone, so `aud` is not
    /// looked at. With a second resource server at that server, each accepts the other's tokens.
    IssuedForThisServerAlone,
}

/// The issuer that a token has to have.
#[derive(Debug, PartialEq, Eq, Drop)]
pub enum AcceptedIssuer {
    /// The issuer's identifier. It has to be `iss`, byte for byte; an answer without `iss` does not
    /// suffice.
    Named(String),
    /// Each issuer whose tokens the introspection endpoint knows, so `iss` is not looked at.
    EachOfTheEndpoint,
}

/// The key that a request proved to have, for a token that is bound to one (RFC 7800).
#[derive(Clone, Copy, Debug, PartialEq, Eq, Drop)]
pub enum SenderConstraint {
    /// None: the token is used as a bearer token (RFC 6750). One that is bound to a key is refused.
    NoKeyProven,
}

/// What a resource server accepts.
#[derive(Debug, Drop)]
pub struct AcceptedTokens<TT> {
    /// For whom a token has to be.
    pub audience: AcceptedAudience,
    /// Who has to have issued it.
    pub issuer: AcceptedIssuer,
    /// How the request uses it: `Bearer`, if it came with that scheme. An answer may leave it out.
    pub token_type: TT,
    /// What the request proved of a key.
    pub constraint: SenderConstraint,
}

impl<TT: TokenType> AcceptedTokens<TT> {
    /// Checks an answer about a token, at the moment `now`, for a request that needs all these
    /// scopes. The error is the first broken rule. It allocates nothing.
    pub fn check<TIR: TellsConfirmation<TokenType = TT>>(
        &self,
        answer: &TIR,
        needed: &[&str],
        now: Timestamp,
    ) -> Result<(), TokenRefusal>
        ensures { result ≡ judged TT.eq self.now (map (λ scope. scope.now) needed.now)
            now.nanosecond (said_by TIR.active TIR.exp TIR.iss TIR.aud TIR.token_type TIR.is_bound
            TIR.scopes answer.now) }
    {
        rule(answer.active(), Inactive)?;
        rule(is_before(now, answer.exp()), Expired)?;
        rule(self.is_issuer(answer.iss()), OtherIssuer)?;
        rule(self.is_audience(answer.aud()), OtherAudience)?;
        rule(self.is_type(answer.token_type()), OtherTokenType)?;
        rule(self.may_be_used(answer.is_bound()), SenderConstrained)?;
        rule(has_scopes(needed, answer.scopes()), InsufficientScope)
    }

    fn is_issuer(&self, found: Option<&str>) -> bool
        ensures { result ≡ is_issuer self.now.issuer (option_copied found.entry) }
    {
        let AcceptedIssuer::Named(name) = &self.issuer else {
            return true;
        };
        match found {
            Some(found) => found == name.as_str(),
            None => false,
        }
    }

    fn is_audience(&self, found: Option<&Vec<String>>) -> bool
        ensures { result ≡ is_audience self.now.audience
            (option_map (λ list. map string_bytes list.now.items) found.entry) }
    {
        let AcceptedAudience::Named(name) = &self.audience else {
            return true;
        };
        match found {
            Some(found) => is_among(found.as_slice(), name.as_str()),
            None => false,
        }
    }

    fn is_type(&self, found: Option<&TT>) -> bool
        ensures { result ≡ is_type TT.eq self.now.token_type (option_copied found.entry) }
    {
        match found {
            Some(found) => *found == self.token_type,
            None => true,
        }
    }

    fn may_be_used(&self, is_bound: bool) -> bool
        ensures { result ≡ is_constraint_met self.now.constraint is_bound }
    {
        match self.constraint {
            SenderConstraint::NoKeyProven => !is_bound,
        }
    }
}

fn rule(is_met: bool, refusal: TokenRefusal) -> Result<(), TokenRefusal>
    ensures { result ≡ rule is_met refusal }
{
    if is_met { Ok(()) } else { Err(refusal) }
}

// Whether a text is one of these, byte for byte.
fn is_among(texts: &[String], text: &str) -> bool
    ensures { result ≡ is_among text.now (map string_bytes texts.now) }
{
    for each in texts {
        if each.as_str() == text {
            return true;
        }
    }
    false
}

// Whether each of the scopes is there.
fn has_scopes(needed: &[&str], found: Option<&Vec<Scope>>) -> bool
    ensures { result ≡ has_scopes (map (λ scope. scope.now) needed.now)
        (option_map (λ list. list.now.items) found.entry) }
{
    match found {
        Some(scopes) => are_named(needed, scopes.as_slice()),
        None => are_named(needed, &[]),
    }
}

fn are_named(needed: &[&str], scopes: &[Scope]) -> bool
    ensures { result ≡ are_among (map (λ scope. scope.now) needed.now) scopes.now }
{
    for scope in needed {
        if !is_named(*scope, scopes) {
            return false;
        }
    }
    true
}

fn is_named(scope: &str, scopes: &[Scope]) -> bool
    ensures { result ≡ is_among scope.now scopes.now }
{
    for each in scopes {
        if each.as_str() == scope {
            return true;
        }
    }
    false
}
