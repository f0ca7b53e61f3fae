//! A JWT access token for which every rule was checked.

ghost use Rattle.std.specs.Prelude.{◌≡◌, ◌↔◌, IfErr, IfOk, IsOk, Some, codes};
ghost use Rattle.std.specs.Fmt.{DisplaysOnOk, WritesStyledOnOk};
ghost use Rattle.oauth2_signed_tokens.specs.access_tokens.ErrorTexts.{access_token_fault_text};
ghost use Rattle.oauth2_signed_tokens.specs.access_tokens.Rules.{AccessTokenHolds, IsFirstFault};
ghost use Rattle.oauth2_signed_tokens.specs.access_tokens.Seen.{access_token_of, verified_token_of};

use crate::access_tokens::access_token::JwtAccessToken;
use crate::access_tokens::expected::ExpectedAccessToken;
use crate::access_tokens::fault::AccessTokenFault;
use jiff::Timestamp;
use oauth2_keys::JsonWebKeySet;
use std::fmt;

/// A JWT access token for which every rule of RFC 9068, 4, held when it was checked. Only
/// `verified` makes one. Whether its scope allows a request is not checked.
#[derive(Drop)]
pub struct VerifiedAccessToken {
    token: JwtAccessToken,
}

/// A JWT access token that was refused, and why.
#[derive(Drop)]
pub struct RefusedAccessToken {
    /// The first rule that does not hold.
    pub fault: AccessTokenFault,
    /// The token, as it was.
    pub token: JwtAccessToken,
}

impl JwtAccessToken {
    /// The token as a verified one, if `check` succeeds; else the fault, and the token back.
    pub fn verified(
        self,
        expected: &ExpectedAccessToken,
        keys: &JsonWebKeySet,
        now: Timestamp,
    ) -> Result<VerifiedAccessToken, RefusedAccessToken>
        ensures succeeds { IsOk result
            ↔ AccessTokenHolds expected.now keys.now now.nanosecond (access_token_of self) }
        ensures same { IfOk result (λ v. verified_token_of v ≡ access_token_of self) }
        ensures refused { IfErr result
            (λ r. IsFirstFault expected.now keys.now now.nanosecond (access_token_of self)
            r.fault) }
        ensures given_back { IfErr result (λ r. r.token ≡ self) }
    {
        match self.check(expected, keys, now) {
            Ok(()) => Ok(VerifiedAccessToken { token: self }),
            Err(fault) => Err(RefusedAccessToken { fault, token: self }),
        }
    }
}

impl VerifiedAccessToken {
    /// The token, to read its claims.
    pub fn token(&self) -> &JwtAccessToken
        ensures { access_token_of result.now ≡ verified_token_of self.now }
    {
        &self.token
    }

    /// The token as an unverified one.
    pub fn into_token(self) -> JwtAccessToken
        ensures { access_token_of result ≡ verified_token_of self }
    {
        self.token
    }
}

impl fmt::Debug for VerifiedAccessToken {
    ghost debug_output = { λ _. Some (codes "VerifiedAccessToken([redacted])") };

    fn fmt<W: fmt::Write>(&self, f: &mut fmt::Formatter<W>) -> fmt::Result
        ensures writes { DisplaysOnOk W.write_str_gives f.old result
            (Some (codes "VerifiedAccessToken([redacted])")) f.new }
        // Whatever options the formatter has, as under `{:#?}`.
        ensures styled { WritesStyledOnOk W.write_str_gives f.old result
            (codes "VerifiedAccessToken([redacted])") f.new }
    {
        f.write_str("VerifiedAccessToken([redacted])")
    }
}

/// Writes only the fault.
impl fmt::Display for RefusedAccessToken {
    ghost output = { λ r. Some (access_token_fault_text r.fault) };

    ghost styled_output = { λ r _. Some (access_token_fault_text r.fault) };

    fn fmt<W: fmt::Write>(&self, f: &mut fmt::Formatter<W>) -> fmt::Result {
        fmt::Display::fmt(&self.fault, f)
    }
}

impl fmt::Debug for RefusedAccessToken {
    ghost debug_output = { λ _. Some (codes "RefusedAccessToken([redacted])") };

    fn fmt<W: fmt::Write>(&self, f: &mut fmt::Formatter<W>) -> fmt::Result
        ensures writes { DisplaysOnOk W.write_str_gives f.old result
            (Some (codes "RefusedAccessToken([redacted])")) f.new }
        // Whatever options the formatter has, as under `{:#?}`.
        ensures styled { WritesStyledOnOk W.write_str_gives f.old result
            (codes "RefusedAccessToken([redacted])") f.new }
    {
        f.write_str("RefusedAccessToken([redacted])")
    }
}

impl std::error::Error for RefusedAccessToken {}
