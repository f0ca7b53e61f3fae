//! A logout token for which every rule was checked.

ghost use Rattle.std.specs.Prelude.{◌≡◌, ◌↔◌, IfErr, IfOk, IsOk, Some, codes};
ghost use Rattle.std.specs.Fmt.{DisplaysOnOk, WritesStyledOnOk};
ghost use Rattle.oauth2_keys.specs.Signature.{check_of};
ghost use Rattle.oauth2_signed_tokens.specs.logout_tokens.ErrorTexts.{logout_token_fault_text};
ghost use Rattle.oauth2_signed_tokens.specs.logout_tokens.Rules.{IsFirstFault, LogoutTokenHolds};
ghost use Rattle.oauth2_signed_tokens.specs.logout_tokens.Seen.{logout_token_of, verified_token_of};

use crate::logout_tokens::expected::ExpectedLogoutToken;
use crate::logout_tokens::fault::LogoutTokenFault;
use crate::logout_tokens::logout_token::LogoutToken;
use jiff::Timestamp;
use oauth2_keys::SignatureCheck;
use std::fmt;

/// A logout token for which every rule of OpenID Connect Back-Channel Logout 1.0, 2.6, held when it
/// was checked. Only `verified` makes one. Whether it came before (2.6, 8), and whether the client
/// has such a session (2.6, 9 to 11), is not checked.
#[derive(Drop)]
pub struct VerifiedLogoutToken {
    token: LogoutToken,
}

/// A logout token that was refused, and why.
#[derive(Drop)]
pub struct RefusedLogoutToken {
    /// The first rule that does not hold.
    pub fault: LogoutTokenFault,
    /// The token, as it was.
    pub token: LogoutToken,
}

impl LogoutToken {
    /// The token as a verified one, if `check` succeeds; else the fault, and the token back.
    pub fn verified(
        self,
        expected: &ExpectedLogoutToken,
        check: SignatureCheck<'_>,
        now: Timestamp,
    ) -> Result<VerifiedLogoutToken, RefusedLogoutToken>
        ensures succeeds { IsOk result ↔ LogoutTokenHolds expected.now (check_of check.entry)
            now.nanosecond (logout_token_of self) }
        ensures same { IfOk result (λ v. verified_token_of v ≡ logout_token_of self) }
        ensures refused { IfErr result
            (λ r. IsFirstFault expected.now (check_of check.entry) now.nanosecond
            (logout_token_of self) r.fault) }
        ensures given_back { IfErr result (λ r. r.token ≡ self) }
    {
        match self.check(expected, check, now) {
            Ok(()) => Ok(VerifiedLogoutToken { token: self }),
            Err(fault) => Err(RefusedLogoutToken { fault, token: self }),
        }
    }
}

impl VerifiedLogoutToken {
    /// The token, to read its claims.
    pub fn token(&self) -> &LogoutToken
        ensures { logout_token_of result.now ≡ verified_token_of self.now }
    {
        &self.token
    }

    /// The token as an unverified one.
    pub fn into_token(self) -> LogoutToken
        ensures { logout_token_of result ≡ verified_token_of self }
    {
        self.token
    }
}

impl fmt::Debug for VerifiedLogoutToken {
    ghost debug_output = { λ _. Some (codes "VerifiedLogoutToken([redacted])") };

    fn fmt<W: fmt::Write>(&self, f: &mut fmt::Formatter<W>) -> fmt::Result
        ensures writes { DisplaysOnOk W.write_str_gives f.old result
            (Some (codes "VerifiedLogoutToken([redacted])")) f.new }
        // Whatever options the formatter has, as under `{:#?}`.
        ensures styled { WritesStyledOnOk W.write_str_gives f.old result
            (codes "VerifiedLogoutToken([redacted])") f.new }
    {
        f.write_str("VerifiedLogoutToken([redacted])")
    }
}

/// Writes only the fault.
impl fmt::Display for RefusedLogoutToken {
    ghost output = { λ r. Some (logout_token_fault_text r.fault) };

    ghost styled_output = { λ r _. Some (logout_token_fault_text r.fault) };

    fn fmt<W: fmt::Write>(&self, f: &mut fmt::Formatter<W>) -> fmt::Result {
        fmt::Display::fmt(&self.fault, f)
    }
}

impl fmt::Debug for RefusedLogoutToken {
    ghost debug_output = { λ _. Some (codes "RefusedLogoutToken([redacted])") };

    fn fmt<W: fmt::Write>(&self, f: &mut fmt::Formatter<W>) -> fmt::Result
        ensures writes { DisplaysOnOk W.write_str_gives f.old result
            (Some (codes "RefusedLogoutToken([redacted])")) f.new }
        // Whatever options the formatter has, as under `{:#?}`.
        ensures styled { WritesStyledOnOk W.write_str_gives f.old result
            (codes "RefusedLogoutToken([redacted])") f.new }
    {
        f.write_str("RefusedLogoutToken([redacted])")
    }
}

impl std::error::Error for RefusedLogoutToken {}
