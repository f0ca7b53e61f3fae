//! A verified ID token of the front channel.

ghost use Rattle.std.specs.Fmt.{DisplaysOnOk, WritesStyledOnOk};
ghost use Rattle.std.specs.Prelude.{◌≡◌, ◌↔◌, IfOk, IsTrue, Some, codes};
ghost use Rattle.oauth2_openid.specs.Seen.{token_of};
ghost use Rattle.oauth2_keys.specs.Signature.{check_of};
ghost use Rattle.oauth2_verified_login.specs.hybrid.FrontNonce.{HasSentNonce};
ghost use Rattle.oauth2_verified_login.specs.hybrid.FrontToken.{IsSameUser, JudgesFrontToken};

use crate::SignatureCheck;
use crate::hybrid::front_expected::FrontExpected;
use crate::hybrid::front_token::{is_same_user, read_front_token};
use crate::hybrid::front_token_error::FrontTokenError;
use jiff::Timestamp;
use oauth2_openid::IdToken;
use oauth2_types::AuthorizationCode;
use std::alloc::Global;
use std::fmt;
use std::marker::Model;

/// An ID token that came with a code through the user's browser. It meets each rule of OpenID Connect
/// Core 1.0, 3.1.3.7, its signature is right, its nonce is the login's, and its `c_hash` is the hash of
/// that code. Only `verify` makes one. Contracts see it as an `IdToken`.
#[derive(Drop)]
pub struct VerifiedFrontToken {
    token: IdToken,
}

impl Model for VerifiedFrontToken {
    ghost use Rattle.std.specs.Coded.{codes as known_codes};
    ghost use Rattle.serde_json.specs.contracts.value.Value as json;
    ghost use Rattle.oauth2_openid.specs.declared.id_token.IdToken.{IdToken};

    ghost Value = { IdToken };

    ghost coded = { Prim.hlevel (known_codes, json.the_row.coded) };

    ghost view = { λ verified. verified.token };
}

impl VerifiedFrontToken {
    /// Reads the text of the ID token that came with this code, and checks it at the moment `now`:
    /// each rule of 3.1.3.7, where `expected` should have the algorithm of the check, the hash of the
    /// code, and the signature. Nonce and hash are required (3.3.2.11). Send the code only if this
    /// succeeds (3.3.2.8).
    pub fn verify(
        alloc: Global,
        text: &str,
        code: &AuthorizationCode,
        expected: &FrontExpected,
        check: SignatureCheck<'_>,
        now: Timestamp,
    ) -> Result<VerifiedFrontToken, FrontTokenError>
        ensures judged { JudgesFrontToken expected.now (check_of check.entry) code.now
            now.nanosecond text.now result }
        ensures nonce { IfOk result (λ token. HasSentNonce expected.now (token_of token)) }
    {
        match read_front_token(alloc, text, code, expected.expected(), check, now) {
            Ok(token) => Ok(VerifiedFrontToken { token }),
            Err(error) => Err(error),
        }
    }

    /// The ID token.
    pub fn id_token(&self) -> &IdToken
        ensures { result.now ≡ self.now }
    {
        &self.token
    }

    /// Whether the ID token of the token response names the same user: `iss` and `sub` must be
    /// identical in both (3.3.3.6).
    pub fn is_same_user(&self, second: &IdToken) -> bool
        ensures { IsTrue result ↔ IsSameUser (token_of self.now) (token_of second.now) }
    {
        is_same_user(&self.token, second)
    }
}

impl fmt::Debug for VerifiedFrontToken {
    ghost debug_output = { λ _. Some (codes "VerifiedFrontToken([redacted])") };

    fn fmt<W: fmt::Write>(&self, f: &mut fmt::Formatter<W>) -> fmt::Result
        ensures writes { DisplaysOnOk W.write_str_gives f.old result
            (Some (codes "VerifiedFrontToken([redacted])")) f.new }
        // The same for all options of the formatter, for example `{:#?}`.
        ensures styled { WritesStyledOnOk W.write_str_gives f.old result
            (codes "VerifiedFrontToken([redacted])") f.new }
    {
        f.write_str("VerifiedFrontToken([redacted])")
    }
}
