//! The check of the ID token that comes through the front channel (OpenID Connect Core 1.0, 3.3.2.8
//! to 3.3.2.12).

ghost use Rattle.std.specs.Prelude.{◌≡◌, ◌↔◌, ℤ, IsTrue, Ok, option_copied};
ghost use Rattle.oauth2_openid.specs.Claims.{Expectation};
ghost use Rattle.oauth2_openid.specs.Seen.{token_of};
ghost use Rattle.oauth2_keys.specs.Signature.{check_of};
ghost use Rattle.oauth2_verified_login.specs.hybrid.CodeHash.{code_hash_of};
ghost use Rattle.oauth2_verified_login.specs.hybrid.FrontToken.{
  ChecksFrontToken,
  IsSameUser,
  JudgesFrontToken,
  front_rules,
};
ghost use Rattle.oauth2_verified_login.specs.hybrid.private.Unread.{unless_hash, unread_as};

use crate::SignatureCheck;
use crate::hybrid::code_hash::is_code_hash;
use crate::hybrid::front_token_error::FrontTokenError;
use jiff::Timestamp;
use oauth2_openid::{ClaimsError, Expected, IdToken, IdTokenReadError};
use oauth2_types::{AccessToken, AuthorizationCode};
use serde_json::Value;
use std::alloc::Global;

// Reads the ID token that came with this code, and checks it by all rules and its signature.
pub(crate) fn read_front_token(
    alloc: Global,
    text: &str,
    code: &AuthorizationCode,
    expected: &Expected,
    check: SignatureCheck<'_>,
    now: Timestamp,
) -> Result<IdToken, FrontTokenError>
    ensures { JudgesFrontToken expected.now (check_of check.entry) code.now now.nanosecond
        text.now result }
{
    match IdToken::from_text(alloc, text) {
        Ok(token) => match check_front_token(alloc, &token, code, expected, check, now) {
            Ok(()) => Ok(token),
            Err(error) => Err(error),
        },
        Err(error) => Err(read_error(error)),
    }
}

// The front channel's error for an ID token that could not be read. (Each arm is written out, so
// that the checker knows that `Read` never holds `Memory`.)
fn read_error(error: IdTokenReadError) -> FrontTokenError
    ensures { result ≡ unread_as error }
{
    match error {
        IdTokenReadError::TooLong => FrontTokenError::Read(IdTokenReadError::TooLong),
        IdTokenReadError::NotThreeParts => FrontTokenError::Read(IdTokenReadError::NotThreeParts),
        IdTokenReadError::NotBase64(part) => FrontTokenError::Read(IdTokenReadError::NotBase64(
            part,
        )),
        IdTokenReadError::Fault(part, fault) => {
            FrontTokenError::Read(IdTokenReadError::Fault(part, fault))
        }
        IdTokenReadError::Memory => FrontTokenError::Memory,
    }
}

// Checks each rule for the claims, the hash of the code, and the signature.
fn check_front_token(
    alloc: Global,
    token: &IdToken,
    code: &AuthorizationCode,
    expected: &Expected,
    check: SignatureCheck<'_>,
    now: Timestamp,
) -> Result<(), FrontTokenError>
    ensures { ChecksFrontToken expected.now (check_of check.entry) code.now now.nanosecond
        (token_of token.now) result }
{
    match check_claims(alloc, token, expected, now) {
        Ok(()) => check_hash_and_signature(token, code, check),
        Err(error) => Err(FrontTokenError::Claims(error)),
    }
}

// Checks the hash of the code, and the signature, of a token whose claims meet each rule.
fn check_hash_and_signature(
    token: &IdToken,
    code: &AuthorizationCode,
    check: SignatureCheck<'_>,
) -> Result<(), FrontTokenError>
    ensures { (expected : Expectation) (now : ℤ)
        → front_rules expected now (token_of token.now) ≡ Ok tt
        → ChecksFrontToken expected (check_of check.entry) code.now now (token_of token.now)
        result }
{
    let Some(told) = code_hash(token) else {
        return Err(FrontTokenError::NoCodeHash);
    };
    if !is_code_hash(token.header().algorithm(), code.secret().as_bytes(), told) {
        return Err(FrontTokenError::OtherCode);
    }
    match check.verify(token) {
        Ok(()) => Ok(()),
        Err(error) => Err(FrontTokenError::Signature(error)),
    }
}

// Checks each rule of 3.1.3.7. No access token has come yet, so the last rule, which is for its hash,
// is left to the token of the token response.
fn check_claims(
    alloc: Global,
    token: &IdToken,
    expected: &Expected,
    now: Timestamp,
) -> Result<(), ClaimsError>
    ensures { result ≡ front_rules expected.now now.nanosecond (token_of token.now) }
{
    let no_access_token = AccessToken::new(String::new(alloc));
    match token.check(expected, &no_access_token, now) {
        Ok(_) => Ok(()),
        Err(error) => without_hash_error(error),
    }
}

// The error of the rules without the last one.
fn without_hash_error(error: ClaimsError) -> Result<(), ClaimsError>
    ensures { result ≡ unless_hash error }
{
    match error {
        ClaimsError::OtherAccessToken => Ok(()),
        error => Err(error),
    }
}

// The claim `c_hash`, if the token has it and it is a text.
fn code_hash(token: &IdToken) -> Option<&str>
    ensures { option_copied result ≡ code_hash_of (token_of token.now) }
{
    token.other_claims().get("c_hash").and_then(Value::as_str)
}

// Whether both tokens name the same user: their `iss` and `sub` are identical (3.3.3.6).
pub(crate) fn is_same_user(front: &IdToken, second: &IdToken) -> bool
    ensures { IsTrue result ↔ IsSameUser (token_of front.now) (token_of second.now) }
{
    second.claims().issuer() == front.claims().issuer()
        && second.claims().subject() == front.claims().subject()
}
