//! Reads and checks ID tokens.

use crate::client::CLIENT_ID;
use jiff::Timestamp;
use oauth2::{AccessToken, ClientId};
use oauth2_openid::{AccessTokenHash, Expected, IdToken, IdTokenReadError, IssuerRule, Nonce};
use oauth2_refusals_support::{Ended, text};
use std::alloc::Global;
use std::io::Write;
use std::time::Duration;

// The token of appendix A.2.
const TOKEN: &str =
    "eyJraWQiOiIxZTlnZGs3IiwiYWxnIjoiUlMyNTYifQ.ewogImlzcyI6ICJodHRwOi8vc2VydmVyLmV4Y\
     W1wbGUuY29tIiwKICJzdWIiOiAiMjQ4Mjg5NzYxMDAxIiwKICJhdWQiOiAiczZCaGRSa3F0MyIsCiAib\
     m9uY2UiOiAibi0wUzZfV3pBMk1qIiwKICJleHAiOiAxMzExMjgxOTcwLAogImlhdCI6IDEzMTEyODA5N\
     zAsCiAibmFtZSI6ICJKYW5lIERvZSIsCiAiZ2l2ZW5fbmFtZSI6ICJKYW5lIiwKICJmYW1pbHlfbmFtZ\
     SI6ICJEb2UiLAogImdlbmRlciI6ICJmZW1hbGUiLAogImJpcnRoZGF0ZSI6ICIwMDAwLTEwLTMxIiwKI\
     CJlbWFpbCI6ICJqYW5lZG9lQGV4YW1wbGUuY29tIiwKICJwaWN0dXJlIjogImh0dHA6Ly9leGFtcGxlL\
     mNvbS9qYW5lZG9lL21lLmpwZyIKfQ.rHQjEmBqn9Jre0OLykYNnspA10Qql2rvx4FsD00jwlB0Sym4Nz\
     pgvPKsDjn_wMkHxcp6CilPcoKrWHcipR2iAjzLvDNAReF97zoJqq880ZD1bwY82JDauCXELVR9O6_B0w\
     3K-E7yM2macAAgNCUwtik6SjoSUZRcf-O5lygIyLENx882p6MtmwaL1hd6qn5RZOQ0TLrOYu0532g9Ex\
     xcm-ChymrB4xLykpDj3lUivJt63eEGGN6DH5K6o33TcxkIjNrCD4XB1CKKumZvCedgHHF3IAK4dVEDSU\
     oGlH9z4pP_eWYNXvqQOjGs-rDaQzUHl6cQQWNiDpWOl_lxXjQEvQ";

/// A time at which the ID tokens of the standard's examples are valid.
pub fn now() -> Result<Timestamp, Ended> {
    match Timestamp::from_second(1_311_281_000) {
        Ok(now) => Ok(now),
        Err(_) => Err(Ended::Refused),
    }
}

// What the client of the standard's examples expects.
fn expected(alloc: Global) -> Result<Expected, Ended> {
    Ok(Expected {
        issuer: IssuerRule::Is(text(alloc, "http://server.example.com")?),
        client_id: ClientId::new(text(alloc, CLIENT_ID)?),
        other_audiences: Vec::new(alloc),
        authorized_parties: Vec::new(alloc),
        algorithm: Some(text(alloc, "RS256")?),
        nonce: Some(Nonce::new(text(alloc, "n-0S6_WzA2Mj")?)),
        leeway: Duration::from_secs(0),
        max_age: None,
    })
}

/// Reads an ID token, and checks it.
pub fn show_token<W: Write>(alloc: Global, out: &mut W) -> Result<bool, Ended> {
    let expected = expected(alloc)?;
    let access_token = AccessToken::new(text(alloc, "SlAV32hkKG")?);
    match id_token(alloc, TOKEN) {
        Ok(id_token) => show_checked(out, &id_token, &expected, &access_token),
        Err(IdTokenReadError::Memory) => {
            writeln!(out, "memory IdTokenReadError")?;
            Ok(false)
        }
        Err(_) => Err(Ended::Refused),
    }
}

// The ID token of this text, which proofs do not see, so that no proof decodes it.
fn id_token(alloc: Global, token: &str) -> Result<IdToken, IdTokenReadError> {
    IdToken::from_text(alloc, token)
}

fn show_checked<W: Write>(
    out: &mut W,
    id_token: &IdToken,
    expected: &Expected,
    access_token: &AccessToken,
) -> Result<bool, Ended> {
    match id_token.check(expected, access_token, now()?) {
        Ok(hash) => show_user(out, id_token, hash),
        Err(_) => Err(Ended::Refused),
    }
}

/// Prints who the user is, and the result of comparing the access token's hash with the ID token's.
pub fn show_user<W: Write>(
    out: &mut W,
    id_token: &IdToken,
    hash: AccessTokenHash,
) -> Result<bool, Ended> {
    writeln!(out, "subject {}", id_token.claims().subject())?;
    writeln!(out, "hash {hash:?}")?;
    Ok(true)
}
