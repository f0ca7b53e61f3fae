//! The rows `hybrid_login`.
//!
//! A row `keys JSON` reads a key set, and a row `secret TEXT` sets the client's secret. A row
//! `front ALGORITHM CODE TOKEN` verifies an ID token of the front channel, which came with that
//! code, and prints who the user is or why the token is refused. A row `second TOKEN` prints whether
//! a token names the same user as the last one that was verified.

use crate::signature_keys::SignatureKeys;
use jiff::Timestamp;
use oauth2::{AuthorizationCode, ClientId};
use oauth2_keys::SecretAlgorithm;
use oauth2_openid::{Expected, IdToken, IssuerRule, Nonce};
use oauth2_verified_login::{FrontExpected, FrontTokenError, SignatureCheck, VerifiedFrontToken};
use std::alloc::{AllocError, Global};
use std::io::{self, Write};
use std::time::Duration;

type Verified = Result<VerifiedFrontToken, FrontTokenError>;

// How a signature is checked if its algorithm has this name.
fn check_of<'a>(keys: &'a SignatureKeys, name: &str) -> Option<SignatureCheck<'a>> {
    let by_secret = match name {
        "HS256" => Some(SecretAlgorithm::Hs256),
        "HS512" => Some(SecretAlgorithm::Hs512),
        _ => None,
    };
    keys.check(name, by_secret)
}

// What the client of the standard's examples expects of a token with this algorithm.
fn expected(alloc: Global, algorithm: &str) -> Result<FrontExpected, AllocError> {
    let issuer = String::from_str(alloc, "http://server.example.com")?;
    let client_id = ClientId::from_str(alloc, "s6BhdRkqt3")?;
    let algorithm = String::from_str(alloc, algorithm)?;
    let nonce = String::from_str(alloc, "n-0S6_WzA2Mj")?;
    let expected = Expected {
        issuer: IssuerRule::Is(issuer),
        client_id,
        other_audiences: Vec::new(alloc),
        authorized_parties: Vec::new(alloc),
        algorithm: Some(algorithm),
        nonce: None,
        leeway: Duration::from_secs(60),
        max_age: None,
    };
    Ok(FrontExpected::new(expected, Nonce::new(nonce)))
}

// The result for a token with this algorithm that came with this code.
fn verified_front(
    alloc: Global,
    algorithm: &str,
    code: &str,
    text: &str,
    check: SignatureCheck<'_>,
) -> anyhow::Result<Verified> {
    let now = Timestamp::from_second(1_311_281_000)?;
    let code = AuthorizationCode::new(String::from_str(alloc, code)?);
    let expected = expected(alloc, algorithm)?;
    Ok(VerifiedFrontToken::verify(alloc, text, &code, &expected, check, now))
}

// The result for the token of a row; `None` if the row has no algorithm.
fn verified_of(
    alloc: Global,
    keys: &SignatureKeys,
    words: &str,
) -> anyhow::Result<Option<Verified>> {
    let mut words = words.split(' ');
    let algorithm = words.next().unwrap_or("");
    let code = words.next().unwrap_or("");
    let text = words.next().unwrap_or("");
    match check_of(keys, algorithm) {
        Some(check) => Ok(Some(verified_front(alloc, algorithm, code, text, check)?)),
        None => Ok(None),
    }
}

/// What tokens are verified by, and the last token that was verified.
pub struct Tokens {
    keys: SignatureKeys,
    verified: Option<VerifiedFrontToken>,
}

impl Drop for Tokens {
    fn drop(self) {
        let Tokens {
            keys: _,
            verified: _,
        } = self;
    }
}

impl Tokens {
    /// A run without a key and a token, and with an empty secret.
    pub fn new(alloc: Global) -> anyhow::Result<Tokens> {
        Ok(Tokens {
            keys: SignatureKeys::new(alloc)?,
            verified: None,
        })
    }

    /// Does what a row says.
    pub fn run_row<W: Write>(
        &mut self,
        alloc: Global,
        row: &str,
        writer: &mut W,
    ) -> anyhow::Result<()> {
        if self.keys.take_row(alloc, row)? {
            return Ok(());
        }
        if let Some(words) = row.strip_prefix("front ") {
            self.verify(alloc, words, writer)?;
        } else if let Some(text) = row.strip_prefix("second ") {
            self.compare(alloc, text, writer)?;
        } else {
            writeln!(writer, "?")?;
        }
        Ok(())
    }

    fn verify<W: Write>(
        &mut self,
        alloc: Global,
        words: &str,
        writer: &mut W,
    ) -> anyhow::Result<()> {
        match verified_of(alloc, &self.keys, words)? {
            Some(verified) => self.show(verified, writer)?,
            None => writeln!(writer, "?")?,
        }
        Ok(())
    }

    fn show<W: Write>(&mut self, verified: Verified, writer: &mut W) -> io::Result<()> {
        match verified {
            Ok(verified) => self.keep(verified, writer),
            Err(error) => writeln!(writer, "{error}, {error:?}"),
        }
    }

    // Prints who the user of a token is, and keeps the token.
    fn keep<W: Write>(&mut self, verified: VerifiedFrontToken, writer: &mut W) -> io::Result<()> {
        let user = verified.id_token().claims().subject();
        writeln!(writer, "{user} {verified:?}")?;
        self.verified = Some(verified);
        Ok(())
    }

    fn compare<W: Write>(
        &mut self,
        alloc: Global,
        text: &str,
        writer: &mut W,
    ) -> anyhow::Result<()> {
        let second = IdToken::from_text(alloc, text)?;
        let same = match &self.verified {
            Some(verified) => verified.is_same_user(&second),
            None => false,
        };
        writeln!(
            writer,
            "{}",
            if same {
                "the same user"
            } else {
                "another user"
            }
        )?;
        Ok(())
    }
}
