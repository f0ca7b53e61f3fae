//! The rows `logout_token`.
//!
//! A row `set JSON` reads the keys of the issuer, and a row `secret TEXT` sets the client's secret.
//! A row `expect ISSUER CLIENT ALGORITHM TYPES LEEWAY AUDIENCES` sets what a client expects: with an
//! ALGORITHM such as `HS256` its secret checks signatures, TYPES is `only` or `plain`, the leeway is
//! in seconds, and AUDIENCES are the other audiences that it trusts, if any. An ISSUER with
//! `{tenant}` in it is one for each tenant. A row `says TOKEN` prints what a logout token has. A row
//! `check SECOND TOKEN` checks a token at that second since 1970, and `verified SECOND TOKEN` prints
//! what comes of it. A row `of ISSUER SUBJECT SESSION TOKEN` prints whether a token ends that
//! session, where `-` is for a session without an identifier.

use crate::rows::{key_set_of, moment_and_token, secret_algorithm_of, set};
use jiff::Timestamp;
use oauth2_keys::{JsonWebKeySet, SecretAlgorithm, SignatureAlgorithm, SignatureCheck};
use oauth2_openid::IssuerRule;
use oauth2_signed_tokens::{
    ClientSession, ExpectedLogoutToken, LogoutToken, LogoutTokenReadError, RefusedLogoutToken,
    TypeRule, VerifiedLogoutToken,
};
use oauth2_types::{ClientId, ClientSecret};
use std::alloc::Global;
use std::io::{self, Write};
use std::time::Duration;

// The algorithm that the client registered.
#[derive(Clone, Copy)]
enum Registered {
    ByKeys(SignatureAlgorithm),
    BySecret(SecretAlgorithm),
}

// What the client expects, by a row `expect`.
struct Expectation {
    registered: Registered,
    token: ExpectedLogoutToken,
}

impl Drop for Expectation {
    fn drop(self) {
        let Expectation {
            registered: _,
            token: _,
        } = self;
    }
}

fn read_types(word: &str) -> Option<TypeRule> {
    match word {
        "only" => Some(TypeRule::OnlyLogout),
        "plain" => Some(TypeRule::LogoutOrPlain),
        _ => None,
    }
}

fn read_algorithm(name: &str) -> Option<Registered> {
    match secret_algorithm_of(name) {
        Some(algorithm) => Some(Registered::BySecret(algorithm)),
        None => Some(Registered::ByKeys(SignatureAlgorithm::from_name(name)?)),
    }
}

// What a client expects of a logout token beside its texts.
#[derive(Clone, Copy)]
struct Rules {
    registered: Registered,
    type_rule: TypeRule,
    leeway: Duration,
}

fn read_rules(algorithm: &str, types: &str, leeway: &str) -> Option<Rules> {
    let registered = read_algorithm(algorithm)?;
    let type_rule = read_types(types)?;
    let seconds = leeway.parse::<u32>().ok()?;
    Some(Rules {
        registered,
        type_rule,
        leeway: Duration::from_secs(u64::from(seconds)),
    })
}

// The words of a text; none if there is no text.
fn read_audiences(alloc: Global, text: Option<&str>) -> io::Result<Vec<String>> {
    let mut audiences = Vec::new(alloc);
    if let Some(text) = text {
        for word in text.split(' ') {
            audiences.push(String::from_str(alloc, word)?)?;
        }
    }
    Ok(audiences)
}

fn read_issuer(alloc: Global, text: &str) -> io::Result<IssuerRule> {
    match text.split_once("{tenant}") {
        Some((before, after)) => {
            let before = String::from_str(alloc, before)?;
            let after = String::from_str(alloc, after)?;
            Ok(IssuerRule::PerTenant { before, after })
        }
        None => Ok(IssuerRule::Is(String::from_str(alloc, text)?)),
    }
}

fn expected_by(
    alloc: Global,
    rules: Rules,
    issuer: &str,
    client: &str,
    audiences: Option<&str>,
) -> io::Result<Expectation> {
    let issuer = read_issuer(alloc, issuer)?;
    let client = String::from_str(alloc, client)?;
    let other_audiences = read_audiences(alloc, audiences)?;
    Ok(Expectation {
        registered: rules.registered,
        token: ExpectedLogoutToken {
            issuer,
            client_id: ClientId::new(client),
            other_audiences,
            type_rule: rules.type_rule,
            leeway: rules.leeway,
        },
    })
}

fn read_expected(alloc: Global, words: &str) -> io::Result<Option<Expectation>> {
    let mut words = words.splitn(6, ' ');
    let issuer = words.next().unwrap_or("");
    let client = words.next().unwrap_or("");
    let algorithm = words.next().unwrap_or("");
    let types = words.next().unwrap_or("");
    let leeway = words.next().unwrap_or("");
    let audiences = words.next();
    match read_rules(algorithm, types, leeway) {
        Some(rules) => Ok(Some(expected_by(alloc, rules, issuer, client, audiences)?)),
        None => Ok(None),
    }
}

fn write_said<W: Write>(token: &LogoutToken, writer: &mut W) -> io::Result<()> {
    writeln!(writer, "{token:?}")?;
    writeln!(
        writer,
        "alg {:?} kid {:?} header {}",
        token.algorithm(),
        token.key_id(),
        token.other_header_members(),
    )?;
    writeln!(
        writer,
        "signed {} signature {}",
        token.signed_part().len(),
        token.signature().len(),
    )?;
    writeln!(
        writer,
        "iss {:?} aud {:?}",
        token.issuer(),
        token.audience()
    )?;
    writeln!(
        writer,
        "sub {:?} sid {:?}",
        token.subject(),
        token.session_id()
    )?;
    writeln!(
        writer,
        "iat {} exp {} jti {:?}",
        token.issued_at().as_millisecond(),
        token.expires_at().as_millisecond(),
        token.token_id(),
    )?;
    writeln!(writer, "others {}", token.other_claims())
}

// Prints why a text is no logout token.
fn write_no_token<W: Write>(error: LogoutTokenReadError, writer: &mut W) -> io::Result<()> {
    writeln!(writer, "{error}")
}

fn write_says<W: Write>(alloc: Global, text: &str, writer: &mut W) -> io::Result<()> {
    match LogoutToken::from_text(alloc, text) {
        Ok(token) => write_said(&token, writer),
        Err(error) => write_no_token(error, writer),
    }
}

fn write_is_of<W: Write>(alloc: Global, words: &str, writer: &mut W) -> io::Result<()> {
    let (issuer, words) = words.split_once(' ').unwrap_or(("", ""));
    let (subject, words) = words.split_once(' ').unwrap_or(("", ""));
    let (session, text) = words.split_once(' ').unwrap_or(("", ""));
    let session = ClientSession {
        issuer,
        subject,
        session_id: if session == "-" { None } else { Some(session) },
    };
    match LogoutToken::from_text(alloc, text) {
        Ok(token) => writeln!(writer, "{}", token.is_of(&session)),
        Err(error) => write_no_token(error, writer),
    }
}

fn write_checked<W: Write>(
    alloc: Global,
    client: &Client,
    words: &str,
    writer: &mut W,
) -> io::Result<()> {
    let Some((now, text)) = moment_and_token(words) else {
        return writeln!(writer, "?");
    };
    match LogoutToken::from_text(alloc, text) {
        Ok(token) => {
            writeln!(
                writer,
                "{:?}",
                token.check(&client.expected.token, client.signature_check(), now)
            )
        }
        Err(error) => write_no_token(error, writer),
    }
}

fn write_user<W: Write>(verified: &VerifiedLogoutToken, writer: &mut W) -> io::Result<()> {
    writeln!(writer, "{verified:?}")?;
    writeln!(writer, "{:?}", verified.token().subject())
}

fn write_accepted<W: Write>(verified: VerifiedLogoutToken, writer: &mut W) -> io::Result<()> {
    write_user(&verified, writer)?;
    writeln!(writer, "{:?}", verified.into_token().session_id())
}

fn write_refused<W: Write>(refused: &RefusedLogoutToken, writer: &mut W) -> io::Result<()> {
    writeln!(writer, "{refused:?}: {refused}")?;
    writeln!(writer, "{:?}", refused.token.token_id())
}

// Prints what the token tells if it is verified, or why it is refused.
fn write_judged<W: Write>(
    client: &Client,
    token: LogoutToken,
    now: Timestamp,
    writer: &mut W,
) -> io::Result<()> {
    match token.verified(&client.expected.token, client.signature_check(), now) {
        Ok(verified) => write_accepted(verified, writer),
        Err(refused) => write_refused(&refused, writer),
    }
}

fn write_verified<W: Write>(
    alloc: Global,
    client: &Client,
    words: &str,
    writer: &mut W,
) -> io::Result<()> {
    let Some((now, text)) = moment_and_token(words) else {
        return writeln!(writer, "?");
    };
    match LogoutToken::from_text(alloc, text) {
        Ok(token) => write_judged(client, token, now, writer),
        Err(error) => write_no_token(error, writer),
    }
}

fn write_result<W: Write>(
    alloc: Global,
    client: &Client,
    row: &str,
    writer: &mut W,
) -> io::Result<()> {
    if let Some(text) = row.strip_prefix("says ") {
        write_says(alloc, text, writer)
    } else if let Some(words) = row.strip_prefix("of ") {
        write_is_of(alloc, words, writer)
    } else if let Some(words) = row.strip_prefix("check ") {
        write_checked(alloc, client, words, writer)
    } else if let Some(words) = row.strip_prefix("verified ") {
        write_verified(alloc, client, words, writer)
    } else {
        writeln!(writer, "?")
    }
}

/// What a client expects of logout tokens, the keys of the issuer, and the client's secret.
pub struct Client {
    keys: JsonWebKeySet,
    secret: ClientSecret,
    expected: Expectation,
}

impl Drop for Client {
    fn drop(self) {
        let Client {
            keys: _,
            secret: _,
            expected: _,
        } = self;
    }
}

impl Client {
    /// A client without a key, with an empty secret.
    pub fn new(alloc: Global) -> io::Result<Option<Client>> {
        let Some(expected) = read_expected(alloc, "- - RS256 plain 0")? else {
            return Ok(None);
        };
        let Some(keys) = key_set_of(alloc, "{\"keys\":[]}") else {
            return Ok(None);
        };
        let secret = ClientSecret::new(String::new(alloc));
        Ok(Some(Client {
            keys,
            secret,
            expected,
        }))
    }

    /// Does what a row says.
    pub fn run_row<W: Write>(
        &mut self,
        alloc: Global,
        row: &str,
        writer: &mut W,
    ) -> io::Result<()> {
        if let Some(text) = row.strip_prefix("set ") {
            set(&mut self.keys, key_set_of(alloc, text), writer)
        } else if let Some(text) = row.strip_prefix("secret ") {
            self.secret = ClientSecret::new(String::from_str(alloc, text)?);
            Ok(())
        } else if let Some(words) = row.strip_prefix("expect ") {
            set(&mut self.expected, read_expected(alloc, words)?, writer)
        } else {
            write_result(alloc, self, row, writer)
        }
    }

    fn signature_check(&self) -> SignatureCheck<'_> {
        match self.expected.registered {
            Registered::ByKeys(algorithm) => SignatureCheck::Keys(&self.keys, algorithm),
            Registered::BySecret(algorithm) => SignatureCheck::Secret(&self.secret, algorithm),
        }
    }
}
