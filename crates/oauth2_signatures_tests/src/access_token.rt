//! The rows `access_token`.
//!
//! A row `set JSON` reads the keys of the issuer. A row `expect ISSUER AUDIENCE ALGORITHM LEEWAY`
//! sets what a resource server expects, with the leeway in seconds. A row `says TOKEN` prints what a
//! JWT access token has, and a row `scope SCOPE TOKEN` whether it has a scope. A row
//! `check SECOND TOKEN` checks a token at that second since 1970. A row `introspect SECOND TOKEN`
//! prints a token that passes the check, in the form of an introspection response.

use crate::rows::{key_set_of, moment_and_token, set};
use jiff::Timestamp;
use oauth2_codes::BasicTokenType;
use oauth2_introspection::StandardTokenIntrospectionResponse;
use oauth2_json::ToJson;
use oauth2_keys::{JsonWebKeySet, SignatureAlgorithm};
use oauth2_replies::EmptyExtraTokenFields;
use oauth2_signed_tokens::{
    ExpectedAccessToken, JwtAccessToken, JwtAccessTokenReadError, SenderConstraint,
    VerifiedAccessToken,
};
use std::alloc::Global;
use std::io::{self, Write};
use std::time::Duration;

type Response = StandardTokenIntrospectionResponse<EmptyExtraTokenFields, BasicTokenType>;

fn read_expected(alloc: Global, words: &str) -> io::Result<Option<ExpectedAccessToken>> {
    let mut words = words.split(' ');
    let issuer = words.next().unwrap_or("");
    let audience = words.next().unwrap_or("");
    let Some(algorithm) = SignatureAlgorithm::from_name(words.next().unwrap_or("")) else {
        return Ok(None);
    };
    let Ok(seconds) = words.next().unwrap_or("").parse::<u32>() else {
        return Ok(None);
    };
    let issuer = String::from_str(alloc, issuer)?;
    let audience = String::from_str(alloc, audience)?;
    Ok(Some(ExpectedAccessToken {
        issuer,
        audience,
        algorithm,
        constraint: SenderConstraint::NoKeyProven,
        leeway: Duration::from_secs(u64::from(seconds)),
    }))
}

fn write_said<W: Write>(token: &JwtAccessToken, writer: &mut W) -> io::Result<()> {
    writeln!(writer, "{token:?}")?;
    writeln!(writer, "iss {:?} sub {:?}", token.issuer(), token.subject())?;
    writeln!(writer, "aud {:?}", token.audience())?;
    writeln!(
        writer,
        "client_id {:?} jti {:?}",
        token.client_id(),
        token.token_id()
    )?;
    writeln!(
        writer,
        "exp {} iat {}",
        token.expires_at().as_second(),
        token.issued_at().as_second(),
    )?;
    let not_before = token.not_before().map(|time| time.as_second());
    writeln!(writer, "nbf {not_before:?} scope {:?}", token.scopes())?;
    writeln!(writer, "others {}", token.other_claims())
}

// Prints why a text is no JWT access token.
fn write_no_token<W: Write>(error: JwtAccessTokenReadError, writer: &mut W) -> io::Result<()> {
    writeln!(writer, "{error}")
}

fn write_says<W: Write>(alloc: Global, text: &str, writer: &mut W) -> io::Result<()> {
    match JwtAccessToken::from_text(alloc, text) {
        Ok(token) => write_said(&token, writer),
        Err(error) => write_no_token(error, writer),
    }
}

fn write_has_scope<W: Write>(alloc: Global, words: &str, writer: &mut W) -> io::Result<()> {
    let (scope, text) = words.split_once(' ').unwrap_or(("", ""));
    match JwtAccessToken::from_text(alloc, text) {
        Ok(token) => writeln!(writer, "{}", token.has_scope(scope)),
        Err(error) => write_no_token(error, writer),
    }
}

fn write_checked<W: Write>(
    alloc: Global,
    server: &ResourceServer,
    words: &str,
    writer: &mut W,
) -> io::Result<()> {
    let Some((now, text)) = moment_and_token(words) else {
        return writeln!(writer, "?");
    };
    match JwtAccessToken::from_text(alloc, text) {
        Ok(token) => {
            writeln!(
                writer,
                "{:?}",
                token.check(&server.expected, &server.keys, now)
            )
        }
        Err(error) => write_no_token(error, writer),
    }
}

fn write_json<W: Write>(alloc: Global, response: &Response, writer: &mut W) -> io::Result<()> {
    match response.to_json(alloc) {
        Ok(value) => writeln!(writer, "{value}"),
        Err(error) => writeln!(writer, "{error}"),
    }
}

fn write_response<W: Write>(
    alloc: Global,
    token: &VerifiedAccessToken,
    writer: &mut W,
) -> io::Result<()> {
    let response: Response = token.introspection(alloc, EmptyExtraTokenFields {})?;
    write_json(alloc, &response, writer)
}

// Prints the token in the form of an introspection response, or why it is refused.
fn write_judged<W: Write>(
    alloc: Global,
    server: &ResourceServer,
    token: JwtAccessToken,
    now: Timestamp,
    writer: &mut W,
) -> io::Result<()> {
    match token.verified(&server.expected, &server.keys, now) {
        Ok(verified) => write_response(alloc, &verified, writer),
        Err(refused) => writeln!(writer, "{refused:?}: {refused}"),
    }
}

fn write_introspected<W: Write>(
    alloc: Global,
    server: &ResourceServer,
    words: &str,
    writer: &mut W,
) -> io::Result<()> {
    let Some((now, text)) = moment_and_token(words) else {
        return writeln!(writer, "?");
    };
    match JwtAccessToken::from_text(alloc, text) {
        Ok(token) => write_judged(alloc, server, token, now, writer),
        Err(error) => write_no_token(error, writer),
    }
}

fn write_result<W: Write>(
    alloc: Global,
    server: &ResourceServer,
    row: &str,
    writer: &mut W,
) -> io::Result<()> {
    if let Some(text) = row.strip_prefix("says ") {
        write_says(alloc, text, writer)
    } else if let Some(words) = row.strip_prefix("scope ") {
        write_has_scope(alloc, words, writer)
    } else if let Some(words) = row.strip_prefix("check ") {
        write_checked(alloc, server, words, writer)
    } else if let Some(words) = row.strip_prefix("introspect ") {
        write_introspected(alloc, server, words, writer)
    } else {
        writeln!(writer, "?")
    }
}

/// What a resource server expects of access tokens, and the keys of the issuer.
pub struct ResourceServer {
    keys: JsonWebKeySet,
    expected: ExpectedAccessToken,
}

impl Drop for ResourceServer {
    fn drop(self) {
        let ResourceServer {
            keys: _,
            expected: _,
        } = self;
    }
}

impl ResourceServer {
    /// A server without a key.
    pub fn new(alloc: Global) -> io::Result<Option<ResourceServer>> {
        let Some(expected) = read_expected(alloc, "- - RS256 0")? else {
            return Ok(None);
        };
        let Some(keys) = key_set_of(alloc, "{\"keys\":[]}") else {
            return Ok(None);
        };
        Ok(Some(ResourceServer { keys, expected }))
    }

    /// Does what a row says.
    pub fn run_row<W: Write>(
        &mut self,
        alloc: Global,
        row: &str,
        writer: &mut W,
    ) -> io::Result<()> {
        if let Some(text) = row.strip_prefix("set ") {
            set(&mut self.keys, key_set_of(alloc, text), writer)
        } else if let Some(words) = row.strip_prefix("expect ") {
            set(&mut self.expected, read_expected(alloc, words)?, writer)
        } else {
            write_result(alloc, self, row, writer)
        }
    }
}
