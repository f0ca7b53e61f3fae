//! The rows `verified_login`.
//!
//! A row `keys JSON` reads a key set, and a row `secret TEXT` sets the client's secret. A row
//! `login ALGORITHM ISSUER TOKEN` finishes a login at the provider of that issuer, whose token
//! response has that ID token, and prints who the user is, or why there is none. A row `form` does
//! the same for a redirect whose parameters are a form, and a row `other` for a login that was
//! started at another provider. A row `again ALGORITHM` checks the signature again that was refused
//! last, and a row `give up` prints the access token that came with it.

use crate::signature_keys::SignatureKeys;
use jiff::Timestamp;
use oauth2::basic::BasicErrorResponse;
use oauth2::http::Response;
use oauth2::url::{ParseError, Url};
use oauth2::{AuthUrl, Client, ClientId, TokenResponse, TokenUrl, read_body};
use oauth2_keys::SecretAlgorithm;
use oauth2_openid_login::{
    OpenIdClient, OpenIdLogin, OpenIdProvider, OpenIdTokenResponse, RedirectIssuer,
};
use oauth2_tests_support::{NoReply, OneReply};
use oauth2_verified_login::{
    SignatureCheck, UnverifiedLogin, VerifiedLoginEnd, VerifiedLoginError, VerifiedProvider,
};
use std::alloc::{AllocError, Global};
use std::io::{self, Write};
use std::time::Duration;

type Ended = Result<
    VerifiedLoginEnd<OpenIdTokenResponse>,
    VerifiedLoginError<OpenIdTokenResponse, NoReply, BasicErrorResponse>,
>;

// The redirect of the standard's examples.
const REDIRECT: &str =
    "https://client.example.org/cb?code=SplxlOBeZQQYbYS6WxSbIA&state=af0ifjsldkj";

// The same redirect by a form: the URL that is called, and the body.
const CALLED: &str = "https://client.example.org/cb";

const FORM: &str = "code=SplxlOBeZQQYbYS6WxSbIA&state=af0ifjsldkj";

// The client of the standard's examples.
fn client(alloc: Global) -> Result<OpenIdClient, ParseError> {
    let id = ClientId::from_str(alloc, "s6BhdRkqt3")?;
    let auth_url = AuthUrl::parse(alloc, "https://server.example.com/authorize")?;
    let token_url = TokenUrl::parse(alloc, "https://server.example.com/token")?;
    Ok(
        Client::new(id)
            .set_auth_uri(auth_url)
            .set_token_uri(token_url),
    )
}

// An HTTP client that returns a token response with this ID token. Its access token is that of the
// standard's example A.4.
fn one_reply(alloc: Global, id_token: &str) -> Result<OneReply, AllocError> {
    let body = format!(in alloc;
        "{{\"access_token\":\"jHkWEdUXMU1BwAsC4vtUsZwnNvTIxEl0z9K3vx5KF0Y\",\
         \"token_type\":\"Bearer\",\"id_token\":\"{id_token}\"}}"
    )?;
    Ok(OneReply::new(Response::new(alloc, body.into_bytes())))
}

// How a signature is checked if its algorithm has this name.
fn check_of<'a>(keys: &'a SignatureKeys, name: &str) -> Option<SignatureCheck<'a>> {
    let by_secret = match name {
        "HS256" => Some(SecretAlgorithm::Hs256),
        _ => None,
    };
    keys.check(name, by_secret)
}

fn provider_of<'a>(issuer: &'a str, check: SignatureCheck<'a>) -> VerifiedProvider<'a> {
    let leeway = Duration::from_secs(60);
    let provider = OpenIdProvider::new(issuer, RedirectIssuer::OwnRedirectUri, leeway);
    VerifiedProvider::new(provider, check)
}

// A time at which the ID tokens of the standard's examples are valid.
fn now() -> anyhow::Result<Timestamp> {
    Ok(Timestamp::from_second(1_311_281_000)?)
}

// A stored login at the provider with this issuer, with the nonce of the standard's examples.
fn kept_login(alloc: Global, issuer: &str) -> anyhow::Result<OpenIdLogin> {
    let kept = format!(in alloc;
        "{{\"client_id\":\"s6BhdRkqt3\",\"issuer\":\"{issuer}\",\"issuer_in_each_redirect\":false,\
         \"nonce\":\"n-0S6_WzA2Mj\",\"redirect_uri\":\"https://client.example.org/cb\",\
         \"state\":\"af0ifjsldkj\",\"token_url\":\"https://server.example.com/token\",\
         \"verifier\":\"v\"}}"
    )?;
    Ok(read_body::<OpenIdLogin>(alloc, kept.as_bytes())?)
}

// The result of a login with a redirect.
fn ended_by_redirect(
    alloc: Global,
    client: &OpenIdClient,
    provider: &VerifiedProvider<'_>,
    login: OpenIdLogin,
    token: &str,
) -> anyhow::Result<Ended> {
    let now = now()?;
    let redirect = Url::parse(alloc, REDIRECT)?;
    let mut http_client = one_reply(alloc, token)?;
    Ok(provider.finish(alloc, login, client, &mut http_client, &redirect, || now))
}

// The result of a login with the body of a form.
fn ended_by_form(
    alloc: Global,
    client: &OpenIdClient,
    provider: &VerifiedProvider<'_>,
    login: OpenIdLogin,
    token: &str,
) -> anyhow::Result<Ended> {
    let now = now()?;
    let called = Url::parse(alloc, CALLED)?;
    let mut http_client = one_reply(alloc, token)?;
    Ok(provider.finish_query(
        alloc,
        login,
        client,
        &mut http_client,
        &called,
        FORM,
        || now,
    ))
}

fn ended_again(
    unverified: UnverifiedLogin<OpenIdTokenResponse>,
    check: SignatureCheck<'_>,
) -> Ended {
    Ok(unverified.verify_again(check)?)
}

// Writes who the user is, the access token, and the result of comparing its hash.
fn write_user<W: Write>(
    end: VerifiedLoginEnd<OpenIdTokenResponse>,
    writer: &mut W,
) -> io::Result<()> {
    let subject = end.id_token().claims().subject();
    let token = end.token_response().access_token();
    let hash = end.access_token_hash();
    writeln!(writer, "{subject} {} {hash:?} {end:?}", token.secret())?;
    let end = end.into_end();
    writeln!(writer, "of {}", end.id_token.claims().issuer())
}

// The result of the login that this word names; `None` if it names none.
fn ended_by(
    alloc: Global,
    client: &OpenIdClient,
    provider: &VerifiedProvider<'_>,
    command: &str,
    issuer: &str,
    token: &str,
) -> anyhow::Result<Option<Ended>> {
    let login = kept_login(
        alloc,
        if command == "other" {
            "https://other.example"
        } else {
            issuer
        },
    )?;
    match command {
        "login" | "other" => { Ok(Some(ended_by_redirect(alloc, client, provider, login, token)?)) }
        "form" => Ok(Some(ended_by_form(alloc, client, provider, login, token)?)),
        _ => Ok(None),
    }
}

// The result of the login of a row; `None` if the row has no login.
fn ended_of(
    alloc: Global,
    client: &OpenIdClient,
    keys: &SignatureKeys,
    row: &str,
) -> anyhow::Result<Option<Ended>> {
    let mut words = row.split(' ');
    let command = words.next().unwrap_or("");
    let Some(check) = check_of(keys, words.next().unwrap_or("")) else {
        return Ok(None);
    };
    let issuer = words.next().unwrap_or("");
    let provider = provider_of(issuer, check);
    let token = words.next().unwrap_or("");
    ended_by(alloc, client, &provider, command, issuer, token)
}

/// The logins of a run.
pub struct Logins {
    client: OpenIdClient,
    keys: SignatureKeys,
    // The last login whose signature was refused.
    refused: Option<UnverifiedLogin<OpenIdTokenResponse>>,
}

impl Drop for Logins {
    fn drop(self) {
        let Logins {
            client: _,
            keys: _,
            refused: _,
        } = self;
    }
}

impl Logins {
    /// A run without a login and a key, and with an empty secret.
    pub fn new(alloc: Global) -> anyhow::Result<Logins> {
        Ok(Logins {
            client: client(alloc)?,
            keys: SignatureKeys::new(alloc)?,
            refused: None,
        })
    }

    /// Does what a row says.
    pub fn run_row<W: Write>(
        &mut self,
        alloc: Global,
        row: &str,
        writer: &mut W,
    ) -> anyhow::Result<()> {
        if self.keys.take_row(alloc, row)? {
            return Ok(());
        }
        if let Some(algorithm) = row.strip_prefix("again ") {
            self.check_again(algorithm, writer)?;
        } else if row == "give up" {
            self.give_up(writer)?;
        } else {
            self.log_in(alloc, row, writer)?;
        }
        Ok(())
    }

    // Finishes the login of a row, and prints its result.
    fn log_in<W: Write>(&mut self, alloc: Global, row: &str, writer: &mut W) -> anyhow::Result<()> {
        match ended_of(alloc, &self.client, &self.keys, row)? {
            Some(ended) => self.show(ended, writer)?,
            None => writeln!(writer, "?")?,
        }
        Ok(())
    }

    fn check_again<W: Write>(&mut self, algorithm: &str, writer: &mut W) -> io::Result<()> {
        let Some(unverified) = self.refused.take() else {
            return writeln!(writer, "?");
        };
        let Some(check) = check_of(&self.keys, algorithm) else {
            return writeln!(writer, "?");
        };
        let ended = ended_again(unverified, check);
        self.show(ended, writer)
    }

    fn give_up<W: Write>(&mut self, writer: &mut W) -> io::Result<()> {
        let Some(unverified) = self.refused.take() else {
            return writeln!(writer, "?");
        };
        let end = unverified.into_unverified_end();
        let token = end.token_response.access_token();
        writeln!(writer, "given up: {}", token.secret())
    }

    fn show<W: Write>(&mut self, ended: Ended, writer: &mut W) -> io::Result<()> {
        match ended {
            Ok(end) => write_user(end, writer),
            Err(VerifiedLoginError::Signature(unverified)) => self.keep_refused(unverified, writer),
            Err(error) => writeln!(writer, "{error}"),
        }
    }

    // Prints why a signature was refused, and keeps the login.
    fn keep_refused<W: Write>(
        &mut self,
        unverified: UnverifiedLogin<OpenIdTokenResponse>,
        writer: &mut W,
    ) -> io::Result<()> {
        writeln!(writer, "{unverified} {:?}", unverified.error())?;
        self.refused = Some(unverified);
        Ok(())
    }
}
