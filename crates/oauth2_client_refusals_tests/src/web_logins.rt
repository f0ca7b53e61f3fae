//! A login in three steps: the URL, the redirect and the token.

use crate::clients::RowClient;
use crate::counting_client::{CountingClient, NoReply};
use crate::replies::{ReplyTexts, ready_reply};
use crate::show::{show_bytes, show_failure, show_token};
use crate::urls::redirect_url;
use oauth2::basic::{BasicErrorResponse, BasicTokenResponse};
use oauth2::url::Url;
use oauth2::{RedirectUrl, Scope};
use oauth2_redirect::{
    Login, LoginError, LoginIssuer, LoginRefusal, LoginRequest, LoginUrlFault, RedirectError,
};
use oauth2_refusals_support::{Ended, Repeated, Want, text};
use std::alloc::Global;
use std::io::Write;

// The redirect URI, and the URL with which the user comes back.
const REDIRECT: &str = "https://app.example/cb";

const CALLBACK: &str = "https://app.example/cb?code=ccc&state=AAAAAAAAAAAAAAAAAAAAAA";

// The result of a login.
type Finished = Result<BasicTokenResponse, LoginError<NoReply, BasicErrorResponse>>;

/// Starts a login with its own redirect URI, finishes it by an HTTP client that returns this reply,
/// and prints the result.
pub fn show_web_login<W: Write>(
    alloc: Global,
    client: &RowClient,
    reply: ReplyTexts<'_>,
    out: &mut W,
) -> Result<(), Ended> {
    let redirect_uri = redirect_url(alloc, REDIRECT)?;
    show_with_redirect(alloc, client, &redirect_uri, reply, out)
}

// A URL made from a text that proofs do not see, so that no proof parses it.
fn url(alloc: Global, url: &str) -> Result<Url, Ended> {
    Ok(Url::parse(alloc, url)?)
}

// Makes the callback and the HTTP client of a login, and shows the login.
fn show_with_redirect<W: Write>(
    alloc: Global,
    client: &RowClient,
    redirect_uri: &RedirectUrl,
    reply: ReplyTexts<'_>,
    out: &mut W,
) -> Result<(), Ended> {
    let callback = url(alloc, CALLBACK)?;
    let mut http_client = CountingClient::new(ready_reply(alloc, reply)?);
    show_login(
        alloc,
        client,
        redirect_uri,
        &callback,
        &mut http_client,
        out,
    )
}

// Starts a login with this redirect URI, finishes it by this callback, and prints the result.
fn show_login<W: Write>(
    alloc: Global,
    client: &RowClient,
    redirect_uri: &RedirectUrl,
    callback: &Url,
    http_client: &mut CountingClient,
    out: &mut W,
) -> Result<(), Ended> {
    let login = show_started(alloc, client, redirect_uri, out)?;
    let finished = login.finish(alloc, client, http_client, callback);
    show_finished(out, http_client, &finished)
}

// Starts a login, prints its URL, and returns the login.
fn show_started<W: Write>(
    alloc: Global,
    client: &RowClient,
    redirect_uri: &RedirectUrl,
    out: &mut W,
) -> Result<Login, Ended> {
    let request = started(alloc, client)?.set_redirect_uri(redirect_uri);
    let (url, login) = url_of(alloc, request)?;
    writeln!(out, "url {}", url.as_str())?;
    Ok(login)
}

fn started(alloc: Global, client: &RowClient) -> Result<LoginRequest<'_>, Ended> {
    let scope = Scope::new(text(alloc, "read")?);
    let issuer = LoginIssuer::OwnRedirectUri(None);
    let request = Login::start(alloc, client, issuer, &mut Repeated(0))?;
    Ok(request.add_scope(scope)?)
}

// The URL of a login. An error returns the request too, so this tries once more.
fn url_of(alloc: Global, request: LoginRequest<'_>) -> Result<(Url, Login), Ended> {
    match request.url(alloc) {
        Ok(made) => Ok(made),
        Err(refused) => match refused.request.url(alloc) {
            Ok(made) => Ok(made),
            Err(refused) => Err(ended(refused.error)),
        },
    }
}

// What the fault of a URL ends a row with.
fn ended(fault: LoginUrlFault) -> Ended {
    match fault {
        LoginUrlFault::NoRedirectUri => Ended::Refused,
        LoginUrlFault::TooLong | LoginUrlFault::Memory => Ended::Starved(Want::ParseError),
    }
}

// Prints how often the HTTP client was called, the body of its request, and the result.
fn show_finished<W: Write>(
    out: &mut W,
    http_client: &CountingClient,
    finished: &Finished,
) -> Result<(), Ended> {
    writeln!(out, "calls {}", http_client.calls)?;
    if let Some(request) = &http_client.request {
        show_bytes(out, "body", request.body())?;
    }
    show_end(out, finished)
}

fn show_end<W: Write>(out: &mut W, finished: &Finished) -> Result<(), Ended> {
    match finished {
        Ok(token) => show_token(out, token),
        Err(LoginError::Token(error)) => show_failure(out, error),
        Err(LoginError::Refused(refused)) => match &refused.error {
            LoginRefusal::Redirect(RedirectError::Memory) => {
                Err(Ended::Starved(Want::RedirectError))
            }
            _ => Err(Ended::Refused),
        },
    }
}
