//! The rows of authorization URLs.

use crate::clients::RowClient;
use crate::posts::scope;
use crate::show::show_url;
use crate::urls::{authorization_url, redirect_url, redirected_url, scoped_url, typed_url};
use oauth2::url::Url;
use oauth2::{CsrfToken, ResponseType};
use oauth2_refusals_support::{Ended, text};
use std::alloc::Global;
use std::io::Write;

/// What a row sets on the authorization request.
#[derive(Clone, Copy)]
pub enum UrlRow {
    Plain,
    EmptyScope,
    OtherRedirect,
    ResponseType,
}

/// Runs a row, and prints its URL.
pub fn show_url_row<W: Write>(
    alloc: Global,
    client: &RowClient,
    row: UrlRow,
    out: &mut W,
) -> Result<(), Ended> {
    let state = CsrfToken::new(text(alloc, "csrf_token")?);
    let (url, state) = url_of(alloc, client, row, state)?;
    show_url(out, &url, &state)
}

fn url_of(
    alloc: Global,
    client: &RowClient,
    row: UrlRow,
    state: CsrfToken,
) -> Result<(Url, CsrfToken), Ended> {
    match row {
        UrlRow::Plain => authorization_url(alloc, client, state),
        UrlRow::EmptyScope => scoped(alloc, client, state),
        UrlRow::OtherRedirect => redirected(alloc, client, state),
        UrlRow::ResponseType => typed(alloc, client, state),
    }
}

fn scoped(alloc: Global, client: &RowClient, state: CsrfToken) -> Result<(Url, CsrfToken), Ended> {
    let scope = scope(alloc, "")?;
    scoped_url(alloc, client, state, scope)
}

fn redirected(
    alloc: Global,
    client: &RowClient,
    state: CsrfToken,
) -> Result<(Url, CsrfToken), Ended> {
    let redirect = redirect_url(alloc, "https://localhost/alternative")?;
    redirected_url(alloc, client, state, redirect)
}

fn typed(alloc: Global, client: &RowClient, state: CsrfToken) -> Result<(Url, CsrfToken), Ended> {
    let response_type = ResponseType::new(text(alloc, "code token")?);
    typed_url(alloc, client, state, &response_type, "foo", "bar")
}
