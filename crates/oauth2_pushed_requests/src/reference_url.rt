//! The authorization URL of a request that was pushed (RFC 9126, section 4).

ghost use Rattle.std.specs.Prelude.{◌≡◌, ◌↔◌, ◌∷◌, [], Err, IfErr, IfOk, IsTrue, List, Some, ℕ};
ghost use Rattle.std.specs.Prelude.{unwrap_or};
ghost use Rattle.form_urlencoded.specs.Form.{extend_pairs};
ghost use Rattle.url.specs.Parser.{IsOutOfRoom};
ghost use Rattle.url.specs.Parts.{IsValid};
ghost use Rattle.url.specs.Setters.{append_query_pairs};
ghost use Rattle.oauth2_form.specs.ExtendsForm.{ExtendsForm};
ghost use Rattle.oauth2_form.specs.Length.{usize_len};
ghost use Rattle.oauth2_form.specs.Query.{ExtendsQuery};
ghost use Rattle.oauth2_requests.specs.Authorization.{IsTooLong};
ghost use Rattle.oauth2_pushed_requests.specs.Pushed.{reference_pairs};

use oauth2_form::{append_plain_pair, encoded_len, len_with_pair, query_text, with_query};
use std::alloc::{AllocError, Global};
use url::{ParseError, Position, Url};

// The URL of the endpoint with the two parameters after its own query. Whether it would be too long
// is tested first, which allocates nothing.
pub(crate) fn reference_url(
    alloc: Global,
    endpoint: &Url,
    client_id: &str,
    request_uri: &str,
) -> Result<Url, ParseError>
    ensures ok { let pairs = reference_pairs client_id.now request_uri.now in
        IfOk result (λ url. ExtendsQuery endpoint.now url pairs) }
    ensures refusal { IfErr result IsOutOfRoom }
    ensures overflow { let pairs = reference_pairs client_id.now request_uri.now in
        result ≡ Err ParseError.Overflow ↔ IsTooLong (append_query_pairs endpoint.now pairs) }
{
    if is_too_long(endpoint, query_len(endpoint, client_id, request_uri)) {
        return Err(ParseError::Overflow);
    }
    match extended_url(alloc, endpoint, client_id, request_uri) {
        Ok(url) => Ok(url),
        Err(_) => Err(ParseError::OutOfMemory),
    }
}

fn extended_url(
    alloc: Global,
    endpoint: &Url,
    client_id: &str,
    request_uri: &str,
) -> Result<Url, ParseError>
    ensures { let pairs = reference_pairs client_id.now request_uri.now in
        IfOk result (λ url. ExtendsQuery endpoint.now url pairs) }
{
    match extended_query(alloc, endpoint, client_id, request_uri) {
        Ok(query) => with_query(endpoint, query.as_slice()),
        Err(AllocError) => Err(ParseError::OutOfMemory),
    }
}

// The query of the endpoint with the two parameters appended.
fn extended_query(
    alloc: Global,
    endpoint: &Url,
    client_id: &str,
    request_uri: &str,
) -> Result<Vec<u8>, AllocError>
    ensures query { let pairs = reference_pairs client_id.now request_uri.now in
        IfOk result (λ query. ExtendsForm (unwrap_or endpoint.now.query []) query.items pairs) }
    ensures valid { IsValid endpoint.now }
{
    let mut query = query_text(alloc, endpoint)?;
    append_plain_pair(&mut query, "client_id", client_id)?;
    append_plain_pair(&mut query, "request_uri", request_uri)?;
    Ok(query)
}

// The length of that query in bytes, or `usize::MAX` if it is longer. Allocates nothing.
fn query_len(endpoint: &Url, client_id: &str, request_uri: &str) -> usize
    ensures { let query = unwrap_or endpoint.now.query [] in
        result ≡ usize_len (extend_pairs query (reference_pairs client_id.now request_uri.now)) }
{
    let len = with_pair(own_query(endpoint).len(), "client_id", client_id);
    with_pair(len, "request_uri", request_uri)
}

// The length `len` with one more parameter.
fn with_pair(len: usize, name: &str, value: &str) -> usize
    ensures { (query : List ℕ) → len ≡ usize_len query
        → result ≡ usize_len (extend_pairs query ((name.now, value.now) ∷ [])) }
{
    len_with_pair(len, name, encoded_len(value))
}

// The query of a URL, or the empty text if it has none.
fn own_query(url: &Url) -> &str
    ensures { result.now ≡ unwrap_or url.now.query [] }
{
    url.query().unwrap_or("")
}

// Whether the URL with a query of `query_len` bytes would be longer than a `Url` can be.
fn is_too_long(url: &Url, query_len: usize) -> bool
    ensures longer { (query : List ℕ) → query_len ≡ usize_len query
        → (IsTrue result ↔ IsTooLong (record url.now { query = Some query })) }
    ensures valid { IsValid url.now }
{
    let fragment = url.as_str().len() - url.index(Position::AfterQuery);
    let others = url.index(Position::AfterPath) + "?".len() + fragment;
    others.saturating_add(query_len) > u32::MAX as usize
}
