//! The parameters that an authorization URL adds to the query of its endpoint.

ghost use Rattle.std.specs.Prelude.{
  ◌≡◌,
  ◌⊎◌,
  false,
  true,
  None,
  Some,
  IfErr,
  IfOk,
  map,
  option_copied,
  option_map,
  string_bytes,
  unwrap_or,
};
ghost use Rattle.std.specs.List.{list_all};
ghost use Rattle.std.specs.Str.{is_utf8};
ghost use Rattle.form_urlencoded.specs.Form.{decode as decoded, plus_to_space};
ghost use Rattle.oauth2_form.specs.Pairs.{form};
ghost use Rattle.oauth2_form.specs.Query.{query_form};
ghost use Rattle.oauth2_wire.specs.ByName.{bears, read_by_name};
ghost use Rattle.oauth2_pushed_requests.specs.Parameters.{
  added_fault,
  added_pairs,
  has_name,
  is_text_pair,
  is_value,
  names_fault,
  pairs_after,
  push_fault,
  same_pair,
  sends_twice,
};
ghost use Rattle.oauth2_pushed_requests.specs.private.Read.{pair_bytes, pair_texts};
ghost use Rattle.oauth2_pushed_requests.specs.declared.push_fault.PushFault.TheVariants.{
  Memory,
  NotText,
};

use crate::push_fault::PushFault;
use form_urlencoded::raw_pairs;
use percent_encoding::percent_decode;
use std::alloc::{AllocError, Global};
use url::Url;

// A copy with a space in place of each `+`.
fn with_spaces(alloc: Global, encoded: &[u8]) -> Result<Vec<u8>, AllocError>
    ensures { IfOk result (λ bytes. bytes.items ≡ map plus_to_space encoded.now) }
{
    let spaced = encoded.iter().map(|&b| if b == b'+' { b' ' } else { b });
    spaced.collect(alloc)
}

// The bytes that an encoded name or value stands for.
fn decoded_bytes(alloc: Global, encoded: &[u8]) -> Result<Vec<u8>, AllocError>
    ensures { IfOk result (λ bytes. bytes.items ≡ decoded encoded.now) }
{
    let spaced = with_spaces(alloc, encoded)?;
    let mut bytes = Vec::new(alloc);
    percent_decode(spaced.as_slice()).append_to(&mut bytes)?;
    Ok(bytes)
}

// The decoded pairs of a query, in order.
fn read_query(alloc: Global, query: &str) -> Result<Vec<(Vec<u8>, Vec<u8>)>, AllocError>
    ensures { IfOk result (λ pairs. map pair_bytes pairs.items ≡ form query.now) }
{
    let mut pairs = Vec::new(alloc);
    for (name, value) in raw_pairs(query.as_bytes()) {
        pairs.push((decoded_bytes(alloc, name)?, decoded_bytes(alloc, value)?))?;
    }
    Ok(pairs)
}

// The decoded pairs of a URL's query.
fn read_url(alloc: Global, url: &Url) -> Result<Vec<(Vec<u8>, Vec<u8>)>, AllocError>
    ensures { IfOk result (λ pairs. map pair_bytes pairs.items ≡ query_form url.now) }
{
    read_query(alloc, url.query().unwrap_or(""))
}

fn is_same_pair(a: &(Vec<u8>, Vec<u8>), b: &(Vec<u8>, Vec<u8>)) -> bool
    ensures { result ≡ same_pair (pair_bytes a.now) (pair_bytes b.now) }
{
    a.0.as_slice() == b.0.as_slice() && a.1.as_slice() == b.1.as_slice()
}

// The pairs that follow `own` in `all`, if `all` begins with them.
fn pairs_after<'a>(
    own: &[(Vec<u8>, Vec<u8>)],
    all: &'a [(Vec<u8>, Vec<u8>)],
) -> Option<&'a [(Vec<u8>, Vec<u8>)]>
    ensures { option_map (λ after. map pair_bytes after.now) result
        ≡ pairs_after (map pair_bytes own.now) (map pair_bytes all.now) }
{
    let mut rest = all;
    for pair in own {
        match rest.split_first() {
            Some((first, others)) if is_same_pair(pair, first) => rest = others,
            _ => return None,
        }
    }
    Some(rest)
}

// A copy of the bytes as a text.
fn text_of(alloc: Global, bytes: &[u8]) -> Result<String, PushFault>
    ensures ok { IfOk result (λ text. (string_bytes text ≡ bytes.now) × (is_utf8 bytes.now ≡ true)) }
    ensures err { IfErr result (λ e. ((is_utf8 bytes.now ≡ true) × (e ≡ Memory))
        ⊎ ((is_utf8 bytes.now ≡ false) × (e ≡ NotText))) }
{
    match str::from_utf8(bytes) {
        Ok(text) => Ok(String::from_str(alloc, text)?),
        Err(_) => Err(PushFault::NotText),
    }
}

fn text_pair(alloc: Global, pair: &(Vec<u8>, Vec<u8>)) -> Result<(String, String), PushFault>
    ensures ok { IfOk result (λ texts. (pair_texts texts ≡ pair_bytes pair.now)
        × (is_text_pair (pair_bytes pair.now) ≡ true)) }
    ensures err { IfErr result (λ e. (e ≡ Memory)
        ⊎ ((e ≡ NotText) × (is_text_pair (pair_bytes pair.now) ≡ false))) }
{
    let name = text_of(alloc, pair.0.as_slice())?;
    let value = text_of(alloc, pair.1.as_slice())?;
    Ok((name, value))
}

// The pairs as texts, in order.
fn texts_of(alloc: Global, pairs: &[(Vec<u8>, Vec<u8>)]) -> Result<Vec<(String, String)>, PushFault>
    ensures ok { IfOk result (λ texts. (map pair_texts texts.items ≡ map pair_bytes pairs.now)
        × (list_all is_text_pair (map pair_bytes pairs.now) ≡ true)) }
    ensures err { IfErr result (λ e. (e ≡ Memory)
        ⊎ ((e ≡ NotText) × (list_all is_text_pair (map pair_bytes pairs.now) ≡ false))) }
{
    let mut texts = Vec::new(alloc);
    for pair in pairs {
        texts.push(text_pair(alloc, pair)?)?;
    }
    Ok(texts)
}

pub(crate) fn is_named(pair: &(String, String), name: &str) -> bool
    ensures { result ≡ bears name.now (pair_texts pair.now) }
{
    pair.0.as_str() == name
}

// Whether a parameter has this name.
fn has_name(pairs: &[(String, String)], name: &str) -> bool
    ensures { result ≡ has_name name.now (map pair_texts pairs.now) }
{
    for pair in pairs {
        if is_named(pair, name) {
            return true;
        }
    }
    false
}

// The value of the only parameter with this name.
fn sole_value<'a>(pairs: &'a [(String, String)], name: &str) -> Option<&'a str>
    ensures { option_map (λ value. value.now) result
        ≡ read_by_name name.now (map pair_texts pairs.now) }
{
    let mut found = None;
    for pair in pairs {
        if is_named(pair, name) {
            if found.is_some() {
                return None;
            }
            found = Some(pair.1.as_str());
        }
    }
    found
}

fn is_value(text: &str, value: Option<&str>) -> bool
    ensures { result ≡ is_value text.now (option_map (λ v. v.now) value.entry) }
{
    match value {
        Some(value) => value == text,
        None => false,
    }
}

// Why the client with this identifier cannot push these parameters.
fn names_fault(id: &str, pairs: &[(String, String)]) -> Option<PushFault>
    ensures { result ≡ names_fault id.now (map pair_texts pairs.now) }
{
    if has_name(pairs, "request_uri") {
        return Some(PushFault::HasRequestUri);
    }
    if has_name(pairs, "client_secret") {
        return Some(PushFault::HasClientSecret);
    }
    if is_value(id, sole_value(pairs, "client_id")) {
        return None;
    }
    Some(PushFault::OtherClient)
}

// These decoded parameters as texts, in the same order, if the client with the identifier `id` can
// push them; else the fault that says why not.
fn checked_texts(
    alloc: Global,
    id: &str,
    added: &[(Vec<u8>, Vec<u8>)],
) -> Result<Vec<(String, String)>, PushFault>
    ensures texts { IfOk result (λ texts. map pair_texts texts.items ≡ map pair_bytes added.now) }
    ensures ok { IfOk result (λ _. added_fault id.now (Some (map pair_bytes added.now)) ≡ None) }
    ensures names { IfOk result (λ texts. names_fault id.now (map pair_texts texts.items) ≡ None) }
    ensures err { IfErr result (λ e. (e ≡ Memory)
        ⊎ (added_fault id.now (Some (map pair_bytes added.now)) ≡ Some e)) }
{
    let texts = texts_of(alloc, added)?;
    match names_fault(id, texts.as_slice()) {
        None => Ok(texts),
        Some(fault) => Err(fault),
    }
}

fn is_called(pair: &(Vec<u8>, Vec<u8>), name: &str) -> bool
    ensures { result ≡ bears name.now (pair_bytes pair.now) }
{
    pair.0.as_slice() == name.as_bytes()
}

// Whether one of these decoded parameters has this name.
fn bears_name(pairs: &[(Vec<u8>, Vec<u8>)], name: &str) -> bool
    ensures { result ≡ has_name name.now (map pair_bytes pairs.now) }
{
    for pair in pairs {
        if is_called(pair, name) {
            return true;
        }
    }
    false
}

// Whether this endpoint's own query has a parameter that is sent to it beside.
fn sends_twice(alloc: Global, endpoint: &Url) -> Result<bool, AllocError>
    ensures { IfOk result (λ twice. twice ≡ sends_twice endpoint.now) }
{
    let own = read_url(alloc, endpoint)?;
    Ok(bears_name(own.as_slice(), "client_id") || bears_name(own.as_slice(), "request_uri"))
}

// The parameters that `url` adds to the query of its endpoint, if the client can push them.
fn texts_added(
    alloc: Global,
    id: &str,
    auth_url: &Url,
    url: &Url,
) -> Result<Vec<(String, String)>, PushFault>
    ensures added { IfOk result (λ texts.
        added_pairs auth_url.now url.now ≡ Some (map pair_texts texts.items)) }
    ensures ok { IfOk result (λ _.
        added_fault id.now (added_pairs auth_url.now url.now) ≡ None) }
    ensures names { IfOk result (λ texts. names_fault id.now (map pair_texts texts.items) ≡ None) }
    ensures err { IfErr result (λ e. (e ≡ Memory)
        ⊎ (added_fault id.now (added_pairs auth_url.now url.now) ≡ Some e)) }
{
    let own = read_url(alloc, auth_url)?;
    let all = read_url(alloc, url)?;
    match pairs_after(own.as_slice(), all.as_slice()) {
        Some(added) => checked_texts(alloc, id, added),
        None => Err(PushFault::OtherEndpoint),
    }
}

// The parameters that `url` adds to the query of the authorization endpoint, if the client can push
// them to `endpoint`.
pub(crate) fn pushed_pairs(
    alloc: Global,
    id: &str,
    endpoint: &Url,
    auth_url: &Url,
    url: &Url,
) -> Result<Vec<(String, String)>, PushFault>
    ensures added { IfOk result (λ texts.
        added_pairs auth_url.now url.now ≡ Some (map pair_texts texts.items)) }
    ensures ok { IfOk result (λ _.
        push_fault id.now endpoint.now auth_url.now (added_pairs auth_url.now url.now) ≡ None) }
    ensures names { IfOk result (λ texts. names_fault id.now (map pair_texts texts.items) ≡ None) }
    ensures err { IfErr result (λ e. (e ≡ Memory)
        ⊎ (push_fault id.now endpoint.now auth_url.now (added_pairs auth_url.now url.now) ≡ Some e)) }
{
    if sends_twice(alloc, endpoint)? || sends_twice(alloc, auth_url)? {
        return Err(PushFault::EndpointQuery);
    }
    texts_added(alloc, id, auth_url, url)
}
