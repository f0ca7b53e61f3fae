//! The query of a URL, as a form to which pairs are appended.

ghost use Rattle.std.specs.Prelude.{◌≡◌, ◌∷◌, [], List, IfErr, IfOk, OnErr, OnOk, unwrap_or};
ghost use Rattle.form_urlencoded.specs.Form.{byte_serialize, IsPrefix};
ghost use Rattle.url.specs.Parts.{IsValid};
ghost use Rattle.url.specs.Parser.{IsOutOfRoom};
ghost use Rattle.oauth2_form.specs.Pairs.{Pair};
ghost use Rattle.oauth2_form.specs.Query.{ExtendsQuery};
ghost use Rattle.oauth2_form.specs.ExtendsForm.{ExtendsForm};

use crate::form_encoding::{append_encoded_text, append_separator};
use percent_encoding::ascii_str;
use std::alloc::{AllocError, Global};
use url::{ParseError, Url};

// How many bytes of pairs a form has room for before it reallocates.
const ROOM: usize = 256;

/// The text of a URL's query, with room for more pairs; empty if the URL has no query.
pub fn query_text(alloc: Global, url: &Url) -> Result<Vec<u8>, AllocError>
    ensures text { IfOk result (λ form. form.items ≡ unwrap_or url.now.query []) }
    ensures valid { IsValid url.now }
{
    let query = url.query().unwrap_or("");
    let mut form = Vec::with_capacity(alloc, query.len().saturating_add(ROOM))?;
    form.extend_from_slice(query.as_bytes())?;
    Ok(form)
}

/// Appends a pair whose name needs no escape, such as `client_id`. If memory runs out, the form is
/// unchanged.
pub fn append_plain_pair(form: &mut Vec<u8>, name: &str, value: &str) -> Result<(), AllocError>
    requires { byte_serialize name.now ≡ name.now }
    ensures ok { OnOk result
        (ExtendsForm form.old.items form.new.items ((name.now, value.now) ∷ [])) }
    ensures err { OnErr result (form.new.items ≡ form.old.items) }
{
    let end = form.len();
    if let Err(refused) = append_plain_name_and_value(form, name, value) {
        form.truncate(end);
        return Err(refused);
    }
    Ok(())
}

// Appends `&` unless the form is empty, then the name as it is, `=` and the encoded value. If
// memory runs out, a part of them may have been appended.
fn append_plain_name_and_value(
    form: &mut Vec<u8>,
    name: &str,
    value: &str,
) -> Result<(), AllocError>
    requires { byte_serialize name.now ≡ name.now }
    ensures ok { OnOk result
        (ExtendsForm form.old.items form.new.items ((name.now, value.now) ∷ [])) }
    ensures grows { IsPrefix form.old.items form.new.items }
{
    append_separator(form)?;
    form.extend_from_slice(name.as_bytes())?;
    form.push(b'=')?;
    append_encoded_text(form, value)?;
    Ok(())
}

/// The URL with `form` as its query; `form` is its old query with pairs appended. The error is
/// `OutOfMemory`, or `Overflow` if the URL would be too long.
pub fn with_query(url: &Url, form: &[u8]) -> Result<Url, ParseError>
    requires valid { IsValid url.now }
    requires form { (pairs : List Pair) × ExtendsForm (unwrap_or url.now.query []) form.now pairs }
    ensures ok { IfOk result (λ new. (pairs : List Pair)
        → ExtendsForm (unwrap_or url.now.query []) form.now pairs
        → ExtendsQuery url.now new pairs) }
    ensures refusal { IfErr result IsOutOfRoom }
{
    let mut new = url.clone()?;
    new.set_query(Some(ascii_str(form)))?;
    Ok(new)
}
