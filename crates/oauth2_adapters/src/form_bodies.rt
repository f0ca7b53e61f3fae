//! Bodies that are forms instead of JSON.

ghost use Rattle.std.specs.Prelude.{◌≡◌, ◌∷◌, ◌++◌, [], map, option_map, codes, string_bytes};
ghost use Rattle.std.specs.Prelude.{ℕ, List, not, ◌||◌, bytes_eq, IfOk, OnOk};
ghost use Rattle.std.specs.Bool.{OnTrue};
ghost use Rattle.std.specs.Str.Lossy.{utf8_lossy};
ghost use Rattle.form_urlencoded.specs.Form.{decode as decoded};
ghost use Rattle.http_header.specs.HeaderMap.{ContainsKey};
ghost use Rattle.json.specs.Token.{key};
ghost use Rattle.json.specs.Tree.{json_tokens};
ghost use Rattle.oauth2_form.specs.Pairs.{form};
ghost use Rattle.oauth2_wire.specs.ServerView.{pair_texts, shown_pair};
ghost use Rattle.oauth2_adapters.specs.FormBodies.{form_members, form_object, form_value};
ghost use Rattle.oauth2_adapters.specs.FormBodies.{is_form, pairs_of, repeats};
ghost use Rattle.oauth2_adapters.specs.Reply.{reply_values};
ghost use Rattle.oauth2_adapters.specs.Rewriting.{object_text};
ghost use Rattle.oauth2_adapters.specs.private.Names.{has_name};

use crate::numbers_as_texts::is_digits;
use crate::other_media_types::{as_json, has_type_of};
use crate::reply_adapter::ReplyAdapter;
use crate::rewriting::{close, opened_writer, with_body};
use form_urlencoded::{decode, raw_pairs};
use json::Writer;
use oauth2_wire::HttpResponse;
use std::alloc::{AllocError, Global};
use std::collections::BTreeSet;

/// Turns a form into a JSON object. The token endpoint of GitHub replies with a form if no `Accept`
/// is sent.
#[derive(Clone, Copy, Debug, PartialEq, Eq)]
pub struct FormBodies;

impl ReplyAdapter for FormBodies {
    ghost use Rattle.oauth2_adapters.specs.FormBodies.{form_as_json, is_form};

    ghost adapted = { λ _. form_as_json };

    ghost needs_memory = { λ _. is_form };

    fn adapt(&self, alloc: Global, reply: HttpResponse) -> Result<HttpResponse, AllocError> {
        if !is_form(&reply) {
            return Ok(reply);
        }
        match form_object(alloc, reply.body()) {
            Ok(Some(body)) => Ok(with_body(as_json(reply), body)),
            Ok(None) => Ok(reply),
            Err(error) => Err(error),
        }
    }
}

fn is_form(reply: &HttpResponse) -> bool
    ensures value { result ≡ is_form (reply_values reply.now) }
    ensures found { OnTrue result
        (ContainsKey (reply_values reply.now).headers (codes "content-type")) }
{
    has_type_of(&["application/x-www-form-urlencoded"], reply)
}

// The text of the JSON object for a form, unless two of its pairs have the same name.
fn form_object(alloc: Global, body: &[u8]) -> Result<Option<Vec<u8>>, AllocError>
    ensures { IfOk result (λ new. option_map (λ v. v.items) new
        ≡ form_object (pairs_of body.now)) }
{
    let pairs = read_form(alloc, body)?;
    if repeats(alloc, &pairs)? {
        return Ok(None);
    }
    Ok(Some(object_of(alloc, body.len(), &pairs)?))
}

// The decoded text of a name or a value, with U+FFFD in place of what is not UTF-8.
fn decode_text(alloc: Global, encoded: &[u8]) -> Result<String, AllocError>
    ensures { IfOk result (λ text. string_bytes text ≡ utf8_lossy (decoded encoded.now)) }
{
    decode(alloc, encoded)?.into_owned(alloc)
}

// The decoded pairs of a body.
fn read_form(alloc: Global, body: &[u8]) -> Result<Vec<(String, String)>, AllocError>
    ensures { IfOk result (λ pairs. map pair_texts pairs.items ≡ map shown_pair (form body.now)) }
{
    let mut pairs = Vec::new(alloc);
    for (name, value) in raw_pairs(body) {
        pairs.push((decode_text(alloc, name)?, decode_text(alloc, value)?))?;
    }
    Ok(pairs)
}

// Whether two pairs have the same name. Each name is looked up once among those behind it, in a
// tree: whatever the names are, n of them take some n times log n comparisons.
fn repeats(alloc: Global, pairs: &[(String, String)]) -> Result<bool, AllocError>
    ensures { IfOk result (λ found. found ≡ repeats (map pair_texts pairs.now)) }
{
    let mut names: BTreeSet<&str> = BTreeSet::new(alloc);
    let mut index = pairs.len();
    while index > 0 {
        index -= 1;
        if !add_name(&mut names, pairs[index].0.as_str())? {
            return Ok(true);
        }
    }
    Ok(false)
}

// Adds a name. Returns whether it was not among them.
fn add_name<'a>(names: &mut BTreeSet<&'a str>, name: &'a str) -> Result<bool, AllocError>
    ensures added { IfOk result (λ added. added ≡ not (has_name names.old name.now)) }
    ensures names { OnOk result ((other : List ℕ) → has_name names.new other
        ≡ (bytes_eq name.now other || has_name names.old other)) }
{
    Ok(names.insert(name)?)
}

fn object_of(alloc: Global, room: usize, pairs: &[(String, String)]) -> Result<Vec<u8>, AllocError>
    ensures { IfOk result (λ v. v.items ≡ object_text (form_members (map pair_texts pairs.now))) }
{
    let mut writer = opened_writer(alloc, room)?;
    for pair in pairs {
        write_pair(&pair.0, &pair.1, &mut writer)?;
    }
    close(&mut writer)?;
    Ok(writer.into_inner())
}

fn write_pair(name: &str, value: &str, writer: &mut Writer) -> Result<(), AllocError>
    ensures tokens { OnOk result (writer.new.tokens ≡ writer.old.tokens
        ++ key name.now ∷ [] ++ json_tokens (form_value name.now value.now)) }
    ensures before { OnOk result (writer.new.before ≡ writer.old.before) }
{
    writer.key(name)?;
    if name == "expires_in" && is_digits(value) {
        writer.number(value)
    } else {
        writer.string(value)
    }
}
