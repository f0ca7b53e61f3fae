//! A JSON object that is written again, with new values for some members.

ghost use Rattle.std.specs.Prelude.{◌≡◌, ◌<◌, ◌∷◌, ◌++◌, [], Some, false, length, option_map};
ghost use Rattle.std.specs.Prelude.{IfOk, OnErr, OnOk, OnSome, IsTrue};
ghost use Rattle.json.specs.Token.{begin_object, end_object};
ghost use Rattle.json.specs.Json.{members, value};
ghost use Rattle.json.specs.Tree.{HasNumbers};
ghost use Rattle.json.specs.Value.{value_view};
ghost use Rattle.oauth2_adapters.specs.Objects.{object_in, object_of};
ghost use Rattle.oauth2_adapters.specs.Reply.{reply_values};
ghost use Rattle.oauth2_adapters.specs.Rewriting.{new_body, with_changes, has_body};
ghost use Rattle.oauth2_adapters.specs.private.Tokens.{object_at};
ghost use Rattle.oauth2_adapters.specs.private.Written.{WritesValue, WritesMember};
ghost use Rattle.oauth2_adapters.specs.private.Written.{progress_in, text_at_end};

use crate::first::opens_object;
use http::Response;
use json::{Error, Reader, Scratch, Writer};
use oauth2_wire::HttpResponse;
use std::alloc::{AllocError, Global};

// How deep the value of a member may nest: the whole body may nest 127 deep.
const DEPTH: usize = 126;

// A change to the members of an object.
pub(crate) trait MemberChange {
    ghost use Rattle.oauth2_adapters.specs.Rewriting.{Change};

    ghost change: { Self → Change };

    // Writes the value, or what it becomes under that name. Returns whether it changed.
    fn write(
        &self,
        alloc: Global,
        name: &str,
        value: &json::Value<'_>,
        writer: &mut Writer,
    ) -> Result<bool, AllocError>
        requires { HasNumbers (value_view value.now) }
        ensures { IfOk result (λ changed. WritesValue
            (change self.now name.now (value_view value.now)) (value_view value.now)
            changed writer.old writer.new) };
}

// The reply with the members of its object changed.
pub(crate) fn adapt_reply<M: MemberChange>(
    alloc: Global,
    change: &M,
    reply: HttpResponse,
) -> Result<HttpResponse, AllocError>
    ensures reply { IfOk result (λ new.
        reply_values new ≡ with_changes (M.change change.now) (reply_values reply)) }
    ensures memory { OnErr result (IsTrue (has_body (reply_values reply))) }
{
    match new_body(alloc, change, reply.body()) {
        Ok(Some(body)) => Ok(with_body(reply, body)),
        Ok(None) => Ok(reply),
        Err(error) => Err(error),
    }
}

// The reply with another body.
pub(crate) fn with_body(reply: HttpResponse, body: Vec<u8>) -> HttpResponse
    ensures { reply_values result ≡ record (reply_values reply) { body = body.items } }
{
    let (head, _) = reply.into_parts();
    Response::from_parts(head, body)
}

// The new body, if the body is one object and at least one of its members changes. In memory are
// the body, the buffer of the reader and the new body, each as long as the body, and the current
// member.
pub(crate) fn new_body<M: MemberChange>(
    alloc: Global,
    change: &M,
    body: &[u8],
) -> Result<Option<Vec<u8>>, AllocError>
    ensures value { IfOk result (λ new. option_map (λ v. v.items) new
        ≡ new_body (M.change change.now) (object_of body.now)) }
    ensures memory { OnErr result (0 < length body.now) }
{
    match std::str::from_utf8(body) {
        Ok(text) => new_text(alloc, change, text),
        Err(_) => Ok(None),
    }
}

fn new_text<M: MemberChange>(
    alloc: Global,
    change: &M,
    text: &str,
) -> Result<Option<Vec<u8>>, AllocError>
    ensures value { IfOk result (λ new. option_map (λ v. v.items) new
        ≡ new_body (M.change change.now) (object_in text.now)) }
    ensures memory { OnErr result (0 < length text.now) }
{
    let mut scratch = Scratch::new(alloc);
    let mut reader = Reader::new(text, &mut scratch)?;
    rewrite_members(alloc, change, text.len(), &mut reader)
}

fn rewrite_members<M: MemberChange>(
    alloc: Global,
    change: &M,
    room: usize,
    reader: &mut Reader<'_>,
) -> Result<Option<Vec<u8>>, AllocError>
    ensures value { IfOk result (λ new. option_map (λ v. v.items) new
        ≡ new_body (M.change change.now) (object_at reader.old)) }
    ensures memory { OnErr result (0 < length reader.old) }
{
    if !opens_object(reader) {
        return Ok(None);
    }
    let mut writer = opened_writer(alloc, room)?;
    match write_members(alloc, change, reader, &mut writer) {
        Ok(Some(changed)) => Ok(text_if_changed(changed, reader, writer)),
        Ok(None) => Ok(None),
        Err(error) => Err(error),
    }
}

// A writer that has written the opening brace of an object.
pub(crate) fn opened_writer(alloc: Global, room: usize) -> Result<Writer, AllocError>
    ensures { IfOk result (λ w. (w.before ≡ []) × (w.tokens ≡ begin_object ∷ [])) }
{
    let mut writer = Writer::new(Vec::with_capacity(alloc, room)?);
    writer.begin_object()?;
    Ok(writer)
}

// The written text, if a member changed and no token follows.
fn text_if_changed(changed: bool, reader: &mut Reader<'_>, writer: Writer) -> Option<Vec<u8>>
    requires { writer.before ≡ [] }
    ensures { option_map (λ v. v.items) result
        ≡ text_at_end (Some ((changed, writer.tokens), reader.old)) }
{
    if !changed {
        return None;
    }
    match reader.next() {
        None => Some(writer.into_inner()),
        Some(_) => None,
    }
}

// Writes the next members and their closing brace. Returns whether a member changed, or `None` if
// what follows is not a list of members.
fn write_members<M: MemberChange>(
    alloc: Global,
    change: &M,
    reader: &mut Reader<'_>,
    writer: &mut Writer,
) -> Result<Option<bool>, AllocError>
    ensures value { IfOk result (λ found.
        progress_in (M.change change.now) false writer.old.tokens
        (members (value 126) (length reader.old) reader.old)
        ≡ option_map (λ changed. ((changed, writer.new.tokens), reader.new)) found) }
    ensures before { IfOk result (λ found.
        OnSome found (writer.new.before ≡ writer.old.before)) }
{
    let mut changed = false;
    'members: while let Ok(next) = reader.next_key() {
        let Some(name) = next else {
            close(writer)?;
            return Ok(Some(changed));
        };
        match write_member(alloc, change, name, reader, writer) {
            Ok(Some(changes)) => changed = changed || changes,
            Ok(None) => return Ok(None),
            Err(error) => return Err(error),
        }
    }
    Ok(None)
}

// Writes the closing brace of an object.
pub(crate) fn close(writer: &mut Writer) -> Result<(), AllocError>
    ensures tokens { OnOk result
        (writer.new.tokens ≡ writer.old.tokens ++ end_object ∷ []) }
    ensures before { OnOk result (writer.new.before ≡ writer.old.before) }
{
    writer.end_object()
}

// Writes the member with that name and the next value. Returns whether the value changed, or `None`
// if no value follows.
fn write_member<M: MemberChange>(
    alloc: Global,
    change: &M,
    name: &str,
    reader: &mut Reader<'_>,
    writer: &mut Writer,
) -> Result<Option<bool>, AllocError>
    ensures { IfOk result (λ found. WritesMember (M.change change.now name.now) name.now
        reader.old reader.new writer.old writer.new found) }
{
    match json::Value::read(alloc, reader, DEPTH) {
        Ok(value) => {
            writer.key(name)?;
            Ok(Some(change.write(alloc, name, &value, writer)?))
        }
        Err(Error::OutOfMemory) => Err(AllocError),
        Err(_) => Ok(None),
    }
}
