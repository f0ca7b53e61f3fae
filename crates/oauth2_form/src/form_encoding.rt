//! Appends texts and pairs to a form, encoded (URL Standard, 5.2).

ghost use Rattle.std.specs.Prelude.{◌≡◌, ◌≤◌, ◌+◌, ◌∷◌, [], ◌++◌, OnOk, OnErr, vec_len};
ghost use Rattle.std.specs.Prelude.{vec_capacity, List, ℕ, length};
ghost use Rattle.percent_encoding.specs.Percent.{percent_encode_byte};
ghost use Rattle.form_urlencoded.specs.Form.{append_pair, byte_serialize, equals_sign, separator};
ghost use Rattle.form_urlencoded.specs.Form.{serialize_byte, serialize_pair, IsPrefix};
ghost use Rattle.oauth2_form.specs.ExtendsForm.{ExtendsForm};
ghost use Rattle.oauth2_form.specs.FormEncoding.{form_text};
ghost use Rattle.oauth2_form.specs.Length.{usize_len};
ghost use Rattle.oauth2_form.specs.private.EncodingTable.{single_byte};

use percent_encoding::percent_encode_byte;
use std::alloc::AllocError;

// For each byte, the single byte that encodes it, or 0 if it is encoded by an escape. No byte is
// encoded as 0, since 0 itself needs an escape.
#[rattlefmt::skip]
static SINGLE_BYTES: [u8; 256] = [
    0, 0, 0, 0, 0, 0, 0, 0, 0, 0, 0, 0, 0, 0, 0, 0,
    0, 0, 0, 0, 0, 0, 0, 0, 0, 0, 0, 0, 0, 0, 0, 0,
    43, 0, 0, 0, 0, 0, 0, 0, 0, 0, 42, 0, 0, 45, 46, 0,
    48, 49, 50, 51, 52, 53, 54, 55, 56, 57, 0, 0, 0, 0, 0, 0,
    0, 65, 66, 67, 68, 69, 70, 71, 72, 73, 74, 75, 76, 77, 78, 79,
    80, 81, 82, 83, 84, 85, 86, 87, 88, 89, 90, 0, 0, 0, 0, 95,
    0, 97, 98, 99, 100, 101, 102, 103, 104, 105, 106, 107, 108, 109, 110, 111,
    112, 113, 114, 115, 116, 117, 118, 119, 120, 121, 122, 0, 0, 0, 0, 0,
    0, 0, 0, 0, 0, 0, 0, 0, 0, 0, 0, 0, 0, 0, 0, 0,
    0, 0, 0, 0, 0, 0, 0, 0, 0, 0, 0, 0, 0, 0, 0, 0,
    0, 0, 0, 0, 0, 0, 0, 0, 0, 0, 0, 0, 0, 0, 0, 0,
    0, 0, 0, 0, 0, 0, 0, 0, 0, 0, 0, 0, 0, 0, 0, 0,
    0, 0, 0, 0, 0, 0, 0, 0, 0, 0, 0, 0, 0, 0, 0, 0,
    0, 0, 0, 0, 0, 0, 0, 0, 0, 0, 0, 0, 0, 0, 0, 0,
    0, 0, 0, 0, 0, 0, 0, 0, 0, 0, 0, 0, 0, 0, 0, 0,
    0, 0, 0, 0, 0, 0, 0, 0, 0, 0, 0, 0, 0, 0, 0, 0,
];

/// Appends the encoding of the text. If memory runs out, `out` is unchanged.
pub fn append_encoded_text(out: &mut Vec<u8>, text: &str) -> Result<(), AllocError>
    ensures ok { OnOk result (out.new.items ≡ out.old.items ++ byte_serialize text.now) }
    ensures standard { OnOk result (out.new.items ≡ out.old.items ++ form_text text.now) }
    ensures err { OnErr result (out.new.items ≡ out.old.items) }
{
    let end = out.len();
    if let Err(refused) = append_encoded_bytes(out, text.as_bytes()) {
        out.truncate(end);
        return Err(refused);
    }
    Ok(())
}

/// Appends a pair to a form. If memory runs out, the form is unchanged.
pub fn append_pair(form: &mut Vec<u8>, name: &str, value: &str) -> Result<(), AllocError>
    ensures ok { OnOk result (form.new.items ≡ append_pair form.old.items name.now value.now) }
    ensures extends { OnOk result
        (ExtendsForm form.old.items form.new.items ((name.now, value.now) ∷ [])) }
    ensures err { OnErr result (form.new.items ≡ form.old.items) }
{
    let end = form.len();
    if let Err(refused) = append_name_and_value(form, name, value) {
        form.truncate(end);
        return Err(refused);
    }
    Ok(())
}

/// The length in bytes of the form-encoded text, or `usize::MAX` if it is longer.
pub fn encoded_len(text: &str) -> usize
    ensures { result ≡ usize_len (byte_serialize text.now) }
{
    let mut len: usize = 0;
    for &byte in text.as_bytes() {
        len = len.saturating_add(byte_len(byte));
    }
    len
}

/// The length in bytes of a form of `form_len` bytes after one more pair, whose encoded value has
/// `value_len` bytes; `usize::MAX` if it is longer.
pub fn len_with_pair(form_len: usize, name: &str, value_len: usize) -> usize
    ensures { (form value : List ℕ) → form_len ≡ usize_len form
        → value_len ≡ usize_len (byte_serialize value)
        → result ≡ usize_len (append_pair form name.now value) }
{
    let separator = if form_len == 0 { 0 } else { "&".len() };
    let name = form_len
        .saturating_add(separator)
        .saturating_add(encoded_len(name));
    name.saturating_add("=".len()).saturating_add(value_len)
}

// The length in bytes of the encoding of one byte: 1 or 3.
fn byte_len(byte: u8) -> usize
    ensures { result ≡ length (serialize_byte byte) }
{
    if single_byte(byte) == 0 { 3 } else { 1 }
}

// Appends `&` unless the form is empty, then the name, `=` and the value. If memory runs out, a
// part of them may have been appended.
fn append_name_and_value(form: &mut Vec<u8>, name: &str, value: &str) -> Result<(), AllocError>
    ensures ok { OnOk result (form.new.items
        ≡ form.old.items ++ separator form.old.items ++ serialize_pair (name.now, value.now)) }
    ensures grows { IsPrefix form.old.items form.new.items }
{
    append_name(form, name)?;
    append_encoded_bytes(form, value.as_bytes())
}

// Appends `&` unless the form is empty, then the name and `=`. If memory runs out, a part of them
// may have been appended.
pub(crate) fn append_name(form: &mut Vec<u8>, name: &str) -> Result<(), AllocError>
    ensures ok { OnOk result (form.new.items
        ≡ form.old.items ++ separator form.old.items
        ++ byte_serialize name.now ++ equals_sign ∷ []) }
    ensures grows { IsPrefix form.old.items form.new.items }
{
    append_separator(form)?;
    append_encoded_bytes(form, name.as_bytes())?;
    form.push(b'=')?;
    Ok(())
}

// Appends `&` unless the form is empty.
pub(crate) fn append_separator(form: &mut Vec<u8>) -> Result<(), AllocError>
    ensures ok { OnOk result (form.new.items ≡ form.old.items ++ separator form.old.items) }
    ensures grows { IsPrefix form.old.items form.new.items }
{
    if !form.is_empty() {
        form.push(b'&')?;
    }
    Ok(())
}

// Appends the encoding of the bytes. If memory runs out, a part of it may have been appended. When
// `reserve` moves a `Vec`, it at least doubles its capacity, so many short texts cause no more
// moves than one long text.
fn append_encoded_bytes(out: &mut Vec<u8>, bytes: &[u8]) -> Result<(), AllocError>
    ensures ok { OnOk result (out.new.items ≡ out.old.items ++ byte_serialize bytes.now) }
    ensures grows { IsPrefix out.old.items out.new.items }
{
    let mut rest = bytes;
    out.reserve(rest.len())?;
    while let Some((&byte, tail)) = rest.split_first() {
        let single = single_byte(byte);
        if single == 0 {
            append_escape(out, byte, tail.len())?;
        } else {
            out.push_reserved(single);
        }
        rest = tail;
    }
    Ok(())
}

#[inline(always)]
fn single_byte(byte: u8) -> u8
    ensures { result ≡ single_byte byte }
{
    SINGLE_BYTES[usize::from(byte)]
}

// Appends the escape of the byte, and reserves room for the `left` bytes that are still to encode.
#[inline(never)]
fn append_escape(out: &mut Vec<u8>, byte: u8, left: usize) -> Result<(), AllocError>
    ensures ok { OnOk result (out.new.items ≡ out.old.items ++ percent_encode_byte byte) }
    ensures room { OnOk result (vec_len out.new + left ≤ vec_capacity out.new) }
    ensures grows { IsPrefix out.old.items out.new.items }
{
    out.extend_from_slice(percent_encode_byte(byte).as_bytes())?;
    out.reserve(left)
}
