//! A form body, seen as the list of its pairs.

ghost use Rattle.std.specs.Prelude.{◌≡◌, ℕ, List, [], ◌∷◌, ◌++◌, length, IfOk, OnOk, OnErr};
ghost use Rattle.form_urlencoded.specs.Form.{append_pair as with_pair};
ghost use Rattle.form_urlencoded.specs.Form.{byte_serialize as encoded_text, extend_pairs};
ghost use Rattle.oauth2_form.specs.Pairs.{form};
ghost use Rattle.oauth2_form.specs.private.Written.{IsWritten, JoinsForms};

use crate::encoded_text::EncodedText;
use crate::form_encoding::{append_name, append_pair};
use crate::query::append_plain_pair;
use std::alloc::{AllocError, Global};
use std::marker::Model;

/// A form that is being written. Contracts see the pairs that it decodes to.
#[derive(Debug, Drop)]
pub struct FormBody {
    text: Vec<u8>,
}

impl Model for FormBody {
    ghost use Rattle.std.specs.Prelude.{List};
    ghost use Rattle.std.specs.Coded.{coded_list, coded×, coded_ℕ};
    ghost use Rattle.form_urlencoded.specs.Form.{parse};
    ghost use Rattle.oauth2_form.specs.Pairs.{Pair};
    ghost use Rattle.oauth2_form.specs.private.Written.{IsWritten};

    ghost Value = { List Pair };

    ghost coded = { coded_list (coded× (coded_list coded_ℕ) (coded_list coded_ℕ)) };

    ghost view = { λ b. parse b.text.items };

    ghost invariant = { λ b. IsWritten b.text.items };
}

impl FormBody {
    /// A form with no pairs.
    pub fn new(alloc: Global) -> FormBody
        ensures { result ≡ [] }
    {
        FormBody {
            text: Vec::new(alloc),
        }
    }

    /// A form with no pairs, with room for `capacity` bytes.
    pub fn with_capacity(alloc: Global, capacity: usize) -> Result<FormBody, AllocError>
        ensures { IfOk result (λ body. body ≡ []) }
    {
        let text = Vec::with_capacity(alloc, capacity)?;
        Ok(FormBody { text })
    }

    /// The length of the encoded form in bytes.
    pub fn byte_len(&self) -> usize
        ensures { result ≡ length (extend_pairs [] self.now) }
    {
        self.text.len()
    }

    /// Appends a pair. If memory runs out, the form is unchanged.
    pub fn push(&mut self, name: &str, value: &str) -> Result<(), AllocError>
        ensures ok { OnOk result (self.new ≡ self.old ++ (name.now, value.now) ∷ []) }
        ensures err { OnErr result (self.new ≡ self.old) }
    {
        append_pair(&mut self.text, name, value)?;
        Ok(())
    }

    /// Appends a pair whose name needs no escape, such as `client_id`. If memory runs out, the form
    /// is unchanged.
    pub fn push_plain(&mut self, name: &str, value: &str) -> Result<(), AllocError>
        requires { encoded_text name.now ≡ name.now }
        ensures ok { OnOk result (self.new ≡ self.old ++ (name.now, value.now) ∷ []) }
        ensures err { OnErr result (self.new ≡ self.old) }
    {
        append_plain_pair(&mut self.text, name, value)?;
        Ok(())
    }

    /// The form with one more pair, whose value is already encoded. If memory runs out, the form is
    /// dropped.
    pub fn push_encoded(self, name: &str, value: &EncodedText) -> Result<FormBody, AllocError>
        ensures { IfOk result (λ body. body ≡ self ++ (name.now, value.now) ∷ []) }
    {
        let FormBody { text } = self;
        let text = append_name_and_encoded_value(text, name, value.as_encoded())?;
        Ok(FormBody { text })
    }

    /// The form with the pairs of another form appended. No pair is encoded again. If memory runs
    /// out, the form is dropped.
    pub fn append(self, other: &FormBody) -> Result<FormBody, AllocError>
        ensures { IfOk result (λ body. body ≡ self ++ other.now) }
    {
        let FormBody { text } = self;
        let text = join_forms(text, other.text.as_slice())?;
        Ok(FormBody { text })
    }

    /// The bytes of the form, `application/x-www-form-urlencoded`.
    pub fn into_bytes(self) -> Vec<u8>
        ensures text { result.items ≡ extend_pairs [] self }
        ensures form { form result.items ≡ self }
    {
        let FormBody { text: bytes } = self;
        bytes
    }
}

// The text of the form with one more pair: the name is encoded, the value is taken as it is.
fn append_name_and_encoded_value(
    text: Vec<u8>,
    name: &str,
    encoded: &[u8],
) -> Result<Vec<u8>, AllocError>
    ensures { IfOk result (λ new. (value : List ℕ) → encoded.now ≡ encoded_text value
        → new.items ≡ with_pair text.items name.now value) }
{
    let mut new = text;
    append_name(&mut new, name)?;
    new.extend_from_slice(encoded)?;
    Ok(new)
}

// The texts of two forms, joined by `&` if neither is empty.
fn join_forms(text: Vec<u8>, other: &[u8]) -> Result<Vec<u8>, AllocError>
    ensures { IfOk result (λ new. IsWritten text.items → IsWritten other.now →
        JoinsForms text.items other.now new.items) }
{
    let mut new = text;
    if other.is_empty() {
        return Ok(new);
    }
    if new.is_empty() {
        new.extend_from_slice(other)?;
        return Ok(new);
    }
    new.push(b'&')?;
    new.extend_from_slice(other)?;
    Ok(new)
}
