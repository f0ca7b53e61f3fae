//! A text stored in its form encoding.

ghost use Rattle.std.specs.Prelude.{◌≡◌, ◌++◌, All, codes, IfOk, OnOk, OnErr};
ghost use Rattle.oauth2_form.specs.Pairs.{IsByte};
ghost use Rattle.form_urlencoded.specs.Form.{byte_serialize as encoded_text};

use crate::form_encoding::append_encoded_text;
use std::alloc::{AllocError, Global};
use std::marker::Model;

/// A text, stored in its form encoding. Contracts see the decoded text.
#[derive(Debug, Drop)]
pub struct EncodedText {
    text: Vec<u8>,
}

impl Model for EncodedText {
    ghost use Rattle.std.specs.Prelude.{ℕ, List};
    ghost use Rattle.form_urlencoded.specs.Form.{decode};
    ghost use Rattle.oauth2_form.specs.private.Written.{IsEncodedText};

    ghost Value = { List ℕ };

    ghost view = { λ t. decode t.text.items };

    ghost invariant = { λ t. IsEncodedText t.text.items };
}

impl EncodedText {
    /// Encodes the text.
    pub fn new(alloc: Global, s: &str) -> Result<EncodedText, AllocError>
        ensures { IfOk result (λ t. t ≡ s.now) }
    {
        let mut text = Vec::new(alloc);
        append_encoded_text(&mut text, s)?;
        Ok(EncodedText { text })
    }

    /// Appends a space and the word. If memory runs out, the text is unchanged.
    pub fn push_word(&mut self, word: &str) -> Result<(), AllocError>
        ensures ok { OnOk result (self.new ≡ self.old ++ codes " " ++ word.now) }
        ensures err { OnErr result (self.new ≡ self.old) }
    {
        append_word(&mut self.text, word)?;
        Ok(())
    }

    /// The encoded text.
    pub fn as_encoded(&self) -> &[u8]
        ensures text { result.now ≡ encoded_text self.now }
        ensures bytes { All IsByte self.now }
    {
        self.text.as_slice()
    }
}

// Appends the encoding of a space and a word. If memory runs out, the text is unchanged.
fn append_word(text: &mut Vec<u8>, word: &str) -> Result<(), AllocError>
    ensures ok { OnOk result
        (text.new.items ≡ text.old.items ++ encoded_text (codes " " ++ word.now)) }
    ensures err { OnErr result (text.new.items ≡ text.old.items) }
{
    let end = text.len();
    text.push(b'+')?;
    if let Err(refused) = append_encoded_text(text, word) {
        text.truncate(end);
        return Err(refused);
    }
    Ok(())
}
