//! The member `id_token` of a token response (OpenID Connect Core 1.0, section 3.1.3.3).

ghost use Rattle.std.specs.Prelude.{◌≡◌, ℕ, List, Some, codes, refl, string_bytes};
ghost use Rattle.std.specs.Fmt.{DisplaysOnOk, WritesStyledOnOk};
ghost use Rattle.serde_json.specs.Data.{string};
ghost use Rattle.oauth2_json.specs.Values.{text};

use oauth2_extra_fields::{MemberValue, NamedMember, WithMember};
use oauth2_json::{ReadError, members};
use oauth2_replies::EmptyExtraTokenFields;
use serde_json::Value;
use std::alloc::{AllocError, Global};
use std::fmt;
use std::marker::Model;

/// The extra fields of a token response that carries an ID token:
/// `StandardTokenResponse<IdTokenFields, BasicTokenType>`. They hold the token as the text that
/// came, so that a wrong ID token does not make the response fail. `IdToken::from_text` reads it.
pub type IdTokenFields = WithMember<IdTokenMember, EmptyExtraTokenFields>;

/// The member `id_token`.
pub struct IdTokenMember;

impl NamedMember for IdTokenMember {
    type Value = IdTokenText;

    ghost name = { codes "id_token" };

    fn name() -> &'static str {
        "id_token"
    }
}

/// The text of an ID token, as it came.
#[derive(Drop)]
pub struct IdTokenText {
    text: String,
}

impl Model for IdTokenText {
    ghost Value = { List ℕ };

    ghost view = { λ t. string_bytes t.text };
}

impl IdTokenText {
    /// Takes any text. It is not checked.
    pub fn new(secret: String) -> IdTokenText
        ensures { result ≡ string_bytes secret }
    {
        IdTokenText { text: secret }
    }

    /// Leaking this text tells who the user is, and may let others pass for the user.
    pub fn secret(&self) -> &String
        ensures { string_bytes result.now ≡ self.now }
    {
        &self.text
    }

    /// Leaking this text tells who the user is, and may let others pass for the user.
    pub fn into_secret(self) -> String
        ensures { string_bytes result ≡ self }
    {
        self.text
    }
}

impl fmt::Debug for IdTokenText {
    ghost debug_output = { λ _. Some (codes "IdTokenText([redacted])") };

    fn fmt<W: fmt::Write>(&self, f: &mut fmt::Formatter<W>) -> fmt::Result
        ensures writes { DisplaysOnOk W.write_str_gives f.old result
            (Some (codes "IdTokenText([redacted])")) f.new }
        // Whatever options the formatter has, as under `{:#?}`.
        ensures styled { WritesStyledOnOk W.write_str_gives f.old result
            (codes "IdTokenText([redacted])") f.new }
    {
        f.write_str("IdTokenText([redacted])")
    }
}

impl MemberValue for IdTokenText {
    ghost Meaning = { List ℕ };

    ghost meaning = { λ t. t };

    ghost reading = { text };

    ghost written = { λ t. string t };

    ghost reads_back = { λ _. refl };

    fn read_member(
        alloc: Global,
        name: &str,
        found: Option<Value>,
    ) -> Result<Option<IdTokenText>, ReadError> {
        match members::optional::<String>(alloc, name, found)? {
            Some(text) => Ok(Some(IdTokenText::new(text))),
            None => Ok(None),
        }
    }

    fn member_value(
        alloc: Global,
        value: &Option<IdTokenText>,
    ) -> Result<Option<Value>, AllocError> {
        match value {
            Some(token) => Ok(Some(Value::String(String::from_str(alloc, token.text.as_str())?))),
            None => Ok(None),
        }
    }

    fn try_copy(&self, alloc: Global) -> Result<IdTokenText, AllocError> {
        let text = String::from_str(alloc, self.text.as_str())?;
        Ok(IdTokenText { text })
    }
}
