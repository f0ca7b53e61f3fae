//! The header of an ID token (RFC 7515, section 4.1).

ghost use Rattle.std.specs.Prelude.{
  ◌≡◌,
  ℕ,
  List,
  Option,
  option_copied,
  option_map,
  string_bytes,
};
ghost use Rattle.oauth2_json.specs.Members.{present_member};
ghost use Rattle.oauth2_json.specs.Values.{text};
ghost use Rattle.oauth2_openid.specs.Token.{Header, WithOthers, with_others};
ghost use Rattle.serde_json.specs.View.{view};
ghost use Rattle.oauth2_openid.specs.Reading.{header_reading};

use oauth2_json::{FromJson, ReadError, members};
use oauth2_member_rows::{Member, Needed, ReadKind, read_value_and_others};
use serde_json::Value;
use std::alloc::Global;
use std::marker::{Model, PhantomData};

/// The header of an ID token: the algorithm and the key of the signature.
pub struct IdTokenHeader {
    pub(crate) algorithm: String,
    pub(crate) key_id: Option<String>,
}

impl Drop for IdTokenHeader {
    fn drop(self) {
        let IdTokenHeader {
            algorithm: _,
            key_id: _,
        } = self;
    }
}

// A text that may be absent, but not null.
struct PresentText;

impl ReadKind for PresentText {
    type Value = Option<String>;

    ghost Meaning = { Option (List ℕ) };

    ghost meaning = { option_map string_bytes };

    ghost reading = { present_member text };

    fn read(alloc: Global, name: &str, found: Option<Value>) -> Result<Option<String>, ReadError> {
        members::present::<String>(alloc, name, found)
    }
}

// The members of a header.
const ROWS: (Member<Needed<String>>, (Member<PresentText>, ())) = (
    Member("alg", PhantomData),
    (Member("kid", PhantomData), ()),
);

// The header, and the object of its other members.
#[derive(Drop)]
pub(crate) struct WholeHeader {
    pub(crate) header: IdTokenHeader,
    pub(crate) others: Value,
}

impl Model for IdTokenHeader {
    ghost use Rattle.std.specs.Prelude.{option_map, string_bytes};
    ghost use Rattle.oauth2_openid.specs.Token.{Header};

    ghost Value = { Header };

    ghost view = { λ h. record {
      algorithm = string_bytes h.algorithm;
      key_id = option_map string_bytes h.key_id;
    } };
}

impl IdTokenHeader {
    /// The algorithm of the signature (`alg`); `none` for a token without one.
    pub fn algorithm(&self) -> &str
        ensures { result.now ≡ self.now.algorithm }
    {
        self.algorithm.as_str()
    }

    /// The identifier of the key that made the signature (`kid`).
    pub fn key_id(&self) -> Option<&str>
        ensures { option_copied result ≡ self.now.key_id }
    {
        match &self.key_id {
            Some(key_id) => Some(key_id.as_str()),
            None => None,
        }
    }
}

impl FromJson for WholeHeader {
    ghost Meaning = { WithOthers Header };

    ghost meaning = { λ h. with_others h.header (view h.others) };

    ghost reading = { header_reading };

    fn from_json(alloc: Global, value: Value) -> Result<WholeHeader, ReadError> {
        let ((algorithm, (key_id, ())), others) = read_value_and_others(&ROWS, alloc, value)?;
        let header = IdTokenHeader { algorithm, key_id };
        Ok(WholeHeader { header, others })
    }
}
