//! A JSON Web Key Set (RFC 7517, 5), and the check of a token's signature with it.

ghost use Rattle.std.specs.Prelude.{
  ◌≡◌,
  ◌↔◌,
  IfErr,
  IfOk,
  IsOk,
  codes,
  length,
  nat_le,
  option_copied,
  option_map,
};
ghost use Rattle.oauth2_json.specs.Members.{needed_member};
ghost use Rattle.serde_json.specs.View.{view, items_view};
ghost use Rattle.oauth2_json.specs.Reading.{ReadsAs};
ghost use Rattle.oauth2_openid.specs.Seen.{token_of};
ghost use Rattle.oauth2_keys.specs.Choice.{chosen_key};
ghost use Rattle.oauth2_keys.specs.KeySet.{
  keys_reading,
  listed_keys,
  set_reading,
  set_reading_within,
};
ghost use Rattle.oauth2_keys.specs.Verified.{ChoosesAs, IsRefusal, IsVerified};

use crate::algorithm::SignatureAlgorithm;
use crate::choice::chosen_key;
use crate::json_web_key::{ListedKey, read_listed_key};
use crate::public_key::PublicKey;
use crate::signature_error::SignatureError;
use oauth2_json::{FromJson, ParseCause, ReadError, members};
use oauth2_openid::IdToken;
use serde_json::Value;
use std::alloc::{AllocError, Global};
use std::marker::Model;

/// The keys of an issuer, as the document at its `jwks_uri` lists them. Read it by `from_body`.
#[derive(Drop)]
pub struct JsonWebKeySet {
    keys: Vec<ListedKey>,
}

impl Model for JsonWebKeySet {
    ghost use Rattle.std.specs.Prelude.{List};
    ghost use Rattle.oauth2_keys.specs.declared.json_web_key.ListedKey.{ListedKey};

    ghost Value = { List ListedKey };

    ghost view = { λ s. s.keys.items };
}

fn listed_keys(alloc: Global, items: &[Value]) -> Result<Vec<ListedKey>, AllocError>
    ensures { IfOk result (λ keys. keys.items ≡ listed_keys (items_view items.now)) }
{
    let mut keys = Vec::new(alloc);
    for item in items {
        keys.push(read_listed_key(alloc, item)?)?;
    }
    Ok(keys)
}

// Whether these values are at most `limit` keys.
#[tactic(auto, using(crate::proofs::Lists::as_many))]
fn are_within(items: &[Value], limit: usize) -> bool
    ensures { result ≡ nat_le (length (listed_keys (items_view items.now))) limit }
{
    items.len() <= limit
}

// The keys of the member `keys`, which has at most `limit` of them.
fn keys_member(
    alloc: Global,
    found: Option<Value>,
    limit: usize,
) -> Result<Vec<ListedKey>, ReadError>
    ensures { ReadsAs (λ keys. keys.items) result
        (needed_member (keys_reading limit) (codes "keys") (option_map view found)) }
{
    match found {
        Some(Value::Array(items)) => if are_within(items.as_slice(), limit) {
            Ok(listed_keys(alloc, items.as_slice())?)
        } else {
            Err(ReadError::at(alloc, "keys", ParseCause::OutOfRange))
        },
        Some(_) => Err(ReadError::at(alloc, "keys", ParseCause::WrongType)),
        None => Err(ReadError::at(alloc, "keys", ParseCause::Missing)),
    }
}

impl FromJson for JsonWebKeySet {
    ghost use Rattle.std.specs.Prelude.{List};
    ghost use Rattle.oauth2_keys.specs.declared.json_web_key.ListedKey.{ListedKey};

    ghost Meaning = { List ListedKey };

    ghost meaning = { λ s. s };

    ghost reading = { set_reading };

    fn from_json(alloc: Global, value: Value) -> Result<JsonWebKeySet, ReadError> {
        JsonWebKeySet::from_json_with_limit(alloc, value, 100)
    }
}

impl JsonWebKeySet {
    /// Reads a set of at most `limit` keys; `from_json` and `from_body` read one of at most 100. If
    /// there are more, that is a fault of the member `keys` (`OutOfRange`). A key that cannot be used
    /// keeps its `kid` and its fault, and no copy of its other members.
    pub fn from_json_with_limit(
        alloc: Global,
        value: Value,
        limit: usize,
    ) -> Result<JsonWebKeySet, ReadError>
        ensures { ReadsAs (λ s. s) result (set_reading_within limit (view value)) }
    {
        let mut members = members::of_object(alloc, value)?;
        let found = members::take(&mut members, "keys");
        let keys = keys_member(alloc, found, limit)?;
        Ok(JsonWebKeySet { keys })
    }

    /// The keys, in the order of the document.
    pub fn keys(&self) -> &[ListedKey]
        ensures { result.now ≡ self.now }
    {
        self.keys.as_slice()
    }

    /// The key with which a token with this algorithm and this key identifier is checked: the only
    /// one of the set that fits both. The token's other header members are ignored.
    pub fn chosen_key(
        &self,
        algorithm: SignatureAlgorithm,
        key_id: Option<&str>,
    ) -> Result<&PublicKey, SignatureError>
        ensures { ChoosesAs (λ key. key.now) result
            (chosen_key self.now algorithm (option_copied key_id.entry)) }
    {
        chosen_key(self.keys.as_slice(), algorithm, key_id)
    }

    /// Whether the token has the algorithm that the client registered, and no `crit` in its header
    /// (RFC 7515, 4.1.11), and is signed by the key that `chosen_key` returns for it.
    pub fn verify(
        &self,
        token: &IdToken,
        algorithm: SignatureAlgorithm,
    ) -> Result<(), SignatureError>
        ensures verified { IsOk result ↔ IsVerified self.now algorithm (token_of token.now) }
        ensures refused { IfErr result (IsRefusal self.now algorithm (token_of token.now)) }
    {
        if token.header().algorithm() != algorithm.name() {
            return Err(SignatureError::OtherAlgorithm);
        }
        if token.other_header_members().get("crit").is_some() {
            return Err(SignatureError::CriticalExtension);
        }
        let key = self.chosen_key(algorithm, token.header().key_id())?;
        if key.verify(algorithm, token.signed_part().as_bytes(), token.signature()) {
            Ok(())
        } else {
            Err(SignatureError::WrongSignature)
        }
    }
}
