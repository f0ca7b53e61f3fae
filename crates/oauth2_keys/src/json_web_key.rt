//! JSON Web Keys, and how each is read.

ghost use Rattle.std.specs.Prelude.{
  ◌≡◌,
  ◌==◌,
  Ok,
  IfOk,
  length,
  map,
  option_copied,
  option_map,
  string_bytes,
};
ghost use Rattle.serde_json.specs.View.{view};
ghost use Rattle.oauth2_keys.specs.Choice.{is_for};
ghost use Rattle.oauth2_keys.specs.Key.{
  coordinate,
  curve_key,
  eddsa_key,
  elliptic_key,
  key_reading,
  octet_key,
  public_key,
  rsa_key,
  told_key_id,
};
ghost use Rattle.oauth2_keys.specs.KeySet.{listed_key};
ghost use Rattle.oauth2_keys.specs.Members.{KeyReadsAs};

use crate::algorithm::SignatureAlgorithm;
use crate::choice::{fits_algorithm, fits_key_id, fits_operations, fits_type, fits_use};
use crate::curves::curve_named;
use crate::key_error::{KeyError, KeyMember};
use crate::key_members::{KeyReadError, is_private, needed_text, octets, own_text, own_texts};
use crate::public_key::PublicKey;
use ecdsa_signatures::{EcdsaPublicKey, EllipticCurve};
use eddsa_signatures::EddsaPublicKey;
use rsa_signatures::RsaPublicKey;
use serde_json::Value;
use std::alloc::{AllocError, Global};
use std::marker::Model;

/// A JSON Web Key (RFC 7517, 4) that signatures can be checked with.
pub struct JsonWebKey {
    key_use: Option<String>,
    operations: Option<Vec<String>>,
    algorithm: Option<String>,
    key_id: Option<String>,
    // An RSA key has some three kilobytes. A key that cannot be used does not take their place.
    public_key: Box<PublicKey>,
}

impl Drop for JsonWebKey {
    fn drop(self) {
        let JsonWebKey {
            key_use: _,
            operations: _,
            algorithm: _,
            key_id: _,
            public_key: _,
        } = self;
    }
}

/// A key of a set that cannot be used, and why.
#[derive(Drop)]
pub struct UnusableKey {
    key_id: Option<String>,
    fault: KeyError,
}

/// A key of a set. A key that cannot be used does not make the set unusable (RFC 7517, 5).
#[derive(Drop)]
pub enum ListedKey {
    /// Signatures can be checked with it.
    Usable(JsonWebKey),
    /// It cannot be used.
    Unusable(UnusableKey),
}

impl Model for JsonWebKey {
    ghost use Rattle.std.specs.Prelude.{map, option_map, string_bytes};
    ghost use Rattle.oauth2_keys.specs.Key.{Key};

    ghost Value = { Key };

    ghost view = { λ k. record {
      key_use = option_map string_bytes k.key_use;
      operations = option_map (λ list. map string_bytes list.items) k.operations;
      algorithm = option_map string_bytes k.algorithm;
      key_id = option_map string_bytes k.key_id;
      public_key = k.public_key.value;
    } };
}

impl Model for UnusableKey {
    ghost use Rattle.std.specs.Prelude.{option_map, string_bytes};
    ghost use Rattle.oauth2_keys.specs.Key.{Unusable};

    ghost Value = { Unusable };

    ghost view = { λ k. record {
      key_id = option_map string_bytes k.key_id;
      fault = k.fault;
    } };
}

fn rsa_key(alloc: Global, key: &Value) -> Result<PublicKey, KeyReadError>
    ensures { KeyReadsAs (λ k. k) result (rsa_key (view key.now)) }
{
    let modulus = octets(alloc, key, KeyMember::Modulus)?;
    let exponent = octets(alloc, key, KeyMember::Exponent)?;
    match RsaPublicKey::new(modulus.as_slice(), exponent.as_slice()) {
        Ok(key) => Ok(PublicKey::Rsa(key)),
        Err(error) => Err(KeyReadError::Fault(KeyError::Rsa(error))),
    }
}

fn coordinate(
    alloc: Global,
    key: &Value,
    curve: EllipticCurve,
    member: KeyMember,
) -> Result<Vec<u8>, KeyReadError>
    ensures { KeyReadsAs (λ c. c.items) result (coordinate curve member (view key.now)) }
{
    let octets = octets(alloc, key, member)?;
    if octets.len() == curve.coordinate_size() {
        Ok(octets)
    } else {
        Err(KeyReadError::Fault(KeyError::WrongSize(member)))
    }
}

// The key on this curve with the coordinates in `x` and `y` (RFC 7518, 6.2.1).
fn curve_key(alloc: Global, key: &Value, curve: EllipticCurve) -> Result<PublicKey, KeyReadError>
    ensures { KeyReadsAs (λ k. k) result (curve_key curve (view key.now)) }
{
    let x = coordinate(alloc, key, curve, KeyMember::X)?;
    let y = coordinate(alloc, key, curve, KeyMember::Y)?;
    match EcdsaPublicKey::new(curve, x.as_slice(), y.as_slice()) {
        Ok(key) => Ok(PublicKey::Ecdsa(key)),
        Err(error) => Err(KeyReadError::Fault(KeyError::Ecdsa(error))),
    }
}

fn elliptic_key(alloc: Global, key: &Value) -> Result<PublicKey, KeyReadError>
    ensures { KeyReadsAs (λ k. k) result (elliptic_key (view key.now)) }
{
    match needed_text(key, KeyMember::Curve) {
        Ok(name) => match curve_named(name) {
            Some(curve) => curve_key(alloc, key, curve),
            None => Err(KeyReadError::Fault(KeyError::UnknownCurve)),
        },
        Err(fault) => Err(KeyReadError::Fault(fault)),
    }
}

fn eddsa_key(alloc: Global, key: &Value) -> Result<PublicKey, KeyReadError>
    ensures { KeyReadsAs (λ k. k) result (eddsa_key (view key.now)) }
{
    let octets = octets(alloc, key, KeyMember::X)?;
    match EddsaPublicKey::new(octets.as_slice()) {
        Ok(key) => Ok(PublicKey::Eddsa(key)),
        Err(error) => Err(KeyReadError::Fault(KeyError::Eddsa(error))),
    }
}

fn octet_key(alloc: Global, key: &Value) -> Result<PublicKey, KeyReadError>
    ensures { KeyReadsAs (λ k. k) result (octet_key (view key.now)) }
{
    match needed_text(key, KeyMember::Curve) {
        Ok(name) => if name == "Ed25519" {
            eddsa_key(alloc, key)
        } else {
            Err(KeyReadError::Fault(KeyError::UnknownCurve))
        },
        Err(fault) => Err(KeyReadError::Fault(fault)),
    }
}

#[tactic(auto, unfolding(crate::specs::Key::public_key))]
fn public_key(alloc: Global, key: &Value) -> Result<PublicKey, KeyReadError>
    ensures { KeyReadsAs (λ k. k) result (public_key (view key.now)) }
{
    match needed_text(key, KeyMember::KeyType) {
        Ok(key_type) => if key_type == "RSA" {
            rsa_key(alloc, key)
        } else if key_type == "EC" {
            elliptic_key(alloc, key)
        } else if key_type == "OKP" {
            octet_key(alloc, key)
        } else {
            Err(KeyReadError::Fault(KeyError::UnknownType))
        },
        Err(fault) => Err(KeyReadError::Fault(fault)),
    }
}

fn usable(alloc: Global, key: &Value) -> Result<JsonWebKey, KeyReadError>
    ensures { KeyReadsAs (λ k. k) result (key_reading (view key.now)) }
{
    if is_private(key) {
        return Err(KeyReadError::Fault(KeyError::Private));
    }
    Ok(JsonWebKey {
        key_use: own_text(alloc, key, KeyMember::Use)?,
        operations: own_texts(alloc, key, KeyMember::Operations)?,
        algorithm: own_text(alloc, key, KeyMember::Algorithm)?,
        key_id: own_text(alloc, key, KeyMember::KeyId)?,
        public_key: Box::new(alloc, public_key(alloc, key)?)?,
    })
}

fn told_key_id(alloc: Global, key: &Value) -> Result<Option<String>, AllocError>
    ensures { IfOk result (λ told. option_map string_bytes told ≡ told_key_id (view key.now)) }
{
    match key.get("kid").and_then(Value::as_str) {
        Some(key_id) => Ok(Some(String::from_str(alloc, key_id)?)),
        None => Ok(None),
    }
}

// A key of a set, from its JSON value.
#[tactic(auto, unfolding(crate::specs::KeySet::listed_key))]
pub(crate) fn read_listed_key(alloc: Global, key: &Value) -> Result<ListedKey, AllocError>
    ensures { IfOk result (λ listed. listed ≡ listed_key (view key.now)) }
{
    match usable(alloc, key) {
        Ok(key) => Ok(ListedKey::Usable(key)),
        Err(KeyReadError::Fault(fault)) => {
            let key_id = told_key_id(alloc, key)?;
            Ok(ListedKey::Unusable(UnusableKey { key_id, fault }))
        }
        Err(KeyReadError::Memory) => Err(AllocError),
    }
}

impl JsonWebKey {
    /// What the key is for (`use`; RFC 7517, 4.2).
    pub fn key_use(&self) -> Option<&str>
        ensures { option_copied result ≡ self.now.key_use }
    {
        match &self.key_use {
            Some(key_use) => Some(key_use.as_str()),
            None => None,
        }
    }

    /// The operations that the key is for (`key_ops`; RFC 7517, 4.3).
    pub fn operations(&self) -> Option<&[String]>
        ensures { option_map (λ list. map string_bytes list.now) result ≡ self.now.operations }
    {
        match &self.operations {
            Some(operations) => Some(operations.as_slice()),
            None => None,
        }
    }

    /// The algorithm that the key is for (`alg`; RFC 7517, 4.4).
    pub fn algorithm(&self) -> Option<&str>
        ensures { option_copied result ≡ self.now.algorithm }
    {
        match &self.algorithm {
            Some(algorithm) => Some(algorithm.as_str()),
            None => None,
        }
    }

    /// The identifier of the key (`kid`; RFC 7517, 4.5).
    pub fn key_id(&self) -> Option<&str>
        ensures { option_copied result ≡ self.now.key_id }
    {
        match &self.key_id {
            Some(key_id) => Some(key_id.as_str()),
            None => None,
        }
    }

    /// The key itself.
    pub fn public_key(&self) -> &PublicKey
        ensures { result.now ≡ self.now.public_key }
    {
        &*self.public_key
    }

    // Whether a token with this algorithm and this key identifier may be signed by this key.
    pub(crate) fn is_for(&self, algorithm: SignatureAlgorithm, key_id: Option<&str>) -> bool
        ensures { result ≡ is_for algorithm (option_copied key_id.entry) self.now }
    {
        fits_use(self.key_use())
            && fits_operations(self.operations())
            && fits_algorithm(self.algorithm(), algorithm)
            && fits_key_id(self.key_id(), key_id)
            && fits_type(self.public_key(), algorithm)
    }
}

impl UnusableKey {
    /// The identifier of the key (`kid`), if it is a string.
    pub fn key_id(&self) -> Option<&str>
        ensures { option_copied result ≡ self.now.key_id }
    {
        match &self.key_id {
            Some(key_id) => Some(key_id.as_str()),
            None => None,
        }
    }

    /// The first fault of the key.
    pub fn fault(&self) -> KeyError
        ensures { result ≡ self.now.fault }
    {
        self.fault
    }
}
