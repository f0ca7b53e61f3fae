//! Which key of a set a signature is checked with.

ghost use Rattle.std.specs.Prelude.{
  ◌≡◌,
  ◌∷◌,
  [],
  codes,
  map,
  option_copied,
  option_map,
  string_bytes,
  MatchOption,
};
ghost use Rattle.oauth2_keys.specs.Choice.{
  candidates,
  chosen_key,
  fault_of,
  fits_algorithm,
  fits_key_id,
  fits_operations,
  fits_type,
  fits_use,
  why_none,
};
ghost use Rattle.oauth2_keys.specs.Verified.{ChoosesAs};

use crate::algorithm::SignatureAlgorithm;
use crate::json_web_key::ListedKey;
use crate::key_error::KeyError;
use crate::public_key::PublicKey;
use crate::signature_error::SignatureError;
use oauth2_openid::texts::is_among;

pub(crate) fn fits_use(key_use: Option<&str>) -> bool
    ensures { result ≡ fits_use (option_copied key_use.entry) }
{
    match key_use {
        Some(key_use) => key_use == "sig",
        None => true,
    }
}

pub(crate) fn fits_operations(operations: Option<&[String]>) -> bool
    ensures { result
        ≡ fits_operations (option_map (λ list. map string_bytes list.now) operations.entry) }
{
    match operations {
        Some(operations) => is_among(operations, "verify"),
        None => true,
    }
}

pub(crate) fn fits_algorithm(name: Option<&str>, algorithm: SignatureAlgorithm) -> bool
    ensures { result ≡ fits_algorithm (option_copied name.entry) algorithm }
{
    match name {
        Some(name) => name == algorithm.name(),
        None => true,
    }
}

pub(crate) fn fits_key_id(key_id: Option<&str>, told: Option<&str>) -> bool
    ensures { result ≡ fits_key_id (option_copied key_id.entry) (option_copied told.entry) }
{
    match told {
        None => true,
        Some(told) => match key_id {
            Some(key_id) => key_id == told,
            None => false,
        },
    }
}

pub(crate) fn fits_type(key: &PublicKey, algorithm: SignatureAlgorithm) -> bool
    ensures { result ≡ fits_type key.now algorithm }
{
    match key {
        PublicKey::Rsa(_) => algorithm.rsa_scheme().is_some(),
        PublicKey::Ecdsa(key) => algorithm.is_of_curve(key.curve()),
        PublicKey::Eddsa(_) => algorithm.is_eddsa(),
    }
}

// The first key that may have signed a token, and the keys after it in the set.
fn first_candidate<'a>(
    keys: &'a [ListedKey],
    algorithm: SignatureAlgorithm,
    told: Option<&str>,
) -> Option<(&'a PublicKey, &'a [ListedKey])>
    ensures { MatchOption result (candidates algorithm (option_copied told.entry) keys.now ≡ [])
        (λ found. candidates algorithm (option_copied told.entry) keys.now
        ≡ found.0.now ∷ candidates algorithm (option_copied told.entry) found.1.now) }
{
    let mut rest = keys;
    while let Some((first, later)) = rest.split_first() {
        if let ListedKey::Usable(key) = first
            && key.is_for(algorithm, told)
        {
            return Some((key.public_key(), later));
        }
        rest = later;
    }
    None
}

// The fault of the first unusable key with this key identifier.
fn fault_of(keys: &[ListedKey], told: &str) -> Option<KeyError>
    ensures { result ≡ fault_of told.now keys.now }
{
    for key in keys {
        if let ListedKey::Unusable(key) = key
            && fits_key_id(key.key_id(), Some(told))
        {
            return Some(key.fault());
        }
    }
    None
}

fn why_none(keys: &[ListedKey], told: Option<&str>) -> SignatureError
    ensures { result ≡ why_none (option_copied told.entry) keys.now }
{
    match told {
        None => SignatureError::NoKey,
        Some(told) => match fault_of(keys, told) {
            Some(fault) => SignatureError::UnusableKey(fault),
            None => SignatureError::NoKey,
        },
    }
}

// The key with which a token with this algorithm and this key identifier is checked.
pub(crate) fn chosen_key<'a>(
    keys: &'a [ListedKey],
    algorithm: SignatureAlgorithm,
    told: Option<&str>,
) -> Result<&'a PublicKey, SignatureError>
    ensures { ChoosesAs (λ key. key.now) result
        (chosen_key keys.now algorithm (option_copied told.entry)) }
{
    match first_candidate(keys, algorithm, told) {
        Some((key, later)) => match first_candidate(later, algorithm, told) {
            Some(_) => Err(SignatureError::AmbiguousKey),
            None => Ok(key),
        },
        None => Err(why_none(keys, told)),
    }
}
