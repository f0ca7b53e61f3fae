//! URLs as JSON strings.

ghost use Rattle.std.specs.Prelude.{◌≡◌, ℕ, List, None, Ok, Err, ◌⊎◌};
ghost use Rattle.serde_json.specs.Data.{string};
ghost use Rattle.oauth2_urls.specs.Addressed.{Addressed};
ghost use Rattle.oauth2_json.specs.Reading.{ErrsAs};
ghost use Rattle.oauth2_json.specs.Values.{url, url_text};
ghost use Rattle.url.specs.Parser.{parse_url, IsOutOfRoom};

use crate::read::{FromJson, ParseCause, ReadError};
use crate::write::{ToJson, WriteError};
use oauth2_urls::{
    AuthUrl, DeviceAuthorizationUrl, EndUserVerificationUrl, IntrospectionUrl, RedirectUrl,
    RevocationUrl, TokenUrl,
};
use serde_json::Value;
use std::alloc::Global;
use std::ops::Deref;
use url::ParseError;

// The reading error for an error of the URL parser.
fn url_error(alloc: Global, error: ParseError) -> ReadError
    ensures { (text : List ℕ) → (parse_url None text ≡ Err error) ⊎ IsOutOfRoom error
        → ErrsAs result (url_text text) }
{
    match error {
        ParseError::OutOfMemory | ParseError::Overflow => ReadError::Memory,
        _ => ReadError::whole(alloc, ParseCause::BadUrl),
    }
}

impl FromJson for AuthUrl {
    ghost Meaning = { Addressed };

    ghost meaning = { λ u. u };

    ghost reading = { url };

    fn from_json(alloc: Global, value: Value) -> Result<AuthUrl, ReadError> {
        let text = String::from_json(alloc, value)?;
        match AuthUrl::new(alloc, text) {
            Ok(url) => Ok(url),
            Err(error) => Err(url_error(alloc, error)),
        }
    }
}

impl ToJson for AuthUrl {
    ghost writing = { λ u. Ok (string u.text) };

    fn to_json(&self, alloc: Global) -> Result<Value, WriteError> {
        self.deref().to_json(alloc)
    }
}

impl FromJson for DeviceAuthorizationUrl {
    ghost Meaning = { Addressed };

    ghost meaning = { λ u. u };

    ghost reading = { url };

    fn from_json(alloc: Global, value: Value) -> Result<DeviceAuthorizationUrl, ReadError> {
        let text = String::from_json(alloc, value)?;
        match DeviceAuthorizationUrl::new(alloc, text) {
            Ok(url) => Ok(url),
            Err(error) => Err(url_error(alloc, error)),
        }
    }
}

impl ToJson for DeviceAuthorizationUrl {
    ghost writing = { λ u. Ok (string u.text) };

    fn to_json(&self, alloc: Global) -> Result<Value, WriteError> {
        self.deref().to_json(alloc)
    }
}

impl FromJson for EndUserVerificationUrl {
    ghost Meaning = { Addressed };

    ghost meaning = { λ u. u };

    ghost reading = { url };

    fn from_json(alloc: Global, value: Value) -> Result<EndUserVerificationUrl, ReadError> {
        let text = String::from_json(alloc, value)?;
        match EndUserVerificationUrl::new(alloc, text) {
            Ok(url) => Ok(url),
            Err(error) => Err(url_error(alloc, error)),
        }
    }
}

impl ToJson for EndUserVerificationUrl {
    ghost writing = { λ u. Ok (string u.text) };

    fn to_json(&self, alloc: Global) -> Result<Value, WriteError> {
        self.deref().to_json(alloc)
    }
}

impl FromJson for IntrospectionUrl {
    ghost Meaning = { Addressed };

    ghost meaning = { λ u. u };

    ghost reading = { url };

    fn from_json(alloc: Global, value: Value) -> Result<IntrospectionUrl, ReadError> {
        let text = String::from_json(alloc, value)?;
        match IntrospectionUrl::new(alloc, text) {
            Ok(url) => Ok(url),
            Err(error) => Err(url_error(alloc, error)),
        }
    }
}

impl ToJson for IntrospectionUrl {
    ghost writing = { λ u. Ok (string u.text) };

    fn to_json(&self, alloc: Global) -> Result<Value, WriteError> {
        self.deref().to_json(alloc)
    }
}

impl FromJson for RedirectUrl {
    ghost Meaning = { Addressed };

    ghost meaning = { λ u. u };

    ghost reading = { url };

    fn from_json(alloc: Global, value: Value) -> Result<RedirectUrl, ReadError> {
        let text = String::from_json(alloc, value)?;
        match RedirectUrl::new(alloc, text) {
            Ok(url) => Ok(url),
            Err(error) => Err(url_error(alloc, error)),
        }
    }
}

impl ToJson for RedirectUrl {
    ghost writing = { λ u. Ok (string u.text) };

    fn to_json(&self, alloc: Global) -> Result<Value, WriteError> {
        self.deref().to_json(alloc)
    }
}

impl FromJson for RevocationUrl {
    ghost Meaning = { Addressed };

    ghost meaning = { λ u. u };

    ghost reading = { url };

    fn from_json(alloc: Global, value: Value) -> Result<RevocationUrl, ReadError> {
        let text = String::from_json(alloc, value)?;
        match RevocationUrl::new(alloc, text) {
            Ok(url) => Ok(url),
            Err(error) => Err(url_error(alloc, error)),
        }
    }
}

impl ToJson for RevocationUrl {
    ghost writing = { λ u. Ok (string u.text) };

    fn to_json(&self, alloc: Global) -> Result<Value, WriteError> {
        self.deref().to_json(alloc)
    }
}

impl FromJson for TokenUrl {
    ghost Meaning = { Addressed };

    ghost meaning = { λ u. u };

    ghost reading = { url };

    fn from_json(alloc: Global, value: Value) -> Result<TokenUrl, ReadError> {
        let text = String::from_json(alloc, value)?;
        match TokenUrl::new(alloc, text) {
            Ok(url) => Ok(url),
            Err(error) => Err(url_error(alloc, error)),
        }
    }
}

impl ToJson for TokenUrl {
    ghost writing = { λ u. Ok (string u.text) };

    fn to_json(&self, alloc: Global) -> Result<Value, WriteError> {
        self.deref().to_json(alloc)
    }
}
