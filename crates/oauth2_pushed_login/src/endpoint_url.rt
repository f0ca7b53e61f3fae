//! The URL of the endpoint, as metadata have it.

ghost use Rattle.std.specs.Prelude.{◌≡◌, ℕ, List, None, Err, ◌⊎◌};
ghost use Rattle.oauth2_json.specs.Reading.{ErrsAs};
ghost use Rattle.oauth2_json.specs.Values.{url, url_text};
ghost use Rattle.oauth2_urls.specs.Addressed.{Addressed};
ghost use Rattle.url.specs.Parser.{IsOutOfRoom, parse_url};

use oauth2_json::{FromJson, ParseCause, ReadError};
use serde_json::Value;
use std::alloc::Global;
use std::marker::Model;
use url::{ParseError, Url};

// A text, and the URL that it parses to.
#[derive(Debug, Drop)]
pub(crate) struct EndpointUrl {
    pub(crate) text: String,
    pub(crate) url: Url,
}

impl Model for EndpointUrl {
    ghost use Rattle.std.specs.Prelude.{string_bytes};
    ghost use Rattle.oauth2_urls.specs.Addressed.{Addressed};

    ghost Value = { Addressed };

    ghost view = { λ u. record { text = string_bytes u.text; url = u.url } };
}

// The reading error for an error of the URL parser.
fn url_error(alloc: Global, error: ParseError) -> ReadError
    ensures { (text : List ℕ) → (parse_url None text ≡ Err error) ⊎ IsOutOfRoom error
        → ErrsAs result (url_text text) }
{
    match error {
        ParseError::OutOfMemory | ParseError::Overflow => ReadError::Memory,
        _ => ReadError::whole(alloc, ParseCause::BadUrl),
    }
}

impl FromJson for EndpointUrl {
    ghost Meaning = { Addressed };

    ghost meaning = { λ u. u };

    ghost reading = { url };

    fn from_json(alloc: Global, value: Value) -> Result<EndpointUrl, ReadError> {
        let text = String::from_json(alloc, value)?;
        match Url::parse(alloc, text.as_str()) {
            Ok(url) => Ok(EndpointUrl { text, url }),
            Err(error) => Err(url_error(alloc, error)),
        }
    }
}
