//! The URL of the token endpoint.

ghost use Rattle.std.specs.Prelude.{◌≡◌, Some, IfOk, codes, string_bytes};
ghost use Rattle.std.specs.Fmt.{DisplaysOnOk, debug_str, debug_variant};
ghost use Rattle.oauth2_types.specs.Display.{WritesDebugText};
ghost use Rattle.oauth2_urls.specs.Addressed.{Addressed, Addresses, written_url};

use crate::addressed::AddressedUrl;
use oauth2_types::TryClone;
use std::alloc::{AllocError, Global};
use std::fmt;
use std::marker::Model;
use std::ops::Deref;
use url::{ParseError, Url};

/// The URL of the token endpoint (RFC 6749, section 3.2), as it was given.
#[derive(PartialEq, Eq, PartialOrd, Ord, Hash, Drop)]
pub struct TokenUrl(AddressedUrl);

impl Model for TokenUrl {
    ghost Value = { Addressed };

    ghost view = { λ u. u.0 };

    ghost inverse = { λ a. record { 0 = a } };
}

impl TokenUrl {
    /// Parses the text, and keeps both the text and the URL. The error is the parser's.
    pub fn new(alloc: Global, url: String) -> Result<TokenUrl, ParseError>
        ensures { Addresses (string_bytes url) result }
    {
        Ok(TokenUrl(AddressedUrl::new(alloc, url)?))
    }

    /// Parses a copy of the text, as `new` does.
    pub fn parse(alloc: Global, url: &str) -> Result<TokenUrl, ParseError>
        ensures { Addresses url.now result }
    {
        TokenUrl::new(alloc, String::from_str(alloc, url)?)
    }

    /// Takes a parsed URL. The text is the URL's serialization.
    pub fn from_url(alloc: Global, url: Url) -> Result<TokenUrl, AllocError>
        ensures { IfOk result (λ u. u ≡ written_url url) }
    {
        Ok(TokenUrl(AddressedUrl::from_url(alloc, url)?))
    }

    /// The parsed URL. `Deref` returns the text.
    pub fn url(&self) -> &Url
        ensures { result.now ≡ self.now.url }
    {
        self.0.url()
    }
}

impl Deref for TokenUrl {
    type Target = String;

    ghost deref_gives = { λ u text. string_bytes text ≡ u.text };

    fn deref(&self) -> &String {
        self.0.text()
    }
}

impl TryClone for TokenUrl {
    ghost Seen = { Addressed };

    ghost seen = { λ url. url };

    fn try_clone(&self, alloc: Global) -> Result<TokenUrl, AllocError> {
        Ok(TokenUrl(self.0.copy(alloc)?))
    }
}

impl fmt::Display for TokenUrl {
    ghost output = { λ u. Some u.text };

    ghost styled_output = { λ u _. Some u.text };

    fn fmt<W: fmt::Write>(&self, f: &mut fmt::Formatter<W>) -> fmt::Result {
        f.write_str(self.0.text().as_str())
    }
}

impl fmt::Debug for TokenUrl {
    ghost debug_output = { λ u. debug_variant (codes "TokenUrl") (debug_str u.text) };

    fn fmt<W: fmt::Write>(&self, f: &mut fmt::Formatter<W>) -> fmt::Result
        ensures writes { DisplaysOnOk W.write_str_gives f.old result
            (debug_variant (codes "TokenUrl") (debug_str self.now.text)) f.new }
        // Holds for all formatter options, also for `{:#?}`.
        ensures styled { WritesDebugText W.write_str_gives f.old result
            (codes "TokenUrl") self.now.text f.new }
    {
        self.0.debug(f, "TokenUrl")
    }
}
