//! The common part of the URL types: a text as it was given, with its parsed URL.

ghost use Rattle.std.specs.Prelude.{◌≡◌, Some, string_bytes, IfOk, refl};
ghost use Rattle.std.specs.Cmp.{on_equiv, on_per, on_po, on_total, partial_equiv_from_equiv};
ghost use Rattle.std.specs.Cmp.Lexicographic.{slice_cmp, nat_list_eq_equiv, nat_list_cmp_total};
ghost use Rattle.std.specs.Cmp.Lexicographic.{texts_ties, texts_po};
ghost use Rattle.std.specs.Cmp.Rules.{hashing};
ghost use Rattle.std.proofs.Common.{rules};
ghost use Rattle.std.specs.Fmt.{DisplaysOnOk, debug_str, debug_variant};
ghost use Rattle.std.specs.Hash as fed;
ghost use Rattle.std.specs.Ordering.{nat_cmp};
ghost use Rattle.std.specs.Str.{bytes_eq};
ghost use Rattle.oauth2_types.specs.Display.{WritesDebugText};
ghost use Rattle.oauth2_urls.specs.Addressed.{Addresses, written_url};

use oauth2_types::display::write_debug_text;
use std::alloc::{AllocError, Global};
use std::cmp::Ordering;
use std::fmt;
use std::hash::{Hash, Hasher};
use std::marker::Model;
use url::{ParseError, Url};

pub(crate) struct AddressedUrl {
    text: String,
    url: Url,
}

impl Drop for AddressedUrl {
    fn drop(self) {
        let AddressedUrl { text: _, url: _ } = self;
    }
}

impl Model for AddressedUrl {
    ghost use Rattle.std.specs.Prelude.{string_bytes};
    ghost use Rattle.oauth2_urls.specs.Addressed.{Addressed};

    ghost Value = { Addressed };

    ghost view = { λ a. record { text = string_bytes a.text; url = a.url } };
}

impl AddressedUrl {
    pub(crate) fn new(alloc: Global, text: String) -> Result<AddressedUrl, ParseError>
        ensures { Addresses (string_bytes text) result }
    {
        let url = Url::parse(alloc, text.as_str())?;
        Ok(AddressedUrl { text, url })
    }

    pub(crate) fn from_url(alloc: Global, url: Url) -> Result<AddressedUrl, AllocError>
        ensures { IfOk result (λ a. a ≡ written_url url) }
    {
        let text = String::from_str(alloc, url.as_str())?;
        Ok(AddressedUrl { text, url })
    }

    pub(crate) fn url(&self) -> &Url
        ensures { result.now ≡ self.now.url }
    {
        &self.url
    }

    pub(crate) fn text(&self) -> &String
        ensures { string_bytes result.now ≡ self.now.text }
    {
        &self.text
    }

    pub(crate) fn copy(&self, alloc: Global) -> Result<AddressedUrl, AllocError>
        ensures { IfOk result (λ copy. copy ≡ self.now) }
    {
        let text = String::from_str(alloc, self.text.as_str())?;
        let url = self.url.clone()?;
        Ok(AddressedUrl { text, url })
    }

    // Writes the type's name, and the text in quotes and parentheses.
    pub(crate) fn debug<W: fmt::Write>(&self, f: &mut fmt::Formatter<W>, name: &str) -> fmt::Result
        ensures writes { DisplaysOnOk W.write_str_gives f.old result
            (debug_variant name.now (debug_str self.now.text)) f.new }
        ensures styled { WritesDebugText W.write_str_gives f.old result
            name.now self.now.text f.new }
    {
        write_debug_text(f, name, self.text.as_str())
    }
}

impl PartialEq for AddressedUrl {
    ghost eq = { λ a b. bytes_eq a.text b.text };

    ghost laws = { on_per (λ a. a.text) (partial_equiv_from_equiv nat_list_eq_equiv) };

    fn eq(&self, other: &AddressedUrl) -> bool {
        self.text == other.text
    }
}

impl Eq for AddressedUrl {
    ghost laws = { on_equiv (λ a. a.text) nat_list_eq_equiv };
}

impl PartialOrd for AddressedUrl {
    ghost partial_cmp = { λ a b. Some (slice_cmp nat_cmp a.text b.text) };

    ghost laws = { on_po (λ a. a.text) texts_po };

    fn partial_cmp(&self, other: &AddressedUrl) -> Option<Ordering> {
        Some(self.cmp(other))
    }
}

// A total order by the bytes of the texts. It is `Equal` exactly for URLs that are `==`.
impl Ord for AddressedUrl {
    ghost cmp = { λ a b. slice_cmp nat_cmp a.text b.text };

    ghost total = { on_total (λ a. a.text) nat_list_cmp_total };

    ghost matches_partial_cmp = { λ a b. refl };

    ghost matches_eq = { λ a b. texts_ties a.text b.text };

    fn cmp(&self, other: &AddressedUrl) -> Ordering {
        self.text.cmp(&other.text)
    }
}

// Equal URLs have equal hashes.
impl Hash for AddressedUrl {
    ghost hash_input = { λ a. fed.str a.text };

    ghost respects_eq = { Prim.search (hashing, rules) };

    fn hash<H: Hasher>(&self, state: &mut H) {
        self.text.hash(state);
    }
}
