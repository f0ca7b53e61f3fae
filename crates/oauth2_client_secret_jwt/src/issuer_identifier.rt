//! The identifier of an issuer (RFC 8414, section 2).

ghost use Rattle.std.specs.Prelude.{◌≡◌, Ok, None, Some, IfErr, IfOk, string_bytes};
ghost use Rattle.url.specs.Parser.{parse_url};
ghost use Rattle.url.specs.Parts.{Parts};
ghost use Rattle.oauth2_client_secret_jwt.specs.Audience.{IsNoIssuer, IsNoUrl, issuer_fault};

use std::alloc::Global;
use std::fmt;
use std::marker::Model;
use url::{ParseError, Url};

/// The identifier of an authorization server as an issuer: an `https` URL without a query and
/// without a fragment (RFC 8414, section 2). It is the text that was given, which servers compare
/// byte by byte.
#[derive(Drop)]
pub struct IssuerIdentifier(String);

impl Model for IssuerIdentifier {
    ghost use Rattle.std.specs.Prelude.{ℕ, List, string_bytes};

    ghost Value = { List ℕ };

    ghost view = { λ issuer. string_bytes issuer.0 };
}

impl IssuerIdentifier {
    /// The identifier with this text, such as `issuer` of the server's metadata.
    pub fn new(alloc: Global, text: String) -> Result<IssuerIdentifier, IssuerFault>
        ensures ok { IfOk result (λ issuer. issuer ≡ string_bytes text) }
        ensures issuer { IfOk result (λ _. (url : Parts)
            × (parse_url None (string_bytes text) ≡ Ok url) × (issuer_fault url ≡ None)) }
        ensures err { IfErr result (IsNoIssuer (string_bytes text)) }
    {
        let url = parsed_url(alloc, text.as_str())?;
        match issuer_fault(&url) {
            None => Ok(IssuerIdentifier(text)),
            Some(fault) => Err(fault),
        }
    }

    /// The text.
    pub fn as_str(&self) -> &str
        ensures { result.now ≡ self.now }
    {
        self.0.as_str()
    }
}

/// Why a text is no identifier of an issuer.
#[derive(Clone, Copy, Debug, PartialEq, Eq)]
pub enum IssuerFault {
    /// The text is not a URL.
    NotUrl,
    /// The scheme is not `https`.
    NotHttps,
    /// The URL has a query.
    HasQuery,
    /// The URL has a fragment.
    HasFragment,
    /// Memory ran out.
    Memory,
}

impl fmt::Display for IssuerFault {
    ghost use Rattle.oauth2_client_secret_jwt.specs.ErrorTexts.{issuer_fault_text};

    ghost output = { λ fault. Some (issuer_fault_text fault) };

    ghost styled_output = { λ fault _. Some (issuer_fault_text fault) };

    fn fmt<W: fmt::Write>(&self, f: &mut fmt::Formatter<W>) -> fmt::Result {
        f.write_str(match self {
            IssuerFault::NotUrl => "issuer is not a URL",
            IssuerFault::NotHttps => "issuer is not an https URL",
            IssuerFault::HasQuery => "issuer has a query",
            IssuerFault::HasFragment => "issuer has a fragment",
            IssuerFault::Memory => "out of memory",
        })
    }
}

impl std::error::Error for IssuerFault {}

// The URL of this text.
fn parsed_url(alloc: Global, text: &str) -> Result<Url, IssuerFault>
    ensures ok { IfOk result (λ url. parse_url None text.now ≡ Ok url) }
    ensures err { IfErr result (IsNoUrl text.now) }
{
    match Url::parse(alloc, text) {
        Ok(url) => Ok(url),
        Err(ParseError::OutOfMemory | ParseError::Overflow) => Err(IssuerFault::Memory),
        Err(_) => Err(IssuerFault::NotUrl),
    }
}

// Why the text of this URL is no identifier of an issuer.
fn issuer_fault(url: &Url) -> Option<IssuerFault>
    ensures { result ≡ issuer_fault url.now }
{
    if url.scheme() != "https" {
        Some(IssuerFault::NotHttps)
    } else if url.query().is_some() {
        Some(IssuerFault::HasQuery)
    } else if url.fragment().is_some() {
        Some(IssuerFault::HasFragment)
    } else {
        None
    }
}
