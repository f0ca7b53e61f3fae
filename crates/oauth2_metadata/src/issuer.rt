//! The issuer of an authorization server, and the URL of its metadata (RFC 8414, sections 2 and
//! 3.1; OpenID Connect Discovery 1.0, section 4.1).

ghost use Rattle.std.specs.Prelude.{◌≡◌, ◌<◌, ◌≤◌, ◌+◌, ◌^◌, ◌++◌, ◌↔◌, Some, length, IfOk, IfErr};
ghost use Rattle.std.specs.Prelude.{IsTrue, codes};
ghost use Rattle.url.specs.declared.scheme.SchemeType.TheVariants.{SpecialNotFile};
ghost use Rattle.url.specs.Parser.{with_path};
ghost use Rattle.url.specs.Parts.{IsValid, kind_of, nonempty_host, offset};
ghost use Rattle.url.specs.declared.slicing.Position.TheVariants.{BeforePath};
ghost use Rattle.url.specs.Path.{IsSegmentList};
ghost use Rattle.oauth2_metadata.specs.Issuer.{IsPlaced, is_loopback, is_secure};
ghost use Rattle.oauth2_metadata.specs.Issuer.{issuer_error_text, metadata_place, openid_place};
ghost use Rattle.oauth2_metadata.specs.Issuer.{issuer_refusal, trimmed};
ghost use Rattle.oauth2_metadata.specs.declared.issuer.IssuerError.TheVariants.{Memory};

use std::alloc::{AllocError, Global};
use std::fmt;
use url::{Host, Position, Url};

// The well-known paths (RFC 8414, section 3; OpenID Connect Discovery 1.0, section 4).
const SERVER_PATH: &str = "/.well-known/oauth-authorization-server";

const OPENID_PATH: &str = "/.well-known/openid-configuration";

/// Why a text or a URL cannot be an issuer, or why its metadata has no URL.
#[derive(Clone, Copy, Debug, PartialEq, Eq)]
pub enum IssuerError {
    /// The text is not a URL.
    NotUrl,
    /// The scheme is not `https`, nor `http` with a loopback host.
    NotHttps,
    /// The URL has a query.
    HasQuery,
    /// The URL has a fragment.
    HasFragment,
    /// The URL of the metadata would be longer than a `Url` can be.
    TooLong,
    /// Memory ran out.
    Memory,
}

impl fmt::Display for IssuerError {
    ghost output = { λ error. Some (issuer_error_text error) };

    ghost styled_output = { λ error _. Some (issuer_error_text error) };

    fn fmt<W: fmt::Write>(&self, f: &mut fmt::Formatter<W>) -> fmt::Result {
        f.write_str(match self {
            IssuerError::NotUrl => "issuer is not a URL",
            IssuerError::NotHttps => "issuer is not an https URL",
            IssuerError::HasQuery => "issuer has a query",
            IssuerError::HasFragment => "issuer has a fragment",
            IssuerError::TooLong => "metadata URL is too long",
            IssuerError::Memory => "Out of memory",
        })
    }
}

impl std::error::Error for IssuerError {}

impl From<AllocError> for IssuerError {
    ghost use Rattle.std.specs.Prelude.{◌≡◌};
    ghost use Rattle.oauth2_metadata.specs.declared.issuer.IssuerError.TheVariants.{Memory};

    ghost from_gives = { λ _ e. e ≡ Memory };

    fn from(_: AllocError) -> IssuerError {
        IssuerError::Memory
    }
}

/// The URL of an issuer's metadata (RFC 8414, section 3.1). A slash at the end of the issuer's path
/// is left out.
pub fn metadata_url(alloc: Global, issuer: &Url) -> Result<Url, IssuerError>
    ensures { IsPlaced metadata_place issuer.now result }
{
    if let Some(error) = refusal(issuer) {
        return Err(error);
    }
    let own = without_last_slash(issuer.path());
    if is_too_long(issuer, SERVER_PATH, own) {
        return Err(IssuerError::TooLong);
    }
    let mut path = String::from_str(alloc, SERVER_PATH)?;
    path.push_str(own)?;
    at_path(issuer, path.as_str())
}

/// The URL of an issuer's OpenID configuration (OpenID Connect Discovery 1.0, section 4.1). A slash
/// at the end of the issuer's path is left out.
pub fn openid_metadata_url(alloc: Global, issuer: &Url) -> Result<Url, IssuerError>
    ensures { IsPlaced openid_place issuer.now result }
{
    if let Some(error) = refusal(issuer) {
        return Err(error);
    }
    let own = without_last_slash(issuer.path());
    if is_too_long(issuer, own, OPENID_PATH) {
        return Err(IssuerError::TooLong);
    }
    let mut path = String::from_str(alloc, own)?;
    path.push_str(OPENID_PATH)?;
    at_path(issuer, path.as_str())
}

// Why a URL cannot be an issuer.
fn refusal(url: &Url) -> Option<IssuerError>
    ensures { result ≡ issuer_refusal url.now }
{
    if !is_secure(url) {
        Some(IssuerError::NotHttps)
    } else if url.query().is_some() {
        Some(IssuerError::HasQuery)
    } else if url.fragment().is_some() {
        Some(IssuerError::HasFragment)
    } else {
        None
    }
}

/// Whether the scheme is `https`, or `http` with a loopback host.
pub fn is_secure(url: &Url) -> bool
    ensures { result ≡ is_secure url.now }
{
    match url.scheme() {
        "https" => true,
        "http" => is_loopback(url),
        _ => false,
    }
}

fn is_loopback(url: &Url) -> bool
    ensures { result ≡ is_loopback (nonempty_host url.now) }
{
    match url.host() {
        Some(Host::Domain(name)) => name == "localhost",
        Some(Host::Ipv4(address)) => address.octets()[0] == 127,
        Some(Host::Ipv6(address)) => address.segments() == [0, 0, 0, 0, 0, 0, 0, 1],
        None => false,
    }
}

// The path without a slash at its end.
fn without_last_slash(path: &str) -> &str
    ensures { result.now ≡ trimmed path.now }
{
    path.strip_suffix('/').unwrap_or(path)
}

// Whether the URL of an issuer, with these two texts as its path, would be longer than a `Url` can
// be. It is checked first, since the contract of `set_path` does not say which error means that.
fn is_too_long(issuer: &Url, front: &str, back: &str) -> bool
    ensures { IsTrue result ↔ 2 ^ 32
        ≤ offset issuer.now BeforePath + (length front.now + length back.now) }
{
    let path = front.len() + back.len();
    issuer.index(Position::BeforePath).saturating_add(path) > u32::MAX as usize
}

// The URL with another path. The caller has checked that it is not too long, so the error is
// `Memory`.
fn at_path(url: &Url, path: &str) -> Result<Url, IssuerError>
    requires valid { IsValid url.now }
    requires web { kind_of url.now ≡ SpecialNotFile }
    requires segments { IsSegmentList SpecialNotFile path.now }
    requires some { 0 < length path.now }
    ensures ok { IfOk result (λ moved. moved ≡ with_path url.now path.now) }
    ensures refusal { IfErr result (λ error. error ≡ Memory) }
{
    let mut moved = url.clone()?;
    match moved.set_path(path) {
        Ok(()) => Ok(moved),
        Err(_) => Err(IssuerError::Memory),
    }
}
