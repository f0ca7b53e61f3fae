//! The place to which a redirect must come: the login's redirect URI.

ghost use Rattle.std.specs.Prelude.{◌≡◌};
ghost use Rattle.std.specs.List.{list_any};
ghost use Rattle.oauth2_form.specs.Pairs.{form};
ghost use Rattle.oauth2_form.specs.Query.{query_form};
ghost use Rattle.oauth2_redirect.specs.Place.{
  host_name,
  is_at_port,
  is_at_redirect_uri,
  is_loopback,
  is_pair,
  retains,
};
ghost use Rattle.form_urlencoded.specs.Form.{decode as decoded};

use crate::decoding::decode_alike;
use form_urlencoded::raw_pairs;
use url::Url;

// The text of the host, which is empty where there is none.
fn host_name(url: &Url) -> &str
    ensures { result.now ≡ host_name url.now }
{
    url.host_str().unwrap_or("")
}

// Whether this is a redirect URI of RFC 8252, section 7.3.
fn is_loopback(uri: &Url) -> bool
    ensures { result ≡ is_loopback uri.now }
{
    let host = host_name(uri);
    uri.scheme() == "http" && (host == "127.0.0.1" || host == "[::1]")
}

// Whether the called URL has the port of the redirect URI, which at a loopback address is any.
fn is_at_port(uri: &Url, called: &Url) -> bool
    ensures { result ≡ is_at_port uri.now called.now }
{
    is_loopback(uri) || uri.port() == called.port()
}

// Whether a query has a parameter with this encoded name and this encoded value.
fn has_parameter(query: &str, name: &[u8], value: &[u8]) -> bool
    ensures { result ≡ list_any (is_pair (decoded name.now, decoded value.now)) (form query.now) }
{
    for (called_name, called_value) in raw_pairs(query.as_bytes()) {
        if decode_alike(name, called_name) && decode_alike(value, called_value) {
            return true;
        }
    }
    false
}

// Whether a query has each parameter of the query `own`.
fn retains(own: &str, query: &str) -> bool
    ensures { result ≡ retains (form own.now) (form query.now) }
{
    for (name, value) in raw_pairs(own.as_bytes()) {
        if !has_parameter(query, name, value) {
            return false;
        }
    }
    true
}

// The query of a URL, without the `?`; empty if there is none.
fn query_of(url: &Url) -> &str
    ensures { form result.now ≡ query_form url.now }
{
    url.query().unwrap_or("")
}

/// Whether a URL that was called is at this redirect URI: it has its scheme, host, port and path,
/// and each parameter of its query (RFC 6749, section 3.1.2). At a loopback address any port will
/// do (RFC 8252, section 7.3).
///
/// Parameters are compared as they are decoded. The user name and the password are not compared,
/// since a browser does not send them to the server, nor is the fragment.
pub fn is_at_redirect_uri(redirect_uri: &Url, called: &Url) -> bool
    ensures { result ≡ is_at_redirect_uri redirect_uri.now called.now }
{
    redirect_uri.scheme() == called.scheme()
        && host_name(redirect_uri) == host_name(called)
        && is_at_port(redirect_uri, called)
        && redirect_uri.path() == called.path()
        && retains(query_of(redirect_uri), query_of(called))
}
