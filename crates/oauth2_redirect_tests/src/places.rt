//! Tests of the place to which a redirect must come.

use oauth2_redirect::is_at_redirect_uri;
use oauth2_tests_support::{check, url};
use std::test::Fail;

// A redirect URI, a URL that is called, and whether that is at the redirect URI.
const PLACES: [(&str, &str, bool); 29] = [
    // RFC 6749, section 3.1.2: the query of the redirect URI is retained, and others are added.
    (
        "https://app.example/cb",
        "https://app.example/cb?code=c1&state=s7",
        true,
    ),
    (
        "https://app.example/cb?a=1",
        "https://app.example/cb?a=1&code=c1",
        true,
    ),
    (
        "https://app.example/cb?a=1",
        "https://app.example/cb?code=c1&a=1",
        true,
    ),
    (
        "https://app.example/cb?a=x%20y%2f",
        "https://app.example/cb?a=x+y%2F&code=c1",
        true,
    ),
    (
        "https://app.example/cb?a=1",
        "https://app.example/cb?code=c1",
        false,
    ),
    (
        "https://app.example/cb?a=1",
        "https://app.example/cb?a=2&code=c1",
        false,
    ),
    (
        "https://app.example/cb?a=1",
        "https://app.example/cb?a=11&code=c1",
        false,
    ),
    (
        "https://app.example/cb?a=1&b=2",
        "https://app.example/cb?a=1&code=c1",
        false,
    ),
    (
        "https://app.example/cb?a=%2B",
        "https://app.example/cb?a=+&code=c1",
        false,
    ),
    // RFC 9700, section 2.1: scheme, host, port and path are those of the redirect URI.
    (
        "https://app.example/cb",
        "http://app.example/cb?code=c1",
        false,
    ),
    (
        "https://app.example/cb",
        "https://other.example/cb?code=c1",
        false,
    ),
    (
        "https://app.example/cb",
        "https://app.example:8443/cb?code=c1",
        false,
    ),
    (
        "https://app.example/cb",
        "https://app.example/cb/?code=c1",
        false,
    ),
    (
        "https://app.example/cb",
        "https://app.example/CB?code=c1",
        false,
    ),
    (
        "https://app.example/cb",
        "https://app.example/cb/../cb2?code=c1",
        false,
    ),
    // The default port, written out or not, and a host in capitals.
    (
        "https://app.example:443/cb",
        "https://app.example/cb?code=c1",
        true,
    ),
    (
        "https://app.example/cb",
        "https://APP.example:443/cb?code=c1",
        true,
    ),
    // A user name is no host.
    (
        "https://app.example/cb",
        "https://app.example@other.example/cb?code=c1",
        false,
    ),
    (
        "http://127.0.0.1/cb",
        "http://127.0.0.1@other.example/cb?code=c1",
        false,
    ),
    (
        "https://app.example/cb",
        "https://someone@app.example/cb?code=c1",
        true,
    ),
    // RFC 8252, section 7.3: any port of a loopback address, whatever port was asked for.
    (
        "http://127.0.0.1/cb",
        "http://127.0.0.1:51004/cb?code=c1",
        true,
    ),
    (
        "http://127.0.0.1:51004/cb",
        "http://127.0.0.1:61023/cb?code=c1",
        true,
    ),
    ("http://[::1]/cb", "http://[::1]:51004/cb?code=c1", true),
    (
        "http://127.0.0.1/cb",
        "http://[::1]:51004/cb?code=c1",
        false,
    ),
    (
        "http://127.0.0.1/cb",
        "http://127.0.0.1:51004/other?code=c1",
        false,
    ),
    (
        "https://127.0.0.1/cb",
        "https://127.0.0.1:51004/cb?code=c1",
        false,
    ),
    (
        "http://localhost/cb",
        "http://localhost:51004/cb?code=c1",
        false,
    ),
    // RFC 8252, section 7.1: a scheme of the application.
    ("com.example.app:/cb", "com.example.app:/cb?code=c1", true),
    (
        "com.example.app:/cb",
        "com.example.other:/cb?code=c1",
        false,
    ),
];

#[test]
fn finds_the_place(rt: HostRuntime) -> Result<(), Fail> {
    for (redirect_uri, called, wanted) in PLACES {
        let redirect_uri = url(rt.alloc(), redirect_uri)?;
        let found = is_at_redirect_uri(&redirect_uri, &url(rt.alloc(), called)?);
        check(found == wanted, called)?;
    }
    Ok(())
}
