//! Whole tokens. Each expected text was made by Python's `hmac`, `hashlib`, `base64` and `json`.

use crate::client_secret_jwt::parts::{Counting, SECRET, Ticking, issuer, source, token_endpoint};
use http::request::Parts;
use http::{Method, Request};
use http_header::{CONTENT_TYPE, HeaderValue};
use http_uri::Uri;
use oauth2_client_assertions::{AssertingClient, AssertionSource, ServerEndpoints};
use oauth2_client_secret_jwt::ClientSecretJwt;
use oauth2_tests_support::{OneReply, check, check_text, url};
use oauth2_wire::SyncHttpClient;
use std::alloc::Global;
use std::test::Fail;

// {"aud":"https://server.example.com/token","exp":1300819380,"iat":1300819320,"iss":"s6BhdRkqt3",
// "jti":"AAECAwQFBgcICQoLDA0ODw","sub":"s6BhdRkqt3"}
const FIRST: &str = "eyJhbGciOiJIUzI1NiIsInR5cCI6IkpXVCJ9.eyJhdWQiOiJodHRwczovL3NlcnZlci5leGFtcGxl\
LmNvbS90b2tlbiIsImV4cCI6MTMwMDgxOTM4MCwiaWF0IjoxMzAwODE5MzIwLCJpc3MiOiJzNkJoZFJrcXQzIiwianRpIjoi\
QUFFQ0F3UUZCZ2NJQ1FvTERBME9EdyIsInN1YiI6InM2QmhkUmtxdDMifQ\
.7MRhtpUNu5ztNGiK0I36KSvRj4ir1fVDw7QB0dfhPO0";

// The next one: a second later, with the next 16 bytes.
const SECOND: &str = "eyJhbGciOiJIUzI1NiIsInR5cCI6IkpXVCJ9.eyJhdWQiOiJodHRwczovL3NlcnZlci5leGFtcGxl\
LmNvbS90b2tlbiIsImV4cCI6MTMwMDgxOTM4MSwiaWF0IjoxMzAwODE5MzIxLCJpc3MiOiJzNkJoZFJrcXQzIiwianRpIjoi\
RUJFU0V4UVZGaGNZR1JvYkhCMGVIdyIsInN1YiI6InM2QmhkUmtxdDMifQ\
.IoEk_W1i7n-IPyK77rSTlyYYhu_y9MDTqjOOKz6WARU";

// {"aud":"https://server.example.com","exp":0,"iat":0,"iss":"a\"b\\c\né",
// "jti":"AAECAwQFBgcICQoLDA0ODw","sub":"a\"b\\c\né"}
const ESCAPED: &str =
    "eyJhbGciOiJIUzI1NiIsInR5cCI6IkpXVCJ9.eyJhdWQiOiJodHRwczovL3NlcnZlci5leGFtcGxl\
LmNvbSIsImV4cCI6MCwiaWF0IjowLCJpc3MiOiJhXCJiXFxjXG7DqSIsImp0aSI6IkFBRUNBd1FGQmdjSUNRb0xEQTBPRHci\
LCJzdWIiOiJhXCJiXFxjXG7DqSJ9.cxHDRWyKGoKDcv8k_2GTjWosk_LiEDPqnk-I_YhBnxM";

// {"aud":"https://a","exp":257697174495,"iat":253402207200,"iss":"s6BhdRkqt3",
// "jti":"AAECAwQFBgcICQoLDA0ODw","sub":"s6BhdRkqt3"}
const LAST: &str =
    "eyJhbGciOiJIUzI1NiIsInR5cCI6IkpXVCJ9.eyJhdWQiOiJodHRwczovL2EiLCJleHAiOjI1NzY5NzE3NDQ5NSw\
iaWF0IjoyNTM0MDIyMDcyMDAsImlzcyI6InM2QmhkUmtxdDMiLCJqdGkiOiJBQUVDQXdRRkJnY0lDUW9MREEwT0R\
3Iiwic3ViIjoiczZCaGRSa3F0MyJ9.ap0YRZB17ER6sGHrLTmVCJdYyNAVaQvKy_lrzeI7zQ8";

fn of_the_example(alloc: Global) -> Result<ClientSecretJwt<Ticking, Counting>, Fail> {
    source(
        alloc,
        "s6BhdRkqt3",
        SECRET,
        token_endpoint(alloc, "https://server.example.com/token")?,
        1_300_819_320_999_999_999,
    )
}

#[test]
fn two_tokens(rt: HostRuntime) -> Result<(), Fail> {
    let alloc = rt.alloc();
    let mut source = of_the_example(alloc)?;
    let Ok(first) = source.assertion(alloc) else {
        return Err(Fail::new("no first token"));
    };
    check_text(first.as_str(), FIRST)?;
    let Ok(second) = source.assertion(alloc) else {
        return Err(Fail::new("no second token"));
    };
    check_text(second.as_str(), SECOND)
}

// An identifier that JSON escapes, a secret longer than a block of SHA-256, and no lifetime.
#[test]
fn an_identifier_with_escapes(rt: HostRuntime) -> Result<(), Fail> {
    let alloc = rt.alloc();
    let mut source = source(
        alloc,
        "a\"b\\c\n\u{e9}",
        "kkkkkkkkkkkkkkkkkkkkkkkkkkkkkkkkkkkkkkkkkkkkkkkkkkkkkkkkkkkkkkkkk",
        issuer(alloc, "https://server.example.com")?,
        0,
    )?
    .set_lifetime(0);
    let Ok(token) = source.assertion(alloc) else {
        return Err(Fail::new("no token"));
    };
    check_text(token.as_str(), ESCAPED)
}

// The last second of a `Timestamp`, and the longest lifetime.
#[test]
fn the_last_second(rt: HostRuntime) -> Result<(), Fail> {
    let alloc = rt.alloc();
    let mut source = source(
        alloc,
        "s6BhdRkqt3",
        SECRET,
        issuer(alloc, "https://a")?,
        253_402_207_200_999_999_999,
    )?
    .set_lifetime(u32::MAX);
    let Ok(token) = source.assertion(alloc) else {
        return Err(Fail::new("no token"));
    };
    check_text(token.as_str(), LAST)
}

// What an `AssertingClient` sends: the token alone, without the secret.
#[test]
fn a_request(rt: HostRuntime) -> Result<(), Fail> {
    let alloc = rt.alloc();
    let mut head = Parts::new(alloc);
    head.method = Method::POST;
    head.uri = Uri::from_str(alloc, "https://server.example.com/token")?;
    let form = HeaderValue::from_static("application/x-www-form-urlencoded");
    let _ = head.headers.insert(CONTENT_TYPE, form)?;
    let request = Request::from_parts(head, b"grant_type=client_credentials".to_vec(alloc)?);
    let reply = OneReply::with_body(alloc, 200, "{}")?;
    let endpoint = url(alloc, "https://server.example.com/token")?;
    let endpoints = ServerEndpoints::new(alloc, &endpoint)?;
    let mut client = AssertingClient::new(alloc, reply, of_the_example(alloc)?, endpoints);
    check(client.call(request).is_ok(), "the call")?;
    let (sender, _) = client.into_parts();
    let body = format!(in alloc;
        "grant_type=client_credentials\
&client_assertion_type=urn%3Aietf%3Aparams%3Aoauth%3Aclient-assertion-type%3Ajwt-bearer\
&client_assertion={FIRST}"
    )?;
    check_text(std::str::from_utf8(sender.sent())?, body.as_str())
}
