//! Logins whose parameters are pushed (RFC 9126, sections 2.1 to 2.3, and 4).

use crate::routes::route;
use oauth2::basic::{
    BasicErrorResponse, BasicRevocationErrorResponse, BasicTokenIntrospectionResponse,
    BasicTokenResponse,
};
use oauth2::{ClientSecret, RedirectUrl, StandardRevocableToken};
use oauth2_pushed_login::{LoginRoute, PushLoginError, PushPreference, PushingLoginClient};
use oauth2_redirect::{Login, LoginIssuer};
use oauth2_tests_support::{NoReply, OneReply, check_display, check_equal, check_text, text, url};
use rand_pcg::Pcg32;
use std::alloc::Global;
use std::test::Fail;
use url::Url;

const MEMBERS: &str = r#","token_endpoint":"https://as.example.com/token",
"pushed_authorization_request_endpoint":"https://as.example.com/as/par",
"require_pushed_authorization_requests":true"#;

// The body of the example in section 2.2.
const CREATED: &str = r#"{"request_uri":
"urn:ietf:params:oauth:request_uri:6esc_11ACC5bwc014ltc14eY22c","expires_in":60}"#;

type Pushing = PushingLoginClient<
    BasicErrorResponse,
    BasicTokenResponse,
    BasicTokenIntrospectionResponse,
    StandardRevocableToken,
    BasicRevocationErrorResponse,
>;

fn pushing(alloc: Global) -> Result<Pushing, Fail> {
    match route(alloc, MEMBERS, PushPreference::WhereRequired)?? {
        LoginRoute::ByPush(pushing) => Ok(pushing),
        LoginRoute::ByUrl(_) => Err(Fail::new(format_args!("a login by a URL"))),
    }
}

// What a push returns.
type Pushed = Result<Url, PushLoginError<NoReply, BasicErrorResponse>>;

fn push(
    alloc: Global,
    pushing: &Pushing,
    secret: Option<&ClientSecret>,
    url: &Url,
    http_client: &mut OneReply,
) -> Pushed {
    pushing.push(alloc, secret, url, http_client)
}

// Pushes the parameters of this URL with the client's secret, and returns the short URL.
fn short_url(
    alloc: Global,
    pushing: &Pushing,
    url: &Url,
    http_client: &mut OneReply,
) -> Result<Url, Fail> {
    let secret = ClientSecret::new(text(alloc, "7Fjfp0ZBr1KtDRbnfVdmIw")?);
    match push(alloc, pushing, Some(&secret), url, http_client) {
        Ok(short) => Ok(short),
        Err(_) => Err(Fail::new(format_args!("no URL"))),
    }
}

// Checks that the parameters of this URL were sent, once.
fn check_sent(http_client: &OneReply, url: &Url) -> Result<(), Fail> {
    check_equal(http_client.calls, 1)?;
    check_text(
        std::str::from_utf8(http_client.sent())?,
        url.query().ok_or("no query")?,
    )
}

// Pushes the parameters of this URL, and checks what was sent and the short URL.
fn check_pushed(alloc: Global, pushing: &Pushing, url: &Url) -> Result<(), Fail> {
    let mut http_client = OneReply::with_body(alloc, 201, CREATED)?;
    let short = short_url(alloc, pushing, url, &mut http_client)?;
    check_text(
        short.as_str(),
        "https://as.example.com/authorize?client_id=s6BhdRkqt3\
&request_uri=urn%3Aietf%3Aparams%3Aoauth%3Arequest_uri%3A6esc_11ACC5bwc014ltc14eY22c",
    )?;
    check_sent(&http_client, url)
}

// The authorization URL of a login.
fn login_url(alloc: Global, pushing: &Pushing) -> Result<Url, Fail> {
    let mut rng = Pcg32::new(42, 54);
    let issuer = LoginIssuer::InEachRedirect(text(alloc, "https://as.example.com")?);
    let redirect_uri = RedirectUrl::parse(alloc, "https://client.example.org/cb")?;
    let request = Login::start(alloc, pushing.client(), issuer, &mut rng)?;
    let (url, _) = request.set_redirect_uri(&redirect_uri).url(alloc)?;
    Ok(url)
}

#[test]
fn login(rt: HostRuntime) -> Result<(), Fail> {
    let alloc = rt.alloc();
    let pushing = pushing(alloc)?;
    let url = login_url(alloc, &pushing)?;
    check_pushed(alloc, &pushing, &url)
}

// Checks the text of the error of a push.
fn check_shown(alloc: Global, pushed: Pushed, shown: &str) -> Result<(), Fail> {
    match pushed {
        Ok(_) => Err(Fail::new(format_args!("a URL"))),
        Err(error) => check_display(alloc, &error, shown),
    }
}

// Checks the error of a push of this URL, and how many requests were sent, if the server refuses.
fn check_error(
    alloc: Global,
    pushing: &Pushing,
    status: u16,
    address: &str,
    calls: u64,
    shown: &str,
) -> Result<(), Fail> {
    let refused = r#"{"error":"invalid_request"}"#;
    let address = url(alloc, address)?;
    let mut http_client = OneReply::with_body(alloc, status, refused)?;
    let pushed = push(alloc, pushing, None, &address, &mut http_client);
    check_shown(alloc, pushed, shown)?;
    check_equal(http_client.calls, calls)
}

#[test]
fn errors(rt: HostRuntime) -> Result<(), Fail> {
    let pushing = pushing(rt.alloc())?;
    for (status, address, calls, shown) in [
        (
            400,
            "https://as.example.com/authorize?client_id=s6BhdRkqt3",
            1,
            "Server returned error response: invalid_request",
        ),
        (
            201,
            "https://as.example.com/authorize?client_id=s6BhdRkqt3",
            1,
            "Failed to parse server response",
        ),
        (
            400,
            "https://as.example.com/authorize?client_id=other",
            0,
            "URL has not one `client_id` that is this client's",
        ),
    ] {
        check_error(rt.alloc(), &pushing, status, address, calls, shown)?;
    }
    Ok(())
}
