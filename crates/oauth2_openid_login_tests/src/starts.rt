//! Tests of the URL of a login, and of what is stored of the login.

ghost use Rattle.std.specs.Prelude.{◌≡◌, None, IfOk};

use crate::support::{client, client_without_redirect};
use oauth2::{ParseCause, RedirectUrl, Scope};
use oauth2_openid_login::{
    OpenIdClient, OpenIdLogin, OpenIdLoginRequest, OpenIdLoginUrlFault, OpenIdProvider,
    RedirectIssuer,
};
use oauth2_tests_support::{
    check_debug, check_display, check_fault, check_text, check_written, read, text,
};
use rand_pcg::Pcg32;
use std::alloc::{AllocError, Global};
use std::test::Fail;
use std::time::Duration;

fn start(alloc: Global, client: &OpenIdClient) -> Result<OpenIdLoginRequest<'_>, AllocError>
    ensures { IfOk result (λ request. request.max_age ≡ None) }
{
    let provider = OpenIdProvider::new(
        "http://server.example.com",
        RedirectIssuer::InEachRedirect,
        Duration::from_secs(60),
    );
    OpenIdLogin::start(alloc, client, &provider, &mut Pcg32::new(42, 54))
}

// Checks that a login has this URL, and is stored as this text.
fn check_login(
    alloc: Global,
    request: OpenIdLoginRequest<'_>,
    url: &str,
    stored: &str,
) -> Result<(), Fail> {
    let (led, login) = request.url(alloc)?;
    check_text(led.as_str(), url)?;
    check_written(alloc, &login, stored)
}

// The state, the verifier and the nonce are those that a generator in Python draws.
#[test]
fn a_login_is_started(rt: HostRuntime) -> Result<(), Fail> {
    let alloc = rt.alloc();
    let client = client(alloc)?;
    let request = start(alloc, &client)?;
    check_debug(alloc, &request, "OpenIdLoginRequest([redacted])")?;
    check_login(
        alloc,
        request,
        "https://server.example.com/authorize?response_type=code&client_id=s6BhdRkqt3\
         &state=twJcoQn0R3swMx26k_LSgw&code_challenge=H7ZdcLcbjjOKQshuaEBh45jlXGBfQdZSXs7wHPjiPgQ\
         &code_challenge_method=S256&redirect_uri=https%3A%2F%2Fclient.example.org%2Fcb\
         &scope=openid&nonce=Jmh47R1EIjjXE6Eri4FbHA",
        "{\"client_id\":\"s6BhdRkqt3\",\"issuer\":\"http://server.example.com\",\
         \"issuer_in_each_redirect\":true,\"nonce\":\"Jmh47R1EIjjXE6Eri4FbHA\",\
         \"redirect_uri\":\"https://client.example.org/cb\",\"state\":\"twJcoQn0R3swMx26k_LSgw\",\
         \"token_url\":\"https://server.example.com/token\",\"verifier\":\"S3ikv25g7cuto8a_bf8vgVowH-aQSzj5_obbMvk1wB0\"}",
    )
}

// A login without a redirect URI has no URL (3.1.2.1). The error returns the login, so a redirect
// URI can be set after it.
#[test]
fn a_login_is_started_with_more(rt: HostRuntime) -> Result<(), Fail> {
    let alloc = rt.alloc();
    let client = client_without_redirect(alloc)?;
    let redirect = RedirectUrl::new(alloc, text(alloc, "https://app.example/cb")?)?;
    let request = start(alloc, &client)?
        .add_scope(Scope::new(text(alloc, "profile")?))?
        .add_scopes(Some(Scope::new(text(alloc, "email")?)))?
        .add_extra_param("prompt".into(), "consent".into())?
        .set_max_age(alloc, Duration::from_millis(3_600_999))?;
    let refused = request.url(alloc).err().ok_or("a URL")?;
    assert!(rt; refused.error == OpenIdLoginUrlFault::NoRedirectUri);
    check_display(alloc, &refused, "login has no redirect URI")?;
    check_debug(alloc, &refused, "OpenIdLoginUrlError([redacted])")?;
    check_login(
        alloc,
        refused.request.set_redirect_uri(&redirect),
        "https://server.example.com/authorize?response_type=code&client_id=s6BhdRkqt3\
         &state=twJcoQn0R3swMx26k_LSgw&code_challenge=H7ZdcLcbjjOKQshuaEBh45jlXGBfQdZSXs7wHPjiPgQ\
         &code_challenge_method=S256&redirect_uri=https%3A%2F%2Fapp.example%2Fcb\
         &scope=openid+profile+email&nonce=Jmh47R1EIjjXE6Eri4FbHA&prompt=consent&max_age=3600",
        "{\"client_id\":\"s6BhdRkqt3\",\"issuer\":\"http://server.example.com\",\
         \"issuer_in_each_redirect\":true,\"max_age\":3600,\
         \"nonce\":\"Jmh47R1EIjjXE6Eri4FbHA\",\
         \"redirect_uri\":\"https://app.example/cb\",\"state\":\"twJcoQn0R3swMx26k_LSgw\",\
         \"token_url\":\"https://server.example.com/token\",\"verifier\":\"S3ikv25g7cuto8a_bf8vgVowH-aQSzj5_obbMvk1wB0\"}",
    )
}

#[test]
fn a_login_is_stored(rt: HostRuntime) -> Result<(), Fail> {
    let alloc = rt.alloc();
    let stored =
        "{\"client_id\":\"c\",\"issuer\":\"i\",\"issuer_in_each_redirect\":false,\"max_age\":0,\
         \"nonce\":\"n\",\"redirect_uri\":\"https://app.example/cb\",\"state\":\"s\",\
         \"token_url\":\"https://as.example/token\",\"verifier\":\"v\"}";
    let login: OpenIdLogin = read(alloc, stored)?;
    check_written(alloc, &login, stored)?;
    check_debug(alloc, &login, "OpenIdLogin([redacted])")?;
    for (stored, member, cause) in [
        (
            r#"{"client_id":"c","issuer_in_each_redirect":false,
                "redirect_uri":"https://app.example/cb","token_url":"t","state":"s","verifier":"v"}"#,
            "nonce",
            ParseCause::Missing,
        ),
        (
            r#"{"client_id":"c","issuer_in_each_redirect":false,
                "redirect_uri":"https://app.example/cb","token_url":"t","nonce":"n","verifier":"v"}"#,
            "state",
            ParseCause::Missing,
        ),
        (
            r#"{"client_id":"c","issuer_in_each_redirect":false,
                "redirect_uri":"https://app.example/cb","token_url":"t","max_age":-1,"nonce":"n","state":"s","verifier":"v"}"#,
            "max_age",
            ParseCause::OutOfRange,
        ),
    ] {
        check_fault::<OpenIdLogin>(alloc, stored, member, cause)?;
    }
    Ok(())
}
