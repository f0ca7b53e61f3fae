//! Tests of logins from their URL to their token.

use oauth2::basic::{BasicClient, BasicErrorResponse, BasicTokenResponse};
use oauth2::{
    AuthUrl, Client, ClientId, EndpointNotSet, EndpointSet, RedirectUrl, Scope, TokenResponse,
    TokenUrl,
};
use oauth2_json::ParseCause;
use oauth2_redirect::{
    Login, LoginError, LoginIssuer, LoginMismatch, LoginRefusal, LoginRequest, LoginUrlFault,
    RefusedLogin,
};
use oauth2_tests_support::{
    NoReply, OneReply, check, check_debug, check_display, check_equal, check_fault, check_text,
    check_written, read, text, url,
};
use rand_pcg::Pcg32;
use std::alloc::Global;
use std::test::Fail;

type LoginClient = BasicClient<
    EndpointSet,
    EndpointNotSet,
    EndpointNotSet,
    EndpointNotSet,
    EndpointSet,
>;

fn client(alloc: Global) -> Result<LoginClient, Fail> {
    client_of(alloc, "aaa", "https://as.example/token")
}

// A client with this identifier and this token endpoint.
fn client_of(alloc: Global, id: &str, token_url: &str) -> Result<LoginClient, Fail> {
    let auth = AuthUrl::new(alloc, text(alloc, "https://as.example/auth")?)?;
    let token = TokenUrl::new(alloc, text(alloc, token_url)?)?;
    let client = Client::new(ClientId::new(text(alloc, id)?));
    Ok(client.set_auth_uri(auth).set_token_uri(token))
}

// A login at a server that names no issuer in its redirects, and one at a server that does. The
// verifier is that of RFC 7636, appendix B.
const STORED: &str =
    r#"{"client_id":"aaa","issuer_in_each_redirect":false,"redirect_uri":"https://app.example/cb?a=1","state":"s7","token_url":"https://as.example/token","verifier":"dBjftJeZ4CVP-mB92K27uhbUJU1p1r_wW1gFWFOEjXk"}"#;

const STORED_WITH_AN_ISSUER: &str =
    r#"{"client_id":"aaa","issuer":"https://as.example","issuer_in_each_redirect":true,"redirect_uri":"https://app.example/cb?a=1","state":"s7","token_url":"https://as.example/token","verifier":"dBjftJeZ4CVP-mB92K27uhbUJU1p1r_wW1gFWFOEjXk"}"#;

const STORED_WITH_A_KNOWN_ISSUER: &str =
    r#"{"client_id":"aaa","issuer":"https://as.example","issuer_in_each_redirect":false,"redirect_uri":"https://app.example/cb?a=1","state":"s7","token_url":"https://as.example/token","verifier":"dBjftJeZ4CVP-mB92K27uhbUJU1p1r_wW1gFWFOEjXk"}"#;

const REPLY: &str = r#"{"access_token":"t1","token_type":"bearer"}"#;

type End = Result<BasicTokenResponse, LoginError<NoReply, BasicErrorResponse>>;

// Finishes the login that was stored as this text, with this redirect.
fn finish(
    alloc: Global,
    http_client: &mut OneReply,
    stored: &str,
    redirect: &str,
) -> Result<End, Fail> {
    let client = client(alloc)?;
    finish_by(alloc, &client, http_client, stored, redirect)
}

// The same by this client.
fn finish_by(
    alloc: Global,
    client: &LoginClient,
    http_client: &mut OneReply,
    stored: &str,
    redirect: &str,
) -> Result<End, Fail> {
    let redirect = url(alloc, redirect)?;
    let login: Login = read(alloc, stored)?;
    Ok(login.finish(alloc, client, http_client, &redirect))
}

// RFC 6749, section 4.1.3: the token request has the redirect URI of the login's URL.
#[test]
fn a_login_gets_its_token(rt: HostRuntime) -> Result<(), Fail> {
    let mut http_client = OneReply::with_body(rt.alloc(), 200, REPLY)?;
    let redirect = "https://app.example/cb?a=1&code=c%201&state=s7";
    let token = finish(rt.alloc(), &mut http_client, STORED, redirect)??;
    check_text(token.access_token().secret().as_str(), "t1")?;
    let sent = "grant_type=authorization_code&code=c+1\
         &code_verifier=dBjftJeZ4CVP-mB92K27uhbUJU1p1r_wW1gFWFOEjXk&client_id=aaa\
         &redirect_uri=https%3A%2F%2Fapp.example%2Fcb%3Fa%3D1";
    check_equal(http_client.sent(), sent.as_bytes())
}

// Checks the error of a login with this redirect, and how many requests it sends, if the reply has
// this body.
fn check_error(
    alloc: Global,
    redirect: &str,
    body: &str,
    wanted: &str,
    calls: u64,
) -> Result<(), Fail> {
    let mut http_client = OneReply::with_body(alloc, 200, body)?;
    match finish(alloc, &mut http_client, STORED, redirect)? {
        Ok(_) => return Err(Fail::new("a token")),
        Err(error) => check_display(alloc, &error, wanted)?,
    }
    check_equal(http_client.calls, calls)
}

#[test]
fn a_login_without_a_token(rt: HostRuntime) -> Result<(), Fail> {
    for (redirect, body, wanted, calls) in [
        (
            "https://app.example/cb?a=1&code=c1&state=s8",
            REPLY,
            "redirect has another state",
            0,
        ),
        (
            "https://app.example/cb?a=1&error=access_denied&state=s7",
            REPLY,
            "access_denied",
            0,
        ),
        (
            "https://app.example/cb?a=1&code=c1&state=s7",
            "{}",
            "Failed to parse server response",
            1,
        ),
    ] {
        check_error(rt.alloc(), redirect, body, wanted, calls)?;
    }
    Ok(())
}

// RFC 9207, section 2.4: an issuer that each redirect must name, and one that is known.
#[test]
fn a_login_has_its_issuer(rt: HostRuntime) -> Result<(), Fail> {
    let own = "https://app.example/cb?a=1&code=c1&state=s7&iss=https%3A%2F%2Fas.example";
    let other = "https://app.example/cb?a=1&code=c1&state=s7&iss=https%3A%2F%2Fother.example";
    let none = "https://app.example/cb?a=1&code=c1&state=s7";
    for (stored, redirect, calls) in [
        (STORED_WITH_AN_ISSUER, own, 1),
        (STORED_WITH_AN_ISSUER, other, 0),
        (STORED_WITH_AN_ISSUER, none, 0),
        (STORED_WITH_A_KNOWN_ISSUER, own, 1),
        (STORED_WITH_A_KNOWN_ISSUER, other, 0),
        (STORED_WITH_A_KNOWN_ISSUER, none, 1),
        (STORED, other, 1),
    ] {
        let mut http_client = OneReply::with_body(rt.alloc(), 200, REPLY)?;
        let _ = finish(rt.alloc(), &mut http_client, stored, redirect)?;
        check(http_client.calls == calls, redirect)?;
    }
    Ok(())
}

// Checks that a login is refused by a client with this identifier and this token endpoint, at this
// redirect, and that nothing is sent.
fn check_mismatch(
    alloc: Global,
    client: &LoginClient,
    redirect: &str,
    wanted: LoginMismatch,
) -> Result<(), Fail> {
    let mut http_client = OneReply::with_body(alloc, 200, REPLY)?;
    match finish_by(alloc, client, &mut http_client, STORED, redirect)? {
        Err(LoginError::Refused(RefusedLogin { error, login })) => {
            check_equal(error, LoginRefusal::Mismatch(wanted))?;
            check_written(alloc, &login, STORED)?;
        }
        _ => return Err(Fail::new(format_args!("not refused at {redirect}"))),
    }
    check_equal(http_client.calls, 0)
}

// RFC 9700, sections 2.1 and 4.4: what is not the login's is named, and the first of several.
#[test]
fn a_login_is_bound(rt: HostRuntime) -> Result<(), Fail> {
    let alloc = rt.alloc();
    let own = client(alloc)?;
    let other_server = client_of(alloc, "aaa", "https://other.example/token")?;
    let other_client = client_of(alloc, "bbb", "https://other.example/token")?;
    let called = "https://app.example/cb?a=1&code=c1&state=s7";
    let elsewhere = "https://app.example/other?a=2&code=c1&state=s8";
    for (client, redirect, wanted) in [
        (&other_client, called, LoginMismatch::OtherClient),
        (&other_client, elsewhere, LoginMismatch::OtherClient),
        (&other_server, called, LoginMismatch::OtherTokenEndpoint),
        (&other_server, elsewhere, LoginMismatch::OtherTokenEndpoint),
        (&own, elsewhere, LoginMismatch::OtherRedirectUri),
    ] {
        check_mismatch(alloc, client, redirect, wanted)?;
    }
    Ok(())
}

// The login that is returned with the error for a redirect with another state.
fn login_of_error(alloc: Global, http_client: &mut OneReply) -> Result<Login, Fail> {
    let redirect = "https://app.example/cb?a=1&code=c1&state=s8";
    match finish(alloc, http_client, STORED_WITH_AN_ISSUER, redirect)? {
        Err(LoginError::Refused(refused)) => Ok(refused.login),
        _ => Err(Fail::new("no login")),
    }
}

// Finishes a login if the redirect's parameters are the body of a form
// (`response_mode=form_post`).
fn finish_by_form(alloc: Global, http_client: &mut OneReply, login: Login) -> Result<End, Fail> {
    let called = url(alloc, "https://app.example/cb?a=1")?;
    let body = "state=s7&code=c1&iss=https%3A%2F%2Fas.example";
    let client = client(alloc)?;
    Ok(login.finish_query(alloc, &client, http_client, &called, body))
}

// RFC 6749, section 4.1.2.1: a redirect with another state does not end a login. The error returns
// the login, which still gets its token by its own redirect.
#[test]
fn a_login_is_given_back(rt: HostRuntime) -> Result<(), Fail> {
    let mut http_client = OneReply::with_body(rt.alloc(), 200, REPLY)?;
    let login = login_of_error(rt.alloc(), &mut http_client)?;
    check_text(login.state().secret().as_str(), "s7")?;
    check_written(rt.alloc(), &login, STORED_WITH_AN_ISSUER)?;
    let _ = finish_by_form(rt.alloc(), &mut http_client, login)??;
    Ok(())
}

// A caller that has more to do before the code is sent, and one that has the login back instead.
#[test]
fn a_login_in_two_steps(rt: HostRuntime) -> Result<(), Fail> {
    let alloc = rt.alloc();
    let client = client(alloc)?;
    let called = url(alloc, "https://app.example/cb?a=1")?;
    let login: Login = read(alloc, STORED)?;
    let Ok(authorized) = login.check_redirect(alloc, &client, &called, "state=s7&code=c1") else {
        return Err(Fail::new("refused"));
    };
    check_debug(alloc, &authorized, "AuthorizedLogin([redacted])")?;
    check_text(
        authorized.login().redirect_uri().as_str(),
        "https://app.example/cb?a=1",
    )?;
    let login = authorized.into_login();
    let Ok(authorized) = login.check_redirect(alloc, &client, &called, "state=s7&code=c2") else {
        return Err(Fail::new("refused"));
    };
    let mut http_client = OneReply::with_body(alloc, 200, REPLY)?;
    let _ = authorized.request(alloc, &client, &mut http_client)?;
    check_equal(http_client.calls, 1)
}

#[test]
fn an_error_of_a_login_is_hidden(rt: HostRuntime) -> Result<(), Fail> {
    let mut http_client = OneReply::with_body(rt.alloc(), 200, REPLY)?;
    let redirect = "https://app.example/cb?a=1&code=c1&state=s8";
    match finish(rt.alloc(), &mut http_client, STORED, redirect)? {
        Ok(_) => Err(Fail::new("a token")),
        Err(error) => check_debug(rt.alloc(), &error, "Refused([redacted])"),
    }
}

#[test]
fn a_login_is_stored(rt: HostRuntime) -> Result<(), Fail> {
    for stored in [STORED, STORED_WITH_AN_ISSUER, STORED_WITH_A_KNOWN_ISSUER] {
        let login: Login = read(rt.alloc(), stored)?;
        check_written(rt.alloc(), &login, stored)?;
        check_debug(rt.alloc(), &login, "Login([redacted])")?;
    }
    Ok(())
}

// A login whose server is not there, or is there in part, does not read.
#[test]
fn a_login_without_its_server(rt: HostRuntime) -> Result<(), Fail> {
    let old =
        r#"{"redirect_uri":"https://app.example/cb","state":"s7","verifier":"dBjftJeZ4CVP-mB92K27uhbUJU1p1r_wW1gFWFOEjXk"}"#;
    let no_issuer =
        r#"{"client_id":"aaa","issuer_in_each_redirect":true,"redirect_uri":"https://app.example/cb","state":"s7","token_url":"https://as.example/token","verifier":"dBjftJeZ4CVP-mB92K27uhbUJU1p1r_wW1gFWFOEjXk"}"#;
    check_fault::<Login>(
        rt.alloc(),
        old,
        "issuer_in_each_redirect",
        ParseCause::Missing,
    )?;
    check_fault::<Login>(rt.alloc(), no_issuer, "issuer", ParseCause::Missing)
}

fn start(alloc: Global, client: &LoginClient) -> Result<LoginRequest<'_>, Fail> {
    let scope = Scope::new(text(alloc, "read")?);
    let issuer = LoginIssuer::InEachRedirect(text(alloc, "https://as.example")?);
    Ok(Login::start(alloc, client, issuer, &mut Pcg32::new(42, 54))?.add_scope(scope)?)
}

// A login without a redirect URI is refused by name, and given back.
#[test]
fn a_login_needs_a_redirect_uri(rt: HostRuntime) -> Result<(), Fail> {
    let client = client(rt.alloc())?;
    let Err(refused) = start(rt.alloc(), &client)?.url(rt.alloc()) else {
        return Err(Fail::new("a URL"));
    };
    check_equal(refused.error, LoginUrlFault::NoRedirectUri)?;
    check_display(rt.alloc(), &refused, "login has no redirect URI")?;
    check_debug(rt.alloc(), &refused.request, "LoginRequest([redacted])")
}

#[test]
fn a_login_is_started(rt: HostRuntime) -> Result<(), Fail> {
    let client = client(rt.alloc())?;
    let redirect = RedirectUrl::new(rt.alloc(), text(rt.alloc(), "https://app.example/cb")?)?;
    let request = start(rt.alloc(), &client)?
        .add_extra_param("nonce".into(), "n1".into())?
        .set_redirect_uri(&redirect);
    let (led, login) = request.url(rt.alloc())?;
    check_text(
        led.as_str(),
        "https://as.example/auth?response_type=code&client_id=aaa&state=twJcoQn0R3swMx26k_LSgw\
         &code_challenge=H7ZdcLcbjjOKQshuaEBh45jlXGBfQdZSXs7wHPjiPgQ&code_challenge_method=S256\
         &redirect_uri=https%3A%2F%2Fapp.example%2Fcb&scope=read&nonce=n1",
    )?;
    check_written(
        rt.alloc(),
        &login,
        "{\"client_id\":\"aaa\",\"issuer\":\"https://as.example\",\
         \"issuer_in_each_redirect\":true,\"redirect_uri\":\"https://app.example/cb\",\
         \"state\":\"twJcoQn0R3swMx26k_LSgw\",\"token_url\":\"https://as.example/token\",\
         \"verifier\":\"S3ikv25g7cuto8a_bf8vgVowH-aQSzj5_obbMvk1wB0\"}",
    )
}
