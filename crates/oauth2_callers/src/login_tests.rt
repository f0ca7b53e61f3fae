//! Tests of a login from its URL to the exchange of its code: in one call, and in the two steps of
//! an application.

ghost use Rattle.oauth2_types.specs.Pkce.{HasValidLength};

use crate::application::{CannedClient, CannedError};
use crate::client::CodeClient;
use crate::openid::{finish_login, provider, start_login};
use crate::support::{assert_equal, assert_text, reply, text};
use crate::web_login::{begin, end};
use jiff::Timestamp;
use oauth2::basic::{BasicErrorResponse, BasicTokenResponse};
use oauth2::url::Url;
use oauth2::{
    AuthUrl, AuthorizationCode, Client, ClientId, ClientSecret, CodeFlow, CodeFlowError, CsrfToken,
    PkceCodeVerifier, RedirectUrl, TokenResponse, TokenUrl, code_flow,
};
use oauth2_openid_login::{
    OpenIdClient, OpenIdLogin, OpenIdLoginEnd, OpenIdLoginError, OpenIdLoginRefusal,
    OpenIdTokenResponse, RefusedOpenIdLogin,
};
use oauth2_redirect::{LoginIssuer, LoginRefusal, RedirectError};
use oauth2_refusals_support::{Repeated, VERIFIER};
use std::process::Abort;

const AUTH: &str = "https://example.com/auth";

const TOKEN: &str = "https://example.com/token";

fn auth_url(rt: &(impl Abort + AllocGlobal), url: &str) -> AuthUrl {
    AuthUrl::new(rt.alloc(), text(rt, url)).expect(rt, "a URL")
}

fn token_url(rt: &(impl Abort + AllocGlobal), url: &str) -> TokenUrl {
    TokenUrl::new(rt.alloc(), text(rt, url)).expect(rt, "a URL")
}

fn client(rt: &(impl Abort + AllocGlobal), auth: &str, token: &str) -> CodeClient {
    Client::new(ClientId::new(text(rt, "aaa")))
        .set_client_secret(ClientSecret::new(text(rt, "bbb")))
        .set_auth_uri(auth_url(rt, auth))
        .set_token_uri(token_url(rt, token))
}

fn verifier(rt: &(impl Abort + AllocGlobal)) -> PkceCodeVerifier
    ensures { HasValidLength result }
{
    let verifier = PkceCodeVerifier::new(text(rt, VERIFIER));
    assert!(rt; verifier.has_valid_length());
    verifier
}

// The URL and the token request of a login with this client.
fn login_of(
    rt: &(impl Abort + AllocGlobal),
    client: &CodeClient,
) -> Result<CodeFlow, CodeFlowError> {
    code_flow(
        rt.alloc(),
        client,
        CsrfToken::new(text(rt, "csrf_token")),
        verifier(rt),
        AuthorizationCode::new(text(rt, "ccc")),
    )
}

// The URL and the token request of a login with these endpoints.
fn login(
    rt: &(impl Abort + AllocGlobal),
    auth: &str,
    token: &str,
) -> Result<CodeFlow, CodeFlowError> {
    login_of(rt, &client(rt, auth, token))
}

// Asserts that a login with this authorization endpoint has this URL.
fn assert_login_url(rt: &(impl Abort + AllocGlobal), auth: &str, url: &str) {
    let flow = login(rt, auth, TOKEN).expect(rt, "a login");
    assert_text(rt, flow.url.as_str(), url);
    assert_text(rt, flow.state.secret().as_str(), "csrf_token");
    let body = "grant_type=authorization_code&code=ccc\
         &code_verifier=dBjftJeZ4CVP-mB92K27uhbUJU1p1r_wW1gFWFOEjXk";
    assert_equal(rt, flow.request.body().as_slice(), body.as_bytes());
}

#[test]
fn joined_login(rt: HostRuntime) {
    assert_login_url(
        &rt,
        AUTH,
        "https://example.com/auth?response_type=code&client_id=aaa&state=csrf_token\
         &code_challenge=E9Melhoa2OwvFrEMTJguCHaoeK1t8URWbuGJSstw-cM&code_challenge_method=S256",
    );
}

// A challenge in the endpoint's URL stays, so the query has two, and a server that looks up
// parameters by their name finds none.
#[test]
fn joined_login_beside_another_challenge(rt: HostRuntime) {
    assert_login_url(
        &rt,
        "https://example.com/auth?code_challenge=x",
        "https://example.com/auth?code_challenge=x&response_type=code&client_id=aaa\
         &state=csrf_token&code_challenge=E9Melhoa2OwvFrEMTJguCHaoeK1t8URWbuGJSstw-cM\
         &code_challenge_method=S256",
    );
}

#[test]
fn joined_login_without_a_target(rt: HostRuntime) {
    let error = login(&rt, AUTH, "data:text/plain,hello")
        .err()
        .expect(&rt, "a refusal");
    assert_equal(&rt, error, CodeFlowError::NotHttp);
    let shown = format!(in rt.alloc(); "{error}").expect(&rt, "a text");
    assert_text(&rt, shown.as_str(), "endpoint URL is not an HTTP target");
}

fn open_id_client(rt: &(impl Abort + AllocGlobal)) -> OpenIdClient {
    let redirect = RedirectUrl::new(rt.alloc(), text(rt, "https://app.example/cb"));
    Client::new(ClientId::new(text(rt, "aaa")))
        .set_auth_uri(auth_url(rt, AUTH))
        .set_token_uri(token_url(rt, TOKEN))
        .set_redirect_uri(redirect.expect(rt, "a URL"))
}

// Starts a login of this client, and asserts its URL.
fn started(rt: &(impl Abort + AllocGlobal), client: &OpenIdClient) -> OpenIdLogin {
    let mut rng = Repeated(0);
    let (url, login) = start_login(rt.alloc(), client, &provider(ISSUER), &mut rng).expect(
        rt, "a login",
    );
    assert_text(
        rt,
        url.as_str(),
        "https://example.com/auth?response_type=code&client_id=aaa&state=AAAAAAAAAAAAAAAAAAAAAA\
         &code_challenge=DwBzhbb51LfusnSGBa_hqYSgo7-j8BTQnip4TOnlzRo&code_challenge_method=S256\
         &redirect_uri=https%3A%2F%2Fapp.example%2Fcb&scope=openid&nonce=AAAAAAAAAAAAAAAAAAAAAA",
    );
    login
}

// The redirect of a login, with this state.
fn redirect_with(rt: &(impl Abort + AllocGlobal), state: &str) -> Url {
    redirect_from(rt, state, "https%3A%2F%2Fas.example")
}

// The redirect of a login, with this state, from this issuer.
fn redirect_from(rt: &(impl Abort + AllocGlobal), state: &str, issuer: &str) -> Url {
    let redirect = format!(in rt.alloc();
        "https://app.example/cb?code=ccc&state={state}&iss={issuer}"
    ).expect(rt, "a text");
    Url::parse(rt.alloc(), redirect.as_str()).expect(rt, "a URL")
}

// The issuer of the provider.
const ISSUER: &str = "https://as.example";

type Ended = Result<
    OpenIdLoginEnd<OpenIdTokenResponse>,
    OpenIdLoginError<CannedError, BasicErrorResponse>,
>;

// The result of a login whose redirect has this state, and whose token reply has this body.
fn ends(rt: &(impl Abort + AllocGlobal), state: &str, body: &str) -> Ended {
    let now = Timestamp::from_second(1311281000).ok().expect(rt, "a time");
    let redirect = redirect_with(rt, state);
    let client = open_id_client(rt);
    let login = started(rt, &client);
    finish_login(
        rt.alloc(),
        &client,
        &mut CannedClient::new(reply(rt, 200, body)),
        login,
        &redirect,
        &provider(ISSUER),
        || now,
    )
}

const STATE: &str = "AAAAAAAAAAAAAAAAAAAAAA";

// A response with an ID token of this login, made and encoded by Python.
const TOKENS: &str =
    "{\"access_token\":\"a\",\"token_type\":\"bearer\",\"id_token\":\"eyJhbGciOiJSUzI1NiJ9.eyJpc3\
     MiOiJodHRwczovL2FzLmV4YW1wbGUiLCJzdWIiOiIyNDgyODk3NjEwMDEiLCJhdWQiOiJhYWEiLCJub25jZSI6IkFBQU\
     FBQUFBQUFBQUFBQUFBQUFBQUEiLCJleHAiOjEzMTEyODE5NzAsImlhdCI6MTMxMTI4MDk3MCwiYXRfaGFzaCI6InlwZU\
     JFc29idmNyNndqR3ptaVBjVFEifQ.c2ln\"}";

#[test]
fn open_id_login(rt: HostRuntime) {
    let end = ends(&rt, STATE, TOKENS).ok().expect(&rt, "a user");
    assert_text(&rt, end.id_token.claims().subject(), "248289761001");
}

// What a login ended with.
fn name_of(ended: &Ended) -> &'static str {
    let Err(error) = ended else {
        return "a user";
    };
    match error {
        OpenIdLoginError::Refused(
            RefusedOpenIdLogin {
                error: OpenIdLoginRefusal::Login(LoginRefusal::Redirect(RedirectError::OtherState)),
                ..
            },
        ) => "another state",
        OpenIdLoginError::NoIdToken => "no ID token",
        OpenIdLoginError::Token(_) => "no token response",
        _ => "another error",
    }
}

// Asserts what a login ends with if its redirect has this state and its token reply has this body.
fn assert_ends_with(rt: &(impl Abort + AllocGlobal), state: &str, body: &str, wanted: &str) {
    let ended = ends(rt, state, body);
    assert_text(rt, name_of(&ended), wanted);
}

#[test]
fn open_id_login_without_a_user(rt: HostRuntime) {
    let without_id_token = r#"{"access_token":"a","token_type":"bearer"}"#;
    for (state, body, wanted) in [
        ("B", TOKENS, "another state"),
        (STATE, without_id_token, "no ID token"),
        (STATE, "{}", "no token response"),
    ] {
        assert_ends_with(&rt, state, body, wanted);
    }
}

// Starts a login of this client, asserts its URL, and returns the text to keep with the session.
fn start_web_login(rt: &(impl Abort + AllocGlobal), client: &CodeClient) -> String {
    let issuer = LoginIssuer::InEachRedirect(text(rt, "https://example.com"));
    let (url, session) = begin(rt.alloc(), client, issuer, &mut Repeated(0)).expect(rt, "a login");
    assert_text(
        rt,
        url.as_str(),
        "https://example.com/auth?response_type=code&client_id=aaa&state=AAAAAAAAAAAAAAAAAAAAAA\
         &code_challenge=DwBzhbb51LfusnSGBa_hqYSgo7-j8BTQnip4TOnlzRo&code_challenge_method=S256\
         &redirect_uri=https%3A%2F%2Fapp.example%2Fcb&scope=profile",
    );
    session
}

// Finishes the login that was kept as this text.
fn token_after(
    rt: &(impl Abort + AllocGlobal),
    client: &CodeClient,
    session: &str,
) -> BasicTokenResponse {
    let body = r#"{"access_token":"a","token_type":"bearer"}"#;
    let redirect = redirect_from(rt, STATE, "https%3A%2F%2Fexample.com");
    let token = end(
        rt.alloc(),
        client,
        &mut CannedClient::new(reply(rt, 200, body)),
        session,
        &redirect,
    );
    token.expect(rt, "a token")
}

// A login that is stored as a text between its two steps.
#[test]
fn web_login(rt: HostRuntime) {
    let redirect = RedirectUrl::new(rt.alloc(), text(&rt, "https://app.example/cb"));
    let client = client(&rt, AUTH, TOKEN).set_redirect_uri(redirect.expect(&rt, "a URL"));
    let session = start_web_login(&rt, &client);
    let token = token_after(&rt, &client, session.as_str());
    assert_text(&rt, token.access_token().secret().as_str(), "a");
}
