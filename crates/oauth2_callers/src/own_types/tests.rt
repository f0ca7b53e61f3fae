//! Tests of a client whose server defines its own token types, extra fields, error codes, error
//! response and revocable tokens.

use crate::application::{CannedClient, CannedError};
use crate::own_types::client::{
    ColorfulClient, ColorfulErrorResponse, ColorfulIntrospectionResponse, ColorfulTokenResponse,
    colorful_client, device_codes, device_token, introspection, revocation, revoke, token_for_code,
    token_for_password, token_for_refresh_token, token_of_its_own,
};
use crate::own_types::colorful_error::ColorfulErrorResponseType;
use crate::own_types::colorful_fields::ColorfulFields;
use crate::own_types::colorful_token::ColorfulRevocableToken;
use crate::own_types::colorful_token_type::ColorfulTokenType;
use crate::own_types::custom_client::{
    CustomErrorClient, custom_error_client, token_or_custom_error,
};
use crate::own_types::custom_error::CustomErrorResponse;
use crate::own_types::kept::{
    codes_value, error_value, introspection_value, reread, restored_token, stored_token,
};
use crate::support::{assert_equal, assert_text, reply, text};
use jiff::Timestamp;
use oauth2::{
    AccessToken, AuthorizationCode, ClientId, ClientSecret, DeviceAuthorizationResponse,
    DeviceAuthorizationUrl, DeviceCodeErrorResponse, HttpRequest, HttpResponse, IntrospectionUrl,
    ParseCause, PollWorld, ReadError, RefreshToken, RequestTokenError, ResourceOwnerPassword,
    ResourceOwnerUsername, RevocationUrl, SyncHttpClient, TokenIntrospectionResponse,
    TokenResponse, TokenUrl, read_body,
};
use serde_json::Value;
use std::fmt::{Debug, Display};
use std::process::Abort;
use std::time::Duration;

type Answer<T> = Result<T, RequestTokenError<CannedError, ColorfulErrorResponse>>;

type TokenAnswer = Answer<ColorfulTokenResponse>;

fn token_url(rt: &(impl Abort + AllocGlobal)) -> TokenUrl {
    TokenUrl::new(rt.alloc(), text(rt, "https://example.com/token")).expect(rt, "a URL")
}

fn client(rt: &(impl Abort + AllocGlobal)) -> ColorfulClient {
    let alloc = rt.alloc();
    let device = DeviceAuthorizationUrl::new(alloc, text(rt, "https://example.com/device"));
    let introspection = IntrospectionUrl::new(alloc, text(rt, "https://example.com/introspect"));
    let revocation = RevocationUrl::new(alloc, text(rt, "https://example.com/revoke"));
    colorful_client(
        ClientId::new(text(rt, "aaa")),
        device.expect(rt, "a URL"),
        introspection.expect(rt, "a URL"),
        revocation.expect(rt, "a URL"),
        token_url(rt),
    )
    .set_client_secret(ClientSecret::new(text(rt, "bbb")))
}

// Calls `ask` with the client above. A call of this costs a proof far less than a test that drops
// a client itself.
fn asked<T, F: FnOnce(&ColorfulClient) -> T>(rt: &(impl Abort + AllocGlobal), ask: F) -> T
    requires { F.IsAlwaysCallable ask }
{
    ask(&client(rt))
}

// A client that returns a reply with status 200 and this body.
fn answering(rt: &(impl Abort + AllocGlobal), body: &str) -> CannedClient {
    CannedClient::new(reply(rt, 200, body))
}

fn assert_displayed_as<T: Display>(rt: &(impl Abort + AllocGlobal), value: &T, wanted: &str) {
    let shown = format!(in rt.alloc(); "{value}").expect(rt, "a text");
    assert_text(rt, shown.as_str(), wanted);
}

// Exchanges a code at a server that replies with this status and body.
fn answer(rt: &(impl Abort + AllocGlobal), status: u16, body: &str) -> TokenAnswer {
    let code = AuthorizationCode::new(text(rt, "ccc"));
    let mut http_client = CannedClient::new(reply(rt, status, body));
    asked(
        rt,
        |client| token_for_code(rt.alloc(), client, &mut http_client, code),
    )
}

const TOKEN: &str = r#"{"access_token":"12/34","height":12,"shape":"round","token_type":"green"}"#;

fn token(rt: &(impl Abort + AllocGlobal)) -> ColorfulTokenResponse {
    answer(rt, 200, TOKEN).expect(rt, "a token")
}

fn assert_fields(rt: &(impl Abort + AllocGlobal), fields: &ColorfulFields) {
    assert_equal(rt, fields.height, 12);
    assert_equal(rt, fields.shape.as_deref(), Some("round"));
}

fn assert_token(rt: &(impl Abort + AllocGlobal), token: &ColorfulTokenResponse) {
    assert_text(rt, token.access_token().secret().as_str(), "12/34");
    assert!(rt; *token.token_type() == ColorfulTokenType::Green);
    assert_fields(rt, token.extra_fields());
}

#[test]
fn token_with_a_color(rt: HostRuntime) {
    let token = token(&rt);
    assert_token(&rt, &token);
}

#[test]
fn token_that_is_kept(rt: HostRuntime) {
    let token = token(&rt);
    let kept = stored_token(rt.alloc(), &token).expect(&rt, "a text");
    assert_text(&rt, kept.as_str(), TOKEN);
    let restored = restored_token(rt.alloc(), kept.as_str()).expect(&rt, "a token");
    assert_token(&rt, &restored);
}

// The smallest response in the Rust crate's tests.
#[test]
fn token_without_a_shape(rt: HostRuntime) {
    let body = r#"{"access_token":"12/34","height":10,"token_type":"green"}"#;
    let token = restored_token(rt.alloc(), body).expect(&rt, "a token");
    assert_equal(&rt, token.extra_fields().height, 10);
    assert!(rt; token.extra_fields().shape.is_none());
    let kept = stored_token(rt.alloc(), &token).expect(&rt, "a text");
    assert_text(&rt, kept.as_str(), body);
}

#[test]
fn extra_fields_are_written_beside(rt: HostRuntime) {
    let body = r#"{"access_token":"12/34","token_type":"GREEN","shape":"round","height":12}"#;
    let token = restored_token(rt.alloc(), body).expect(&rt, "a token");
    let kept = stored_token(rt.alloc(), &token).expect(&rt, "a text");
    assert_text(&rt, kept.as_str(), TOKEN);
}

// Asserts that a token response with this body is refused, with this member and this cause.
fn assert_refused(rt: &(impl Abort + AllocGlobal), body: &str, member: &str, cause: ParseCause) {
    let Err(ReadError::Fault(fault)) = restored_token(rt.alloc(), body) else {
        panic!(rt; "no fault");
    };
    assert_text(rt, fault.member.as_str(), member);
    assert_equal(rt, fault.cause, cause);
}

#[test]
fn extra_fields_are_read_last(rt: HostRuntime) {
    for (body, member, cause) in [
        (
            r#"{"access_token":"12/34","token_type":"blue"}"#,
            "token_type",
            ParseCause::Refused,
        ),
        (
            r#"{"access_token":"12/34","token_type":"red"}"#,
            "height",
            ParseCause::Missing,
        ),
        (
            r#"{"access_token":"12/34","token_type":"red","height":4294967296}"#,
            "height",
            ParseCause::OutOfRange,
        ),
    ] {
        assert_refused(&rt, body, member, cause);
    }
}

#[test]
fn token_that_is_read_again(rt: HostRuntime) {
    let token = token(&rt);
    let again = reread(rt.alloc(), &token).expect(&rt, "a token");
    assert_token(&rt, &again);
}

#[test]
fn error_code_of_ones_own(rt: HostRuntime) {
    let body = r#"{"error":"too_light","error_description":"color is too light"}"#;
    let Err(RequestTokenError::ServerResponse(response)) = answer(&rt, 400, body) else {
        panic!(rt; "no error response");
    };
    assert!(rt; *response.error() == ColorfulErrorResponseType::TooLight);
    assert_displayed_as(&rt, &response, "too_light: color is too light");
}

fn custom_client(rt: &(impl Abort + AllocGlobal)) -> CustomErrorClient {
    custom_error_client(ClientId::new(text(rt, "aaa")), token_url(rt))
}

// Requests a token at a server that replies with a custom error response.
fn custom_answer(
    rt: &(impl Abort + AllocGlobal),
    client: &CustomErrorClient,
) -> Result<ColorfulTokenResponse, RequestTokenError<CannedError, CustomErrorResponse>> {
    let body = r#"{"custom_error":"non-compliant"}"#;
    token_or_custom_error(
        rt.alloc(),
        client,
        &mut CannedClient::new(reply(rt, 400, body)),
    )
}

#[test]
fn error_response_of_ones_own(rt: HostRuntime) {
    let answer = custom_answer(&rt, &custom_client(&rt));
    let error = answer.err().expect(&rt, "an error");
    assert_displayed_as(&rt, &error, "Server returned error response: non-compliant");
}

fn revocation_request(
    rt: &(impl Abort + AllocGlobal),
    client: &ColorfulClient,
    token: ColorfulRevocableToken,
) -> HttpRequest {
    revocation(rt.alloc(), client, token)
        .expect(rt, "an endpoint")
        .prepare_request(rt.alloc())
        .expect(rt, "a request")
}

fn assert_body(rt: &impl Abort, request: HttpRequest, body: &[u8]) {
    assert_equal(rt, request.body().as_slice(), body);
}

#[test]
fn revocation_of_a_red_token(rt: HostRuntime) {
    let token = ColorfulRevocableToken(text(&rt, "colorful_token_123"));
    let request = asked(&rt, |client| revocation_request(&rt, client, token));
    assert_body(
        &rt,
        request,
        b"token=colorful_token_123&token_type_hint=red_token".as_slice(),
    );
}

// Asserts that the answer is the token above.
fn assert_answer<E: Debug + Drop>(
    rt: &(impl Abort + AllocGlobal),
    answer: Result<ColorfulTokenResponse, E>,
) {
    let token = answer.expect(rt, "a token");
    assert_token(rt, &token);
}

// Refreshes at a server that replies with the token above.
fn refreshed(
    rt: &(impl Abort + AllocGlobal),
    client: &ColorfulClient,
    refresh_token: &RefreshToken,
) -> TokenAnswer {
    token_for_refresh_token(rt.alloc(), client, &mut answering(rt, TOKEN), refresh_token)
}

#[test]
fn token_for_a_refresh_token(rt: HostRuntime) {
    let refresh_token = RefreshToken::new(text(&rt, "ccc"));
    let answer = asked(&rt, |client| refreshed(&rt, client, &refresh_token));
    assert_answer(&rt, answer);
}

// Requests a token with a name and a password at a server that replies with the token above.
fn logged_in(
    rt: &(impl Abort + AllocGlobal),
    client: &ColorfulClient,
    username: &ResourceOwnerUsername,
    password: &ResourceOwnerPassword,
) -> TokenAnswer {
    token_for_password(
        rt.alloc(),
        client,
        &mut answering(rt, TOKEN),
        username,
        password,
    )
}

#[test]
fn token_for_a_name_and_a_password(rt: HostRuntime) {
    let username = ResourceOwnerUsername::new(text(&rt, "user"));
    let password = ResourceOwnerPassword::new(text(&rt, "pass"));
    let answer = asked(&rt, |client| logged_in(&rt, client, &username, &password));
    assert_answer(&rt, answer);
}

// Requests a token with the client's credentials at a server that replies with the token above.
fn granted_to_the_client(rt: &(impl Abort + AllocGlobal), client: &ColorfulClient) -> TokenAnswer {
    token_of_its_own(rt.alloc(), client, &mut answering(rt, TOKEN))
}

#[test]
fn token_of_the_client(rt: HostRuntime) {
    let answer = asked(&rt, |client| granted_to_the_client(&rt, client));
    assert_answer(&rt, answer);
}

// Asserts that the value is written as this text.
fn assert_written_as(rt: &(impl Abort + AllocGlobal), value: Value, wanted: &str) {
    let written = value.to_string(rt.alloc()).expect(rt, "a text");
    assert_text(rt, written.as_str(), wanted);
}

const ACTIVE: &str = r#"{"active":true,"height":12,"shape":"round","token_type":"green"}"#;

// Introspects a token at a server that replies with `ACTIVE`.
fn introspected_by(
    rt: &(impl Abort + AllocGlobal),
    client: &ColorfulClient,
    token: &AccessToken,
) -> Answer<ColorfulIntrospectionResponse> {
    introspection(rt.alloc(), client, &mut answering(rt, ACTIVE), token)
}

fn introspected(rt: &(impl Abort + AllocGlobal)) -> ColorfulIntrospectionResponse {
    let token = AccessToken::new(text(rt, "12/34"));
    let answer = asked(rt, |client| introspected_by(rt, client, &token));
    answer.expect(rt, "an introspection response")
}

#[test]
fn introspection_with_a_color(rt: HostRuntime) {
    let response = introspected(&rt);
    assert!(rt; response.active());
    assert!(rt; response.token_type() == Some(&ColorfulTokenType::Green));
    assert_fields(&rt, response.extra_fields());
}

#[test]
fn introspection_that_is_kept(rt: HostRuntime) {
    let response = introspected(&rt);
    let value = introspection_value(rt.alloc(), &response).expect(&rt, "a value");
    assert_written_as(&rt, value, ACTIVE);
}

const CODES: &str =
    "{\"device_code\":\"d\",\"expires_in\":300,\"height\":12,\"interval\":5,\"shape\":\"round\",\
     \"user_code\":\"abcde\",\"verification_uri\":\"https://v/\"}";

// Requests the codes of a device at a server that replies with `CODES`.
fn codes_from(
    rt: &(impl Abort + AllocGlobal),
    client: &ColorfulClient,
) -> Answer<DeviceAuthorizationResponse<ColorfulFields>> {
    device_codes(rt.alloc(), client, &mut answering(rt, CODES))
}

fn codes(rt: &(impl Abort + AllocGlobal)) -> DeviceAuthorizationResponse<ColorfulFields> {
    let answer = asked(rt, |client| codes_from(rt, client));
    answer.expect(rt, "the codes")
}

#[test]
fn codes_of_a_device(rt: HostRuntime) {
    let codes = codes(&rt);
    assert_text(&rt, codes.user_code().secret().as_str(), "abcde");
    assert_fields(&rt, codes.extra_fields());
}

#[test]
fn codes_that_are_kept(rt: HostRuntime) {
    let codes = codes(&rt);
    let value = codes_value(rt.alloc(), &codes).expect(&rt, "a value");
    assert_written_as(&rt, value, CODES);
}

// A world whose clock always shows 1970-01-01 00:00, and whose client returns one reply.
#[derive(Drop)]
struct Still(CannedClient);

impl PollWorld for Still {
    type Error = CannedError;

    fn now(&mut self) -> Timestamp {
        Timestamp::UNIX_EPOCH
    }

    fn send(&mut self, request: HttpRequest) -> Result<HttpResponse, CannedError> {
        self.0.call(request)
    }

    fn sleep(&mut self, _duration: Duration) {}
}

fn restored_codes(rt: &(impl Abort + AllocGlobal)) -> DeviceAuthorizationResponse<ColorfulFields> {
    read_body(rt.alloc(), CODES.as_bytes()).expect(rt, "the codes")
}

// Polls with these codes at a server that replies with the token above.
fn polled(
    rt: &(impl Abort + AllocGlobal),
    client: &ColorfulClient,
    codes: &DeviceAuthorizationResponse<ColorfulFields>,
) -> Result<ColorfulTokenResponse, RequestTokenError<CannedError, DeviceCodeErrorResponse>> {
    device_token(rt.alloc(), client, codes, &mut Still(answering(rt, TOKEN)))
}

#[test]
fn token_of_a_device(rt: HostRuntime) {
    let codes = restored_codes(&rt);
    let answer = asked(&rt, |client| polled(&rt, client, &codes));
    assert_answer(&rt, answer);
}

#[test]
fn error_that_is_kept(rt: HostRuntime) {
    let description = Some(text(&rt, "color is too light"));
    let error = ColorfulErrorResponse::new(ColorfulErrorResponseType::TooLight, description, None);
    let value = error_value(rt.alloc(), &error).expect(&rt, "a value");
    assert_written_as(
        &rt,
        value,
        r#"{"error":"too_light","error_description":"color is too light"}"#,
    );
}

// Revokes a token at a server that replies with status 200.
fn revoked(
    rt: &(impl Abort + AllocGlobal),
    client: &ColorfulClient,
    token: ColorfulRevocableToken,
) -> Answer<()> {
    let request = revocation(rt.alloc(), client, token).expect(rt, "an endpoint");
    revoke(rt.alloc(), request, &mut answering(rt, ""))
}

#[test]
fn red_token_is_revoked(rt: HostRuntime) {
    let token = ColorfulRevocableToken(text(&rt, "colorful_token_123"));
    let answer = asked(&rt, |client| revoked(&rt, client, token));
    assert!(rt; answer.is_ok());
}
