//! Tests of texts that are ID tokens, and of texts that are not.

use crate::support::{
    APPENDIX_A2, assert_debugged_as, assert_displayed_as, assert_equal, assert_text,
    assert_text_at, read, text, token,
};
use jiff::Timestamp;
use oauth2_codes::BasicTokenType;
use oauth2_json::FromJson;
use oauth2_openid::{ClaimsError, IdToken, IdTokenClaims, IdTokenFields, IdTokenText, Nonce};
use oauth2_replies::StandardTokenResponse;
use oauth2_types::TryClone;
use rand_pcg::Pcg32;
use serde_json::Value;
use std::process::Abort;

const HEADER: &str = r#"{"alg":"RS256","kid":"k1","typ":"JWT"}"#;

const CLAIMS: &str = r#"{"iss":"i","sub":"s","aud":"c","exp":20,"iat":10}"#;

// What reading a text as an ID token returns, as one line: `read`, or the error.
fn line(rt: &(impl Abort + AllocGlobal), token: &str) -> String {
    match IdToken::from_text(rt.alloc(), token) {
        Ok(_) => text(rt, "read"),
        Err(error) => format!(in rt.alloc(); "{error}").expect(rt, "an error"),
    }
}

// Checks what reading a token returns, as one line.
fn assert_read_as(rt: &(impl Abort + AllocGlobal), token: &str, expected: &str, row: &str) {
    assert_text_at(rt, line(rt, token).as_str(), expected, row);
}

fn assert_header_of_the_standard(rt: &impl Abort, token: &IdToken) {
    assert_text(rt, token.header().algorithm(), "RS256");
    assert_text(rt, token.header().key_id().unwrap_or(""), "1e9gdk7");
}

fn sole_audience_of(claims: &IdTokenClaims) -> &str {
    match claims.audience() {
        [sole] => sole.as_str(),
        _ => "",
    }
}

fn assert_claims_of_the_standard(rt: &impl Abort, claims: &IdTokenClaims) {
    assert_text(rt, claims.issuer(), "http://server.example.com");
    assert_text(rt, claims.subject(), "248289761001");
    assert_text(rt, sole_audience_of(claims), "s6BhdRkqt3");
    assert_equal(rt, claims.expires_at().as_second(), 1311281970);
    assert_equal(rt, claims.issued_at().as_second(), 1311280970);
}

// Checks that the claims are absent that the token of appendix A.2 does not have.
fn assert_other_claims_absent(rt: &impl Abort, claims: &IdTokenClaims) {
    assert_text(rt, second_method_of(claims), "");
    assert_equal(rt, claims.auth_time(), None);
    assert_text(
        rt,
        claims.authentication_context_class().unwrap_or("none"),
        "none",
    );
    assert_text(rt, claims.authorized_party().unwrap_or("none"), "none");
    assert_text(rt, claims.access_token_hash().unwrap_or("none"), "none");
}

#[test]
fn reads_the_token_of_the_standard(rt: HostRuntime) {
    let token = read(&rt, APPENDIX_A2);
    assert_header_of_the_standard(&rt, &token);
    assert_claims_of_the_standard(&rt, token.claims());
    assert_other_claims_absent(&rt, token.claims());
    assert_displayed_as(&rt, token.other_header_members(), "{}");
    assert_displayed_as(
        &rt,
        token.other_claims(),
        "{\"birthdate\":\"0000-10-31\",\"email\":\"janedoe@example.com\",\"family_name\":\"Doe\",\
         \"gender\":\"female\",\"given_name\":\"Jane\",\"name\":\"Jane Doe\",\
         \"picture\":\"http://example.com/janedoe/me.jpg\"}",
    );
}

#[test]
fn gives_the_text_back(rt: HostRuntime) {
    let token = read(&rt, APPENDIX_A2);
    assert_displayed_as(&rt, &token, APPENDIX_A2);
    assert_debugged_as(&rt, &token, "IdToken([redacted])");
    assert_equal(&rt, token.signature().len(), 256);
    assert_equal(&rt, token.signed_part().len(), APPENDIX_A2.len() - 343);
}

fn nonce_of(claims: &IdTokenClaims) -> &str {
    match claims.nonce() {
        Some(nonce) => nonce.secret().as_str(),
        None => "",
    }
}

fn second_method_of(claims: &IdTokenClaims) -> &str {
    match claims.authentication_methods() {
        Some([_, second]) => second.as_str(),
        _ => "",
    }
}

fn assert_claims_of_a_login(rt: &impl Abort, claims: &IdTokenClaims) {
    assert_text(rt, nonce_of(claims), "n");
    assert_text(
        rt,
        claims.authentication_context_class().unwrap_or(""),
        "urn:mace:incommon:iap:silver",
    );
    assert_text(rt, second_method_of(claims), "otp");
    assert_text(rt, claims.authorized_party().unwrap_or(""), "c");
    assert_text(rt, claims.access_token_hash().unwrap_or(""), "h");
    assert_equal(rt, claims.auth_time(), Timestamp::from_second(5).ok());
}

#[test]
fn reads_how_the_user_logged_in(rt: HostRuntime) {
    let claims = r#"{"iss":"i","sub":"s","aud":"c","exp":20,"iat":10,"auth_time":5,"nonce":"n",
        "acr":"urn:mace:incommon:iap:silver","amr":["pwd","otp"],"azp":"c","at_hash":"h"}"#;
    let token = read(&rt, token(&rt, HEADER, claims).as_str());
    assert_claims_of_a_login(&rt, token.claims());
}

// Claims, and what reading a token with them returns.
const PAYLOADS: [(&str, &str); 20] = [
    (
        r#"{"iss":"i","sub":"s","aud":"c","exp":20,"iat":10}"#,
        "read",
    ),
    (
        r#"{"iss":"i","sub":"s","aud":["c","d"],"exp":20,"iat":10,"nonce":null}"#,
        "read",
    ),
    (r#"{"iss":"i","sub":"s","aud":[],"exp":-5,"iat":0}"#, "read"),
    (
        r#"{"sub":"s","aud":"c","exp":20,"iat":10}"#,
        "payload: iss: missing",
    ),
    (
        r#"{"iss":"i","aud":"c","exp":20,"iat":10}"#,
        "payload: sub: missing",
    ),
    (
        r#"{"iss":"i","sub":"s","exp":20,"iat":10}"#,
        "payload: aud: missing",
    ),
    (
        r#"{"iss":"i","sub":"s","aud":"c","iat":10}"#,
        "payload: exp: missing",
    ),
    (
        r#"{"iss":"i","sub":"s","aud":"c","exp":20}"#,
        "payload: iat: missing",
    ),
    (
        r#"{"iss":"i","sub":"s","aud":null,"exp":20,"iat":10}"#,
        "payload: aud: of the wrong type",
    ),
    (
        r#"{"iss":"i","sub":"s","aud":["c",1],"exp":20,"iat":10}"#,
        "payload: aud: of the wrong type",
    ),
    (
        r#"{"iss":"i","sub":"s","aud":"c","exp":"20","iat":10}"#,
        "payload: exp: of the wrong type",
    ),
    (
        r#"{"iss":"i","sub":"s","aud":"c","exp":20.5,"iat":-0}"#,
        "read",
    ),
    (
        r#"{"iss":"i","sub":"s","aud":"c","exp":253402207201,"iat":10}"#,
        "payload: exp: out of range",
    ),
    (
        r#"{"iss":"i","sub":"s","aud":"c","exp":20,"iat":10,"acr":1,"auth_time":"x"}"#,
        "read",
    ),
    (
        r#"{"iss":"i","sub":"s","aud":"c","exp":20,"iat":10,"amr":"pwd"}"#,
        "read",
    ),
    (
        r#"{"iss":"i","sub":"s","aud":"c","exp":20,"iat":10,"acr":null,"amr":null}"#,
        "read",
    ),
    (r#"{"iss":7,"sub":8}"#, "payload: iss: of the wrong type"),
    (
        r#"{"iss":1,"iss":"i","sub":"s","aud":"c","exp":20,"iat":10}"#,
        "read",
    ),
    ("[]", "payload: not an object"),
    (r#"{"iss":"i""#, "payload: not one whole JSON value"),
];

#[test]
fn reads_claims(rt: HostRuntime) {
    for (claims, expected) in PAYLOADS {
        assert_read_as(&rt, token(&rt, HEADER, claims).as_str(), expected, claims);
    }
}

// A header, and what reading a token with it returns.
const HEADERS: [(&str, &str); 5] = [
    (HEADER, "read"),
    (r#"{"alg":"none"}"#, "read"),
    (r#"{"kid":"k1"}"#, "header: alg: missing"),
    (
        r#"{"alg":"RS256","kid":1}"#,
        "header: kid: of the wrong type",
    ),
    ("null", "header: not an object"),
];

#[test]
fn reads_headers(rt: HostRuntime) {
    for (header, expected) in HEADERS {
        assert_read_as(&rt, token(&rt, header, CLAIMS).as_str(), expected, header);
    }
}

// A text, and what reading it returns.
const TEXTS: [(&str, &str); 13] = [
    ("", "not three parts"),
    ("e30", "not three parts"),
    ("e30.e30", "not three parts"),
    ("e30.e30.e30.e30", "not three parts"),
    ("..", "header: not one whole JSON value"),
    ("e30=.e30.e30", "header: not base64url"),
    ("e3+.e30.e30", "header: not base64url"),
    ("e 30.e30.e30", "header: not base64url"),
    ("e31.e30.e30", "header: not base64url"),
    ("e30.e30=.e30", "header: alg: missing"),
    ("eyJhbGciOiJSUzI1NiJ9.e30=.e30", "payload: not base64url"),
    (
        "eyJhbGciOiJSUzI1NiJ9.eyJpc3MiOiJpIiwic3ViIjoicyIsImF1ZCI6ImMiLCJleHAiOjIwLCJpYXQiOjEwfQ.e3",
        "signature: not base64url",
    ),
    (
        "eyJhbGciOiJSUzI1NiJ9.eyJpc3MiOiJpIiwic3ViIjoicyIsImF1ZCI6ImMiLCJleHAiOjIwLCJpYXQiOjEwfQ.",
        "read",
    ),
];

#[test]
fn reads_parts(rt: HostRuntime) {
    for (token, expected) in TEXTS {
        assert_read_as(&rt, token, expected, token);
    }
}

#[test]
fn shows_why_a_token_is_refused(rt: HostRuntime) {
    assert_displayed_as(&rt, &ClaimsError::Expired, "the token has expired");
    assert_displayed_as(
        &rt,
        &ClaimsError::OtherAccessToken,
        "the hash is that of another access token",
    );
}

// The text of a claim among the other claims.
fn other_claim<'a>(token: &'a IdToken, name: &str) -> &'a str {
    match token.other_claims().get(name) {
        Some(Value::String(text)) => text.as_str(),
        _ => "none",
    }
}

#[test]
fn keeps_claims_of_another_kind(rt: HostRuntime) {
    let claims = r#"{"iss":"i","sub":"s","aud":"c","exp":20.5,"iat":10,"amr":"pwd","acr":"a",
        "auth_time":"x"}"#;
    let token = read(&rt, token(&rt, HEADER, claims).as_str());
    assert_equal(&rt, token.claims().expires_at().as_millisecond(), 20500);
    assert_text(&rt, other_claim(&token, "amr"), "pwd");
    assert_text(&rt, other_claim(&token, "auth_time"), "x");
    assert_text(&rt, other_claim(&token, "acr"), "none");
}

type Response = StandardTokenResponse<IdTokenFields, BasicTokenType>;

// The text of the ID token in a token response.
fn id_token_of(rt: &(impl Abort + AllocGlobal), body: &str) -> String {
    match Response::from_body(rt.alloc(), body.as_bytes()) {
        Ok(response) => text_in(rt, response.extra_fields()),
        Err(_) => text(rt, "no response"),
    }
}

fn text_in(rt: &(impl Abort + AllocGlobal), fields: &IdTokenFields) -> String {
    match fields.value() {
        Some(token) => text(rt, token.secret().as_str()),
        None => text(rt, "none"),
    }
}

// A nonce of random bytes, as a text.
fn random_nonce(rt: &(impl Abort + AllocGlobal)) -> String {
    let mut rng = Pcg32::new(42, 54);
    Nonce::new_random(rt.alloc(), &mut rng)
        .expect(rt, "a nonce")
        .into_secret()
}

#[test]
fn keeps_a_nonce_secret(rt: HostRuntime) {
    let nonce = Nonce::new(text(&rt, "n-0S6_WzA2Mj"));
    assert_debugged_as(&rt, &nonce, "Nonce([redacted])");
    assert_text(&rt, nonce.secret().as_str(), "n-0S6_WzA2Mj");
    let copy = nonce.try_clone(rt.alloc()).expect(&rt, "a copy");
    assert_equal(&rt, copy, nonce);
    assert_equal(&rt, random_nonce(&rt).len(), 22);
}

#[test]
fn reads_a_token_response_with_an_id_token(rt: HostRuntime) {
    let body = r#"{"access_token":"SlAV32hkKG","token_type":"Bearer","expires_in":3600,
        "id_token":"a.b.c"}"#;
    assert_text(&rt, id_token_of(&rt, body).as_str(), "a.b.c");
    let no_token = r#"{"access_token":"SlAV32hkKG","token_type":"Bearer"}"#;
    assert_text(&rt, id_token_of(&rt, no_token).as_str(), "none");
    let token = IdTokenText::new(text(&rt, "a.b.c"));
    assert_debugged_as(&rt, &token, "IdTokenText([redacted])");
    assert_text(&rt, token.into_secret().as_str(), "a.b.c");
}
