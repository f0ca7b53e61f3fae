//! Tests of logins from their redirect to their ID token.

use crate::support::{
    End, STORED, check_end, client_at, finish, finish_by, finish_query, response,
};
use oauth2::{RefreshToken, TokenResponse};
use oauth2_openid::AccessTokenHash;
use oauth2_openid_login::{
    OpenIdLoginEnd, OpenIdLoginError, OpenIdProvider, OpenIdTokenResponse, RedirectIssuer,
};
use oauth2_tests_support::{
    OneReply, check_debug, check_display, check_equal, check_text, check_written,
};
use std::alloc::Global;
use std::test::Fail;
use std::time::Duration;

// The provider of the standard's examples.
fn provider() -> OpenIdProvider<'static> {
    OpenIdProvider::new(
        "http://server.example.com",
        RedirectIssuer::OwnRedirectUri,
        Duration::from_secs(60),
    )
    .set_algorithm("RS256")
}

// The same login, which also requested a maximum age.
const STORED_WITH_AGE: &str =
    "{\"client_id\":\"s6BhdRkqt3\",\"issuer\":\"http://server.example.com\",\
     \"issuer_in_each_redirect\":false,\"max_age\":100,\"nonce\":\"n-0S6_WzA2Mj\",\
     \"redirect_uri\":\"https://client.example.org/cb\",\"state\":\"af0ifjsldkj\",\
     \"token_url\":\"https://server.example.com/token\",\"verifier\":\"v\"}";

// The same login, at a provider that names its issuer in each redirect.
const STORED_WITH_ISSUER: &str =
    "{\"client_id\":\"s6BhdRkqt3\",\"issuer\":\"http://server.example.com\",\
     \"issuer_in_each_redirect\":true,\"max_age\":100,\"nonce\":\"n-0S6_WzA2Mj\",\
     \"redirect_uri\":\"https://client.example.org/cb\",\"state\":\"af0ifjsldkj\",\
     \"token_url\":\"https://server.example.com/token\",\"verifier\":\"v\"}";

// The redirect of the standard's examples (3.1.2.5), and one that also has the issuer.
const REDIRECT: &str =
    "https://client.example.org/cb?code=SplxlOBeZQQYbYS6WxSbIA&state=af0ifjsldkj";

const REDIRECT_WITH_ISSUER: &str =
    "https://client.example.org/cb?code=SplxlOBeZQQYbYS6WxSbIA&state=af0ifjsldkj&iss=http%3A%2F%2Fserver.example.com";

// The token response of the standard's example (3.1.3.3).
const EXAMPLE: &str = "{\"access_token\":\"SlAV32hkKG\",\"token_type\":\"Bearer\",\
     \"refresh_token\":\"8xLOxBtZp8\",\"expires_in\":3600,\
     \"id_token\":\"eyJhbGciOiJSUzI1NiIsImtpZCI6IjFlOWdkazcifQ.ewogImlzcyI6ICJodHRwOi8vc2Vydm\
     VyLmV4YW1wbGUuY29tIiwKICJzdWIiOiAiMjQ4Mjg5NzYxMDAxIiwKICJhdWQiOiAiczZCaGRSa3F0MyIsCiAibm\
     9uY2UiOiAibi0wUzZfV3pBMk1qIiwKICJleHAiOiAxMzExMjgxOTcwLAogImlhdCI6IDEzMTEyODA5NzAKfQ.ggW\
     8hZ1EuVLuxNuuIJKX_V8a_OMXzR0EHR9R6jgdqrOOF4daGU96Sr_P6qJp6IcmD3HP99Obi1PRs-cwh3LO-p146wa\
     J8IhehcwL7F09JdijmBqkvPeB2T9CJNqeGpe-gccMg4vfKjkM8FcGvnzZUN4_KSP0aAp1tOJ1zZwgjxqGByKHiOt\
     X7TpdQyHE5lcMiKPXfEIQILVq0pc_E2DzL7emopWoaoZTF_m0_N0YzFC6g6EJbOEoRoSK5hoDalrcvRYLSrQAZZK\
     flyuVCyixEoV9GfNQC3_osjzw2PAithfubEEBLuVVk4XUVrWOLrLl0nx7RkKU8NXNHq-rvKMzqg\"}";

// Checks the ID token and the token response of the standard's example.
fn check_example(end: &OpenIdLoginEnd<OpenIdTokenResponse>) -> Result<(), Fail> {
    check_text(end.id_token.claims().subject(), "248289761001")?;
    check_text(
        end.token_response.access_token().secret().as_str(),
        "SlAV32hkKG",
    )?;
    let refresh_token = end
        .token_response
        .refresh_token()
        .map_or("", |t| t.secret().as_str());
    check_text(refresh_token, "8xLOxBtZp8")?;
    check_equal(end.access_token_hash, AccessTokenHash::Absent)
}

#[test]
fn the_login_of_the_standard(rt: HostRuntime) -> Result<(), Fail> {
    let mut http_client = OneReply::with_body(rt.alloc(), 200, EXAMPLE)?;
    let end = finish(
        rt.alloc(),
        &mut http_client,
        STORED,
        REDIRECT_WITH_ISSUER,
        &provider(),
    )??;
    check_example(&end)?;
    let sent = "grant_type=authorization_code&code=SplxlOBeZQQYbYS6WxSbIA&code_verifier=v\
        &client_id=s6BhdRkqt3&redirect_uri=https%3A%2F%2Fclient.example.org%2Fcb";
    check_equal(http_client.sent(), sent.as_bytes())
}

// The claims are made and encoded by Python: those of the standard's example, and then with the hash
// of its access token, with the hash of its refresh token, with another nonce, and with the time at
// which the user logged in.
const WITH_HASH: &str =
    "eyJpc3MiOiJodHRwOi8vc2VydmVyLmV4YW1wbGUuY29tIiwic3ViIjoiMjQ4Mjg5NzYxMDAxIiwiYXVkIjoiczZC\
     aGRSa3F0MyIsIm5vbmNlIjoibi0wUzZfV3pBMk1qIiwiZXhwIjoxMzExMjgxOTcwLCJpYXQiOjEzMTEyODA5NzAs\
     ImF0X2hhc2giOiJyWEg3UVdWVFpuWFlDb3VfNlZkcGZnIn0";

const WITH_HASH_OF_THE_REFRESH_TOKEN: &str =
    "eyJpc3MiOiJodHRwOi8vc2VydmVyLmV4YW1wbGUuY29tIiwic3ViIjoiMjQ4Mjg5NzYxMDAxIiwiYXVkIjoiczZC\
     aGRSa3F0MyIsIm5vbmNlIjoibi0wUzZfV3pBMk1qIiwiZXhwIjoxMzExMjgxOTcwLCJpYXQiOjEzMTEyODA5NzAs\
     ImF0X2hhc2giOiJuakNjek5NUjZtVFFRVFBhOTNZUGNRIn0";

const WITH_ANOTHER_NONCE: &str =
    "eyJpc3MiOiJodHRwOi8vc2VydmVyLmV4YW1wbGUuY29tIiwic3ViIjoiMjQ4Mjg5NzYxMDAxIiwiYXVkIjoiczZC\
     aGRSa3F0MyIsIm5vbmNlIjoibi0wUzZfV3pBMk1rIiwiZXhwIjoxMzExMjgxOTcwLCJpYXQiOjEzMTEyODA5NzB9";

const WITH_AUTH_TIME: &str =
    "eyJpc3MiOiJodHRwOi8vc2VydmVyLmV4YW1wbGUuY29tIiwic3ViIjoiMjQ4Mjg5NzYxMDAxIiwiYXVkIjoiczZC\
     aGRSa3F0MyIsIm5vbmNlIjoibi0wUzZfV3pBMk1qIiwiZXhwIjoxMzExMjgxOTcwLCJpYXQiOjEzMTEyODA5NzAs\
     ImF1dGhfdGltZSI6MTMxMTI4MDk2OX0";

// Checks the result of a login that was stored as this text, if the reply has this body.
fn check_end_for(alloc: Global, stored: &str, body: &str, wanted: &str) -> Result<(), Fail> {
    let mut http_client = OneReply::with_body(alloc, 200, body)?;
    let end = finish(alloc, &mut http_client, stored, REDIRECT, &provider())?;
    check_end(alloc, end, wanted)
}

#[test]
fn the_rules_hold_for_this_login(rt: HostRuntime) -> Result<(), Fail> {
    let rows = [
        (STORED, WITH_HASH, "Matches"),
        (
            STORED,
            WITH_HASH_OF_THE_REFRESH_TOKEN,
            "ID token: the hash is that of another access token",
        ),
        (
            STORED,
            WITH_ANOTHER_NONCE,
            "ID token: the nonce is another one",
        ),
        (STORED_WITH_AGE, WITH_AUTH_TIME, "Absent"),
        (
            STORED_WITH_AGE,
            WITH_HASH,
            "ID token: the token does not say when the user logged in",
        ),
    ];
    for (stored, claims, expected) in rows {
        let body = response(rt.alloc(), claims)?;
        check_end_for(rt.alloc(), stored, body.as_str(), expected)?;
    }
    Ok(())
}

#[test]
fn a_response_without_an_id_token(rt: HostRuntime) -> Result<(), Fail> {
    let rows = [
        (
            r#"{"access_token":"a","token_type":"N_A"}"#,
            "token type is not Bearer",
        ),
        (
            r#"{"access_token":"a","token_type":"BEARER"}"#,
            "token response has no ID token",
        ),
        (
            r#"{"access_token":"a","token_type":"bearer"}"#,
            "token response has no ID token",
        ),
        (
            r#"{"access_token":"a","token_type":"bearer","id_token":null}"#,
            "token response has no ID token",
        ),
        (
            r#"{"access_token":"a","token_type":"bearer","id_token":"x.y"}"#,
            "ID token: not three parts",
        ),
        (
            r#"{"access_token":"a","token_type":"bearer","id_token":"e30.e30."}"#,
            "ID token: header: alg: missing",
        ),
        ("{}", "Failed to parse server response"),
    ];
    for (body, expected) in rows {
        check_end_for(rt.alloc(), STORED, body, expected)?;
    }
    Ok(())
}

// Checks that the error of a login returns the login as it was stored.
fn check_returned(alloc: Global, end: End, stored: &str, wanted: &str) -> Result<(), Fail> {
    match end {
        Err(OpenIdLoginError::Refused(refused)) => {
            check_display(alloc, &refused, wanted)?;
            check_debug(alloc, &refused, "RefusedOpenIdLogin([redacted])")?;
            check_text(refused.login.state().secret().as_str(), "af0ifjsldkj")?;
            check_written(alloc, &refused.login, stored)
        }
        _ => Err(Fail::new("no refusal")),
    }
}

// Checks that a login sends nothing, and that the error of its redirect returns the login, if the
// redirect has another state or another issuer.
fn check_redirect_refused(
    alloc: Global,
    redirect: &str,
    stored: &str,
    wanted: &str,
) -> Result<(), Fail> {
    let mut http_client = OneReply::with_body(alloc, 200, EXAMPLE)?;
    let end = finish(alloc, &mut http_client, stored, redirect, &provider())?;
    check_returned(alloc, end, stored, wanted)?;
    check_equal(http_client.calls, 0)
}

// The issuer of a redirect is compared with the login's, also if the provider is not known to add
// it (RFC 9207, section 2.4).
#[test]
fn a_redirect_without_a_code_of_the_login(rt: HostRuntime) -> Result<(), Fail> {
    let rows = [
        (
            "&state=af0ifjsldkj",
            STORED_WITH_ISSUER,
            "redirect has another issuer",
        ),
        (
            "&state=af0ifjsldkj&iss=http%3A%2F%2Fother.example.com",
            STORED_WITH_ISSUER,
            "redirect has another issuer",
        ),
        (
            "&state=af0ifjsldkj&iss=http%3A%2F%2Fother.example.com",
            STORED_WITH_AGE,
            "redirect has another issuer",
        ),
        (
            "&state=bf0ifjsldkj&iss=http%3A%2F%2Fserver.example.com",
            STORED_WITH_ISSUER,
            "redirect has another state",
        ),
    ];
    for (rest, stored, expected) in rows {
        let redirect = format!(in rt.alloc(); "https://client.example.org/cb?code=c{rest}")?;
        check_redirect_refused(rt.alloc(), redirect.as_str(), stored, expected)?;
    }
    Ok(())
}

// A login can be finished with the body of a form instead of a query. The right issuer is accepted
// from a provider that is not known to add it.
#[test]
fn a_login_that_is_finished_by_a_form(rt: HostRuntime) -> Result<(), Fail> {
    let mut http_client = OneReply::with_body(rt.alloc(), 200, EXAMPLE)?;
    let form = "state=af0ifjsldkj&code=SplxlOBeZQQYbYS6WxSbIA&iss=http%3A%2F%2Fserver.example.com";
    let end = finish_query(rt.alloc(), &mut http_client, STORED, form, &provider())?;
    check_end(rt.alloc(), end, "Absent")
}

// Checks that a login sends nothing and is returned, if it is finished by this client, or with this
// issuer of the provider, or with a redirect to this URL.
fn check_refused(
    alloc: Global,
    (client_id, token_url): (&str, &str),
    issuer: &str,
    place: &str,
    wanted: &str,
) -> Result<(), Fail> {
    let client = client_at(alloc, client_id, token_url)?;
    let redirect = format!(in alloc; "{place}?code=c&state=af0ifjsldkj")?;
    let mut http_client = OneReply::with_body(alloc, 200, EXAMPLE)?;
    let provider = OpenIdProvider::new(
        issuer,
        RedirectIssuer::OwnRedirectUri,
        Duration::from_secs(60),
    );
    let end = finish_by(
        alloc,
        &client,
        &mut http_client,
        STORED_WITH_AGE,
        redirect.as_str(),
        &provider,
    )?;
    check_returned(alloc, end, STORED_WITH_AGE, wanted)?;
    check_equal(http_client.calls, 0)
}

const CLIENT: (&str, &str) = ("s6BhdRkqt3", "https://server.example.com/token");

const ISSUER: &str = "http://server.example.com";

const PLACE: &str = "https://client.example.org/cb";

// Each cause comes before the later ones: in the last row all of them hold.
#[test]
fn a_login_of_another_server_or_place(rt: HostRuntime) -> Result<(), Fail> {
    let other_client = ("other", "https://server.example.com/token");
    let other_endpoint = ("s6BhdRkqt3", "https://attacker.example/token");
    let insecure = ("s6BhdRkqt3", "http://server.example.com/token");
    let all = ("other", "http://attacker.example/token");
    let other_issuer = "http://attacker.example";
    let other_place = "https://client.example.org/other";
    let rows = [
        (
            insecure,
            ISSUER,
            PLACE,
            "token endpoint is not an https URL",
        ),
        (CLIENT, other_issuer, PLACE, "login is of another provider"),
        (other_client, ISSUER, PLACE, "login is of another client"),
        (
            other_endpoint,
            ISSUER,
            PLACE,
            "login is of another token endpoint",
        ),
        (CLIENT, ISSUER, other_place, "redirect came to another URI"),
        (
            all,
            other_issuer,
            other_place,
            "token endpoint is not an https URL",
        ),
    ];
    for (client, issuer, place, expected) in rows {
        check_refused(rt.alloc(), client, issuer, place, expected)?;
    }
    Ok(())
}

// A login whose token endpoint is on the client's own machine.
const STORED_ON_LOOPBACK: &str = r#"{"client_id":"s6BhdRkqt3","issuer":"http://server.example.com",
    "issuer_in_each_redirect":false,"nonce":"n-0S6_WzA2Mj",
    "redirect_uri":"https://client.example.org/cb","state":"af0ifjsldkj",
    "token_url":"http://localhost:8080/token","verifier":"v"}"#;

#[test]
fn a_token_endpoint_on_loopback(rt: HostRuntime) -> Result<(), Fail> {
    let client = client_at(rt.alloc(), "s6BhdRkqt3", "http://localhost:8080/token")?;
    let mut http_client = OneReply::with_body(rt.alloc(), 200, EXAMPLE)?;
    let end = finish_by(
        rt.alloc(),
        &client,
        &mut http_client,
        STORED_ON_LOOPBACK,
        REDIRECT,
        &provider(),
    )?;
    check_end(rt.alloc(), end, "Absent")
}
