//! Tests of each kind of request, with replies that no script can have.

use jiff::Timestamp;
use oauth2::basic::{BasicClient, BasicRequestTokenError, BasicTokenResponse};
use oauth2::{
    AccessToken, AuthorizationCode, ClientId, ClientSecret, DeviceAuthorizationUrl, EndpointNotSet,
    EndpointSet, HttpRequest, HttpResponse, IntrospectionUrl, ParseCause, RefreshToken,
    RequestTokenError, ResourceOwnerPassword, ResourceOwnerUsername, RevocationUrl, Scope,
    StandardDeviceAuthorizationResponse, StandardRevocableToken, TokenUrl, endpoint_response,
};
use oauth2_tests_support::{
    NoReply, OneReply, check, check_display, check_equal, check_text, read, reply_of, text,
};
use std::alloc::Global;
use std::fmt::Display;
use std::test::Fail;
use std::time::Duration;

// A client whose only endpoint is the token endpoint.
type TokenClient = BasicClient<
    EndpointNotSet,
    EndpointNotSet,
    EndpointNotSet,
    EndpointNotSet,
    EndpointSet,
>;

// A client with every endpoint except the authorization endpoint.
type PostClient = BasicClient<EndpointNotSet, EndpointSet, EndpointSet, EndpointSet, EndpointSet>;

fn token_client(alloc: Global) -> Result<TokenClient, Fail> {
    let token = TokenUrl::new(alloc, text(alloc, "https://example.com/token")?)?;
    let secret = ClientSecret::new(text(alloc, "bbb")?);
    let client = BasicClient::new(ClientId::new(text(alloc, "aaa")?))
        .set_client_secret(secret)
        .set_token_uri(token);
    Ok(client)
}

fn client(alloc: Global) -> Result<PostClient, Fail> {
    let device = DeviceAuthorizationUrl::new(alloc, text(alloc, "https://example.com/device")?)?;
    let introspection = IntrospectionUrl::new(alloc, text(alloc, "https://example.com/asked")?)?;
    let revocation = RevocationUrl::new(alloc, text(alloc, "https://example.com/revoked")?)?;
    let client = token_client(alloc)?
        .set_device_authorization_url(device)
        .set_introspection_url(introspection)
        .set_revocation_url(revocation);
    Ok(client)
}

// A body that can be read as each kind of response. As a device authorization response it has the
// code `d`, which expires in two seconds.
const WHOLE: &str =
    "{\"access_token\":\"t\",\"token_type\":\"bearer\",\"active\":true,\"device_code\":\"d\",\
    \"user_code\":\"u\",\"verification_uri\":\"https://v/\",\"expires_in\":2}";

fn access_token(alloc: Global) -> Result<AccessToken, Fail> {
    Ok(AccessToken::new(text(alloc, "t")?))
}

fn refresh_token(alloc: Global) -> Result<RefreshToken, Fail> {
    Ok(RefreshToken::new(text(alloc, "r")?))
}

// A refresh request with one scope.
fn prepared_refresh(
    alloc: Global,
    client: &PostClient,
    token: &RefreshToken,
) -> Result<HttpRequest, Fail> {
    let scope = Scope::new(text(alloc, "a")?);
    let request = client
        .exchange_refresh_token(alloc, token)
        .add_scope(scope)?;
    Ok(request.prepare_request(alloc)?)
}

// Checks the body of a refresh request with one scope.
fn check_prepared_refresh(alloc: Global, client: &PostClient) -> Result<(), Fail> {
    let token = refresh_token(alloc)?;
    let request = prepared_refresh(alloc, client, &token)?;
    let body = b"grant_type=refresh_token&refresh_token=r&scope=a".as_slice();
    check_equal(request.body().as_slice(), body)
}

// A reply: its status, its values of Content-Type and its body.
#[derive(Clone, Copy)]
struct Reply<'a> {
    status: u16,
    types: &'a [&'a [u8]],
    body: &'a [u8],
}

impl Reply<'_> {
    fn response(self, alloc: Global) -> Result<HttpResponse, Fail> {
        reply_of(alloc, self.status, self.types, self.body)
    }

    fn http_client(self, alloc: Global) -> Result<OneReply, Fail> {
        Ok(OneReply::new(self.response(alloc)?))
    }
}

// The result of a request.
#[derive(Clone, Copy)]
enum Outcome<'a> {
    Accepted,
    NotJson,
    /// The text of the error.
    Shown(&'a str),
}

// A request by this client, the reply to it, and the wanted result.
#[derive(Drop)]
struct Case<'a> {
    alloc: Global,
    client: &'a PostClient,
    reply: Reply<'a>,
    wanted: Outcome<'a>,
}

impl Case<'_> {
    // Checks that the result is the wanted one. (The check borrows it, so one place drops it.)
    fn check<T: Drop, E: Display + Drop>(
        &self,
        answer: Result<T, RequestTokenError<NoReply, E>>,
    ) -> Result<(), Fail> {
        self.check_answer(&answer)
    }

    // Checks that the result is the wanted one. An error of reading has to have the body's bytes.
    fn check_answer<T, E: Display>(
        &self,
        answer: &Result<T, RequestTokenError<NoReply, E>>,
    ) -> Result<(), Fail> {
        match (answer, self.wanted) {
            (Ok(_), Outcome::Accepted) => Ok(()),
            (Err(RequestTokenError::Parse(fault, bytes)), Outcome::NotJson) => {
                check_text(fault.member.as_str(), "")?;
                check_equal(fault.cause, ParseCause::NotJson)?;
                check_equal(bytes.as_slice(), self.reply.body)
            }
            (Err(error), Outcome::Shown(text)) => check_display(self.alloc, error, text),
            _ => Err(Fail::new("another answer")),
        }
    }

    // Checks the result of a revocation: only status 200 is a success, whatever the body and the
    // Content-Type are.
    fn check_by_status<E: Display + Drop>(
        &self,
        answer: Result<(), RequestTokenError<NoReply, E>>,
    ) -> Result<(), Fail> {
        if self.reply.status == 200 {
            check(answer.is_ok(), "status 200")
        } else {
            self.check(answer)
        }
    }
}

fn check_code_exchange(case: &Case<'_>) -> Result<(), Fail> {
    let code = AuthorizationCode::new(text(case.alloc, "c")?);
    let mut http_client = case.reply.http_client(case.alloc)?;
    let request = case.client.exchange_code(case.alloc, code);
    case.check(request.request(case.alloc, &mut http_client))
}

fn check_refresh(case: &Case<'_>) -> Result<(), Fail> {
    let token = refresh_token(case.alloc)?;
    let mut http_client = case.reply.http_client(case.alloc)?;
    let request = case.client.exchange_refresh_token(case.alloc, &token);
    case.check(request.request(case.alloc, &mut http_client))
}

fn check_password_exchange(case: &Case<'_>) -> Result<(), Fail> {
    let username = ResourceOwnerUsername::new(text(case.alloc, "u")?);
    let password = ResourceOwnerPassword::new(text(case.alloc, "p")?);
    let mut http_client = case.reply.http_client(case.alloc)?;
    let request = case
        .client
        .exchange_password(case.alloc, &username, &password);
    case.check(request.request(case.alloc, &mut http_client))
}

fn check_client_credentials_exchange(case: &Case<'_>) -> Result<(), Fail> {
    let mut http_client = case.reply.http_client(case.alloc)?;
    let request = case.client.exchange_client_credentials(case.alloc);
    case.check(request.request(case.alloc, &mut http_client))
}

fn check_introspection(case: &Case<'_>) -> Result<(), Fail> {
    let token = access_token(case.alloc)?;
    let mut http_client = case.reply.http_client(case.alloc)?;
    let request = case.client.introspect(case.alloc, &token);
    case.check(request.request(case.alloc, &mut http_client))
}

fn check_device_codes(case: &Case<'_>) -> Result<(), Fail> {
    let mut http_client = case.reply.http_client(case.alloc)?;
    let request = case.client.exchange_device_code(case.alloc);
    let answer: Result<StandardDeviceAuthorizationResponse, BasicRequestTokenError<NoReply>> =
        request.request(case.alloc, &mut http_client);
    case.check(answer)
}

// Checks a poll with one request, whose clock always shows the same time.
fn check_one_poll(case: &Case<'_>) -> Result<(), Fail> {
    let device: StandardDeviceAuthorizationResponse = read(case.alloc, WHOLE)?;
    let mut http_client = case.reply.http_client(case.alloc)?;
    let request = case
        .client
        .exchange_device_access_token(case.alloc, &device)
        .set_time_fn(|| Timestamp::UNIX_EPOCH);
    let mut sleep_fn = |_: Duration| {};
    case.check(request.request(case.alloc, &mut http_client, &mut sleep_fn, None, 1))
}

fn check_revocation(case: &Case<'_>) -> Result<(), Fail> {
    let mut http_client = case.reply.http_client(case.alloc)?;
    let token = StandardRevocableToken::from(access_token(case.alloc)?);
    let request = case.client.revoke_token(case.alloc, token)?;
    case.check_by_status(request.request(case.alloc, &mut http_client))
}

// Checks what the reply is read as if the caller sends the request itself.
fn check_read(case: &Case<'_>) -> Result<(), Fail> {
    let reply = case.reply.response(case.alloc)?;
    let answer: Result<BasicTokenResponse, BasicRequestTokenError<NoReply>> = endpoint_response(
        case.alloc, reply,
    );
    case.check(answer)
}

// Checks the result of each kind of request, and that the reply is read as the same if the caller
// sends the request itself.
fn check_each_kind(case: &Case<'_>) -> Result<(), Fail> {
    check_code_exchange(case)?;
    check_refresh(case)?;
    check_password_exchange(case)?;
    check_client_credentials_exchange(case)?;
    check_introspection(case)?;
    check_device_codes(case)?;
    check_one_poll(case)?;
    check_revocation(case)?;
    check_read(case)
}

// Checks what each request of this client returns for this reply.
fn check_answers(
    alloc: Global,
    client: &PostClient,
    reply: Reply<'_>,
    wanted: Outcome<'_>,
) -> Result<(), Fail> {
    let case = Case {
        alloc,
        client,
        reply,
        wanted,
    };
    check_each_kind(&case)
}

// A reply with this body, and no Content-Type.
fn reply_without_type(status: u16, body: &[u8]) -> Reply<'_> {
    Reply {
        status,
        types: &[],
        body,
    }
}

// A successful reply with these values of Content-Type.
fn success<'a>(types: &'a [&'a [u8]]) -> Reply<'a> {
    Reply {
        status: 200,
        types,
        body: WHOLE.as_bytes(),
    }
}

// A failed reply with these values of Content-Type.
fn failure<'a>(types: &'a [&'a [u8]]) -> Reply<'a> {
    Reply {
        status: 400,
        types,
        body: b"{\"error\":\"invalid_grant\"}",
    }
}

const INVALID_GRANT: Outcome<'static> = Outcome::Shown(
    "Server returned error response: invalid_grant",
);

// Several values of Content-Type, or one that is no text, and the result of a success with them.
const TYPES: [(&[&[u8]], Outcome<'static>); 3] = [
    (&[b"application/json", b"text/html"], Outcome::Accepted),
    (
        &[b"text/html", b"application/json"],
        Outcome::Shown(
            "Other error: unexpected response Content-Type: \"text/html\", should be \
            `application/json`",
        ),
    ),
    (
        &[b"application/json; x=\xe9"],
        Outcome::Shown(
            "Other error: unexpected response Content-Type: \"application/json; x=\\xe9\", \
            should be `application/json`",
        ),
    ),
];

fn check_answers_in_each_row(alloc: Global, client: &PostClient) -> Result<(), Fail> {
    for status in [200, 400, 500] {
        for body in [b"\xff".as_slice(), b"{\"error\":\"\xff\"}"] {
            check_answers(
                alloc,
                client,
                reply_without_type(status, body),
                Outcome::NotJson,
            )?;
        }
    }
    for (types, wanted) in TYPES {
        check_answers(alloc, client, success(types), wanted)?;
        check_answers(alloc, client, failure(types), INVALID_GRANT)?;
    }
    Ok(())
}

#[test]
fn each_request(rt: HostRuntime) -> Result<(), Fail> {
    let client = client(rt.alloc())?;
    check_prepared_refresh(rt.alloc(), &client)?;
    check_answers_in_each_row(rt.alloc(), &client)
}
