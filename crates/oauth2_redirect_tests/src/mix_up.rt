//! The mix-up attack of RFC 9700, section 4.4, on a client of two servers.
//!
//! A user begins a login at the attacker's server, which sends the browser to the honest server
//! with the honest client's identifier and the attacker's state. The honest server's code must not
//! go to the attacker's token endpoint.

use oauth2::basic::BasicClient;
use oauth2::{AuthUrl, Client, ClientId, EndpointNotSet, EndpointSet, RedirectUrl, TokenUrl};
use oauth2_redirect::{Login, LoginError, LoginIssuer, LoginMismatch, LoginRefusal, RedirectError};
use oauth2_tests_support::{OneReply, check_equal, text, url};
use rand_pcg::Pcg32;
use std::alloc::Global;
use std::test::Fail;

type LoginClient = BasicClient<
    EndpointSet,
    EndpointNotSet,
    EndpointNotSet,
    EndpointNotSet,
    EndpointSet,
>;

const REPLY: &str = r#"{"access_token":"t1","token_type":"bearer"}"#;

// The client at a server with these endpoints, and with this redirect URI for it.
fn client_at(
    alloc: Global,
    id: &str,
    auth: &str,
    token: &str,
    redirect_uri: &str,
) -> Result<LoginClient, Fail> {
    let auth = AuthUrl::new(alloc, text(alloc, auth)?)?;
    let token = TokenUrl::new(alloc, text(alloc, token)?)?;
    let redirect_uri = RedirectUrl::new(alloc, text(alloc, redirect_uri)?)?;
    let client = Client::new(ClientId::new(text(alloc, id)?));
    Ok(
        client
            .set_auth_uri(auth)
            .set_token_uri(token)
            .set_redirect_uri(redirect_uri),
    )
}

fn attackers(alloc: Global, redirect_uri: &str) -> Result<LoginClient, Fail> {
    client_at(
        alloc,
        "at-attacker",
        "https://attacker.example/auth",
        "https://attacker.example/token",
        redirect_uri,
    )
}

fn honest(alloc: Global, redirect_uri: &str) -> Result<LoginClient, Fail> {
    client_at(
        alloc,
        "at-honest",
        "https://honest.example/auth",
        "https://honest.example/token",
        redirect_uri,
    )
}

// The login that the user began at the attacker's server.
fn begun(alloc: Global, client: &LoginClient, issuer: LoginIssuer) -> Result<Login, Fail> {
    let (_, login) = Login::start(alloc, client, issuer, &mut Pcg32::new(42, 54))?.url(alloc)?;
    Ok(login)
}

// Finishes it by this client, as the honest server's code comes to this URL. Returns why it is
// refused, and checks that nothing is sent.
fn refusal(
    alloc: Global,
    login: Login,
    client: &LoginClient,
    redirect: &str,
) -> Result<LoginRefusal, Fail> {
    let redirect = url(alloc, redirect)?;
    let mut http_client = OneReply::with_body(alloc, 200, REPLY)?;
    match login.finish(alloc, client, &mut http_client, &redirect) {
        Err(LoginError::Refused(refused)) => {
            check_equal(http_client.calls, 0)?;
            Ok(refused.error)
        }
        _ => Err(Fail::new("the code was sent")),
    }
}

// RFC 9700, section 4.4.2.1: the honest server names itself in `iss`.
#[test]
fn a_code_of_another_issuer(rt: HostRuntime) -> Result<(), Fail> {
    let alloc = rt.alloc();
    let client = attackers(alloc, "https://app.example/cb")?;
    let issuer = LoginIssuer::InEachRedirect(text(alloc, "https://attacker.example")?);
    let login = begun(alloc, &client, issuer)?;
    let why = refusal(
        alloc,
        login,
        &client,
        "https://app.example/cb?code=c1&state=twJcoQn0R3swMx26k_LSgw\
         &iss=https%3A%2F%2Fhonest.example",
    )?;
    check_equal(why, LoginRefusal::Redirect(RedirectError::OtherIssuer))
}

// RFC 9700, section 4.4.2.2: each server has a redirect URI of its own. The honest server sends
// its code to its own one, which differs by the path or by the fixed query.
#[test]
fn a_code_at_another_redirect_uri(rt: HostRuntime) -> Result<(), Fail> {
    let alloc = rt.alloc();
    for (own, called) in [
        (
            "https://app.example/cb/attacker",
            "https://app.example/cb/honest?code=c1&state=twJcoQn0R3swMx26k_LSgw",
        ),
        (
            "https://app.example/cb?from=attacker",
            "https://app.example/cb?from=honest&code=c1&state=twJcoQn0R3swMx26k_LSgw",
        ),
    ] {
        let client = attackers(alloc, own)?;
        let login = begun(alloc, &client, LoginIssuer::OwnRedirectUri(None))?;
        let why = refusal(alloc, login, &client, called)?;
        check_equal(why, LoginRefusal::Mismatch(LoginMismatch::OtherRedirectUri))?;
    }
    Ok(())
}

// The login of one server is not finished by the client of the other, whatever the redirect says.
#[test]
fn a_client_of_another_server(rt: HostRuntime) -> Result<(), Fail> {
    let alloc = rt.alloc();
    let attackers = attackers(alloc, "https://app.example/cb")?;
    let honest = honest(alloc, "https://app.example/cb")?;
    let redirect = "https://app.example/cb?code=c1&state=twJcoQn0R3swMx26k_LSgw";
    for (one, other) in [(&attackers, &honest), (&honest, &attackers)] {
        let login = begun(alloc, one, LoginIssuer::OwnRedirectUri(None))?;
        let why = refusal(alloc, login, other, redirect)?;
        check_equal(why, LoginRefusal::Mismatch(LoginMismatch::OtherClient))?;
    }
    Ok(())
}
