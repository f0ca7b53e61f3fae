//! Each request that takes a resource, with two of them at its end.

use crate::checks::check_sent;
use crate::resource_indicators::sender::{Sender, authorization, check_url, client, with_both};
use oauth2::{
    AuthorizationCode, RefreshToken, ResourceOwnerPassword, ResourceOwnerUsername,
    StandardDeviceAuthorizationResponse,
};
use oauth2_tests_support::{read, text};
use std::alloc::Global;
use std::test::Fail;

// A reply to a device.
const DEVICE: &str = "{\"device_code\":\"d\",\"user_code\":\"u\",\
\"verification_uri\":\"https://v/\",\"expires_in\":2}";

fn check_authorization_request(alloc: Global, client: &Sender) -> Result<(), Fail> {
    let request = with_both(authorization(alloc, client, "x")?)?;
    check_url(
        alloc,
        request,
        "https://authorization-server.example.com/as/authorization.oauth2?response_type=code\
&client_id=s6BhdRkqt3&state=x&redirect_uri=https%3A%2F%2Fclient.example.org%2Fcb\
&resource=https%3A%2F%2Fcal.example.com%2F&resource=https%3A%2F%2Fcontacts.example.com%2F",
    )
}

fn check_code(alloc: Global, client: &Sender) -> Result<(), Fail> {
    let code = AuthorizationCode::new(text(alloc, "c")?);
    let request = with_both(client.exchange_code(alloc, code))?.prepare_request(alloc)?;
    check_sent(
        &request,
        "grant_type=authorization_code&code=c&redirect_uri=https%3A%2F%2Fclient.example.org%2Fcb\
&resource=https%3A%2F%2Fcal.example.com%2F&resource=https%3A%2F%2Fcontacts.example.com%2F",
    )
}

fn check_refresh_token(alloc: Global, client: &Sender) -> Result<(), Fail> {
    let token = RefreshToken::new(text(alloc, "r")?);
    let request = with_both(client.exchange_refresh_token(alloc, &token))?.prepare_request(alloc)?;
    check_sent(
        &request,
        "grant_type=refresh_token&refresh_token=r\
&resource=https%3A%2F%2Fcal.example.com%2F&resource=https%3A%2F%2Fcontacts.example.com%2F",
    )
}

fn check_password(alloc: Global, client: &Sender) -> Result<(), Fail> {
    let username = ResourceOwnerUsername::new(text(alloc, "u")?);
    let password = ResourceOwnerPassword::new(text(alloc, "p")?);
    let request = with_both(client.exchange_password(alloc, &username, &password))?.prepare_request(
        alloc,
    )?;
    check_sent(
        &request,
        "grant_type=password&username=u&password=p\
&resource=https%3A%2F%2Fcal.example.com%2F&resource=https%3A%2F%2Fcontacts.example.com%2F",
    )
}

fn check_client_credentials(alloc: Global, client: &Sender) -> Result<(), Fail> {
    let request = with_both(client.exchange_client_credentials(alloc))?.prepare_request(alloc)?;
    check_sent(
        &request,
        "grant_type=client_credentials\
&resource=https%3A%2F%2Fcal.example.com%2F&resource=https%3A%2F%2Fcontacts.example.com%2F",
    )
}

fn check_device(alloc: Global, client: &Sender) -> Result<(), Fail> {
    let request = with_both(client.exchange_device_code(alloc))?.prepare_request(alloc)?;
    check_sent(
        &request,
        "resource=https%3A%2F%2Fcal.example.com%2F&resource=https%3A%2F%2Fcontacts.example.com%2F",
    )
}

fn check_token_of_a_device(alloc: Global, client: &Sender) -> Result<(), Fail> {
    let device: StandardDeviceAuthorizationResponse = read(alloc, DEVICE)?;
    let request = with_both(client.exchange_device_access_token(alloc, &device))?.prepare_request(
        alloc,
    )?;
    check_sent(
        &request,
        "grant_type=urn%3Aietf%3Aparams%3Aoauth%3Agrant-type%3Adevice_code&device_code=d\
&resource=https%3A%2F%2Fcal.example.com%2F&resource=https%3A%2F%2Fcontacts.example.com%2F",
    )
}

fn check_each_request(alloc: Global, client: &Sender) -> Result<(), Fail> {
    check_authorization_request(alloc, client)?;
    check_code(alloc, client)?;
    check_refresh_token(alloc, client)?;
    check_password(alloc, client)?;
    check_client_credentials(alloc, client)?;
    check_device(alloc, client)?;
    check_token_of_a_device(alloc, client)
}

#[test]
fn each_request(rt: HostRuntime) -> Result<(), Fail> {
    let client = client(rt.alloc())?;
    check_each_request(rt.alloc(), &client)
}
