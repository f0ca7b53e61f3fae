//! Signs a user in on a device (RFC 8628): shows a code, and polls until the user has entered it.

use crate::canned_client::CannedClient;
use jiff::Timestamp;
use oauth2::basic::{BasicClient, BasicDeviceClient, BasicTokenResponse};
use oauth2::url::ParseError;
use oauth2::{
    ClientId, DeviceAuthorizationUrl, DeviceCodeErrorResponse, DeviceCodeErrorResponseType,
    RequestTokenError, Scope, StandardDeviceAuthorizationResponse, TokenResponse, TokenUrl,
};
use std::alloc::Global;
use std::thread;
use std::time::Duration;

fn client(alloc: Global) -> Result<BasicDeviceClient, ParseError> {
    let id = ClientId::from_str(alloc, "cli")?;
    let device_url = DeviceAuthorizationUrl::parse(alloc, "https://as.example/device")?;
    let token_url = TokenUrl::parse(alloc, "https://as.example/token")?;
    Ok(
        BasicClient::new(id)
            .set_device_authorization_url(device_url)
            .set_token_uri(token_url),
    )
}

type PollError = RequestTokenError<anyhow::Error, DeviceCodeErrorResponse>;

const CODES: &str = r#"{"device_code":"d","user_code":"WDJB-MJHT","expires_in":60,"interval":1,
    "verification_uri":"https://as.example/go"}"#;

/// Requests a device code, and a code for the user (RFC 8628, section 3.1).
fn codes(
    alloc: Global,
    client: &BasicDeviceClient,
    http_client: &mut CannedClient<'_>,
) -> anyhow::Result<StandardDeviceAuthorizationResponse> {
    let device = client
        .exchange_device_code(alloc)
        .add_scope(Scope::from_str(alloc, "read")?)?
        .request(alloc, http_client)?;
    Ok(device)
}

/// Polls by the system's clock, with at most 100 requests.
fn poll(
    rt: &HostRuntime,
    client: &BasicDeviceClient,
    http_client: &mut CannedClient<'_>,
    device: &StandardDeviceAuthorizationResponse,
) -> Result<BasicTokenResponse, PollError> {
    let mut sleep = |time: Duration| thread::sleep(rt, time);
    client
        .exchange_device_access_token(rt.alloc(), device)
        .set_time_fn(|| Timestamp::now(rt).unwrap_or(Timestamp::MAX))
        .request(rt.alloc(), http_client, &mut sleep, None, 100)
}

/// What to tell the user of an error.
fn advice(error: &PollError) -> &'static str {
    match error {
        RequestTokenError::ServerResponse(response) => match response.error() {
            DeviceCodeErrorResponseType::AccessDenied => "you said no",
            DeviceCodeErrorResponseType::ExpiredToken => "the code is too old, start again",
            _ => "report this",
        },
        _ => "try again later",
    }
}

/// Shows the user's code, and waits until it is entered.
fn sign_in(
    rt: &HostRuntime,
    client: &BasicDeviceClient,
    http_client: &mut CannedClient<'_>,
    device: &StandardDeviceAuthorizationResponse,
) -> anyhow::Result<()> {
    println!(rt; "open {}", device.verification_uri().as_str())?;
    println!(rt; "and enter the code {}", device.user_code().secret())?;
    match poll(rt, client, http_client, device) {
        Ok(token) => println!(rt; "token: {}", token.access_token().secret())?,
        Err(error) => println!(rt; "{error}: {}", advice(&error))?,
    }
    Ok(())
}

fn run(rt: &HostRuntime, client: &BasicDeviceClient) -> anyhow::Result<()> {
    let replies = [
        (200, CODES),
        (400, r#"{"error":"authorization_pending"}"#),
        (200, r#"{"access_token":"abc","token_type":"bearer"}"#),
    ];
    let mut http_client = CannedClient::new(rt.alloc(), &replies);
    let device = codes(rt.alloc(), client, &mut http_client)?;
    sign_in(rt, client, &mut http_client, &device)
}

/// Signs the user in, or prints what to tell the user.
pub fn main(rt: HostRuntime) -> anyhow::Result<()> {
    run(&rt, &client(rt.alloc())?)
}
