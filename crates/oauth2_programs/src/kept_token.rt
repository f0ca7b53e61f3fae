//! A service that keeps its token between jobs, and requests another when it is about to expire.

use crate::canned_client::CannedClient;
use jiff::Timestamp;
use oauth2::basic::{BasicClient, BasicTokenClient};
use oauth2::url::ParseError;
use oauth2::{ClientId, ClientSecret, TokenUrl};
use oauth2_keeper::{RenewalTimes, TokenKeeper};
use std::alloc::Global;
use std::time::Duration;

const FIRST: &str =
    r#"{"access_token":"one","token_type":"bearer","expires_in":300,"refresh_token":"r"}"#;

const SECOND: &str = r#"{"access_token":"two","token_type":"bearer","expires_in":300}"#;

fn client(alloc: Global) -> Result<BasicTokenClient, ParseError> {
    let id = ClientId::from_str(alloc, "service")?;
    let secret = ClientSecret::from_str(alloc, "s3cret")?;
    let token_url = TokenUrl::parse(alloc, "https://as.example/token")?;
    Ok(
        BasicClient::new(id)
            .set_client_secret(secret)
            .set_token_uri(token_url),
    )
}

fn run(rt: &HostRuntime, client: &BasicTokenClient) -> anyhow::Result<()> {
    let alloc = rt.alloc();
    let replies = [(200, FIRST), (200, SECOND)];
    let mut http_client = CannedClient::new(alloc, &replies);
    let times = RenewalTimes {
        margin: Duration::from_secs(30),
        default_lifetime: Duration::from_secs(60),
    };
    let mut keeper = TokenKeeper::with_times(client, None, times);
    for second in [0, 100, 269, 271, 500] {
        let now = Timestamp::from_second(second)?;
        let token = keeper.token(alloc, now, &mut http_client)?;
        println!(rt; "{second}: Bearer {}", token.secret())?;
    }
    Ok(())
}

/// Asks the keeper for its token at five times, and prints each.
pub fn main(rt: HostRuntime) -> anyhow::Result<()> {
    run(&rt, &client(rt.alloc())?)
}
