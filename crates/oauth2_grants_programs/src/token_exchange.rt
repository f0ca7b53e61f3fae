//! A service that calls others for its user (RFC 8693): it exchanges the token that came with the
//! user's request for one of each service that it calls.

use crate::canned_client::CannedClient;
use oauth2::url::ParseError;
use oauth2::{AuthType, ClientId, ClientSecret, ReplyRule, TokenResponse, TokenUrl};
use oauth2_grants::{
    ExtensionTokenRequest, TokenClient, TokenExchange, TokenExchangeErrorResponse,
    TokenExchangeResponse, TokenTypeIdentifier,
};
use std::alloc::Global;

type ExchangeRequest<'a> = ExtensionTokenRequest<
    'a,
    TokenExchangeErrorResponse,
    TokenExchangeResponse,
>;

const ISSUED: &str = r#"{"access_token":"abc","token_type":"Bearer","expires_in":60,
    "issued_token_type":"urn:ietf:params:oauth:token-type:access_token"}"#;

/// Who this service is, and where it exchanges tokens.
#[derive(Drop)]
struct Service {
    id: ClientId,
    secret: ClientSecret,
    token_url: TokenUrl,
}

impl Service {
    fn new(alloc: Global) -> Result<Service, ParseError> {
        Ok(Service {
            id: ClientId::from_str(alloc, "orders")?,
            secret: ClientSecret::from_str(alloc, "bbb")?,
            token_url: TokenUrl::parse(alloc, "https://as.example/token")?,
        })
    }
}

/// A token for this API, on behalf of the user that `user_token` is of.
fn exchanged<'a>(
    alloc: Global,
    service: &Service,
    http_client: &mut CannedClient<'_>,
    user_token: &'a str,
    api: &'a str,
) -> anyhow::Result<TokenExchangeResponse> {
    let client = TokenClient::new(
        &AuthType::BasicAuth,
        &service.id,
        Some(&service.secret),
        ReplyRule::Prefix,
        &service.token_url,
    );
    let exchange = TokenExchange::new(alloc, user_token, TokenTypeIdentifier::AccessToken)?;
    let exchange = exchange.add_resource(api)?;
    let request: ExchangeRequest<'_> = exchange.to_request(alloc, client)?;
    Ok(request.request(alloc, http_client)?)
}

fn run(rt: &HostRuntime, service: &Service) -> anyhow::Result<()> {
    let alloc = rt.alloc();
    let replies = [(200, ISSUED), (400, r#"{"error":"invalid_target"}"#)];
    let mut http_client = CannedClient::new(alloc, &replies);
    for api in ["https://stock.example/api", "https://payroll.example/api"] {
        match exchanged(alloc, service, &mut http_client, "user's token", api) {
            Ok(token) => println!(rt;
                "{api}: {:?} {}",
                token.extra_fields().issued_token_type(),
                token.access_token().secret()
            )?,
            Err(error) => println!(rt; "{api}: {error}")?,
        }
    }
    Ok(())
}

/// Exchanges the user's token for two APIs, and prints each token or why there is none.
pub fn main(rt: HostRuntime) -> anyhow::Result<()> {
    run(&rt, &Service::new(rt.alloc())?)
}
