//! The client of RFC 8693, section 2.3, and what it sends.

use crate::checks::check_sent;
use oauth2_grants::{
    ExtensionTokenRequest, TokenClient, TokenExchangeErrorResponse, TokenExchangeResponse,
};
use oauth2_tests_support::text;
use oauth2_types::{ClientId, ClientSecret};
use oauth2_urls::TokenUrl;
use oauth2_wire::{AuthType, ReplyRule};
use std::alloc::Global;
use std::test::Fail;

/// A request whose reply is that of an exchange.
pub(crate) type Asking<'a> = ExtensionTokenRequest<
    'a,
    TokenExchangeErrorResponse,
    TokenExchangeResponse,
>;

/// The client, with a secret or without.
pub(crate) struct Asker {
    id: ClientId,
    secret: Option<ClientSecret>,
    url: TokenUrl,
}

impl Drop for Asker {
    fn drop(self) {
        let Asker {
            id: _,
            secret: _,
            url: _,
        } = self;
    }
}

impl Asker {
    /// The client whose header is in RFC 8693, section 2.3.
    pub(crate) fn of_the_example(alloc: Global) -> Result<Asker, Fail> {
        let url = TokenUrl::parse(alloc, "https://as.example.com/as/token.oauth2")?;
        let id = ClientId::new(text(alloc, "rs08")?);
        let secret = ClientSecret::new(text(alloc, "long-secure-random-secret")?);
        Ok(Asker {
            id,
            secret: Some(secret),
            url,
        })
    }

    /// A client without a secret.
    pub(crate) fn public(alloc: Global) -> Result<Asker, Fail> {
        let url = TokenUrl::parse(alloc, "https://as.example.com/token")?;
        let id = ClientId::new(text(alloc, "aaa")?);
        Ok(Asker {
            id,
            secret: None,
            url,
        })
    }

    /// The client at its token endpoint.
    pub(crate) fn at_endpoint(&self) -> TokenClient<'_> {
        TokenClient::new(
            &AuthType::BasicAuth,
            &self.id,
            self.secret.as_ref(),
            ReplyRule::MediaType,
            &self.url,
        )
    }
}

/// Checks the body that a request has.
pub(crate) fn check_body(alloc: Global, request: &Asking<'_>, body: &str) -> Result<(), Fail> {
    let sent = request.prepare_request(alloc)?;
    check_sent(&sent, body)
}
