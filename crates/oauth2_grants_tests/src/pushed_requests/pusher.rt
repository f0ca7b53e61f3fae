//! The client of RFC 9126, section 2.1, and what it pushes.

use crate::checks::check_sent;
use oauth2_codes::{BasicErrorResponseType, StandardErrorResponse};
use oauth2_pushed_requests::{PushFault, PushedAuthorizationRequest, PushingClient};
use oauth2_tests_support::{text, url};
use oauth2_types::{ClientId, ClientSecret};
use oauth2_urls::AuthUrl;
use oauth2_wire::{AuthType, HttpRequest, ReplyRule};
use std::alloc::Global;
use std::test::Fail;
use url::Url;

/// A push whose errors have the codes of RFC 6749.
pub(crate) type Push<'a> = PushedAuthorizationRequest<
    'a,
    StandardErrorResponse<BasicErrorResponseType>,
>;

/// The parameters of the example, as its body has them.
pub(crate) const PARAMETERS: &str = "response_type=code&state=af0ifjsldkj&client_id=s6BhdRkqt3\
&redirect_uri=https%3A%2F%2Fclient.example.org%2Fcb\
&code_challenge=K2-ltc83acc4h0c9w6ESC_rEMTJ3bww-uCHaoeK1t8U\
&code_challenge_method=S256&scope=account-information";

/// The client, its endpoint, and the URL of the authorization endpoint.
pub(crate) struct Pusher {
    auth_type: AuthType,
    pub(crate) id: ClientId,
    secret: Option<ClientSecret>,
    endpoint: Url,
    pub(crate) auth_url: AuthUrl,
}

impl Drop for Pusher {
    fn drop(self) {
        let Pusher {
            auth_type: _,
            id: _,
            secret: _,
            endpoint: _,
            auth_url: _,
        } = self;
    }
}

// The secret of this text, if there is one.
fn client_secret(alloc: Global, secret: Option<&str>) -> Result<Option<ClientSecret>, Fail> {
    match secret {
        Some(secret) => Ok(Some(ClientSecret::new(text(alloc, secret)?))),
        None => Ok(None),
    }
}

// The URL of the authorization endpoint, which ends with `query`.
fn auth_url(alloc: Global, query: &str) -> Result<AuthUrl, Fail> {
    let text = format!(in alloc; "https://as.example.com/authorize{query}")?;
    Ok(AuthUrl::new(alloc, text)?)
}

impl Pusher {
    /// The client of the example, which shows this secret in this way. The URL of the authorization
    /// endpoint ends with `query`.
    pub(crate) fn new(
        alloc: Global,
        auth_type: AuthType,
        secret: Option<&str>,
        query: &str,
    ) -> Result<Pusher, Fail> {
        let secret = client_secret(alloc, secret)?;
        Pusher::at(
            alloc,
            auth_type,
            secret,
            "https://as.example.com/as/par",
            query,
        )
    }

    /// The public client of the example with this endpoint for pushes.
    pub(crate) fn public_at(alloc: Global, endpoint: &str, query: &str) -> Result<Pusher, Fail> {
        Pusher::at(alloc, AuthType::BasicAuth, None, endpoint, query)
    }

    fn at(
        alloc: Global,
        auth_type: AuthType,
        secret: Option<ClientSecret>,
        endpoint: &str,
        query: &str,
    ) -> Result<Pusher, Fail> {
        let id = ClientId::new(text(alloc, "s6BhdRkqt3")?);
        let endpoint = url(alloc, endpoint)?;
        let auth_url = auth_url(alloc, query)?;
        Ok(Pusher {
            auth_type,
            id,
            secret,
            endpoint,
            auth_url,
        })
    }

    /// The client of the example, with the header of the example.
    pub(crate) fn of_the_example(alloc: Global) -> Result<Pusher, Fail> {
        Pusher::new(
            alloc,
            AuthType::BasicAuth,
            Some("7Fjfp0ZBr1KtDRbnfVdmIw"),
            "",
        )
    }

    /// The push of an authorization URL with this query.
    pub(crate) fn push(
        &self,
        alloc: Global,
        query: &str,
    ) -> Result<Result<Push<'_>, PushFault>, Fail> {
        let text = format!(in alloc; "https://as.example.com/authorize?{query}")?;
        let pushed = url(alloc, text.as_str())?;
        let client = PushingClient::new(
            &self.auth_type,
            &self.id,
            self.secret.as_ref(),
            ReplyRule::MediaType,
            &self.endpoint,
        );
        Ok(Push::new(alloc, client, &self.auth_url, &pushed))
    }

    /// The POST of the push of a URL with this query.
    pub(crate) fn post(&self, alloc: Global, query: &str) -> Result<HttpRequest, Fail> {
        let push = self.push(alloc, query)??;
        Ok(push.prepare_request(alloc)?)
    }

    /// Checks the body of the push of a URL with this query.
    pub(crate) fn check_body(&self, alloc: Global, query: &str, body: &str) -> Result<(), Fail> {
        let sent = self.post(alloc, query)?;
        check_sent(&sent, body)
    }
}
