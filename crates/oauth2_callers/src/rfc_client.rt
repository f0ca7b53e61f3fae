//! The client of the examples of RFC 6749, and the requests that it sends there.

use crate::support::text;
use oauth2_codes::BasicErrorResponse;
use oauth2_replies::BasicTokenResponse;
use oauth2_requests::{BaseRequest, CodeTokenRequest, RefreshTokenRequest};
use oauth2_types::{AuthorizationCode, ClientId, ClientSecret, RefreshToken};
use oauth2_urls::{RedirectUrl, TokenUrl};
use oauth2_wire::{AuthType, ReplyRule};
use std::process::Abort;

/// The client, with its secret, its redirect URI and the token endpoint of its server.
#[derive(Drop)]
pub struct RfcClient {
    auth_type: AuthType,
    client_id: ClientId,
    secret: ClientSecret,
    token_url: TokenUrl,
    redirect_url: RedirectUrl,
}

impl RfcClient {
    /// Makes the client.
    pub fn new(rt: &(impl Abort + AllocGlobal)) -> RfcClient {
        let token_url = TokenUrl::new(rt.alloc(), text(rt, "https://server.example.com/token"));
        let redirect_url = RedirectUrl::new(rt.alloc(), text(rt, "https://client.example.com/cb"));
        RfcClient {
            auth_type: AuthType::BasicAuth,
            client_id: ClientId::new(text(rt, "s6BhdRkqt3")),
            secret: ClientSecret::new(text(rt, "gX1fBat3bV")),
            token_url: token_url.expect(rt, "a URL"),
            redirect_url: redirect_url.expect(rt, "a URL"),
        }
    }

    fn base(&self, rt: &(impl Abort + AllocGlobal)) -> BaseRequest<'_> {
        BaseRequest::new(
            rt.alloc(),
            &self.auth_type,
            &self.client_id,
            Some(&self.secret),
            ReplyRule::Prefix,
        )
    }

    /// The exchange of a code (RFC 6749, section 4.1.3).
    pub fn code_request(
        &self,
        rt: &(impl Abort + AllocGlobal),
    ) -> CodeTokenRequest<'_, BasicErrorResponse, BasicTokenResponse> {
        let code = AuthorizationCode::new(text(rt, "SplxlOBeZQQSLWxbYIA"));
        CodeTokenRequest::new(
            self.base(rt),
            &self.token_url,
            Some(&self.redirect_url),
            code,
        )
    }

    /// A refresh with this token (RFC 6749, section 6).
    pub fn refresh_request<'a>(
        &'a self,
        rt: &(impl Abort + AllocGlobal),
        token: &'a RefreshToken,
    ) -> RefreshTokenRequest<'a, BasicErrorResponse, BasicTokenResponse> {
        RefreshTokenRequest::new(self.base(rt), &self.token_url, token)
    }
}
