//! The exchange of a code (RFC 6749, section 4.1.3).

ghost use Rattle.std.specs.Prelude.{◌≡◌, ◌++◌, ◌∷◌, [], Some, None, IfOk, Err, option_copied};
ghost use Rattle.http_uri.specs.Uri.{SpellsNone};
ghost use Rattle.url.specs.Parts.{serialize};
ghost use Rattle.oauth2_wire.specs.Once.{AsksOnce};
ghost use Rattle.oauth2_wire.specs.Reply.{answer_of};
ghost use Rattle.oauth2_wire.specs.Request.{IsRequestOf, view_of};
ghost use Rattle.oauth2_wire.specs.Texts.{param_bytes, redirect_of};
ghost use Rattle.oauth2_requests.specs.Code.{code_configuration};

use crate::base_request::BaseRequest;
use oauth2_codes::ErrorResponse;
use oauth2_replies::TokenResponse;
use oauth2_types::{AuthorizationCode, PkceCodeVerifier};
use oauth2_urls::{RedirectUrl, TokenUrl};
use oauth2_wire::{
    HttpRequest, ParamText, RedirectRef, RequestFault, RequestTokenError, SyncHttpClient,
};
use std::alloc::{AllocError, Global};
use std::marker::{Model, PhantomData};

/// A request to exchange a code for a token.
#[derive(Drop)]
#[derive_where(Debug)]
pub struct CodeTokenRequest<'a, TE, TR> {
    base: BaseRequest<'a>,
    token_url: &'a TokenUrl,
    code: AuthorizationCode,
    pkce_verifier: Option<PkceCodeVerifier>,
    redirect_url: Option<RedirectRef<'a>>,
    phantom: PhantomData<(TE, TR)>,
}

impl<'a, TE, TR> Model for CodeTokenRequest<'a, TE, TR> {
    ghost use Rattle.std.specs.Prelude.{option_map};
    ghost use Rattle.oauth2_wire.specs.Texts.{redirect_of};
    ghost use Rattle.oauth2_requests.specs.Code.{CodeRequest};

    ghost Value = { CodeRequest };

    ghost view = { λ r. record {
      base = r.base;
      token_url = r.token_url.now;
      code = r.code;
      pkce_verifier = r.pkce_verifier;
      redirect_url = option_map redirect_of r.redirect_url;
    } };
}

impl<'a, TE, TR> CodeTokenRequest<'a, TE, TR> {
    /// A request with no code verifier yet. `oauth2::Client` builds it; call `new` yourself if you
    /// keep your endpoints without a `Client`.
    pub fn new(
        base: BaseRequest<'a>,
        token_url: &'a TokenUrl,
        redirect_url: Option<&'a RedirectUrl>,
        code: AuthorizationCode,
    ) -> Self
        ensures { result ≡ record {
          base = base.entry;
          token_url = token_url.now;
          code = code;
          pkce_verifier = None;
          redirect_url = option_copied redirect_url.entry;
        } }
    {
        CodeTokenRequest {
            base,
            token_url,
            code,
            pkce_verifier: None,
            redirect_url: redirect_url.map(RedirectRef::Borrowed),
            phantom: PhantomData,
        }
    }

    /// Adds an extra parameter. If the request itself sends a parameter with that name, both are
    /// sent.
    pub fn add_extra_param(
        mut self,
        name: ParamText<'a>,
        value: ParamText<'a>,
    ) -> Result<Self, AllocError>
        ensures { let added = (param_bytes name.entry, param_bytes value.entry) ∷ [] in
            IfOk result (λ r. r ≡ record self.entry {
              base =
                  record self.entry.base { extra_params = self.entry.base.extra_params ++ added };
            }) }
    {
        self.base.add_extra_param(name, value)?;
        Ok(self)
    }

    /// Sets the code verifier (RFC 7636, section 4.5).
    pub fn set_pkce_verifier(mut self, pkce_verifier: PkceCodeVerifier) -> Self
        ensures { result ≡ record self.entry { pkce_verifier = Some pkce_verifier } }
    {
        self.pkce_verifier = Some(pkce_verifier);
        self
    }

    /// Sets the redirect URL. Without this call, it is that of the client, if the client has one.
    pub fn set_redirect_uri(mut self, redirect_url: RedirectRef<'a>) -> Self
        ensures { result ≡ record self.entry {
          redirect_url = Some (redirect_of redirect_url.entry);
        } }
    {
        self.redirect_url = Some(redirect_url);
        self
    }

    /// The POST that `request` sends. The error is `NotHttp` if the endpoint URL is not an HTTP
    /// target.
    pub fn prepare_request(&self, alloc: Global) -> Result<HttpRequest, RequestFault>
        ensures ok { IfOk result (λ r. IsRequestOf (code_configuration self.now)
            (serialize self.now.token_url.url) (view_of r)) }
        ensures not_http { result ≡ Err RequestFault.NotHttp
            → SpellsNone (serialize self.now.token_url.url) }
    {
        let url = self.token_url.url();
        let code = self.code.secret().as_str();
        match &self.pkce_verifier {
            None => self.base.prepare(
                alloc,
                url,
                self.redirect(),
                &[("grant_type", "authorization_code"), ("code", code)],
            ),
            Some(verifier) => self.base.prepare(
                alloc,
                url,
                self.redirect(),
                &[
                    ("grant_type", "authorization_code"),
                    ("code", code),
                    ("code_verifier", verifier.secret().as_str()),
                ],
            ),
        }
    }

    fn redirect(&self) -> Option<&RedirectUrl>
        ensures { option_copied result ≡ self.now.redirect_url }
    {
        match &self.redirect_url {
            Some(redirect_url) => Some(redirect_url.redirect_url()),
            None => None,
        }
    }
}

impl<'a, TE: ErrorResponse, TR: TokenResponse> CodeTokenRequest<'a, TE, TR> {
    /// Sends the request once, and reads its reply.
    pub fn request<C: SyncHttpClient>(
        self,
        alloc: Global,
        http_client: &mut C,
    ) -> Result<TR, RequestTokenError<C::Error, TE>>
        requires { C.is_ready http_client.old }
        ensures once { AsksOnce TR.meaning TE.meaning C.step
            (answer_of self.entry.base.reply_rule TR.reading TE.reading)
            (IsRequestOf (code_configuration self.entry))
            (serialize self.entry.token_url.url) http_client.old result http_client.new }
        ensures ready { C.is_ready http_client.new }
    {
        let prepared = self.prepare_request(alloc);
        self.base.send_once(alloc, prepared, http_client)
    }
}
