//! The revocation of a token (RFC 7009, section 2).

ghost use Rattle.std.specs.Prelude.{◌≡◌, ◌++◌, ◌∷◌, [], IfOk, IsOkAnd, IsErrAnd, Err, codes};
ghost use Rattle.http_uri.specs.Uri.{SpellsNone};
ghost use Rattle.url.specs.Parts.{serialize};
ghost use Rattle.oauth2_wire.specs.ConfigurationError.{IsInsecureUrl};
ghost use Rattle.oauth2_wire.specs.Once.{AsksOnce, KeepsSuccess};
ghost use Rattle.oauth2_wire.specs.Reply.{status_answer_of};
ghost use Rattle.oauth2_wire.specs.Request.{IsRequestOf, view_of};
ghost use Rattle.oauth2_wire.specs.Texts.{param_bytes};
ghost use Rattle.oauth2_requests.specs.TokenRevocation.{IsHttps, revocation_configuration};

use crate::base_request::BaseRequest;
use oauth2_codes::ErrorResponse;
use oauth2_replies::RevocableToken;
use oauth2_urls::RevocationUrl;
use oauth2_wire::{
    ConfigurationError, HttpRequest, ParamText, RequestFault, RequestTokenError, SyncHttpClient,
    send_once_status_only,
};
use std::alloc::{AllocError, Global};
use std::marker::{Model, PhantomData};

/// A request to revoke a token.
#[derive(Drop)]
#[derive_where(Debug; RT)]
pub struct RevocationRequest<'a, RT, TRE>
where
    RT: RevocableToken,
{
    base: BaseRequest<'a>,
    revocation_url: &'a RevocationUrl,
    token: RT,
    phantom: PhantomData<TRE>,
}

impl<'a, RT, TRE> Model for RevocationRequest<'a, RT, TRE>
where
    RT: RevocableToken,
{
    ghost use Rattle.oauth2_requests.specs.TokenRevocation.{TokenRevocation};

    ghost Value = { TokenRevocation };

    ghost view = { λ r. record {
      base = r.base;
      revocation_url = r.revocation_url.now;
      token = RT.secret r.token;
      token_type_hint = RT.type_hint r.token;
    } };
}

impl<'a, RT: RevocableToken, TRE> RevocationRequest<'a, RT, TRE> {
    /// The POST that `request` sends. The error is `NotHttp` if the endpoint URL is not an HTTP
    /// target.
    pub fn prepare_request(&self, alloc: Global) -> Result<HttpRequest, RequestFault>
        ensures ok { IfOk result (λ r. IsRequestOf (revocation_configuration self.now)
            (serialize self.now.revocation_url.url) (view_of r)) }
        ensures not_http { result ≡ Err RequestFault.NotHttp
            → SpellsNone (serialize self.now.revocation_url.url) }
    {
        let url = self.revocation_url.url();
        let token = ("token", self.token.secret());
        match self.token.type_hint() {
            None => self.base.prepare(alloc, url, None, &[token]),
            Some(hint) => self
                .base
                .prepare(alloc, url, None, &[token, ("token_type_hint", hint)]),
        }
    }
}

impl<'a, RT: RevocableToken + Drop, TRE> RevocationRequest<'a, RT, TRE> {
    /// A request to this endpoint. The error is `InsecureUrl` if its URL is not an `https` URL
    /// (RFC 7009, section 2); the token is dropped then.
    pub fn new(
        base: BaseRequest<'a>,
        revocation_url: &'a RevocationUrl,
        token: RT,
    ) -> Result<Self, ConfigurationError>
        ensures secure { IsHttps revocation_url.now → IsOkAnd result (λ r. r ≡ record {
          base = base.entry;
          revocation_url = revocation_url.now;
          token = RT.secret token;
          token_type_hint = RT.type_hint token;
        }) }
        ensures insecure { ¬ (IsHttps revocation_url.now)
            → IsErrAnd result (IsInsecureUrl (codes "revocation")) }
    {
        if revocation_url.url().scheme() != "https" {
            return Err(ConfigurationError::InsecureUrl("revocation"));
        }
        Ok(RevocationRequest {
            base,
            revocation_url,
            token,
            phantom: PhantomData,
        })
    }

    /// Adds an extra parameter. If the request itself sends a parameter with that name, both are
    /// sent.
    pub fn add_extra_param(
        mut self,
        name: ParamText<'a>,
        value: ParamText<'a>,
    ) -> Result<Self, AllocError>
        ensures { let added = (param_bytes name.entry, param_bytes value.entry) ∷ [] in
            IfOk result (λ r. r ≡ record self.entry {
              base =
                  record self.entry.base { extra_params = self.entry.base.extra_params ++ added };
            }) }
    {
        self.base.add_extra_param(name, value)?;
        Ok(self)
    }
}

impl<'a, RT: RevocableToken + Drop, TRE: ErrorResponse> RevocationRequest<'a, RT, TRE> {
    /// Sends the request once. `Ok` means that the token is revoked, or that the server does not
    /// know such a token (RFC 7009, section 2.2).
    pub fn request<C: SyncHttpClient>(
        self,
        alloc: Global,
        http_client: &mut C,
    ) -> Result<(), RequestTokenError<C::Error, TRE>>
        requires { C.is_ready http_client.old }
        ensures once { AsksOnce (λ done. done) TRE.meaning C.step
            (status_answer_of TRE.reading) (IsRequestOf (revocation_configuration self.entry))
            (serialize self.entry.revocation_url.url) http_client.old result http_client.new }
        ensures success { AsksOnce (λ done. done) TRE.meaning (KeepsSuccess C.step result)
            (status_answer_of TRE.reading) (IsRequestOf (revocation_configuration self.entry))
            (serialize self.entry.revocation_url.url) http_client.old result http_client.new }
        ensures ready { C.is_ready http_client.new }
    {
        let prepared = self.prepare_request(alloc);
        send_once_status_only(alloc, prepared, http_client)
    }
}
