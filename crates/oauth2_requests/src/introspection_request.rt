//! The introspection of a token (RFC 7662, section 2).

ghost use Rattle.std.specs.Prelude.{◌≡◌, ◌++◌, ◌∷◌, [], Some, None, IfOk, Err};
ghost use Rattle.http_uri.specs.Uri.{SpellsNone};
ghost use Rattle.url.specs.Parts.{serialize};
ghost use Rattle.oauth2_wire.specs.Once.{AsksOnce};
ghost use Rattle.oauth2_wire.specs.Reply.{answer_of};
ghost use Rattle.oauth2_wire.specs.Request.{IsRequestOf, view_of};
ghost use Rattle.oauth2_wire.specs.Texts.{param_bytes};
ghost use Rattle.oauth2_requests.specs.TokenIntrospection.{introspection_configuration};

use crate::base_request::BaseRequest;
use oauth2_codes::ErrorResponse;
use oauth2_json::FromJson;
use oauth2_types::AccessToken;
use oauth2_urls::IntrospectionUrl;
use oauth2_wire::{HttpRequest, ParamText, RequestFault, RequestTokenError, SyncHttpClient};
use std::alloc::{AllocError, Global};
use std::marker::{Model, PhantomData};

/// A request to the introspection endpoint: whether a token is active, and what the server knows of
/// it.
#[derive(Drop)]
#[derive_where(Debug)]
pub struct IntrospectionRequest<'a, TE, TIR> {
    base: BaseRequest<'a>,
    introspection_url: &'a IntrospectionUrl,
    token: &'a AccessToken,
    token_type_hint: Option<ParamText<'a>>,
    phantom: PhantomData<(TE, TIR)>,
}

impl<'a, TE, TIR> Model for IntrospectionRequest<'a, TE, TIR> {
    ghost use Rattle.std.specs.Prelude.{option_map};
    ghost use Rattle.oauth2_wire.specs.Texts.{param_bytes};
    ghost use Rattle.oauth2_requests.specs.TokenIntrospection.{TokenIntrospection};

    ghost Value = { TokenIntrospection };

    ghost view = { λ r. record {
      base = r.base;
      introspection_url = r.introspection_url.now;
      token = r.token.now;
      token_type_hint = option_map param_bytes r.token_type_hint;
    } };
}

impl<'a, TE, TIR> IntrospectionRequest<'a, TE, TIR> {
    /// A request with no token type hint yet. `oauth2::Client` builds it; call `new` yourself if
    /// you keep your endpoints without a `Client`.
    pub fn new(
        base: BaseRequest<'a>,
        introspection_url: &'a IntrospectionUrl,
        token: &'a AccessToken,
    ) -> Self
        ensures { result ≡ record {
          base = base.entry;
          introspection_url = introspection_url.now;
          token = token.now;
          token_type_hint = None;
        } }
    {
        IntrospectionRequest {
            base,
            introspection_url,
            token,
            token_type_hint: None,
            phantom: PhantomData,
        }
    }

    /// Sets the hint of the token's type, such as `access_token` or `refresh_token` (RFC 7662,
    /// section 2.1). Any text is sent unchanged, even an empty one.
    pub fn set_token_type_hint(mut self, token_type_hint: ParamText<'a>) -> Self
        ensures { result ≡ record self.entry {
          token_type_hint = Some (param_bytes token_type_hint.entry);
        } }
    {
        self.token_type_hint = Some(token_type_hint);
        self
    }

    /// Adds an extra parameter. If the request itself sends a parameter with that name, both are
    /// sent.
    pub fn add_extra_param(
        mut self,
        name: ParamText<'a>,
        value: ParamText<'a>,
    ) -> Result<Self, AllocError>
        ensures { let added = (param_bytes name.entry, param_bytes value.entry) ∷ [] in
            IfOk result (λ r. r ≡ record self.entry {
              base =
                  record self.entry.base { extra_params = self.entry.base.extra_params ++ added };
            }) }
    {
        self.base.add_extra_param(name, value)?;
        Ok(self)
    }

    /// The POST that `request` sends. The error is `NotHttp` if the endpoint URL is not an HTTP
    /// target.
    pub fn prepare_request(&self, alloc: Global) -> Result<HttpRequest, RequestFault>
        ensures ok { IfOk result (λ r. IsRequestOf (introspection_configuration self.now)
            (serialize self.now.introspection_url.url) (view_of r)) }
        ensures not_http { result ≡ Err RequestFault.NotHttp
            → SpellsNone (serialize self.now.introspection_url.url) }
    {
        let url = self.introspection_url.url();
        let token = ("token", self.token.secret().as_str());
        match &self.token_type_hint {
            None => self.base.prepare(alloc, url, None, &[token]),
            Some(hint) => self.base.prepare(
                alloc,
                url,
                None,
                &[token, ("token_type_hint", hint.as_str())],
            ),
        }
    }
}

impl<'a, TE: ErrorResponse, TIR: FromJson> IntrospectionRequest<'a, TE, TIR> {
    /// Sends the request once, and reads its reply as a `TIR`: any type that implements `FromJson`.
    pub fn request<C: SyncHttpClient>(
        self,
        alloc: Global,
        http_client: &mut C,
    ) -> Result<TIR, RequestTokenError<C::Error, TE>>
        requires { C.is_ready http_client.old }
        ensures once { AsksOnce TIR.meaning TE.meaning C.step
            (answer_of self.entry.base.reply_rule TIR.reading TE.reading)
            (IsRequestOf (introspection_configuration self.entry))
            (serialize self.entry.introspection_url.url)
            http_client.old result http_client.new }
        ensures ready { C.is_ready http_client.new }
    {
        let prepared = self.prepare_request(alloc);
        self.base.send_once(alloc, prepared, http_client)
    }
}
