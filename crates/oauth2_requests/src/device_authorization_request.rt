//! The device authorization request (RFC 8628, section 3.1).

ghost use Rattle.std.specs.Prelude.{◌≡◌, ◌++◌, ◌∷◌, [], Some, IfOk, Err, List, ℕ};
ghost use Rattle.std.specs.Iterator.{Drains, IsFinite};
ghost use Rattle.http_uri.specs.Uri.{SpellsNone};
ghost use Rattle.url.specs.Parts.{serialize};
ghost use Rattle.oauth2_form.specs.Params.{with_scope, with_scopes};
ghost use Rattle.oauth2_wire.specs.Once.{AsksOnce};
ghost use Rattle.oauth2_wire.specs.Reply.{answer_of};
ghost use Rattle.oauth2_wire.specs.Request.{IsRequestOf, view_of};
ghost use Rattle.oauth2_wire.specs.Texts.{param_bytes};
ghost use Rattle.oauth2_replies.specs.Device.{device_seen, device_reading};
ghost use Rattle.oauth2_requests.specs.DeviceAuthorization.{device_authorization_configuration};

use crate::base_request::BaseRequest;
use oauth2_codes::ErrorResponse;
use oauth2_replies::{DeviceAuthorizationResponse, ExtraDeviceAuthorizationFields};
use oauth2_types::Scope;
use oauth2_urls::DeviceAuthorizationUrl;
use oauth2_wire::{HttpRequest, ParamText, RequestFault, RequestTokenError, SyncHttpClient};
use std::alloc::{AllocError, Global};
use std::marker::{Model, PhantomData};

/// A request for a device code and a user code.
#[derive(Drop)]
#[derive_where(Debug)]
pub struct DeviceAuthorizationRequest<'a, TE> {
    base: BaseRequest<'a>,
    device_authorization_url: &'a DeviceAuthorizationUrl,
    phantom: PhantomData<TE>,
}

impl<'a, TE> Model for DeviceAuthorizationRequest<'a, TE> {
    ghost use Rattle.oauth2_requests.specs.DeviceAuthorization.{DeviceRequest};

    ghost Value = { DeviceRequest };

    ghost view = { λ r. record {
      base = r.base;
      device_authorization_url = r.device_authorization_url.now;
    } };
}

impl<'a, TE> DeviceAuthorizationRequest<'a, TE> {
    /// A request to this endpoint. `oauth2::Client` builds it; call `new` yourself if you keep your
    /// endpoints without a `Client`.
    pub fn new(base: BaseRequest<'a>, device_authorization_url: &'a DeviceAuthorizationUrl) -> Self
        ensures { result ≡ record {
          base = base.entry;
          device_authorization_url = device_authorization_url.now;
        } }
    {
        DeviceAuthorizationRequest {
            base,
            device_authorization_url,
            phantom: PhantomData,
        }
    }

    /// Adds a scope.
    pub fn add_scope(mut self, scope: Scope) -> Result<Self, AllocError>
        ensures { let joined = with_scope self.entry.base.scope scope in
            IfOk result (λ r. r ≡ record self.entry {
              base = record self.entry.base { scope = Some joined };
            }) }
    {
        self.base.add_scope(scope)?;
        Ok(self)
    }

    /// Adds scopes, in order. The iterator must end.
    pub fn add_scopes<I: IntoIterator<Item = Scope>>(
        mut self,
        scopes: I,
    ) -> Result<Self, AllocError>
        requires { (it : I.IntoIter) → I.into_iter_gives scopes it
            → I.IntoIter.can_next it × IsFinite (I.IntoIter.remaining it) }
        ensures { IfOk result (λ r. (it : I.IntoIter) × (added : List (List ℕ))
            × I.into_iter_gives scopes it × Drains I.IntoIter.next_gives it added
            × (r ≡ record self.entry {
              base =
                  record self.entry.base { scope = with_scopes self.entry.base.scope added };
            })) }
    {
        self.base.add_scopes(scopes)?;
        Ok(self)
    }

    /// Adds an extra parameter. If the request itself sends a parameter with that name, both are
    /// sent.
    pub fn add_extra_param(
        mut self,
        name: ParamText<'a>,
        value: ParamText<'a>,
    ) -> Result<Self, AllocError>
        ensures { let added = (param_bytes name.entry, param_bytes value.entry) ∷ [] in
            IfOk result (λ r. r ≡ record self.entry {
              base =
                  record self.entry.base { extra_params = self.entry.base.extra_params ++ added };
            }) }
    {
        self.base.add_extra_param(name, value)?;
        Ok(self)
    }

    /// The POST that `request` sends. The error is `NotHttp` if the endpoint URL is not an HTTP
    /// target.
    pub fn prepare_request(&self, alloc: Global) -> Result<HttpRequest, RequestFault>
        ensures ok { IfOk result (λ r. IsRequestOf (device_authorization_configuration self.now)
            (serialize self.now.device_authorization_url.url) (view_of r)) }
        ensures not_http { result ≡ Err RequestFault.NotHttp
            → SpellsNone (serialize self.now.device_authorization_url.url) }
    {
        let url = self.device_authorization_url.url();
        self.base.prepare(alloc, url, None, &[])
    }
}

impl<'a, TE: ErrorResponse> DeviceAuthorizationRequest<'a, TE> {
    /// Sends the request once, and reads its reply. `EF` is your type for the extra fields of the
    /// reply.
    pub fn request<C: SyncHttpClient, EF: ExtraDeviceAuthorizationFields + Drop>(
        self,
        alloc: Global,
        http_client: &mut C,
    ) -> Result<DeviceAuthorizationResponse<EF>, RequestTokenError<C::Error, TE>>
        requires { C.is_ready http_client.old }
        ensures once { AsksOnce (device_seen EF.meaning) TE.meaning C.step
            (answer_of self.entry.base.reply_rule (device_reading EF.reading) TE.reading)
            (IsRequestOf (device_authorization_configuration self.entry))
            (serialize self.entry.device_authorization_url.url)
            http_client.old result http_client.new }
        ensures ready { C.is_ready http_client.new }
    {
        let prepared = self.prepare_request(alloc);
        self.base.send_once(alloc, prepared, http_client)
    }
}
