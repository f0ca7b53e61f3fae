//! The request of a device for its token (RFC 8628, section 3.4).

ghost use Rattle.std.specs.Prelude.{◌≡◌, ◌++◌, ◌∷◌, [], IfOk, Err};
ghost use Rattle.std.specs.Duration.{as_nanos};
ghost use Rattle.http_uri.specs.Uri.{SpellsNone};
ghost use Rattle.url.specs.Parts.{serialize};
ghost use Rattle.oauth2_wire.specs.Texts.{param_bytes};
ghost use Rattle.oauth2_device.specs.DeviceToken.{new_device_token};
ghost use Rattle.oauth2_device.specs.Poll.{IsDeviceRequest};

use jiff::Timestamp;
use oauth2_replies::DeviceAuthorizationResponse;
use oauth2_requests::BaseRequest;
use oauth2_urls::TokenUrl;
use oauth2_wire::{HttpRequest, ParamText, ReplyRule, RequestFault};
use std::alloc::{AllocError, Global};
use std::marker::{Model, PhantomData};
use std::time::Duration;

/// No clock was set. Such a request can only poll with `poll_with`, whose world has a clock.
#[derive(Clone, Copy, Debug)]
pub struct NoClock;

/// A request for the token of a device, which is sent until a reply decides. `T` is its clock.
#[derive(Drop)]
pub struct DeviceAccessTokenRequest<'a, TR, EF, T = NoClock> {
    base: BaseRequest<'a>,
    token_url: &'a TokenUrl,
    pub(crate) response: &'a DeviceAuthorizationResponse<EF>,
    pub(crate) max_backoff_interval: Duration,
    time_fn: T,
    phantom: PhantomData<TR>,
}

impl<'a, TR, EF, T> Model for DeviceAccessTokenRequest<'a, TR, EF, T> {
    ghost use Rattle.std.specs.Duration.{as_nanos};
    ghost use Rattle.oauth2_device.specs.DeviceToken.{DeviceToken, Clocked, nanos_of_seconds};

    ghost Value = { Clocked T };

    ghost view = { λ r. record {
      request = record {
        base = r.base;
        token_url = r.token_url.now;
        device_code = r.response.now.device_code;
        lifetime = nanos_of_seconds r.response.now.expires_in;
        interval = nanos_of_seconds r.response.now.interval;
        max_backoff_interval = as_nanos r.max_backoff_interval;
      };
      time_fn = r.time_fn;
    } };
}

impl<'a, TR, EF> DeviceAccessTokenRequest<'a, TR, EF> {
    /// A request to this endpoint for the device that received this response, with a cap of ten
    /// seconds and no clock. `oauth2::Client` builds it; call `new` yourself if you keep your
    /// endpoints without a `Client`.
    pub fn new(
        base: BaseRequest<'a>,
        token_url: &'a TokenUrl,
        response: &'a DeviceAuthorizationResponse<EF>,
    ) -> Self
        ensures { result.request ≡ new_device_token base.entry token_url.now response.now }
    {
        DeviceAccessTokenRequest {
            base,
            token_url,
            response,
            max_backoff_interval: Duration::from_secs(10),
            time_fn: NoClock,
            phantom: PhantomData,
        }
    }
}

impl<'a, TR, EF, T> DeviceAccessTokenRequest<'a, TR, EF, T> {
    /// Adds an extra parameter. If the request itself sends a parameter with that name, both are
    /// sent.
    pub fn add_extra_param(
        mut self,
        name: ParamText<'a>,
        value: ParamText<'a>,
    ) -> Result<Self, AllocError>
    where
        T: Drop,
        ensures request { let request = self.entry.request in
            let added = (param_bytes name.entry, param_bytes value.entry) ∷ [] in
            IfOk result (λ r. r.request ≡ record request {
              base = record request.base { extra_params = request.base.extra_params ++ added };
            }) }
        ensures clock { IfOk result (λ r. r.time_fn ≡ self.entry.time_fn) }
    {
        self.base.add_extra_param(name, value)?;
        Ok(self)
    }

    /// Sets the clock that `request` reads.
    pub fn set_time_fn<F: FnMut() -> Timestamp>(
        self,
        time_fn: F,
    ) -> DeviceAccessTokenRequest<'a, TR, EF, F>
    where
        T: Drop,
        ensures request { result.request ≡ self.entry.request }
        ensures clock { result.time_fn ≡ time_fn }
    {
        let (request, _) = self.replace_clock(time_fn);
        request
    }

    /// Sets the cap of the interval: each failed call doubles the interval, but not beyond the
    /// cap. An interval that is longer than the cap stays as it is.
    pub fn set_max_backoff_interval(mut self, interval: Duration) -> Self
        ensures request { result.request
            ≡ record self.entry.request { max_backoff_interval = as_nanos interval } }
        ensures clock { result.time_fn ≡ self.entry.time_fn }
    {
        self.max_backoff_interval = interval;
        self
    }

    /// The POST that each round of a poll sends. The error is `NotHttp` if the endpoint URL is not
    /// an HTTP target.
    pub fn prepare_request(&self, alloc: Global) -> Result<HttpRequest, RequestFault>
        ensures ok { IfOk result (IsDeviceRequest self.now.request) }
        ensures not_http { result ≡ Err RequestFault.NotHttp
            → SpellsNone (serialize self.now.request.token_url.url) }
    {
        self.base.prepare(
            alloc,
            self.token_url.url(),
            None,
            &[
                ("grant_type", "urn:ietf:params:oauth:grant-type:device_code"),
                ("device_code", self.response.device_code().secret().as_str()),
            ],
        )
    }

    // The rule for the Content-Type of each reply.
    pub(crate) fn reply_rule(&self) -> ReplyRule
        ensures { result ≡ self.now.request.base.reply_rule }
    {
        self.base.reply_rule()
    }

    // Replaces the clock; returns the request and the clock that it had.
    pub(crate) fn replace_clock<F>(self, clock: F) -> (DeviceAccessTokenRequest<'a, TR, EF, F>, T)
        ensures request { result.0.request ≡ self.entry.request }
        ensures clock { result.0.time_fn ≡ clock }
        ensures before { result.1 ≡ self.entry.time_fn }
    {
        let DeviceAccessTokenRequest {
            base,
            token_url,
            response,
            max_backoff_interval,
            time_fn: before,
            phantom: _,
        } = self;
        let request = DeviceAccessTokenRequest {
            base,
            token_url,
            response,
            max_backoff_interval,
            time_fn: clock,
            phantom: PhantomData,
        };
        (request, before)
    }
}
