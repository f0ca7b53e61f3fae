//! Requests that extra parameters can be added to.

ghost use Rattle.std.specs.Prelude.{◌≡◌, refl};

use oauth2_device::DeviceAccessTokenRequest;
use oauth2_requests::{
    AuthorizationRequest, ClientCredentialsTokenRequest, CodeTokenRequest,
    DeviceAuthorizationRequest, PasswordTokenRequest, RefreshTokenRequest,
};
use oauth2_wire::ParamText;
use std::alloc::AllocError;

/// A request that extra parameters can be added to. They keep the order in which they were added.
pub trait ExtensibleRequest<'a>: Sized + Drop {
    ghost use Rattle.std.specs.Prelude.{◌≡◌, ◌++◌, ◌∷◌, [], List, IfOk};
    ghost use Rattle.oauth2_form.specs.Pairs.{Pair};
    ghost use Rattle.oauth2_wire.specs.Texts.{param_bytes};

    /// The extra parameters of the request, in order.
    ghost extra_params: { Self → List Pair };

    /// The request with these extra parameters in place of those that it has.
    ghost with_extra_params: { Self → List Pair → Self };

    /// Adds an extra parameter after the others, as `add_extra_param` of the request does.
    fn with_extra_param(self, name: ParamText<'a>, value: ParamText<'a>) -> Result<Self, AllocError>
        ensures { let added = (param_bytes name.entry, param_bytes value.entry) ∷ [] in
            IfOk result (λ r. r ≡ with_extra_params self (extra_params self ++ added)) };

    /// What is put in place of the extra parameters is what the request has then; nothing else
    /// changes.
    ghost laws: { (r : Self) (a b : List Pair) → (extra_params (with_extra_params r a) ≡ a)
        × (with_extra_params r (extra_params r) ≡ r)
        × (with_extra_params (with_extra_params r a) b ≡ with_extra_params r b) };
}

/// The authorization request (RFC 6749, section 4.1.1).
impl<'a> ExtensibleRequest<'a> for AuthorizationRequest<'a> {
    ghost extra_params = { λ r. r.extra_params };

    ghost with_extra_params = { λ r params. record r { extra_params = params } };

    ghost laws = { λ r a b. (refl, refl, refl) };

    fn with_extra_param(
        self,
        name: ParamText<'a>,
        value: ParamText<'a>,
    ) -> Result<Self, AllocError> {
        AuthorizationRequest::add_extra_param(self, name, value)
    }
}

/// The exchange of a code (RFC 6749, section 4.1.3).
impl<'a, TE, TR> ExtensibleRequest<'a> for CodeTokenRequest<'a, TE, TR> {
    ghost extra_params = { λ r. r.base.extra_params };

    ghost with_extra_params = { λ r params. record r {
      base = record r.base { extra_params = params };
    } };

    ghost laws = { λ r a b. (refl, refl, refl) };

    fn with_extra_param(
        self,
        name: ParamText<'a>,
        value: ParamText<'a>,
    ) -> Result<Self, AllocError> {
        CodeTokenRequest::add_extra_param(self, name, value)
    }
}

/// The request with a user's password (RFC 6749, section 4.3.2).
impl<'a, TE, TR> ExtensibleRequest<'a> for PasswordTokenRequest<'a, TE, TR> {
    ghost extra_params = { λ r. r.base.extra_params };

    ghost with_extra_params = { λ r params. record r {
      base = record r.base { extra_params = params };
    } };

    ghost laws = { λ r a b. (refl, refl, refl) };

    fn with_extra_param(
        self,
        name: ParamText<'a>,
        value: ParamText<'a>,
    ) -> Result<Self, AllocError> {
        PasswordTokenRequest::add_extra_param(self, name, value)
    }
}

/// The request with the client's credentials alone (RFC 6749, section 4.4.2).
impl<'a, TE, TR> ExtensibleRequest<'a> for ClientCredentialsTokenRequest<'a, TE, TR> {
    ghost extra_params = { λ r. r.base.extra_params };

    ghost with_extra_params = { λ r params. record r {
      base = record r.base { extra_params = params };
    } };

    ghost laws = { λ r a b. (refl, refl, refl) };

    fn with_extra_param(
        self,
        name: ParamText<'a>,
        value: ParamText<'a>,
    ) -> Result<Self, AllocError> {
        ClientCredentialsTokenRequest::add_extra_param(self, name, value)
    }
}

/// The request with a refresh token (RFC 6749, section 6).
impl<'a, TE, TR> ExtensibleRequest<'a> for RefreshTokenRequest<'a, TE, TR> {
    ghost extra_params = { λ r. r.base.extra_params };

    ghost with_extra_params = { λ r params. record r {
      base = record r.base { extra_params = params };
    } };

    ghost laws = { λ r a b. (refl, refl, refl) };

    fn with_extra_param(
        self,
        name: ParamText<'a>,
        value: ParamText<'a>,
    ) -> Result<Self, AllocError> {
        RefreshTokenRequest::add_extra_param(self, name, value)
    }
}

/// The request for a device code (RFC 8628, section 3.1).
impl<'a, TE> ExtensibleRequest<'a> for DeviceAuthorizationRequest<'a, TE> {
    ghost extra_params = { λ r. r.base.extra_params };

    ghost with_extra_params = { λ r params. record r {
      base = record r.base { extra_params = params };
    } };

    ghost laws = { λ r a b. (refl, refl, refl) };

    fn with_extra_param(
        self,
        name: ParamText<'a>,
        value: ParamText<'a>,
    ) -> Result<Self, AllocError> {
        DeviceAuthorizationRequest::add_extra_param(self, name, value)
    }
}

/// The request of a device for its token (RFC 8628, section 3.4).
impl<'a, TR, EF, T: Drop> ExtensibleRequest<'a> for DeviceAccessTokenRequest<'a, TR, EF, T> {
    ghost extra_params = { λ r. r.request.base.extra_params };

    ghost with_extra_params = { λ r params. record r {
      request = record r.request {
        base = record r.request.base { extra_params = params };
      };
    } };

    ghost laws = { λ r a b. (refl, refl, refl) };

    fn with_extra_param(
        self,
        name: ParamText<'a>,
        value: ParamText<'a>,
    ) -> Result<Self, AllocError> {
        DeviceAccessTokenRequest::add_extra_param(self, name, value)
    }
}
