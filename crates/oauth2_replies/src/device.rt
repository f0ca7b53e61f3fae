//! The response of a device authorization endpoint (RFC 8628, section 3.2).

ghost use Rattle.std.specs.Prelude.{◌≡◌, ◌*◌, Ok, IfOk, option_copied};
ghost use Rattle.std.specs.Duration.{as_nanos};
ghost use Rattle.oauth2_replies.specs.Device.{DeviceAuthorization, device_seen};
ghost use Rattle.oauth2_replies.specs.private.Address.{IsAddress};

use oauth2_json::{FromJson, ReadError, ToJson, WriteError, members};
use oauth2_types::{DeviceCode, TryClone, UserCode, VerificationUriComplete};
use oauth2_urls::EndUserVerificationUrl;
use serde_json::{Map, Value};
use std::alloc::{AllocError, Global};
use std::fmt;
use std::marker::Model;
use std::time::Duration;

/// The device authorization response without extra fields.
pub type StandardDeviceAuthorizationResponse = DeviceAuthorizationResponse<
    EmptyExtraDeviceAuthorizationFields,
>;

/// Members of a device authorization response that the standard does not name.
pub trait ExtraDeviceAuthorizationFields: FromJson + ToJson + fmt::Debug {
    ghost use Rattle.std.specs.Prelude.{◌≡◌, Ok};
    ghost use Rattle.serde_json.specs.Data.{Data, Members, object};

    /// What `to_json` writes is an object.
    ghost writes_object: { (x : Self) (d : Data) → Self.ToJson.writing x ≡ Ok d
        → (ms : Members) × (d ≡ object ms) };
}

/// The device authorization response of RFC 8628, section 3.2, with extra fields `EF`. There is no
/// constructor: it is read from JSON.
#[derive(Debug)]
pub struct DeviceAuthorizationResponse<EF> {
    pub(crate) device_code: DeviceCode,
    pub(crate) user_code: UserCode,
    pub(crate) verification_uri: EndUserVerificationUrl,
    pub(crate) verification_uri_complete: Option<VerificationUriComplete>,
    pub(crate) expires_in: u64,
    pub(crate) interval: u64,
    pub(crate) extra_fields: EF,
}

impl<EF: Drop> Drop for DeviceAuthorizationResponse<EF> {
    fn drop(self) {
        let DeviceAuthorizationResponse {
            device_code: _,
            user_code: _,
            verification_uri: _,
            verification_uri_complete: _,
            expires_in: _,
            interval: _,
            extra_fields: _,
        } = self;
    }
}

impl<EF> Model for DeviceAuthorizationResponse<EF> {
    ghost use Rattle.oauth2_replies.specs.Device.{DeviceAuthorization, device_authorization};
    ghost use Rattle.oauth2_replies.specs.private.Address.{IsAddress};

    ghost Value = { DeviceAuthorization EF };

    ghost view = { λ r. device_authorization r.device_code r.user_code r.verification_uri
        r.verification_uri_complete r.expires_in r.interval r.extra_fields };

    ghost invariant = { λ r. IsAddress r.verification_uri };
}

impl<EF> DeviceAuthorizationResponse<EF> {
    /// The code with which the device requests its token.
    pub fn device_code(&self) -> &DeviceCode
        ensures { result.now ≡ self.now.device_code }
    {
        &self.device_code
    }

    /// The code that the user types in.
    pub fn user_code(&self) -> &UserCode
        ensures { result.now ≡ self.now.user_code }
    {
        &self.user_code
    }

    /// The URL of the page where the user types in the code.
    pub fn verification_uri(&self) -> &EndUserVerificationUrl
        ensures { result.now ≡ self.now.verification_uri }
    {
        &self.verification_uri
    }

    /// The verification URI with the user code in it, if the server sent one. It is not parsed.
    pub fn verification_uri_complete(&self) -> Option<&VerificationUriComplete>
        ensures { option_copied result ≡ self.now.verification_uri_complete }
    {
        self.verification_uri_complete.as_ref()
    }

    /// The lifetime of the device code and of the user code.
    pub fn expires_in(&self) -> Duration
        ensures { as_nanos result ≡ self.now.expires_in * 1_000_000_000 }
    {
        Duration::from_secs(self.expires_in)
    }

    /// The least time that the device waits between two requests: 5 seconds if the server sent none
    /// (RFC 8628, section 3.2).
    pub fn interval(&self) -> Duration
        ensures { as_nanos result ≡ self.now.interval * 1_000_000_000 }
    {
        Duration::from_secs(self.interval)
    }

    /// The members that the standard does not name.
    pub fn extra_fields(&self) -> &EF
        ensures { result.now ≡ self.now.extra_fields }
    {
        &self.extra_fields
    }
}

// The code of the device and the code of the user.
#[derive(Drop)]
pub(crate) struct Codes {
    pub(crate) device_code: DeviceCode,
    pub(crate) user_code: UserCode,
}

// Where the user types in the code, and the URI that has the code in it.
#[derive(Drop)]
pub(crate) struct Addresses {
    pub(crate) verification_uri: EndUserVerificationUrl,
    pub(crate) verification_uri_complete: Option<VerificationUriComplete>,
}

impl<EF> DeviceAuthorizationResponse<EF> {
    fn copied_codes(&self, alloc: Global) -> Result<Codes, AllocError>
        ensures device_code { IfOk result (λ c. c.device_code ≡ self.now.device_code) }
        ensures user_code { IfOk result (λ c. c.user_code ≡ self.now.user_code) }
    {
        Ok(Codes {
            device_code: self.device_code.try_clone(alloc)?,
            user_code: self.user_code.try_clone(alloc)?,
        })
    }

    fn copied_addresses(&self, alloc: Global) -> Result<Addresses, AllocError>
        ensures uri { IfOk result (λ a. a.verification_uri ≡ self.now.verification_uri) }
        ensures complete { IfOk result (λ a.
            a.verification_uri_complete ≡ self.now.verification_uri_complete) }
        ensures address { IsAddress self.now.verification_uri }
    {
        Ok(Addresses {
            verification_uri: self.verification_uri.try_clone(alloc)?,
            verification_uri_complete: self.verification_uri_complete.try_clone(alloc)?,
        })
    }
}

impl<EF: TryClone + Drop> TryClone for DeviceAuthorizationResponse<EF> {
    ghost Seen = { DeviceAuthorization EF.Seen };

    ghost seen = { device_seen EF.seen };

    fn try_clone(&self, alloc: Global) -> Result<DeviceAuthorizationResponse<EF>, AllocError> {
        let codes = self.copied_codes(alloc)?;
        let addresses = self.copied_addresses(alloc)?;
        let extra_fields = self.extra_fields.try_clone(alloc)?;
        Ok(DeviceAuthorizationResponse {
            device_code: codes.device_code,
            user_code: codes.user_code,
            verification_uri: addresses.verification_uri,
            verification_uri_complete: addresses.verification_uri_complete,
            expires_in: self.expires_in,
            interval: self.interval,
            extra_fields,
        })
    }
}

/// No extra fields: read from any object, written as an empty one.
#[derive(Debug, Drop)]
pub struct EmptyExtraDeviceAuthorizationFields {}

impl FromJson for EmptyExtraDeviceAuthorizationFields {
    ghost use Rattle.oauth2_replies.specs.Kept.{any_object};

    ghost Meaning = { Unit {0} };

    ghost meaning = { λ _. tt };

    ghost reading = { any_object };

    fn from_json(
        alloc: Global,
        value: Value,
    ) -> Result<EmptyExtraDeviceAuthorizationFields, ReadError> {
        drop(members::of_object(alloc, value)?);
        Ok(EmptyExtraDeviceAuthorizationFields {})
    }

    fn reads_members() -> bool {
        false
    }
}

impl ToJson for EmptyExtraDeviceAuthorizationFields {
    ghost use Rattle.serde_json.specs.Data.{object, no_members};

    ghost writing = { λ _. Ok (object no_members) };

    fn to_json(&self, alloc: Global) -> Result<Value, WriteError> {
        Ok(Value::Object(Map::new(alloc)))
    }
}

impl ExtraDeviceAuthorizationFields for EmptyExtraDeviceAuthorizationFields {
    ghost use Rattle.serde_json.specs.Data.{no_members};

    ghost writes_object = { λ x d h. (no_members, Prim.cc) };
}

impl TryClone for EmptyExtraDeviceAuthorizationFields {
    ghost Seen = { Unit {0} };

    ghost seen = { λ _. tt };

    fn try_clone(&self, _alloc: Global) -> Result<Self, AllocError> {
        Ok(EmptyExtraDeviceAuthorizationFields {})
    }
}
