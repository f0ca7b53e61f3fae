//! Responses of an OAuth 2.0 server: tokens (RFC 6749) and device authorization (RFC 8628); and
//! the tokens that can be revoked (RFC 7009).

#![tactic(auto)]

mod device;
mod device_json;
mod extra_fields;
mod revocation;
mod scopes;
mod token;
mod token_json;

pub use device::{
    DeviceAuthorizationResponse, EmptyExtraDeviceAuthorizationFields,
    ExtraDeviceAuthorizationFields, StandardDeviceAuthorizationResponse,
};
pub use extra_fields::ExtraFields;
pub use revocation::{RevocableToken, StandardRevocableToken};
pub use scopes::OptionalScopes;
pub use token::{
    BasicTokenResponse, EmptyExtraTokenFields, ExtraTokenFields, StandardTokenResponse,
    TokenResponse,
};
