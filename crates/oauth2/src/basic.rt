//! The types for a server that uses no extension.

pub use crate::client::BasicClient;
pub use crate::endpoint_sets::{
    BasicDeviceClient, BasicFullClient, BasicIntrospectionClient, BasicLoginClient,
    BasicTokenClient,
};
pub use oauth2_codes::{
    BasicErrorResponse, BasicErrorResponseType, BasicRevocationErrorResponse, BasicTokenType,
};
pub use oauth2_introspection::BasicTokenIntrospectionResponse;
pub use oauth2_replies::BasicTokenResponse;
pub use oauth2_wire::BasicRequestTokenError;
