//! Types of clients for the usual sets of endpoints.

use crate::client::BasicClient;
use crate::endpoint::{EndpointNotSet, EndpointSet};

/// A client for logins: it has the authorization endpoint and the token endpoint (RFC 6749, section
/// 4.1).
pub type BasicLoginClient = BasicClient<
    EndpointSet,
    EndpointNotSet,
    EndpointNotSet,
    EndpointNotSet,
    EndpointSet,
>;

/// A client that only requests tokens: by its own credentials, by the password of a user or by a
/// refresh token (RFC 6749, sections 4.3, 4.4 and 6).
pub type BasicTokenClient = BasicClient<
    EndpointNotSet,
    EndpointNotSet,
    EndpointNotSet,
    EndpointNotSet,
    EndpointSet,
>;

/// A client on a device: it has the device authorization endpoint and the token endpoint (RFC 8628,
/// section 3).
pub type BasicDeviceClient = BasicClient<
    EndpointNotSet,
    EndpointSet,
    EndpointNotSet,
    EndpointNotSet,
    EndpointSet,
>;

/// A client that only introspects tokens, as a resource server does (RFC 7662).
pub type BasicIntrospectionClient = BasicClient<
    EndpointNotSet,
    EndpointNotSet,
    EndpointSet,
    EndpointNotSet,
    EndpointNotSet,
>;

/// A client with all five endpoints.
pub type BasicFullClient = BasicClient<
    EndpointSet,
    EndpointSet,
    EndpointSet,
    EndpointSet,
    EndpointSet,
>;
