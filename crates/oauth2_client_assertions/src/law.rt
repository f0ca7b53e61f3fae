//! A law about the requests that get an assertion.

ghost use Rattle.oauth2_client_assertions.specs.Laws.{EachRequestIsAsserted};

/// Each request of a client without a secret to one of the endpoints gets an assertion, unless a
/// parameter has the name of a credential. A server that does nothing but decode the form reads the parameters of the request
/// and then those of the assertion, and no other credential.
pub fn each_request_is_asserted()
    ensures { EachRequestIsAsserted }
{}
