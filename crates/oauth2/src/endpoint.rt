//! Whether an endpoint has a URL, as the type of a client says it.

ghost use Rattle.std.specs.Prelude.{Bool};

use oauth2_types::TryClone;
use std::alloc::{AllocError, Global};

mod private {
    /// Seals `EndpointState`.
    pub trait EndpointStateSealed {}

    impl EndpointStateSealed for super::EndpointNotSet {}

    impl EndpointStateSealed for super::EndpointSet {}

    impl EndpointStateSealed for super::EndpointMaybeSet {}
}

/// What the type of a client says about an endpoint.
pub trait EndpointState: private::EndpointStateSealed {
    // Whether an endpoint in this state may have a URL (`allows true`), and whether it may have
    // none (`allows false`).
    ghost allows: { Bool → Bool };
}

/// The endpoint has no URL.
#[derive(Clone, Copy, Debug)]
pub struct EndpointNotSet;

impl EndpointState for EndpointNotSet {
    ghost use Rattle.std.specs.Prelude.{not};

    ghost allows = { λ there. not there };
}

impl TryClone for EndpointNotSet {
    ghost use Rattle.oauth2.specs.declared.endpoint.EndpointNotSet.{EndpointNotSet};

    ghost Seen = { EndpointNotSet };

    ghost seen = { λ state. state };

    fn try_clone(&self, _alloc: Global) -> Result<EndpointNotSet, AllocError> {
        Ok(EndpointNotSet)
    }
}

/// The endpoint has a URL.
#[derive(Clone, Copy, Debug)]
pub struct EndpointSet;

impl EndpointState for EndpointSet {
    ghost allows = { λ there. there };
}

impl TryClone for EndpointSet {
    ghost use Rattle.oauth2.specs.declared.endpoint.EndpointSet.{EndpointSet};

    ghost Seen = { EndpointSet };

    ghost seen = { λ state. state };

    fn try_clone(&self, _alloc: Global) -> Result<EndpointSet, AllocError> {
        Ok(EndpointSet)
    }
}

/// The endpoint may have a URL; only at run time it is known whether it has one.
#[derive(Clone, Copy, Debug)]
pub struct EndpointMaybeSet;

impl EndpointState for EndpointMaybeSet {
    ghost use Rattle.std.specs.Prelude.{true};

    ghost allows = { λ _. true };
}

impl TryClone for EndpointMaybeSet {
    ghost use Rattle.oauth2.specs.declared.endpoint.EndpointMaybeSet.{EndpointMaybeSet};

    ghost Seen = { EndpointMaybeSet };

    ghost seen = { λ state. state };

    fn try_clone(&self, _alloc: Global) -> Result<EndpointMaybeSet, AllocError> {
        Ok(EndpointMaybeSet)
    }
}
