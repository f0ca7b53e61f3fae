//! Where the assertions of a client come from.

use std::alloc::Global;

/// What makes the assertions by which a client authenticates: it signs one with a key, or reads one
/// that another program wrote to a file.
///
/// If you do not define `step`, contracts say nothing about the assertions.
pub trait AssertionSource {
    ghost use Rattle.std.specs.Prelude.{Result, String, ⊤};
    ghost use Rattle.std.specs.declared.alloc.Global.{Global};

    /// Why there is no assertion.
    type Error: Drop;

    // What a call may do, as a relation: the state before, the result and the state after.
    ghost step: { Self → Result (String Global) Self.Error → Self → Type 0 } = { λ _ _ _. ⊤ };

    /// An assertion for one request: a JWT (RFC 7523, section 3), or a SAML 2.0 assertion in
    /// base64url (RFC 7522, section 2.2). A server may take each only once.
    fn assertion(&mut self, alloc: Global) -> Result<String, Self::Error>
        ensures { step self.old result self.new };
}
