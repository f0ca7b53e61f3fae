//! Where the identifiers of assertions come from.

use rand_core::TryRng;

/// What draws the identifiers of assertions (`jti` of RFC 7519, section 4.1.7). Each generator of
/// `rand_core` is one; take one that is fit for secrets.
///
/// If you do not define `draws`, contracts say nothing about what is drawn.
pub trait IdentifierSource {
    ghost use Rattle.std.specs.Prelude.{ℕ, List, Result, ⊤};

    /// Why nothing was drawn.
    type Error: Drop;

    // What a call may do, as a relation: the state before, the result and the state after.
    ghost draws: { Self → Result (List ℕ) Self.Error → Self → Type 0 } = { λ _ _ _. ⊤ };

    /// Draws 16 bytes for one assertion.
    fn identifier(&mut self) -> Result<[u8; 16], Self::Error>
        ensures { draws self.old result self.new };
}

impl<R: TryRng> IdentifierSource for R {
    ghost use Rattle.oauth2_client_secret_jwt.specs.Signing.{FillsBytes};

    type Error = R::Error;

    ghost draws = { FillsBytes R.may_fill };

    fn identifier(&mut self) -> Result<[u8; 16], R::Error> {
        let mut drawn = [0u8; 16];
        match self.try_fill_bytes(&mut drawn) {
            Ok(()) => Ok(drawn),
            Err(error) => Err(error),
        }
    }
}
