//! The store, which the caller provides.

use crate::replaced::Replaced;
use oauth2_shared_token::{Content, StoredValue};

/// A store that many processes share. It keeps one value under each name. `T` is the type of a
/// token.
///
/// A call that fails may have happened, may happen later, or not.
///
/// If the store may always be called, do not define `is_ready`. If you do not define `loads` and
/// `replaces`, contracts say nothing about what the store tells.
pub trait TokenStore<T> {
    ghost use Rattle.std.specs.Prelude.{ℕ, List, Result, ⊤};
    ghost use Rattle.oauth2_shared_token.specs.declared.renewal.Content.{Content};
    ghost use Rattle.oauth2_shared_token.specs.declared.renewal.StoredValue.{StoredValue};
    ghost use Rattle.oauth2_shared_keeper.specs.declared.replaced.Replaced.{Replaced};

    /// Why a call failed.
    type Error: Drop;

    // The store may be called in this state.
    ghost is_ready: { Self → Type 0 } = { λ _. ⊤ };

    // What a load may tell, as a relation: the state before, the name, the result and the state
    // after.
    ghost loads: { Self → List ℕ → Result (StoredValue T) Self.Error → Self → Type 0 } = { λ _ _ _ _. ⊤ };

    // What a request to replace may tell, as a relation: the state before, the name, the version,
    // the content, the result and the state after.
    ghost replaces: { Self → List ℕ → ℕ → Content T → Result Replaced Self.Error → Self
        → Type 0 } = { λ _ _ _ _ _ _. ⊤ };

    /// Loads what is stored under this name, or was stored under it before.
    fn load(&mut self, name: &str) -> Result<StoredValue<T>, Self::Error>
        requires { is_ready self.old }
        ensures loads { loads self.old name.now result self.new }
        ensures ready { is_ready self.new };

    /// Puts this in the place of what is stored under this name, if that has this version, and
    /// gives it the next version, in one step that no other call divides.
    fn replace_if(
        &mut self,
        name: &str,
        version: u64,
        content: &Content<T>,
    ) -> Result<Replaced, Self::Error>
        requires { is_ready self.old }
        ensures replaces { replaces self.old name.now version content.now result self.new }
        ensures ready { is_ready self.new };
}
