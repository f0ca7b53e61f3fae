//! Scopes as the text that a request sends, separated by spaces (RFC 6749, section 3.3).

ghost use Rattle.std.specs.Prelude.{◌≡◌, ℕ, List, IfOk};
ghost use Rattle.std.specs.Iterator.{Drains, IsFinite};
ghost use Rattle.oauth2_form.specs.Params.{with_scope, with_scopes};

use oauth2::{Scope, TryClone};
use std::alloc::{AllocError, Global};

// The text of these scopes and one more.
pub(crate) fn joined_scope(scopes: Option<Scope>, scope: Scope) -> Result<Scope, AllocError>
    ensures { IfOk result (λ joined. joined ≡ with_scope scopes scope) }
{
    match scopes {
        Some(scopes) => {
            let mut text = String::from(scopes);
            text.push(' ')?;
            text.push_str(scope.as_str())?;
            Ok(Scope::new(text))
        }
        None => Ok(scope),
    }
}

// The text of these scopes and the added ones, in order; `None` if there are none.
pub(crate) fn joined_scopes<I: IntoIterator<Item = Scope>>(
    alloc: Global,
    scopes: &Option<Scope>,
    added: I,
) -> Result<Option<Scope>, AllocError>
    requires { (it : I.IntoIter) → I.into_iter_gives added it
        → I.IntoIter.can_next it × IsFinite (I.IntoIter.remaining it) }
    ensures { IfOk result (λ joined. (it : I.IntoIter) × (texts : List (List ℕ))
        × I.into_iter_gives added it × Drains I.IntoIter.next_gives it texts
        × (joined ≡ with_scopes scopes.now texts)) }
{
    let added = added.into_iter();
    let mut joined = scopes.try_clone(alloc)?;
    for scope in added {
        joined = Some(joined_scope(joined, scope)?);
    }
    Ok(joined)
}
