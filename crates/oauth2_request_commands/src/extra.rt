//! Requests that extra parameters can be added to.

ghost use Rattle.std.specs.Prelude.{◌≡◌, ◌++◌, map, IfOk};
ghost use Rattle.oauth2_wire.specs.ServerView.{pair_texts};

use std::alloc::AllocError;

/// A request that extra parameters can be added to.
pub trait Extensible<'a>: Sized {
    ghost use Rattle.std.specs.Prelude.{◌≡◌, ◌++◌, ◌∷◌, [], List, IfOk};
    ghost use Rattle.oauth2_form.specs.Pairs.{Pair};

    /// The request with its extra parameters changed by this function.
    ghost with_params: { Self → (List Pair → List Pair) → Self };

    /// Adds one extra parameter after the others.
    fn with_pair(self, name: &'a str, value: &'a str) -> Result<Self, AllocError>
        ensures { IfOk result (λ r. r
            ≡ with_params self (λ own. own ++ ((name.now, value.now) ∷ []))) };

    ghost laws: { (r : Self) (f g : List Pair → List Pair) → (with_params r (λ own. own) ≡ r)
        × (with_params (with_params r f) g ≡ with_params r (λ own. g (f own))) };
}

/// Adds each of these extra parameters, in order.
pub fn with_extra<'a, T: Extensible<'a> + Drop>(
    request: T,
    extra_params: &'a [(String, String)],
) -> Result<T, AllocError>
    ensures { IfOk result (λ r. r
        ≡ T.with_params request (λ own. own ++ map pair_texts extra_params.now)) }
{
    let mut request = request;
    for (name, value) in extra_params {
        request = request.with_pair(name.as_str(), value.as_str())?;
    }
    Ok(request)
}
