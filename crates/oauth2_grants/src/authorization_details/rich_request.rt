//! Requests with authorization details (RFC 9396, sections 3, 5 and 6).

ghost use Rattle.std.specs.Prelude.{◌≡◌, ◌++◌, ◌∷◌, [], ℕ, List, IfOk, codes};
ghost use Rattle.oauth2_grants.specs.authorization_details.Details.{IsTextOf};
ghost use Rattle.oauth2_grants.specs.authorization_details.Shown.{details_of};

use crate::authorization_details::authorization_details::AuthorizationDetails;
use oauth2_resource_indicators::ExtensibleRequest;
use std::alloc::{AllocError, Global};

/// A request that says in detail what it asks for.
pub trait RichAuthorizationRequest<'a>: ExtensibleRequest<'a> {
    /// Adds details, by the parameter `authorization_details`. Of one request call it once: a second
    /// call sends a second parameter of this name, and a server refuses both (RFC 6749, section 3.1).
    /// An error means out of memory.
    final fn add_authorization_details(
        self,
        alloc: Global,
        details: &AuthorizationDetails,
    ) -> Result<Self, AllocError>
        ensures { IfOk result (λ r. (text : List ℕ) × IsTextOf (details_of details.now) text
            × (let added = (codes "authorization_details", text) ∷ [] in
            r ≡ Self.with_extra_params self (Self.extra_params self ++ added))) }
    {
        let text = details.to_text(alloc)?;
        let request = self.with_extra_param("authorization_details".into(), text.into())?;
        Ok(request)
    }
}

impl<'a, T: ExtensibleRequest<'a>> RichAuthorizationRequest<'a> for T {}
