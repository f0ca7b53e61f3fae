//! The resources that the token is for (RFC 8707).

ghost use Rattle.std.specs.Prelude.{◌≡◌, ◌++◌, ◌∷◌, [], IfOk, IfErr, IsTrue, codes};
ghost use Rattle.std.specs.Prelude.{if◌then◌else◌};
ghost use Rattle.oauth2_wire.specs.Texts.{param_bytes};
ghost use Rattle.oauth2_resource_indicators.specs.AbsoluteUri.{is_absolute_uri};
ghost use Rattle.oauth2_resource_indicators.specs.declared.resource_fault.ResourceFault.TheVariants.{
  Memory,
  ResourceIsNoUri,
};

use crate::absolute_uri::is_absolute_uri;
use crate::extensible_request::ExtensibleRequest;
use crate::resource_fault::ResourceFault;
use oauth2_wire::ParamText;

/// A request that tells the server for which resources the token is meant.
pub trait ResourceIndicators<'a>: ExtensibleRequest<'a> {
    /// Adds a resource, by the parameter `resource`: an absolute URI without a fragment. A request
    /// may have any number of them.
    final fn add_resource(self, resource: ParamText<'a>) -> Result<Self, ResourceFault>
        ensures ok { let resource = param_bytes resource.entry in
            let added = (codes "resource", resource) ∷ [] in
            IfOk result (λ r. IsTrue (is_absolute_uri resource)
            × (r ≡ Self.with_extra_params self (Self.extra_params self ++ added))) }
        ensures err { IfErr result (λ fault. fault
            ≡ (if is_absolute_uri (param_bytes resource.entry) then Memory else ResourceIsNoUri)) }
    {
        if !is_absolute_uri(resource.as_str()) {
            return Err(ResourceFault::ResourceIsNoUri);
        }
        Ok(self.with_extra_param("resource".into(), resource)?)
    }
}

impl<'a, T: ExtensibleRequest<'a>> ResourceIndicators<'a> for T {}
