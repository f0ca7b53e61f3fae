//! What a server's metadata say of pushed authorization requests.

ghost use Rattle.std.specs.Prelude.{◌≡◌, option_copied};
ghost use Rattle.oauth2_metadata.specs.EndpointFault.{url_of};
ghost use Rattle.oauth2_pushed_login.specs.PushMembers.{requires_push};

use crate::endpoint_url::EndpointUrl;
use std::marker::Model;
use url::Url;

/// The two members of a server's metadata for pushed authorization requests (RFC 9126, section 5),
/// as the extra fields of a `ServerMetadata`. There is no constructor: they are read from JSON.
///
/// Contracts see them as `PushMembers`.
#[derive(Debug)]
pub struct PushMetadata {
    pub(crate) endpoint: Option<EndpointUrl>,
    pub(crate) required: Option<bool>,
}

impl Drop for PushMetadata {
    fn drop(self) {
        let PushMetadata {
            endpoint: _,
            required: _,
        } = self;
    }
}

impl Model for PushMetadata {
    ghost use Rattle.std.specs.Option.{ForSome};
    ghost use Rattle.oauth2_replies.specs.private.Address.{IsAddress};
    ghost use Rattle.oauth2_pushed_login.specs.PushMembers.{PushMembers, push_members};

    ghost Value = { PushMembers };

    ghost view = { λ m. push_members m.endpoint m.required };

    ghost invariant = { λ m. ForSome m.endpoint IsAddress };
}

impl PushMetadata {
    /// The URL to push to. Whether a client may call it, `login_route` says.
    pub fn pushed_authorization_request_endpoint(&self) -> Option<&Url>
        ensures { option_copied result
            ≡ url_of self.now.pushed_authorization_request_endpoint }
    {
        match &self.endpoint {
            Some(endpoint) => Some(&endpoint.url),
            None => None,
        }
    }

    /// Whether the server takes no login without a push; `false` if it does not say.
    pub fn require_pushed_authorization_requests(&self) -> bool
        ensures { result ≡ requires_push self.now }
    {
        self.required.unwrap_or(false)
    }
}
