//! Extra fields that an application defines: two members of a token response that the standard does
//! not name.

ghost use Rattle.std.specs.Prelude.{codes};

use oauth2::{EmptyExtraTokenFields, NamedMember, WithMember};

/// The member `id_token`: who the user is.
pub struct IdToken;

impl NamedMember for IdToken {
    type Value = String;

    ghost name = { codes "id_token" };

    fn name() -> &'static str {
        "id_token"
    }
}

/// The member `ext_expires_in`: how many seconds the token may be used while the server is down.
pub struct ExtExpiresIn;

impl NamedMember for ExtExpiresIn {
    type Value = u64;

    ghost name = { codes "ext_expires_in" };

    fn name() -> &'static str {
        "ext_expires_in"
    }
}

/// Both members, each of which may be absent.
pub type IdentityFields = WithMember<IdToken, WithMember<ExtExpiresIn, EmptyExtraTokenFields>>;
