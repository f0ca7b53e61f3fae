//! A token that was accepted, to be stored.

ghost use Rattle.std.specs.Prelude.{codes, Some};
ghost use Rattle.std.specs.Fmt.{DisplaysOnOk, WritesStyledOnOk};

use jiff::Timestamp;
use oauth2_types::{AccessToken, ClientId, RefreshToken};
use std::fmt;
use std::marker::Model;
use std::time::Duration;

/// A token that was accepted, its type, the moment of the call that got it, its lifetime, the
/// refresh token that is kept with it, and the client and the token endpoint that they belong to.
/// Contracts see it as a `Stored`.
///
/// As JSON it is an object with the members `access_token`, `token_type`, `accepted_at` in seconds
/// since 1970 and `lifetime` in seconds, `accepted_at_nanoseconds` and `lifetime_nanoseconds` to add
/// to them, and `refresh_token`, `client_id` and `token_url`, each of which may be absent.
#[derive(Drop)]
pub struct StoredToken {
    pub(crate) access_token: AccessToken,
    pub(crate) token_type: String,
    pub(crate) accepted_at: Timestamp,
    pub(crate) lifetime: Duration,
    pub(crate) refresh_token: Option<RefreshToken>,
    pub(crate) client_id: Option<ClientId>,
    pub(crate) token_url: Option<String>,
}

impl Model for StoredToken {
    ghost use Rattle.std.specs.Prelude.{option_map, string_bytes};
    ghost use Rattle.std.specs.Duration.{as_nanos};
    ghost use Rattle.oauth2_stored_token.specs.Stored.{Stored, stored_token};

    ghost Value = { Stored };

    ghost view = { λ s. stored_token s.access_token (string_bytes s.token_type)
        s.accepted_at.nanosecond (as_nanos s.lifetime) s.refresh_token s.client_id
        (option_map string_bytes s.token_url) };
}

impl fmt::Debug for StoredToken {
    ghost debug_output = { λ _. Some (codes "StoredToken([redacted])") };

    fn fmt<W: fmt::Write>(&self, f: &mut fmt::Formatter<W>) -> fmt::Result
        ensures writes { DisplaysOnOk W.write_str_gives f.old result
            (Some (codes "StoredToken([redacted])")) f.new }
        // The same for all options of the formatter, for example `{:#?}`.
        ensures styled { WritesStyledOnOk W.write_str_gives f.old result
            (codes "StoredToken([redacted])") f.new }
    {
        f.write_str("StoredToken([redacted])")
    }
}
