//! What a login with OpenID Connect returns.

use oauth2_openid::{AccessTokenHash, IdToken};
use std::fmt;

/// What a login returns: the tokens, and who the user is.
#[derive(Drop)]
pub struct OpenIdLoginEnd<TR> {
    /// The token response.
    pub token_response: TR,
    /// Its ID token. The claims are checked, the signature is not: see `IdToken`.
    pub id_token: IdToken,
    /// What the ID token's hash (`at_hash`) says of the access token.
    pub access_token_hash: AccessTokenHash,
}

impl<TR> fmt::Debug for OpenIdLoginEnd<TR> {
    ghost use Rattle.std.specs.Prelude.{Some, codes};
    ghost use Rattle.std.specs.Fmt.{DisplaysOnOk, WritesStyledOnOk};

    ghost debug_output = { λ _. Some (codes "OpenIdLoginEnd([redacted])") };

    fn fmt<W: fmt::Write>(&self, f: &mut fmt::Formatter<W>) -> fmt::Result
        ensures writes { DisplaysOnOk W.write_str_gives f.old result
            (Some (codes "OpenIdLoginEnd([redacted])")) f.new }
        // The same for all options of the formatter, for example `{:#?}`.
        ensures styled { WritesStyledOnOk W.write_str_gives f.old result
            (codes "OpenIdLoginEnd([redacted])") f.new }
    {
        f.write_str("OpenIdLoginEnd([redacted])")
    }
}
