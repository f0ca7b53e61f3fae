//! The end of a login whose ID token is verified, and of one whose signature is refused.

ghost use Rattle.std.specs.Fmt.{DisplaysOnOk, WritesStyledOnOk};
ghost use Rattle.std.specs.Prelude.{◌≡◌, Some, codes};
ghost use Rattle.oauth2_keys.specs.Signature.{check_of};
ghost use Rattle.oauth2_verified_login.specs.Unverified.{Verifies, unverified_text};

use oauth2_keys::{SignatureCheck, SignatureError};
use oauth2_openid::{AccessTokenHash, IdToken};
use oauth2_openid_login::OpenIdLoginEnd;
use oauth2_types::display::write_display;
use std::fmt;
use std::marker::Model;

/// What a login returns: the tokens, and who the user is. The ID token meets each rule of OpenID
/// Connect Core 1.0, 3.1.3.7, including the one for its signature. Only `finish` and `finish_query`
/// of a `VerifiedProvider` and `verify_again` of an `UnverifiedLogin` make one. Contracts see it as
/// an `OpenIdLoginEnd`.
#[derive(Drop)]
pub struct VerifiedLoginEnd<TR> {
    end: OpenIdLoginEnd<TR>,
}

impl<TR> Model for VerifiedLoginEnd<TR> {
    ghost use Rattle.std.specs.Coded.{codes as known_codes};
    ghost use Rattle.serde_json.specs.contracts.value.Value as json;
    ghost use Rattle.oauth2_openid_login.specs.declared.login_end.OpenIdLoginEnd.{OpenIdLoginEnd};

    ghost Value = { OpenIdLoginEnd TR };

    ghost coded = { Prim.hlevel (known_codes, json.the_row.coded) };

    ghost view = { λ verified. verified.end };
}

impl<TR> VerifiedLoginEnd<TR> {
    /// The token response.
    pub fn token_response(&self) -> &TR
        ensures { result.now ≡ self.now.token_response }
    {
        &self.end.token_response
    }

    /// The ID token, which says who the user is.
    pub fn id_token(&self) -> &IdToken
        ensures { result.now ≡ self.now.id_token }
    {
        &self.end.id_token
    }

    /// What the ID token's hash (`at_hash`) says of the access token.
    pub fn access_token_hash(&self) -> AccessTokenHash
        ensures { result ≡ self.now.access_token_hash }
    {
        self.end.access_token_hash
    }

    /// Takes this apart into the token response, the ID token and what its hash says.
    pub fn into_end(self) -> OpenIdLoginEnd<TR>
        ensures { result ≡ self }
    {
        let VerifiedLoginEnd { end } = self;
        end
    }
}

impl<TR> fmt::Debug for VerifiedLoginEnd<TR> {
    ghost debug_output = { λ _. Some (codes "VerifiedLoginEnd([redacted])") };

    fn fmt<W: fmt::Write>(&self, f: &mut fmt::Formatter<W>) -> fmt::Result
        ensures writes { DisplaysOnOk W.write_str_gives f.old result
            (Some (codes "VerifiedLoginEnd([redacted])")) f.new }
        // The same for all options of the formatter, for example `{:#?}`.
        ensures styled { WritesStyledOnOk W.write_str_gives f.old result
            (codes "VerifiedLoginEnd([redacted])") f.new }
    {
        f.write_str("VerifiedLoginEnd([redacted])")
    }
}

/// A login whose ID token meets each rule for its claims, but whose signature is refused. The code
/// is spent, so the tokens are kept here for a check by other keys, such as newer ones of
/// `jwks_uri`.
#[derive(Drop)]
pub struct UnverifiedLogin<TR> {
    end: OpenIdLoginEnd<TR>,
    error: SignatureError,
}

impl<TR> Model for UnverifiedLogin<TR> {
    ghost use Rattle.std.specs.Coded.{codes as known_codes};
    ghost use Rattle.serde_json.specs.contracts.value.Value as json;
    ghost use Rattle.oauth2_verified_login.specs.Unverified.{Unverified};

    ghost Value = { Unverified TR };

    ghost coded = { Prim.hlevel (known_codes, json.the_row.coded) };

    ghost view = { λ unverified. record { end = unverified.end; error = unverified.error } };
}

impl<TR> UnverifiedLogin<TR> {
    /// Why the signature is refused. At `NoKey` the provider may have a new key: get the keys of
    /// `jwks_uri` again (OpenID Connect Core 1.0, 10.1.1).
    pub fn error(&self) -> SignatureError
        ensures { result ≡ self.now.error }
    {
        self.error
    }

    /// Checks the signature again. A check with another algorithm than the registered one is
    /// refused, since the token has the registered one.
    pub fn verify_again(
        self,
        check: SignatureCheck<'_>,
    ) -> Result<VerifiedLoginEnd<TR>, UnverifiedLogin<TR>>
        ensures { Verifies (check_of check.entry) self.end result }
    {
        verify_end(self.end, check)
    }

    /// The tokens, for example to revoke them. The ID token may not be the provider's.
    pub fn into_unverified_end(self) -> OpenIdLoginEnd<TR>
        ensures { result ≡ self.end }
    {
        let UnverifiedLogin { end, error: _ } = self;
        end
    }
}

// The end of a login as a verified one, if its ID token passes the check. (The caller must have
// checked the claims: anyone can make an `OpenIdLoginEnd`.)
pub(crate) fn verify_end<TR>(
    end: OpenIdLoginEnd<TR>,
    check: SignatureCheck<'_>,
) -> Result<VerifiedLoginEnd<TR>, UnverifiedLogin<TR>>
    ensures { Verifies (check_of check.entry) end result }
{
    match check.verify(&end.id_token) {
        Ok(()) => Ok(VerifiedLoginEnd { end }),
        Err(error) => Err(UnverifiedLogin { end, error }),
    }
}

impl<TR> fmt::Display for UnverifiedLogin<TR> {
    ghost output = { λ unverified. Some (unverified_text unverified.error) };

    ghost styled_output = { λ unverified _. Some (unverified_text unverified.error) };

    fn fmt<W: fmt::Write>(&self, f: &mut fmt::Formatter<W>) -> fmt::Result {
        let error = &self.error;
        write_display(f, format_args!("ID token: {error}"))
    }
}

impl<TR: Drop> std::error::Error for UnverifiedLogin<TR> {}

impl<TR> fmt::Debug for UnverifiedLogin<TR> {
    ghost debug_output = { λ _. Some (codes "UnverifiedLogin([redacted])") };

    fn fmt<W: fmt::Write>(&self, f: &mut fmt::Formatter<W>) -> fmt::Result
        ensures writes { DisplaysOnOk W.write_str_gives f.old result
            (Some (codes "UnverifiedLogin([redacted])")) f.new }
        // The same for all options of the formatter, for example `{:#?}`.
        ensures styled { WritesStyledOnOk W.write_str_gives f.old result
            (codes "UnverifiedLogin([redacted])") f.new }
    {
        f.write_str("UnverifiedLogin([redacted])")
    }
}
