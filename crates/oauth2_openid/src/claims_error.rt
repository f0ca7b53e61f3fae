//! Why an ID token is refused.

ghost use Rattle.std.specs.Prelude.{◌≡◌, Some};
ghost use Rattle.oauth2_openid.specs.ErrorTexts.{claims_error_text};

use std::fmt;

/// The first rule of OpenID Connect Core 1.0, section 3.1.3.7, or of another standard that is named
/// here, that does not hold. The rules are tried in the order of these variants.
#[derive(Clone, Copy, Debug, PartialEq, Eq, Drop)]
pub enum ClaimsError {
    /// The token has no signature (`alg` is `none`, in any case of letters, or empty), and the
    /// client registered no algorithm (section 2).
    NoSignature,
    /// The algorithm is not the one that the client registered (3.1.3.7, 7).
    OtherAlgorithm,
    /// The header has the member `crit`, which names extensions that have to be understood. This
    /// crate understands none (RFC 7515, 4.1.11).
    CriticalExtension,
    /// The header has the member `b64`, and it is not `true`. A JSON Web Token must not be signed
    /// over a payload that is not encoded (RFC 7797, 7).
    UnencodedPayload,
    /// The header has a type (`typ`) that is neither `JWT` nor `application/jwt`, in any case of
    /// letters. So a token of another kind is refused, such as an access token or a logout token
    /// (RFC 8725, 3.11 and 3.12).
    OtherType,
    /// The issuer is not an expected one (3.1.3.7, 2).
    OtherIssuer,
    /// The subject (`sub`) is empty, so it names no user (section 2).
    NoSubject,
    /// The client is not in the audience (3.1.3.7, 3).
    OtherAudience,
    /// An audience is neither the client nor one that it trusts (3.1.3.7, 3).
    UntrustedAudience,
    /// There are several audiences, and no authorized party (3.1.3.7, 4).
    NoAuthorizedParty,
    /// The authorized party is neither the client nor one that it names (3.1.3.7, 5).
    OtherAuthorizedParty,
    /// The token has expired (3.1.3.7, 9).
    Expired,
    /// The token was issued after this moment (3.1.3.7, 10).
    IssuedLater,
    /// A nonce was sent, and the token has none (3.1.3.7, 11).
    NoNonce,
    /// No nonce was sent, and the token has one (section 2).
    NonceNotSent,
    /// The token's nonce is not the one that was sent (3.1.3.7, 11).
    OtherNonce,
    /// A maximum age was sent, and the token does not say when the user logged in (section 2).
    NoAuthTime,
    /// A maximum age was sent, and the user logged in after this moment (section 2).
    AuthLater,
    /// The user logged in too long ago (3.1.3.7, 13).
    AuthTooOld,
    /// The claim `nbf` is in the future, or it is no time (RFC 7519, 4.1.5).
    NotYetValid,
    /// The hash is that of another access token (3.1.3.8).
    OtherAccessToken,
}

impl ClaimsError {
    fn text(self) -> &'static str
        ensures { result.now ≡ claims_error_text self }
    {
        match self {
            ClaimsError::NoSignature => "the token has no signature",
            ClaimsError::OtherAlgorithm => "the algorithm is not the registered one",
            ClaimsError::CriticalExtension => {
                "the header has an extension that has to be understood"
            }
            ClaimsError::UnencodedPayload => "the payload is not encoded",
            ClaimsError::OtherType => "the type is not that of an ID token",
            ClaimsError::OtherIssuer => "the issuer is another one",
            ClaimsError::NoSubject => "the subject is empty",
            ClaimsError::OtherAudience => "the client is not in the audience",
            ClaimsError::UntrustedAudience => "an audience is not trusted",
            ClaimsError::NoAuthorizedParty => "several audiences, and no authorized party",
            ClaimsError::OtherAuthorizedParty => "the authorized party is another one",
            ClaimsError::Expired => "the token has expired",
            ClaimsError::IssuedLater => "the token was issued in the future",
            ClaimsError::NoNonce => "the token has no nonce",
            ClaimsError::NonceNotSent => "the token has a nonce, and none was sent",
            ClaimsError::OtherNonce => "the nonce is another one",
            ClaimsError::NoAuthTime => "the token does not say when the user logged in",
            ClaimsError::AuthLater => "the user logged in in the future",
            ClaimsError::AuthTooOld => "the user logged in too long ago",
            ClaimsError::NotYetValid => "the token is not valid yet",
            ClaimsError::OtherAccessToken => "the hash is that of another access token",
        }
    }
}

impl fmt::Display for ClaimsError {
    ghost output = { λ error. Some (claims_error_text error) };

    ghost styled_output = { λ error _. Some (claims_error_text error) };

    fn fmt<W: fmt::Write>(&self, f: &mut fmt::Formatter<W>) -> fmt::Result {
        f.write_str(self.text())
    }
}

impl std::error::Error for ClaimsError {}
