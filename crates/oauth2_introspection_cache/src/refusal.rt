//! Why a request with a token is not authorized.

ghost use Rattle.std.specs.Prelude.{◌≡◌, Some};
ghost use Rattle.oauth2_introspection_cache.specs.Decision.{
  challenge_of,
  code_of,
  decision,
  refusal_text,
  status_of,
};

use oauth2::RequestTokenError;
use oauth2_types::display::write_display;
use std::fmt;

/// The first rule for a token that does not hold. The rules are tried in the order of these
/// variants.
#[derive(Clone, Copy, Debug, PartialEq, Eq, Drop)]
pub enum TokenRefusal {
    /// The token is not active (RFC 7662, 2.2): it was revoked, has expired, or nobody issued it.
    Inactive,
    /// The moment of `exp` is reached (RFC 7662, 2.2).
    Expired,
    /// The answer does not name the accepted issuer (RFC 7662, 2.2: `iss`).
    OtherIssuer,
    /// This server is not in the audience (RFC 9700, 2.3).
    OtherAudience,
    /// The token is of another type (RFC 6749, 7.1).
    OtherTokenType,
    /// The token is bound to a key, and the request proved none (RFC 8705, 3.2; RFC 9449, 6.2).
    SenderConstrained,
    /// The token lacks a scope that the request needs (RFC 6750, 3.1).
    InsufficientScope,
}

impl TokenRefusal {
    /// The HTTP status of the reply (RFC 6750, 3.1): 401 or 403.
    pub fn status(&self) -> u16
        ensures { result ≡ status_of self.now }
    {
        match self {
            TokenRefusal::InsufficientScope => 403,
            _ => 401,
        }
    }

    /// The error code (RFC 6750, 3.1): `invalid_token` or `insufficient_scope`.
    pub fn error_code(&self) -> &'static str
        ensures { result.now ≡ code_of self.now }
    {
        match self {
            TokenRefusal::InsufficientScope => "insufficient_scope",
            _ => "invalid_token",
        }
    }

    /// The value of the field `WWW-Authenticate` that the reply has to have (RFC 6750, 3).
    pub fn challenge(&self) -> &'static str
        ensures { result.now ≡ challenge_of self.now }
    {
        match self {
            TokenRefusal::InsufficientScope => "Bearer error=\"insufficient_scope\"",
            _ => "Bearer error=\"invalid_token\"",
        }
    }
}

impl fmt::Display for TokenRefusal {
    ghost output = { λ refused. Some (refusal_text refused) };

    ghost styled_output = { λ refused _. Some (refusal_text refused) };

    fn fmt<W: fmt::Write>(&self, f: &mut fmt::Formatter<W>) -> fmt::Result {
        f.write_str(match self {
            TokenRefusal::Inactive => "the token is not active",
            TokenRefusal::Expired => "the token has expired",
            TokenRefusal::OtherIssuer => "the issuer is another one",
            TokenRefusal::OtherAudience => "the resource server is not in the audience",
            TokenRefusal::OtherTokenType => "the token is of another type",
            TokenRefusal::SenderConstrained => "the token is bound to a key that was not proven",
            TokenRefusal::InsufficientScope => "the scope of the token does not suffice",
        })
    }
}

impl std::error::Error for TokenRefusal {}

/// Why a request with a token is not authorized.
#[derive(Debug, Drop)]
pub enum NotAuthorized<RE, TE> {
    /// The token is refused.
    Refused(TokenRefusal),
    /// Nothing is known of the token, since the request to the introspection endpoint failed.
    Unknown(RequestTokenError<RE, TE>),
}

/// What follows from whether a token is active, and from the check of the answer about it.
pub fn decision<RE, TE>(
    active: Result<bool, RequestTokenError<RE, TE>>,
    verdict: Result<(), TokenRefusal>,
) -> Result<(), NotAuthorized<RE, TE>>
    ensures { result ≡ decision active verdict }
{
    match active {
        Ok(true) => match verdict {
            Ok(()) => Ok(()),
            Err(refusal) => Err(NotAuthorized::Refused(refusal)),
        },
        Ok(false) => Err(NotAuthorized::Refused(TokenRefusal::Inactive)),
        Err(error) => Err(NotAuthorized::Unknown(error)),
    }
}

impl<RE, TE: fmt::Display> fmt::Display for NotAuthorized<RE, TE> {
    ghost use Rattle.oauth2_introspection_cache.specs.Decision.{not_authorized_text};

    ghost output = { not_authorized_text TE.output };

    ghost styled_output = { λ error _. not_authorized_text TE.output error };

    fn fmt<W: fmt::Write>(&self, f: &mut fmt::Formatter<W>) -> fmt::Result {
        match self {
            NotAuthorized::Refused(refusal) => write_display(f, refusal),
            NotAuthorized::Unknown(error) => write_display(f, error),
        }
    }
}

impl<RE, TE> std::error::Error for NotAuthorized<RE, TE>
where
    RE: fmt::Debug + Drop,
    TE: fmt::Debug + fmt::Display + Drop,
{}
