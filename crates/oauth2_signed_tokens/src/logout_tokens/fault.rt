//! Why a logout token is refused.

ghost use Rattle.std.specs.Prelude.{Some};
ghost use Rattle.oauth2_signed_tokens.specs.logout_tokens.ErrorTexts.{logout_token_fault_text};

use oauth2_keys::SignatureError;
use oauth2_types::display::write_display;
use std::fmt;

/// The first rule for a logout token that does not hold. The rules are tried in the order of these
/// variants; the signature comes last, because it costs most.
#[derive(Clone, Copy, Debug, PartialEq, Eq, Drop)]
pub enum LogoutTokenFault {
    /// The header's `typ` is not one that the client takes, or no string (2.4).
    OtherType,
    /// The algorithm is not the registered one. A token with `none` is refused for this (2.6, 3),
    /// and so is one with an HMAC, unless the client registered that.
    OtherAlgorithm,
    /// The header has the member `crit`, which names extensions that have to be understood. This
    /// crate understands none (RFC 7515, 4.1.11).
    CriticalExtension,
    /// The header has the member `b64`, and it is not `true` (RFC 7797, 7).
    UnencodedPayload,
    /// The issuer is not an expected one (2.6, 4).
    OtherIssuer,
    /// The client is not in the audience (2.6, 4).
    OtherAudience,
    /// An audience is neither the client nor one that it trusts (2.6, 4).
    UntrustedAudience,
    /// The token has expired (2.6, 4).
    Expired,
    /// The token was issued in the future (2.6, 4).
    IssuedLater,
    /// The claim `nbf` is in the future, or it is no time (RFC 7519, 4.1.5).
    NotYetValid,
    /// The token has neither `sub` nor `sid` (2.6, 5).
    NoSession,
    /// The claim `sub`, `sid` or `jti` is an empty text, so it identifies nothing (2.4).
    EmptyIdentifier,
    /// The claim `events` is not an object with the member
    /// `http://schemas.openid.net/event/backchannel-logout`, or that member is not an object (2.4,
    /// and 2.6, 6). An ID token is refused for this.
    NoLogoutEvent,
    /// The token has a `nonce` (2.6, 7). An ID token may have one, and a logout token must not.
    HasNonce,
    /// The signature is not one by the issuer's keys, or with the client's secret (2.6, 2). The
    /// variants `OtherAlgorithm` and `CriticalExtension` of the error do not occur here, and
    /// `ShortSecret` only with a secret.
    Signature(SignatureError),
}

impl fmt::Display for LogoutTokenFault {
    ghost output = { λ fault. Some (logout_token_fault_text fault) };

    ghost styled_output = { λ fault _. Some (logout_token_fault_text fault) };

    fn fmt<W: fmt::Write>(&self, f: &mut fmt::Formatter<W>) -> fmt::Result {
        match self {
            LogoutTokenFault::OtherType => f.write_str("the type is not that of a logout token"),
            LogoutTokenFault::OtherAlgorithm => f.write_str(
                "the algorithm is not the registered one",
            ),
            LogoutTokenFault::CriticalExtension => f.write_str(
                "the header has an extension that has to be understood",
            ),
            LogoutTokenFault::UnencodedPayload => f.write_str("the payload is not encoded"),
            LogoutTokenFault::OtherIssuer => f.write_str("the issuer is another one"),
            LogoutTokenFault::OtherAudience => f.write_str("the client is not in the audience"),
            LogoutTokenFault::UntrustedAudience => f.write_str("an audience is not trusted"),
            LogoutTokenFault::Expired => f.write_str("the token has expired"),
            LogoutTokenFault::IssuedLater => f.write_str("the token was issued in the future"),
            LogoutTokenFault::NotYetValid => f.write_str("the token is not valid yet"),
            LogoutTokenFault::NoSession => f.write_str(
                "the token names neither a user nor a session",
            ),
            LogoutTokenFault::EmptyIdentifier => f.write_str("an identifier is empty"),
            LogoutTokenFault::NoLogoutEvent => f.write_str("the token has no logout event"),
            LogoutTokenFault::HasNonce => f.write_str("the token has a nonce"),
            LogoutTokenFault::Signature(error) => write_display(f, error),
        }
    }
}

impl std::error::Error for LogoutTokenFault {}
