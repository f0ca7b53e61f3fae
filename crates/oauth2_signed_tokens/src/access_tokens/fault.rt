//! Why a JWT access token is refused.

ghost use Rattle.std.specs.Prelude.{Some};
ghost use Rattle.oauth2_signed_tokens.specs.access_tokens.ErrorTexts.{access_token_fault_text};

use oauth2_keys::SignatureError;
use oauth2_types::display::write_display;
use std::fmt;

/// The first rule for a JWT access token that does not hold. The rules are tried in the order of
/// these variants; the signature comes last, because it costs most.
#[derive(Clone, Copy, Debug, PartialEq, Eq, Drop)]
pub enum AccessTokenFault {
    /// The header has no `typ`, or it is neither `at+jwt` nor `application/at+jwt`, in any case of
    /// letters (RFC 9068, 4). An ID token without such a `typ` is refused for this.
    OtherType,
    /// The algorithm is not the one that the issuer signs with. A token with `none` is refused for
    /// this (RFC 9068, 4), and so is a token with an HMAC.
    OtherAlgorithm,
    /// The header has the member `crit`, which names extensions that have to be understood. This
    /// crate understands none (RFC 7515, 4.1.11).
    CriticalExtension,
    /// The header has the member `b64`, and it is not `true` (RFC 7797, 7).
    UnencodedPayload,
    /// The issuer is another one (RFC 9068, 4).
    OtherIssuer,
    /// This resource server is not in the audience (RFC 9068, 4).
    OtherAudience,
    /// The token has expired (RFC 9068, 4).
    Expired,
    /// The token must not be accepted yet, by its `nbf` (RFC 7519, 4.1.5).
    NotYetValid,
    /// The token is bound to a key (`cnf`; RFC 7800, 3.1), and the request did not prove that its
    /// sender has that key (RFC 8705, 3.2; RFC 9449, 6.1).
    SenderConstrained,
    /// The signature is not one by the issuer's keys (RFC 9068, 4). The variants `OtherAlgorithm`
    /// and `ShortSecret` of the error do not occur here.
    Signature(SignatureError),
}

impl fmt::Display for AccessTokenFault {
    ghost output = { λ fault. Some (access_token_fault_text fault) };

    ghost styled_output = { λ fault _. Some (access_token_fault_text fault) };

    fn fmt<W: fmt::Write>(&self, f: &mut fmt::Formatter<W>) -> fmt::Result {
        match self {
            AccessTokenFault::OtherType => f.write_str("the type is not that of an access token"),
            AccessTokenFault::OtherAlgorithm => f.write_str(
                "the algorithm is not the registered one",
            ),
            AccessTokenFault::CriticalExtension => f.write_str(
                "the header has an extension that has to be understood",
            ),
            AccessTokenFault::UnencodedPayload => f.write_str("the payload is not encoded"),
            AccessTokenFault::OtherIssuer => f.write_str("the issuer is another one"),
            AccessTokenFault::OtherAudience => f.write_str(
                "the resource server is not in the audience",
            ),
            AccessTokenFault::Expired => f.write_str("the token has expired"),
            AccessTokenFault::NotYetValid => f.write_str("the token is not valid yet"),
            AccessTokenFault::SenderConstrained => f.write_str(
                "the token is bound to a key that was not proven",
            ),
            AccessTokenFault::Signature(error) => write_display(f, error),
        }
    }
}

impl std::error::Error for AccessTokenFault {}
