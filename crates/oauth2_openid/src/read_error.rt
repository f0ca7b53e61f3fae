//! Why a text is no ID token.

ghost use Rattle.std.specs.Prelude.{◌≡◌, Some};
ghost use Rattle.oauth2_openid.specs.ErrorTexts.{part_text, id_token_read_error_text};

use oauth2_json::ParseFault;
use oauth2_types::display::write_display;
use std::alloc::AllocError;
use std::fmt;

/// A part of a token in compact form (RFC 7515, section 7.1).
#[derive(Clone, Copy, Debug, PartialEq, Eq, Drop)]
pub enum TokenPart {
    /// The first part: the header.
    Header,
    /// The second part: the claims.
    Payload,
    /// The third part: the signature.
    Signature,
}

/// Why a text could not be read as an ID token.
#[derive(Debug, PartialEq, Eq, Drop)]
pub enum IdTokenReadError {
    /// The text has more bytes than the limit.
    TooLong,
    /// The text does not have exactly three parts, with dots between them.
    NotThreeParts,
    /// That part is not base64url without padding (RFC 7515, section 2).
    NotBase64(TokenPart),
    /// That part decodes to what is not JSON, or to JSON with a wrong member.
    Fault(TokenPart, ParseFault),
    /// Memory ran out.
    Memory,
}

impl TokenPart {
    fn text(self) -> &'static str
        ensures { result.now ≡ part_text self }
    {
        match self {
            TokenPart::Header => "header",
            TokenPart::Payload => "payload",
            TokenPart::Signature => "signature",
        }
    }
}

impl fmt::Display for TokenPart {
    ghost output = { λ part. Some (part_text part) };

    ghost styled_output = { λ part _. Some (part_text part) };

    fn fmt<W: fmt::Write>(&self, f: &mut fmt::Formatter<W>) -> fmt::Result {
        f.write_str(self.text())
    }
}

impl fmt::Display for IdTokenReadError {
    ghost output = { λ error. Some (id_token_read_error_text error) };

    ghost styled_output = { λ error _. Some (id_token_read_error_text error) };

    fn fmt<W: fmt::Write>(&self, f: &mut fmt::Formatter<W>) -> fmt::Result {
        match self {
            IdTokenReadError::TooLong => f.write_str("too long"),
            IdTokenReadError::NotThreeParts => f.write_str("not three parts"),
            IdTokenReadError::NotBase64(part) => {
                write_display(f, format_args!("{part}: not base64url"))
            }
            IdTokenReadError::Fault(part, fault) => {
                write_display(f, format_args!("{part}: {fault}"))
            }
            IdTokenReadError::Memory => f.write_str("out of memory"),
        }
    }
}

impl std::error::Error for IdTokenReadError {}

impl From<AllocError> for IdTokenReadError {
    ghost use Rattle.oauth2_openid.specs.declared.read_error.IdTokenReadError.TheVariants.{Memory};

    ghost from_gives = { λ _ e. e ≡ Memory };

    fn from(_: AllocError) -> IdTokenReadError {
        IdTokenReadError::Memory
    }
}
