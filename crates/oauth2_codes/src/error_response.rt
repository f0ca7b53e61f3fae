//! Error responses (RFC 6749, section 5.2).

ghost use Rattle.std.specs.Prelude.{◌≡◌, Ok};

use crate::basic_error::BasicErrorResponseType;
use crate::device_error::DeviceCodeErrorResponseType;
use crate::error_traits::{ErrorResponse, ErrorResponseType};
use crate::revocation_error::RevocationErrorResponseType;
use oauth2_json::{FromJson, ReadError, ToJson, WriteError};
use oauth2_member_rows::{AsItIs, Member, Needed, OptionalText, object_of, read_body, read_object};
use oauth2_types::TryClone;
use oauth2_types::display::write_display;
use serde_json::Value;
use std::alloc::{AllocError, Global};
use std::fmt;
use std::marker::PhantomData;

// The members of an error response: the name of the first, and the others.
const ERROR: &str = "error";

const DETAILS: (Member<OptionalText>, (Member<OptionalText>, ())) = (
    Member("error_description", PhantomData),
    (Member("error_uri", PhantomData), ()),
);

/// An error response (RFC 6749, section 5.2): a code and, if the server sent them, a description
/// and the URI of a page about the error.
#[derive(Debug, PartialEq, Eq)]
pub struct StandardErrorResponse<T> {
    error: T,
    error_description: Option<String>,
    error_uri: Option<String>,
}

impl<T: Drop> Drop for StandardErrorResponse<T> {
    fn drop(self) {
        let StandardErrorResponse {
            error: _,
            error_description: _,
            error_uri: _,
        } = self;
    }
}

impl<T> StandardErrorResponse<T> {
    ghost use Rattle.std.specs.Prelude.{◌≡◌, option_map, option_copied, string_bytes};
    ghost use Rattle.oauth2_codes.specs.ErrorResponse.{parts_of_error, parts_of};

    /// An error response of these parts. The characters of the description and of the URI are not
    /// checked.
    pub fn new(
        error: T,
        error_description: Option<String>,
        error_uri: Option<String>,
    ) -> StandardErrorResponse<T>
        ensures { parts_of (λ t. t) result
            ≡ parts_of_error error (option_map string_bytes error_description)
            (option_map string_bytes error_uri) }
    {
        StandardErrorResponse {
            error,
            error_description,
            error_uri,
        }
    }

    /// The error code.
    pub fn error(&self) -> &T
        ensures { result.now ≡ (parts_of (λ t. t) self.now).error }
    {
        &self.error
    }

    /// What went wrong, for the developer of the client; `None` if the server sent no description.
    pub fn error_description(&self) -> Option<&String>
        ensures { option_map string_bytes (option_copied result)
            ≡ (parts_of (λ t. t) self.now).description }
    {
        self.error_description.as_ref()
    }

    /// The URI of a page about the error, for the developer of the client. It is not parsed.
    pub fn error_uri(&self) -> Option<&String>
        ensures { option_map string_bytes (option_copied result)
            ≡ (parts_of (λ t. t) self.now).uri }
    {
        self.error_uri.as_ref()
    }
}

impl<T: FromJson + Drop> FromJson for StandardErrorResponse<T> {
    ghost use Rattle.oauth2_codes.specs.ErrorResponse.{ErrorParts, parts_of, error_reading};

    ghost Meaning = { ErrorParts T.Meaning };

    ghost meaning = { parts_of T.meaning };

    ghost reading = { error_reading T.reading };

    fn from_json(alloc: Global, value: Value) -> Result<StandardErrorResponse<T>, ReadError> {
        let rows = (Member::<Needed<T>>(ERROR, PhantomData), DETAILS);
        let (error, (error_description, (error_uri, ()))) = read_object(&rows, alloc, value)?;
        Ok(StandardErrorResponse {
            error,
            error_description,
            error_uri,
        })
    }

    fn from_body(alloc: Global, bytes: &[u8]) -> Result<StandardErrorResponse<T>, ReadError> {
        let rows = (Member::<Needed<T>>(ERROR, PhantomData), DETAILS);
        let (error, (error_description, (error_uri, ()))) = read_body(&rows, alloc, bytes)?;
        Ok(StandardErrorResponse {
            error,
            error_description,
            error_uri,
        })
    }
}

impl<T: FromJson + ToJson> ToJson for StandardErrorResponse<T> {
    ghost use Rattle.std.specs.Prelude.{◌≡◌, Ok, IfOk};
    ghost use Rattle.serde_json.specs.View.{view};
    ghost use Rattle.oauth2_json.specs.Writing.{WritesAs};
    ghost use Rattle.oauth2_codes.specs.ErrorResponse.{parts_of, error_writing, error_reading};
    ghost use Rattle.oauth2_codes.specs.ErrorResponse.{IsReadBack};

    ghost writing = { λ r. error_writing T.writing (parts_of (λ t. t) r) };

    fn to_json(&self, alloc: Global) -> Result<Value, WriteError>
        ensures written { WritesAs result (error_writing T.writing (parts_of (λ t. t) self.now)) }
        // If the code reads back as itself, the whole response does.
        ensures reads_back { IfOk result (λ v.
            IsReadBack T.reading T.meaning T.writing (parts_of (λ t. t) self.now).error
            → error_reading T.reading (view v) ≡ Ok (parts_of T.meaning self.now)) }
    {
        let error = self.error.to_json(alloc)?;
        let rows = (AsItIs(ERROR), DETAILS);
        let values = (
            Some(error),
            (&self.error_description, (&self.error_uri, ())),
        );
        Ok(object_of(&rows, alloc, values)?)
    }
}

impl<T: TryClone + Drop> TryClone for StandardErrorResponse<T> {
    ghost use Rattle.oauth2_codes.specs.ErrorResponse.{ErrorParts, parts_of};

    ghost Seen = { ErrorParts T.Seen };

    ghost seen = { parts_of T.seen };

    fn try_clone(&self, alloc: Global) -> Result<StandardErrorResponse<T>, AllocError> {
        Ok(StandardErrorResponse {
            error: self.error.try_clone(alloc)?,
            error_description: self.error_description.try_clone(alloc)?,
            error_uri: self.error_uri.try_clone(alloc)?,
        })
    }
}

impl<T: fmt::Display> fmt::Display for StandardErrorResponse<T> {
    ghost use Rattle.oauth2_codes.specs.ErrorResponse.{error_text, parts_of};

    ghost output = { λ r. let p = parts_of (λ t. t) r in error_text (T.output p.error) p };

    ghost styled_output = { λ r _. let p = parts_of (λ t. t) r in error_text (T.output p.error) p };

    fn fmt<W: fmt::Write>(&self, f: &mut fmt::Formatter<W>) -> fmt::Result {
        let error = &self.error;
        let description = &self.error_description;
        match (description, &self.error_uri) {
            (None, None) => write_display(f, error),
            (Some(text), None) => write_display(f, format_args!("{error}: {text}")),
            (None, Some(uri)) => write_display(f, format_args!("{error} (see {uri})")),
            (Some(text), Some(uri)) => write_display(
                f,
                format_args!("{error}: {text} (see {uri})"),
            ),
        }
    }
}

/// The error response of the token, introspection and device authorization endpoints.
pub type BasicErrorResponse = StandardErrorResponse<BasicErrorResponseType>;

/// The error response of the revocation endpoint.
pub type BasicRevocationErrorResponse = StandardErrorResponse<RevocationErrorResponseType>;

/// The error response of the token endpoint while a device polls.
pub type DeviceCodeErrorResponse = StandardErrorResponse<DeviceCodeErrorResponseType>;

impl<T: ErrorResponseType + fmt::Display + Drop> ErrorResponse for StandardErrorResponse<T> {}
