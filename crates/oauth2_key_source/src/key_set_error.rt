//! Why there is no key set.

use oauth2_codes::BasicErrorResponse;
use oauth2_metadata::OtherReply;
use oauth2_types::display::write_display;
use oauth2_wire::RequestTokenError;
use std::fmt;

/// Why a request for keys got none.
#[derive(Debug, Drop)]
pub enum KeySetError<RE, T = BasicErrorResponse> {
    /// The request was not sent, or its reply has the status 200 and is no key set.
    Reply(RequestTokenError<RE, T>),
    /// The reply has another status, such as 404, or one of a redirect, which is not followed.
    Status(OtherReply),
}

impl<RE, T: fmt::Display> fmt::Display for KeySetError<RE, T> {
    ghost use Rattle.oauth2_key_source.specs.ErrorTexts.{key_set_error_text};

    ghost output = { key_set_error_text T.output };

    ghost styled_output = { λ error _. key_set_error_text T.output error };

    fn fmt<W: fmt::Write>(&self, f: &mut fmt::Formatter<W>) -> fmt::Result {
        match self {
            KeySetError::Reply(error) => write_display(f, error),
            KeySetError::Status(reply) => {
                let status = reply.status;
                write_display(
                    f,
                    format_args!("server answers the request for keys with status {status}"),
                )
            }
        }
    }
}

impl<RE, T> std::error::Error for KeySetError<RE, T>
where
    RE: fmt::Debug + Drop,
    T: fmt::Debug + fmt::Display + Drop,
{}
