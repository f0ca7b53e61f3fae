//! Why a push gave no URL for the user.

use oauth2_pushed_requests::PushFault;
use oauth2_types::display::write_display;
use oauth2_wire::RequestTokenError;
use std::fmt;
use url::ParseError;

/// Why a push gave no URL for the user.
#[derive(Debug, Drop)]
pub enum PushLoginError<RE, T> {
    /// The parameters cannot be pushed, or memory ran out. The HTTP client was not called.
    Push(PushFault),
    /// The push failed.
    Request(RequestTokenError<RE, T>),
    /// The push succeeded, and there is no URL: `Overflow` if it would be longer than a `Url` can
    /// be, and else `OutOfMemory`.
    Url(ParseError),
}

impl<RE, T: fmt::Display> fmt::Display for PushLoginError<RE, T> {
    ghost use Rattle.oauth2_pushed_login.specs.ErrorTexts.{push_login_error_text};

    ghost output = { push_login_error_text T.output };

    ghost styled_output = { λ error _. push_login_error_text T.output error };

    fn fmt<W: fmt::Write>(&self, f: &mut fmt::Formatter<W>) -> fmt::Result {
        match self {
            PushLoginError::Push(fault) => write_display(f, fault),
            PushLoginError::Request(error) => write_display(f, error),
            PushLoginError::Url(ParseError::Overflow) => f.write_str(
                "authorization URL is too long",
            ),
            PushLoginError::Url(_) => f.write_str("Out of memory"),
        }
    }
}

impl<RE, T> std::error::Error for PushLoginError<RE, T>
where
    RE: fmt::Debug + Drop,
    T: fmt::Debug + fmt::Display + Drop,
{}
