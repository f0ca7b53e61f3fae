//! Why metadata give no route to a login.

use oauth2_metadata::{EndpointCause, EndpointError};
use oauth2_types::display::write_display;
use std::alloc::AllocError;
use std::fmt;

/// Why metadata give no route to a login.
#[derive(Clone, Copy, Debug, PartialEq, Eq)]
pub enum LoginRouteError {
    /// A client may not push to the endpoint (RFC 9126, section 2).
    PushEndpoint(EndpointCause),
    /// The server requires a push, and has no endpoint for it (RFC 9126, section 5).
    NoPushEndpoint,
    /// There is no client for any login: an endpoint is missing or refused, or memory ran out.
    Login(EndpointError),
}

impl fmt::Display for LoginRouteError {
    ghost use Rattle.std.specs.Prelude.{Some};
    ghost use Rattle.oauth2_pushed_login.specs.ErrorTexts.{route_error_text};

    ghost output = { λ error. Some (route_error_text error) };

    ghost styled_output = { λ error _. Some (route_error_text error) };

    fn fmt<W: fmt::Write>(&self, f: &mut fmt::Formatter<W>) -> fmt::Result {
        match self {
            LoginRouteError::PushEndpoint(cause) => write_display(
                f,
                format_args!("pushed_authorization_request_endpoint: {cause}"),
            ),
            LoginRouteError::NoPushEndpoint => f.write_str(
                "metadata requires pushes, and has no pushed_authorization_request_endpoint",
            ),
            LoginRouteError::Login(error) => write_display(f, error),
        }
    }
}

impl std::error::Error for LoginRouteError {}

impl From<EndpointError> for LoginRouteError {
    ghost use Rattle.std.specs.Prelude.{◌≡◌};
    ghost use Rattle.oauth2_pushed_login.specs.declared.route_error.LoginRouteError.TheVariants.{
      Login,
    };

    ghost from_gives = { λ error e. e ≡ Login error };

    fn from(error: EndpointError) -> LoginRouteError {
        LoginRouteError::Login(error)
    }
}

impl From<AllocError> for LoginRouteError {
    ghost use Rattle.std.specs.Prelude.{◌≡◌};
    ghost use Rattle.oauth2_metadata.specs.declared.endpoint_error.EndpointError.TheVariants.{Memory};
    ghost use Rattle.oauth2_pushed_login.specs.declared.route_error.LoginRouteError.TheVariants.{
      Login,
    };

    ghost from_gives = { λ _ e. e ≡ Login Memory };

    fn from(_: AllocError) -> LoginRouteError {
        LoginRouteError::Login(EndpointError::Memory)
    }
}
