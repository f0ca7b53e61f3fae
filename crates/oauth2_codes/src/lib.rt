//! The codes of OAuth 2.0: token types, error codes, and the error response that carries one.

#![tactic(auto)]

mod authorization_error;
mod basic_error;
mod device_error;
mod error_response;
mod error_traits;
mod revocation_error;
mod text_error;
mod token_type;

pub use authorization_error::{AuthorizationErrorResponseType, authorization_error_laws};
pub use basic_error::{BasicErrorResponseType, basic_error_laws};
pub use device_error::{DeviceCodeErrorResponseType, device_code_error_laws};
pub use error_response::{
    BasicErrorResponse, BasicRevocationErrorResponse, DeviceCodeErrorResponse,
    StandardErrorResponse,
};
pub use error_traits::{ErrorResponse, ErrorResponseType};
pub use revocation_error::{RevocationErrorResponseType, revocation_error_laws};
pub use text_error::{TextErrorResponseType, text_error_laws};
pub use token_type::{BasicTokenType, TokenType, token_type_laws};
