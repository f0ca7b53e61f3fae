//! Grants whose type is a URI (RFC 6749, section 4.5): any such grant, assertions of another party
//! (RFC 7522, RFC 7523), and the exchange of tokens (RFC 8693).

#![tactic(auto)]

mod authorization_details;
mod bearer_grants;
mod exchange_error;
mod exchange_fields;
mod extension_token_request;
mod grant_fault;
mod token_client;
mod token_exchange;
mod token_type;

pub use authorization_details::{
    AuthorizationDetails, AuthorizationDetailsFields, AuthorizationDetailsMember, DetailsFault,
    RichAuthorizationRequest,
};
pub use bearer_grants::{JWT_BEARER, SAML2_BEARER};
pub use exchange_error::{TokenExchangeErrorResponse, TokenExchangeErrorType, exchange_error_laws};
pub use exchange_fields::{ExchangeFields, TokenExchangeResponse};
pub use extension_token_request::ExtensionTokenRequest;
pub use grant_fault::GrantFault;
pub use token_client::TokenClient;
pub use token_exchange::{TOKEN_EXCHANGE, TokenExchange};
pub use token_type::TokenTypeIdentifier;
