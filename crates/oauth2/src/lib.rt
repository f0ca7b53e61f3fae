//! An OAuth 2.0 client (RFC 6749): its configuration, its requests and what replies say, proved.
//!
//! This crate re-exports the crates below it: the names that users need are here, those that begin
//! with `Basic` are in `basic`, the functions for members of JSON objects are in `members`, and
//! those for single JSON values are in `helpers`. Items that the crates share among themselves
//! (such as `BaseRequest` of the requests and the encoder of forms) are not re-exported.

#![tactic(auto)]

mod authorization_endpoint;
pub mod basic;
mod client;
mod client_text;
mod device_authorization_endpoint;
mod endpoint;
mod endpoint_sets;
mod flow;
mod introspection_endpoint;
pub mod members;
mod revocation_endpoint;
mod token_endpoint;

pub use client::Client;
pub use endpoint::EndpointMaybeSet;
pub use endpoint::EndpointNotSet;
pub use endpoint::EndpointSet;
pub use endpoint::EndpointState;
pub use flow::CodeFlow;
pub use flow::CodeFlowError;
pub use flow::code_flow;
pub use oauth2_codes::DeviceCodeErrorResponse;
pub use oauth2_codes::DeviceCodeErrorResponseType;
pub use oauth2_codes::ErrorResponse;
pub use oauth2_codes::ErrorResponseType;
pub use oauth2_codes::RevocationErrorResponseType;
pub use oauth2_codes::StandardErrorResponse;
pub use oauth2_codes::TextErrorResponseType;
pub use oauth2_codes::TokenType;
pub use oauth2_codes::basic_error_laws;
pub use oauth2_codes::device_code_error_laws;
pub use oauth2_codes::revocation_error_laws;
pub use oauth2_codes::text_error_laws;
pub use oauth2_codes::token_type_laws;
pub use oauth2_device::DeviceAccessTokenRequest;
pub use oauth2_device::NoClock;
pub use oauth2_device::PollWorld;
pub use oauth2_extra_fields::MemberValue;
pub use oauth2_extra_fields::NamedMember;
pub use oauth2_extra_fields::WithMember;
pub use oauth2_form::ParamBuffer;
pub use oauth2_form::basic_header;
pub use oauth2_introspection::StandardTokenIntrospectionResponse;
pub use oauth2_introspection::TokenIntrospectionResponse;
pub use oauth2_json::FromJson;
pub use oauth2_json::ParseCause;
pub use oauth2_json::ParseFault;
pub use oauth2_json::ReadError;
pub use oauth2_json::ToJson;
pub use oauth2_json::WriteError;
pub use oauth2_json::compact;
pub use oauth2_json::helpers;
pub use oauth2_json::read_body;
pub use oauth2_replies::DeviceAuthorizationResponse;
pub use oauth2_replies::EmptyExtraDeviceAuthorizationFields;
pub use oauth2_replies::EmptyExtraTokenFields;
pub use oauth2_replies::ExtraDeviceAuthorizationFields;
pub use oauth2_replies::ExtraFields;
pub use oauth2_replies::ExtraTokenFields;
pub use oauth2_replies::RevocableToken;
pub use oauth2_replies::StandardDeviceAuthorizationResponse;
pub use oauth2_replies::StandardRevocableToken;
pub use oauth2_replies::StandardTokenResponse;
pub use oauth2_replies::TokenResponse;
pub use oauth2_requests::AuthorizationRequest;
pub use oauth2_requests::ClientCredentialsTokenRequest;
pub use oauth2_requests::CodeTokenRequest;
pub use oauth2_requests::DeviceAuthorizationRequest;
pub use oauth2_requests::IntrospectionRequest;
pub use oauth2_requests::PasswordTokenRequest;
pub use oauth2_requests::RefreshTokenRequest;
pub use oauth2_requests::RevocationRequest;
pub use oauth2_types::AccessToken;
pub use oauth2_types::AuthorizationCode;
pub use oauth2_types::ClientId;
pub use oauth2_types::ClientSecret;
pub use oauth2_types::CsrfToken;
pub use oauth2_types::DeviceCode;
pub use oauth2_types::PkceCodeChallenge;
pub use oauth2_types::PkceCodeChallengeMethod;
pub use oauth2_types::PkceCodeVerifier;
pub use oauth2_types::RefreshToken;
pub use oauth2_types::ResourceOwnerPassword;
pub use oauth2_types::ResourceOwnerUsername;
pub use oauth2_types::ResponseType;
pub use oauth2_types::Scope;
pub use oauth2_types::TryClone;
pub use oauth2_types::UserCode;
pub use oauth2_types::VerificationUriComplete;
pub use oauth2_urls::AuthUrl;
pub use oauth2_urls::DeviceAuthorizationUrl;
pub use oauth2_urls::EndUserVerificationUrl;
pub use oauth2_urls::IntrospectionUrl;
pub use oauth2_urls::RedirectUrl;
pub use oauth2_urls::RevocationUrl;
pub use oauth2_urls::TokenUrl;
pub use oauth2_wire::AlwaysReady;
pub use oauth2_wire::AuthType;
pub use oauth2_wire::ConfigurationError;
pub use oauth2_wire::FnClient;
pub use oauth2_wire::HttpClientError;
pub use oauth2_wire::HttpRequest;
pub use oauth2_wire::HttpResponse;
pub use oauth2_wire::ParamText;
pub use oauth2_wire::RedirectRef;
pub use oauth2_wire::ReplyRule;
pub use oauth2_wire::RequestFault;
pub use oauth2_wire::RequestTokenError;
pub use oauth2_wire::ServerView;
pub use oauth2_wire::SyncHttpClient;
pub use oauth2_wire::ViewError;
pub use oauth2_wire::endpoint_request;
pub use oauth2_wire::endpoint_request_encoded;
pub use oauth2_wire::endpoint_response;
pub use oauth2_wire::endpoint_response_status_only;
pub use oauth2_wire::endpoint_response_with;
pub use oauth2_wire::send_once;
pub use oauth2_wire::send_once_status_only;
pub use oauth2_wire::server_view;

// The device poll as a state machine.
pub use oauth2_poll::{
    DevicePoll, PollAnswer, PollEnd, PollEvent, PollReady, PollRun, PollSettings, PollStep,
    ending_is_the_only_one, requests_are_bounded, sleeps_are_paced,
};

/// The types of HTTP clients.
pub use http;
/// The types of URLs.
pub use url;
