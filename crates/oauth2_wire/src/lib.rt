//! The HTTP side of an OAuth 2.0 client: the requests that it sends, what a server reads from them
//! by decoding, and what the replies say.

#![tactic(auto)]

mod content_type;
mod error;
mod http_client;
mod once;
mod reply;
mod request;
mod texts;
mod view;

pub use content_type::ReplyRule;
pub use error::{BasicRequestTokenError, ConfigurationError, HttpClientError, RequestTokenError};
pub use http_client::{AlwaysReady, FnClient, HttpResponse, SyncHttpClient};
pub use once::{send_once, send_once_status_only};
pub use reply::{endpoint_response, endpoint_response_status_only, endpoint_response_with};
pub use request::{
    AuthType, HttpRequest, RequestFault, copy_request, endpoint_request, endpoint_request_encoded,
};
pub use texts::{ParamText, RedirectRef};
pub use view::{ServerView, ViewError, server_view};
