//! Wrappers of an HTTP client, for servers whose replies differ from what the standards say.

#![tactic(auto)]

mod client;
mod commas_in_scopes;
mod error;
mod error_body;
mod errors_at_status_200;
mod first;
mod form_bodies;
mod law;
mod numbers_as_texts;
mod other_media_types;
mod reply_adapter;
mod rewriting;

pub use client::AdaptedClient;
pub use commas_in_scopes::CommasInScopes;
pub use error::AdapterError;
pub use errors_at_status_200::ErrorsAtStatus200;
pub use form_bodies::FormBodies;
pub use law::{adapters_commute, each_leaves_other_replies_alone};
pub use numbers_as_texts::NumbersAsTexts;
pub use other_media_types::OtherMediaTypes;
pub use reply_adapter::ReplyAdapter;
