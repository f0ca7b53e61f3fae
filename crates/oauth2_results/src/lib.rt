//! The events of a run as text: lines, or one JSON object.

#![tactic(auto)]

mod decoded;
mod event_json;
mod fault_json;
mod json_text;
mod lines;
mod reply_json;
mod request_json;
mod request_lines;
mod scopes;
mod text;
mod words;

pub use event_json::result_text;
pub use json_text::{list_text, object_text};
pub use lines::lines_of;
pub use text::text_of;
pub use words::{kind_word, kinds_text};
