//! Forms, `application/x-www-form-urlencoded` (URL Standard, section 5): the body of a request,
//! the query of a URL, and the two halves of HTTP Basic credentials.

#![tactic(auto)]

mod basic;
mod encoded_text;
mod form_body;
mod form_encoding;
mod param_buffer;
mod query;

pub use basic::basic_header;
pub use encoded_text::EncodedText;
pub use form_body::FormBody;
pub use form_encoding::{append_encoded_text, append_pair, encoded_len, len_with_pair};
pub use param_buffer::ParamBuffer;
pub use query::{append_plain_pair, query_text, with_query};
