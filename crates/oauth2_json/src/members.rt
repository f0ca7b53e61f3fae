//! Readers for the members of an object, and helpers that write an object. The reader of times is
//! in `oauth2_times`.

pub use crate::lowered::{needed_lowered, present_lowered};
pub use crate::member_readers::{either_name, needed, of_object, optional, present, take};
pub use crate::member_writers::{beside, optional_to_json, put_some, text_value};
pub use crate::numbers::{needed_flag, needed_number, number_or, number_value, optional_number};
pub use crate::spaced::{join_with_spaces, optional_words, pieces, words_value};
pub use crate::text_lists::{needed_texts, optional_text_list, optional_texts, texts_value};
