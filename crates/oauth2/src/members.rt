//! Reading the members of a JSON object by their names, one function for each kind of value, and
//! writing an object. Use these to implement `FromJson` and `ToJson` for your own types.

pub use oauth2_json::members::{
    beside, either_name, join_with_spaces, needed, needed_flag, needed_lowered, needed_number,
    needed_texts, number_or, number_value, of_object, optional, optional_number,
    optional_text_list, optional_texts, optional_to_json, optional_words, pieces, present,
    present_lowered, put_some, take, text_value, texts_value, words_value,
};
pub use oauth2_times::{needed_time, optional_time, time_value};
