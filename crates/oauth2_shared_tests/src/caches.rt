//! Tests of `oauth2_token_cache`, over keepers that count their calls: which keeper goes, that each is
//! as it was left, and that names are told apart by each of their three parts.

mod by_name;
mod by_text;
