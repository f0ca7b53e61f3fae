//! The members of a JSON object as one list of rows, by which they are read and written.

#![tactic(auto)]

mod kinds;
mod member;
mod member_pair;
mod objects;
mod rows;
mod write_text;

pub use kinds::{
    Needed, NeededFlag, NeededLowered, NeededNumber, NeededTexts, Optional, OptionalFlag,
    OptionalNumber, OptionalText, OptionalTextList, OptionalTexts, PresentLowered,
};
pub use member::{AsItIs, Member, ReadKind, WriteKind};
pub use member_pair::{MemberPair, ReadPairKind, WritePairKind};
pub use objects::{
    object_of, object_with, read_body, read_body_with, read_object, read_value_after,
    read_value_and_others, read_value_with,
};
pub use rows::{Rows, WriteRows};
pub use write_text::WriteText;
