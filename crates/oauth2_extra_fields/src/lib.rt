//! Extra fields as a list of named members, each with the type of its value.

#![tactic(auto)]

mod member_value;
mod with_member;

pub use member_value::MemberValue;
pub use with_member::{NamedMember, WithMember};
