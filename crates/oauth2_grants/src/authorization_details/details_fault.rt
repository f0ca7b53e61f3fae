//! Why a value is no authorization details.

ghost use Rattle.std.specs.Prelude.{Some};

use oauth2_types::display::write_display;
use std::fmt;

/// Why a text or a JSON value is no authorization details. Items are counted from 0.
#[derive(Clone, Copy, Debug, PartialEq, Eq, Drop)]
pub enum DetailsFault {
    /// The text is not one JSON value, or one nested deeper than 127.
    NotJson,
    /// The value is not an array.
    NotArray,
    /// The item of this number is not an object.
    NotObject(usize),
    /// The item of this number has no text under `type`.
    NoType(usize),
    /// Memory ran out.
    Memory,
}

impl fmt::Display for DetailsFault {
    ghost use Rattle.oauth2_grants.specs.authorization_details.FaultText.{details_fault_text};

    ghost output = { λ fault. Some (details_fault_text fault) };

    ghost styled_output = { λ fault _. Some (details_fault_text fault) };

    fn fmt<W: fmt::Write>(&self, f: &mut fmt::Formatter<W>) -> fmt::Result {
        match self {
            DetailsFault::NotJson => f.write_str("not one JSON value"),
            DetailsFault::NotArray => f.write_str("not an array"),
            DetailsFault::NotObject(item) => {
                write_display(f, format_args!("item {item} is not an object"))
            }
            DetailsFault::NoType(item) => {
                write_display(f, format_args!("item {item} has no text under type"))
            }
            DetailsFault::Memory => f.write_str("out of memory"),
        }
    }
}

impl std::error::Error for DetailsFault {}
