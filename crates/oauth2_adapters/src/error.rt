//! The errors of a call through an adapter.

use oauth2_types::display::write_display;
use std::fmt;

/// Why a call through an adapter returned no reply.
#[derive(Debug, Drop)]
pub enum AdapterError<E> {
    /// The inner client returned this error.
    Client(E),
    /// The inner client returned a reply, but memory ran out while it was adapted.
    Memory,
}

impl<E: fmt::Display> fmt::Display for AdapterError<E> {
    ghost use Rattle.oauth2_adapters.specs.ErrorTexts.{adapter_error_text};

    ghost output = { adapter_error_text E.output };

    ghost styled_output = { λ error _. adapter_error_text E.output error };

    fn fmt<W: fmt::Write>(&self, f: &mut fmt::Formatter<W>) -> fmt::Result {
        match self {
            AdapterError::Client(error) => write_display(f, error),
            AdapterError::Memory => f.write_str("out of memory"),
        }
    }
}

impl<E> std::error::Error for AdapterError<E>
where
    E: fmt::Debug + fmt::Display + Drop,
{}
