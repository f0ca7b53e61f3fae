//! A source of one assertion.

use oauth2_client_assertions::AssertionSource;
use std::alloc::Global;
use std::fmt;

/// Why a `Written` has no assertion.
#[derive(Clone, Copy, Debug)]
pub(crate) struct NoFile;

impl fmt::Display for NoFile {
    fn fmt<W: fmt::Write>(&self, f: &mut fmt::Formatter<W>) -> fmt::Result {
        f.write_str("no file")
    }
}

/// An assertion that another program wrote, or none. It counts how often it is asked.
#[derive(Clone, Copy)]
pub(crate) struct Written {
    pub(crate) assertion: Option<&'static str>,
    pub(crate) calls: u64,
}

impl Written {
    /// A source that returns this assertion, if it is one.
    pub(crate) fn new(assertion: Option<&'static str>) -> Written {
        Written {
            assertion,
            calls: 0,
        }
    }
}

impl AssertionSource for Written {
    type Error = NoFile;

    fn assertion(&mut self, alloc: Global) -> Result<String, NoFile> {
        self.calls = self.calls.saturating_add(1);
        match self.assertion {
            Some(text) => String::from_str(alloc, text).map_err(|_| NoFile),
            None => Err(NoFile),
        }
    }
}
