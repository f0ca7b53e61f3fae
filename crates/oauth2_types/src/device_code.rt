//! Device codes (RFC 8628, section 3.2).

ghost use Rattle.std.specs.Prelude.{◌≡◌, ℕ, List, string_bytes, codes, Some, IfOk};
ghost use Rattle.std.specs.Fmt.{DisplaysOnOk, WritesStyledOnOk};

use crate::secret::Secret;
use crate::try_clone::TryClone;
use std::alloc::{AllocError, Global};
use std::fmt;
use std::marker::Model;

/// The code with which a device polls for its token (RFC 8628, section 3.2).
#[derive(PartialEq, Eq, Hash, Drop)]
pub struct DeviceCode(Secret);

impl Model for DeviceCode {
    ghost Value = { List ℕ };

    ghost view = { λ s. s.0 };

    ghost inverse = { λ text. record { 0 = text } };
}

impl DeviceCode {
    /// Takes any text unchanged; nothing is checked.
    pub fn new(secret: String) -> DeviceCode
        ensures { result ≡ string_bytes secret }
    {
        DeviceCode(Secret::new(secret))
    }

    /// Takes a copy of the text.
    pub fn from_str(alloc: Global, text: &str) -> Result<DeviceCode, AllocError>
        ensures { IfOk result (λ made. made ≡ text.now) }
    {
        Ok(DeviceCode::new(String::from_str(alloc, text)?))
    }

    /// Leaking this text may compromise the security of the flow.
    pub fn secret(&self) -> &String
        ensures { string_bytes result.now ≡ self.now }
    {
        self.0.text()
    }

    /// Leaking this text may compromise the security of the flow.
    pub fn into_secret(self) -> String
        ensures { string_bytes result ≡ self }
    {
        self.0.into_text()
    }
}

impl TryClone for DeviceCode {
    ghost Seen = { List ℕ };

    ghost seen = { λ text. text };

    fn try_clone(&self, alloc: Global) -> Result<DeviceCode, AllocError> {
        Ok(DeviceCode(self.0.copy(alloc)?))
    }
}

impl fmt::Debug for DeviceCode {
    ghost debug_output = { λ _. Some (codes "DeviceCode([redacted])") };

    fn fmt<W: fmt::Write>(&self, f: &mut fmt::Formatter<W>) -> fmt::Result
        ensures writes { DisplaysOnOk W.write_str_gives f.old result
            (Some (codes "DeviceCode([redacted])")) f.new }
        // Holds for all formatter options, also for `{:#?}`.
        ensures styled { WritesStyledOnOk W.write_str_gives f.old result
            (codes "DeviceCode([redacted])") f.new }
    {
        f.write_str("DeviceCode([redacted])")
    }
}
