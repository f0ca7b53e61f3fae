//! A message authentication code.

ghost use Rattle.std.specs.Fmt.{DisplaysOnOk, WritesStyledOnOk};
ghost use Rattle.std.specs.Prelude.{◌≡◌, ℕ, ◌≤◌, List, length, take, Some, codes};

use std::fmt;
use std::marker::Model;

/// A message authentication code: 32, 48 or 64 octets. `{:?}` does not show them, since whoever
/// reads a code can send the message with it.
#[derive(Drop)]
pub struct AuthenticationCode {
    octets: [u8; 64],
    size: usize,
}

impl Model for AuthenticationCode {
    ghost Value = { List ℕ };

    ghost view = { λ code. take code.size code.octets };

    ghost invariant = { λ code. code.size ≤ 64 };
}

impl AuthenticationCode {
    // The code that the first `size` octets hold.
    pub(crate) fn new(octets: [u8; 64], size: usize) -> AuthenticationCode
        requires { size ≤ 64 }
        ensures { result ≡ take size octets }
    {
        AuthenticationCode { octets, size }
    }

    /// The octets of the code.
    pub fn as_octets(&self) -> &[u8]
        ensures { result.now ≡ self.now }
    {
        &self.octets[..self.size]
    }
}

impl fmt::Debug for AuthenticationCode {
    ghost debug_output = { λ _. Some (codes "AuthenticationCode([redacted])") };

    fn fmt<W: fmt::Write>(&self, f: &mut fmt::Formatter<W>) -> fmt::Result
        ensures writes { DisplaysOnOk W.write_str_gives f.old result
            (Some (codes "AuthenticationCode([redacted])")) f.new }
        // Whatever options the formatter has, as under `{:#?}`.
        ensures styled { WritesStyledOnOk W.write_str_gives f.old result
            (codes "AuthenticationCode([redacted])") f.new }
    {
        f.write_str("AuthenticationCode([redacted])")
    }
}
