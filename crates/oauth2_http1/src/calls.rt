//! The reads and writes of a connection, with contracts for what one call returns.

use std::io::{self, Read, Write};

/// A reader of replies: any `Read`. Your own type can implement this trait instead of `Read`, and
/// say by `reads` what one call may return; `Read` has no way to say that.
pub trait Receive {
    ghost use Rattle.std.specs.Prelude.{ℕ, List, Option, None, Result, ⊤};
    ghost use Rattle.std.specs.declared.io.Error.{Error};
    ghost use Rattle.std.specs.Io.{ReadsAtMost};
    ghost use Rattle.std.specs.Io.KnownBytes.{ReadConsumes};

    // The bytes that the next reads will return, if they are known.
    ghost remaining: { Self → Option (List ℕ) } = { λ _. None };

    // What a read may do, as a relation: the state before, the result and the state after.
    ghost reads: { Self → Result ℕ Error → Self → Type 0 } = { λ _ _ _. ⊤ };

    /// Reads as `read` of `std::io::Read` does.
    fn receive(&mut self, chunk: &mut [u8]) -> io::Result<usize>
        ensures bound { ReadsAtMost result chunk.new }
        ensures bytes { ReadConsumes (remaining self.old) (remaining self.new) result chunk.new }
        ensures step { reads self.old result self.new };
}

impl<R: Read> Receive for R {
    ghost remaining = { R.remaining };

    fn receive(&mut self, chunk: &mut [u8]) -> io::Result<usize> {
        self.read(chunk)
    }
}

/// A writer of requests: any `Write`. Your own type can implement this trait instead of `Write`,
/// and say by `writes` and `flushes` what one call may return; `Write` has no way to say that.
pub trait Transmit {
    ghost use Rattle.std.specs.Prelude.{ℕ, List, Option, None, Result, ⊤};
    ghost use Rattle.std.specs.declared.io.Error.{Error};
    ghost use Rattle.std.specs.Io.{WritesAtMost};
    ghost use Rattle.std.specs.Io.KnownBytes.{Keeps, WriteAppends};

    // The bytes that were written, if they are known.
    ghost contents: { Self → Option (List ℕ) } = { λ _. None };

    // What a write may do, as a relation: the state before, the result and the state after.
    ghost writes: { Self → Result ℕ Error → Self → Type 0 } = { λ _ _ _. ⊤ };

    // What a flush may do, as a relation: the state before, the result and the state after.
    ghost flushes: { Self → Result ⊤ Error → Self → Type 0 } = { λ _ _ _. ⊤ };

    /// Writes as `write` of `std::io::Write` does.
    fn transmit(&mut self, bytes: &[u8]) -> io::Result<usize>
        ensures bound { WritesAtMost result bytes.now }
        ensures bytes { WriteAppends (contents self.old) (contents self.new) result bytes.now }
        ensures step { writes self.old result self.new };

    /// Flushes as `flush` of `std::io::Write` does.
    fn finish(&mut self) -> io::Result<()>
        ensures bytes { Keeps (contents self.old) (contents self.new) }
        ensures step { flushes self.old result self.new };
}

impl<W: Write> Transmit for W {
    ghost contents = { W.contents };

    fn transmit(&mut self, bytes: &[u8]) -> io::Result<usize> {
        self.write(bytes)
    }

    fn finish(&mut self) -> io::Result<()> {
        self.flush()
    }
}
