//! A connection in memory.

ghost use Rattle.std.specs.Prelude.{◌≤◌, length};

use crate::support::read_piece;
use std::io::{self, ErrorKind, Read, Write};

/// A connection that returns one reply to its reads, and expects one request to be written.
#[derive(Drop)]
pub struct Wire<'a> {
    /// The bytes of the reply that were not read yet.
    pub left: &'a [u8],
    /// What comes after them, repeated without end. If it is empty, the connection ends there.
    pub again: &'a [u8],
    /// The bytes of the request that were not written yet.
    pub awaited: &'a [u8],
    /// The first read returns at most this many bytes.
    pub first: usize,
    /// The other reads return at most this many bytes, and each write takes at most this many.
    pub piece: usize,
    /// Which call fails, counted from 1. With 0, no call fails.
    pub fails_at: usize,
    /// How often each read is interrupted.
    pub interrupts: usize,
    /// How often the next read is still interrupted.
    pub interrupts_left: usize,
    /// How often it was called, for a read, a write or a flush.
    pub calls: usize,
    /// How often it was read.
    pub reads: usize,
    /// How often it was read when no byte was left.
    pub reads_past: usize,
    /// How many bytes were read.
    pub given: usize,
    /// Whether something else than the request was written.
    pub is_other: bool,
}

impl<'a> Wire<'a> {
    /// A connection that returns this whole reply at one read, and takes this whole request at one
    /// write.
    pub fn new(reply: &'a [u8], request: &'a [u8]) -> Wire<'a> {
        Wire {
            left: reply,
            again: b"",
            awaited: request,
            first: usize::MAX,
            piece: usize::MAX,
            fails_at: 0,
            interrupts: 0,
            interrupts_left: 0,
            calls: 0,
            reads: 0,
            reads_past: 0,
            given: 0,
            is_other: false,
        }
    }

    /// The same connection, which returns and takes pieces of at most these lengths.
    pub fn in_pieces(self, first: usize, piece: usize) -> Wire<'a> {
        Wire {
            first,
            piece,
            ..self
        }
    }

    /// Whether exactly the request was written.
    pub fn is_written(&self) -> bool {
        self.awaited.is_empty() && !self.is_other
    }

    // Counts one call. An error if it is the call that fails.
    fn count(&mut self) -> io::Result<()> {
        self.calls = self.calls.saturating_add(1);
        if self.calls == self.fails_at {
            return Err(io::Error::from(ErrorKind::ConnectionReset));
        }
        Ok(())
    }

    // An error if this read is interrupted.
    fn interrupt(&mut self) -> io::Result<()> {
        if self.interrupts_left > 0 {
            self.interrupts_left -= 1;
            return Err(io::Error::from(ErrorKind::Interrupted));
        }
        self.interrupts_left = self.interrupts;
        Ok(())
    }

    // If no byte is left, counts the read in `reads_past`, and continues with `again`.
    fn refill(&mut self) {
        if self.left.is_empty() {
            self.reads_past = self.reads_past.saturating_add(1);
            self.left = self.again;
        }
    }

    // Copies the next piece into `buf`, and returns its length.
    fn give(&mut self, buf: &mut [u8]) -> usize
        ensures { result ≤ length buf.new }
    {
        let len = read_piece(&mut self.left, self.first, buf);
        self.first = self.piece;
        self.given = self.given.saturating_add(len);
        len
    }

    // Takes a piece of what is written.
    fn take(&mut self, written: &[u8]) {
        match self.awaited.strip_prefix(written) {
            Some(awaited) => self.awaited = awaited,
            None => self.is_other = true,
        }
    }
}

impl Read for Wire<'_> {
    fn read(&mut self, buf: &mut [u8]) -> io::Result<usize> {
        self.reads = self.reads.saturating_add(1);
        self.count()?;
        self.interrupt()?;
        self.refill();
        Ok(self.give(buf))
    }
}

impl Write for Wire<'_> {
    fn write(&mut self, buf: &[u8]) -> io::Result<usize> {
        self.count()?;
        let len = buf.len().min(self.piece);
        self.take(&buf[..len]);
        Ok(len)
    }

    fn flush(&mut self) -> io::Result<()> {
        self.count()
    }
}
