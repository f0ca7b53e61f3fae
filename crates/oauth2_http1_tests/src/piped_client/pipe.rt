//! A connector and connections that ask by a line and read a line for an answer.

ghost use Rattle.std.specs.Prelude.{◌≤◌, length, IfSome};

use crate::piped_client::words::{bytes_of, word_of};
use crate::support::read_piece;
use oauth2_http1::{Connect, Origin, Receive, Transmit};
use oauth2_http1_connections::KeepAliveConnect;
use std::cell::RefCell;
use std::io::{self, BufRead, BufReader, ErrorKind, Stdin};

/// Standard input and output, with the lines that are not read yet.
#[derive(Drop)]
pub struct Pipe<'r> {
    pub rt: &'r HostRuntime,
    lines: RefCell<BufReader<Stdin>>,
}

impl<'r> Pipe<'r> {
    pub fn new(rt: &'r HostRuntime) -> io::Result<Pipe<'r>> {
        let lines = BufReader::new(rt.alloc(), rt.stdin())?;
        Ok(Pipe {
            rt,
            lines: RefCell::new(lines),
        })
    }

    /// The next line, unless there is none.
    pub fn line(&self) -> io::Result<Option<String>> {
        let mut line = String::new(self.rt.alloc());
        match self.lines.try_borrow_mut() {
            Ok(mut lines) => {
                if lines.read_line(&mut line)? == 0 {
                    return Ok(None);
                }
            }
            Err(_) => return Ok(None),
        }
        Ok(Some(line))
    }

    // Prints a line, and reads one.
    fn ask(&self, request: &str) -> Option<String> {
        self.rt.println(request).ok()?;
        self.line().ok()?
    }
}

/// Opens the connections of the other side.
#[derive(Clone, Copy)]
pub struct PipeConnector<'r> {
    pub pipe: &'r Pipe<'r>,
}

impl<'r> PipeConnector<'r> {
    fn opened(&self, to: &Origin<'_>) -> Option<u64> {
        let alloc = self.pipe.rt.alloc();
        let request = format!(in alloc; "open {} {} {}", to.scheme, to.host, to.port).ok()?;
        let answer = self.pipe.ask(request.as_str())?;
        answer.as_str().trim().parse::<u64>().ok()
    }
}

impl<'r> Connect for PipeConnector<'r> {
    type Stream = PipeStream<'r>;

    type Error = io::Error;

    fn connect(&mut self, to: &Origin<'_>) -> io::Result<PipeStream<'r>> {
        match self.opened(to) {
            Some(number) => Ok(PipeStream {
                pipe: self.pipe,
                number,
            }),
            None => Err(io::Error::from(ErrorKind::ConnectionRefused)),
        }
    }
}

impl<'r> KeepAliveConnect for PipeConnector<'r> {
    fn is_silent(stream: &mut PipeStream<'r>) -> bool {
        stream.looks_silent().unwrap_or(false)
    }
}

/// A connection of the other side, by its number there.
pub struct PipeStream<'r> {
    pipe: &'r Pipe<'r>,
    number: u64,
}

impl Drop for PipeStream<'_> {
    fn drop(self) {
        let PipeStream { pipe, number } = self;
        let _ = println!(pipe.rt; "close {number}");
    }
}

impl<'r> PipeStream<'r> {
    // Asks for the next bytes, and returns how many came.
    fn read(&self, chunk: &mut [u8]) -> Option<usize>
        ensures { IfSome result (λ n. n ≤ length chunk.new) }
    {
        let alloc = self.pipe.rt.alloc();
        let request = format!(in alloc; "read {} {}", self.number, chunk.len()).ok()?;
        let answer = self.pipe.ask(request.as_str())?;
        let bytes = bytes_of(alloc, answer.as_str().trim())?;
        Some(read_piece(&mut bytes.as_slice(), usize::MAX, chunk))
    }

    // Asks whether no byte waits.
    fn looks_silent(&self) -> Option<bool> {
        let alloc = self.pipe.rt.alloc();
        let request = format!(in alloc; "look {}", self.number).ok()?;
        let answer = self.pipe.ask(request.as_str())?;
        Some(answer.as_str().trim() == "silent")
    }

    // Hands the bytes over, and returns how many were written.
    fn written(&self, bytes: &[u8]) -> Option<usize>
        ensures { IfSome result (λ n. n ≤ length bytes.now) }
    {
        let alloc = self.pipe.rt.alloc();
        let word = word_of(alloc, bytes)?;
        let request = format!(in alloc; "write {} {word}", self.number).ok()?;
        let answer = self.pipe.ask(request.as_str())?;
        let len = answer.as_str().trim().parse::<usize>().ok()?;
        Some(len.min(bytes.len()))
    }
}

impl Receive for PipeStream<'_> {
    fn receive(&mut self, chunk: &mut [u8]) -> io::Result<usize> {
        match self.read(chunk) {
            Some(n) => Ok(n),
            None => Err(io::Error::from(ErrorKind::ConnectionReset)),
        }
    }
}

impl Transmit for PipeStream<'_> {
    fn transmit(&mut self, bytes: &[u8]) -> io::Result<usize> {
        match self.written(bytes) {
            Some(n) => Ok(n),
            None => Err(io::Error::from(ErrorKind::BrokenPipe)),
        }
    }

    fn finish(&mut self) -> io::Result<()> {
        Ok(())
    }
}
