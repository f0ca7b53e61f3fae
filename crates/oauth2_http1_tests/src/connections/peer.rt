//! Connections in memory.

ghost use Rattle.std.specs.Prelude.{◌≤◌, length};

use crate::support::read_piece;
use oauth2_http1::{Connect, Origin, Receive, Transmit};
use oauth2_http1_connections::KeepAliveConnect;
use std::io::{self, ErrorKind};

/// The other end of one connection. It takes these requests, each in one write, and gives these
/// pieces, one at each read. An empty piece says that the next one waits before a request is written.
#[derive(Clone, Copy)]
pub struct Peer {
    pub takes: &'static [&'static str],
    pub gives: &'static [&'static str],
}

impl Peer {
    // Whether the next piece is empty. It is passed then.
    fn passes_mark(&mut self) -> bool {
        let [piece, left @ ..] = self.gives else {
            return false;
        };
        if !piece.is_empty() {
            return false;
        }
        self.gives = left;
        true
    }

    // Copies the next piece into `chunk`, and returns its length; 0 after the last one.
    fn give(&mut self, chunk: &mut [u8]) -> usize
        ensures { result ≤ length chunk.new }
    {
        let _ = self.passes_mark();
        let [piece, left @ ..] = self.gives else {
            return 0;
        };
        self.gives = left;
        read_piece(&mut piece.as_bytes(), usize::MAX, chunk)
    }
}

impl Receive for Peer {
    fn receive(&mut self, chunk: &mut [u8]) -> io::Result<usize> {
        Ok(self.give(chunk))
    }
}

impl Transmit for Peer {
    fn transmit(&mut self, bytes: &[u8]) -> io::Result<usize> {
        let [request, left @ ..] = self.takes else {
            return Err(io::Error::from(ErrorKind::BrokenPipe));
        };
        if request.as_bytes() != bytes {
            return Err(io::Error::from(ErrorKind::InvalidData));
        }
        self.takes = left;
        Ok(bytes.len())
    }

    fn finish(&mut self) -> io::Result<()> {
        Ok(())
    }
}

/// Opens these connections, one after the other.
#[derive(Clone, Copy)]
pub struct Peers {
    pub left: &'static [Peer],
}

impl Connect for Peers {
    type Stream = Peer;

    type Error = io::Error;

    fn connect(&mut self, _to: &Origin<'_>) -> io::Result<Peer> {
        let [peer, left @ ..] = self.left else {
            return Err(io::Error::from(ErrorKind::ConnectionRefused));
        };
        self.left = left;
        Ok(*peer)
    }
}

impl KeepAliveConnect for Peers {
    fn is_silent(peer: &mut Peer) -> bool {
        !peer.passes_mark()
    }
}
