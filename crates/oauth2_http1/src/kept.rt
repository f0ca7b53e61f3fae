//! Requests and replies after which a connection is used again.

ghost use Rattle.std.specs.Prelude.{◌≡◌};

use crate::fault::ReplyFault;
use bytes::BytesMut;
use http::Response;
use http1::Client;

/// A request as bytes, and the client that awaits its reply.
#[derive(Drop)]
pub struct KeptRequest {
    pub bytes: Vec<u8>,
    pub client: Client,
    /// Whether a field of the request says that the connection ends with its reply.
    pub closes: bool,
}

/// A reply, and what it leaves of its connection.
#[derive(Drop)]
pub struct ReplyRead {
    pub response: Response<Vec<u8>>,
    /// Whether the reply ended by its length or its chunks, and not by the end of the connection.
    pub ended: bool,
    /// Whether the connection persists, by the version and the fields of the reply.
    pub persists: bool,
    /// The bytes beyond the reply that were taken off the reader with it.
    pub beyond: BytesMut,
}

impl ReplyRead {
    ghost use Rattle.oauth2_http1.specs.Kept.{keeps_connection};

    /// Whether the connection may be used again: the reply ended, the connection persists, and no
    /// byte came beyond the reply.
    pub fn keeps_connection(&self) -> bool
        ensures { result ≡ keeps_connection self.now }
    {
        self.ended && self.persists && self.beyond.is_empty()
    }
}

/// Why no reply was read.
#[derive(Debug, Drop)]
pub struct UnreadReply {
    pub fault: ReplyFault,
    /// Whether any byte was taken off the reader.
    pub came: bool,
}
