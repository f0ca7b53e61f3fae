//! Tests of the texts of errors.

use crate::exchanges::checks::assert_displayed_as;
use http1::chunked::ChunkError;
use http1::framing::FramingError;
use http1::{ReadError, WriteError};
use oauth2_http1::{Http1Error, MessageFault, NoConnection, ReplyFault};
use std::io::{self, ErrorKind};

type Error = Http1Error<NoConnection>;

const REQUEST_FAULTS: &[(MessageFault, &str)] = &[
    (
        MessageFault::NoOrigin,
        "request has no http or https target",
    ),
    (MessageFault::NoHost, "request has a target without a host"),
    (
        MessageFault::BadPort,
        "request has a target whose port is no number",
    ),
    (MessageFault::OwnFraming, "request frames its body itself"),
    (MessageFault::Connect, "request asks for a tunnel"),
    (
        MessageFault::Refused(WriteError::InvalidStartLine),
        "request cannot be sent: no request line has this method and this target",
    ),
    (
        MessageFault::Refused(WriteError::InvalidHeader),
        "request cannot be sent: no field has this name and this value",
    ),
    (
        MessageFault::Refused(WriteError::Host),
        "request cannot be sent: it has a Host field of its own",
    ),
    (
        MessageFault::Refused(WriteError::BodySize),
        "request cannot be sent: its fields do not fit its body",
    ),
    (MessageFault::Memory, "Out of memory"),
];

const READ_ERRORS: &[(ReadError, &str)] = &[
    (
        ReadError::Parse(httparse::Error::Status),
        "reply cannot be read: its head or its trailers do not parse",
    ),
    (
        ReadError::BareLineFeed,
        "reply cannot be read: a line ends in a line feed alone",
    ),
    (
        ReadError::TooLarge,
        "reply cannot be read: its head or its trailers are longer than the limit",
    ),
    (
        ReadError::Framing(FramingError::LengthAndEncoding),
        "reply cannot be read: its fields give its body no one end",
    ),
    (
        ReadError::Chunk(ChunkError::InvalidSize),
        "reply cannot be read: a chunk of its body does not parse",
    ),
    (
        ReadError::UnexpectedEof,
        "reply cannot be read: the connection closed before its end",
    ),
    (
        ReadError::UnexpectedResponse,
        "reply cannot be read: it was not asked for",
    ),
];

// A kind of error of a connection, and the texts of a read and of a write that fail so.
const FAILURES: &[(ErrorKind, &str, &str)] = &[
    (
        ErrorKind::ConnectionReset,
        "connection cannot be read",
        "connection cannot be written",
    ),
    (
        ErrorKind::TimedOut,
        "connection gave nothing in time",
        "connection took nothing in time",
    ),
    (
        ErrorKind::WouldBlock,
        "connection gave nothing in time",
        "connection took nothing in time",
    ),
];

#[test]
fn texts_of_errors(rt: HostRuntime) {
    for (fault, text) in REQUEST_FAULTS {
        assert_displayed_as(&rt, &Error::Request(*fault), text);
    }
    for (error, text) in READ_ERRORS {
        assert_displayed_as(&rt, &Error::Reply(ReplyFault::Response(*error)), text);
    }
    let faults = [
        (
            Error::Connect(NoConnection),
            "no connection: the connection was handed out before",
        ),
        (
            Error::Reply(ReplyFault::EmptyLine),
            "reply begins with an empty line",
        ),
        (
            Error::Reply(ReplyFault::TransferCoding),
            "reply has a transfer coding that is not undone",
        ),
        (
            Error::Reply(ReplyFault::TooManyBytes),
            "reply takes more bytes than its bounds allow",
        ),
        (
            Error::Reply(ReplyFault::TooLong),
            "body of the reply is longer than the bound",
        ),
        (
            Error::Reply(ReplyFault::TooManyReads),
            "reply takes more reads than the bound",
        ),
        (
            Error::Reply(ReplyFault::Fields),
            "reply has a field that no map of headers holds",
        ),
        (Error::Reply(ReplyFault::Memory), "Out of memory"),
    ];
    for (error, text) in &faults {
        assert_displayed_as(&rt, error, text);
    }
    for (kind, unread, unwritten) in FAILURES {
        let read = Error::Reply(ReplyFault::Read(io::Error::from(*kind)));
        assert_displayed_as(&rt, &read, unread);
        assert_displayed_as(&rt, &Error::Write(io::Error::from(*kind)), unwritten);
    }
}
