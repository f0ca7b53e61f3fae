//! The calls, and what they come to.

use crate::connections::peer::Peer;
use crate::support::RequestTexts;

/// The request of a call.
pub type Call = RequestTexts<'static>;

/// One test: the most idle connections, the connections that can be opened, the calls, what each
/// returns, and how many of the connections are never opened.
#[derive(Clone, Copy)]
pub struct Row {
    pub most_idle: usize,
    pub peers: &'static [Peer],
    pub calls: &'static [Call],
    pub wanted: &'static [&'static str],
    pub unopened: usize,
}

/// A request without fields of its own, and without a body.
pub const A: Call = RequestTexts {
    method: "GET",
    target: "http://as.example/a",
    fields: &[],
    body: "",
};

const B: Call = RequestTexts {
    target: "http://as.example/b",
    ..A
};

const POST: Call = RequestTexts {
    method: "POST",
    ..A
};

const OTHER: Call = RequestTexts {
    target: "http://as.example:8080/a",
    ..A
};

const HEAD: Call = RequestTexts {
    method: "HEAD",
    ..A
};

const THIRD: Call = RequestTexts {
    target: "https://as.example/a",
    ..A
};

const CLOSE: Call = RequestTexts {
    fields: &[("connection", "close")],
    ..A
};

const NOWHERE: Call = RequestTexts { target: "/a", ..A };

// The bytes of these requests by RFC 9112, 3 and 3.2, with the fields that the client adds.
const A_BYTES: &str = "GET /a HTTP/1.1\r\nhost: as.example\r\naccept-encoding: identity\r\n\r\n";

const B_BYTES: &str = "GET /b HTTP/1.1\r\nhost: as.example\r\naccept-encoding: identity\r\n\r\n";

const POST_BYTES: &str = "POST /a HTTP/1.1\r\nhost: as.example\r\n\
    accept-encoding: identity\r\ncontent-length: 0\r\n\r\n";

const OTHER_BYTES: &str = "GET /a HTTP/1.1\r\nhost: as.example:8080\r\n\
    accept-encoding: identity\r\n\r\n";

const HEAD_BYTES: &str = "HEAD /a HTTP/1.1\r\nhost: as.example\r\n\
    accept-encoding: identity\r\n\r\n";

const CLOSE_BYTES: &str = "GET /a HTTP/1.1\r\nhost: as.example\r\nconnection: close\r\n\
    accept-encoding: identity\r\n\r\n";

const ONE: &str = "HTTP/1.1 200 OK\r\ncontent-length: 1\r\n\r\n1";

const TWO: &str = "HTTP/1.1 200 OK\r\ncontent-length: 1\r\n\r\n2";

// A connection for a second call, if the first one is not used again.
const SECOND: Peer = Peer {
    takes: &[B_BYTES],
    gives: &[TWO],
};

const OK: &[&str] = &["200 1", "200 2"];

const BOTH: &[Call] = &[A, B];

/// Calls over connections that are used again.
pub const KEPT: &[Row] = &[
    // a length
    Row {
        most_idle: 1,
        peers: &[
            Peer {
                takes: &[A_BYTES, B_BYTES],
                gives: &[ONE, TWO],
            },
            SECOND,
        ],
        calls: BOTH,
        wanted: OK,
        unopened: 1,
    },
    // chunks, in pieces, after a response of status 1xx
    Row {
        most_idle: 1,
        peers: &[Peer {
            takes: &[A_BYTES, POST_BYTES],
            gives: &[
                "HTTP/1.1 103 Early Hints\r\n\r\n",
                "HTTP/1.1 200 OK\r\ntransfer-encoding: chunked\r\n\r\n1\r\n1\r\n0\r\n",
                "\r\n",
                TWO,
            ],
        }],
        calls: &[A, POST],
        wanted: OK,
        unopened: 0,
    },
    // no body: a status 204, and a reply to HEAD
    Row {
        most_idle: 1,
        peers: &[Peer {
            takes: &[A_BYTES, HEAD_BYTES, B_BYTES],
            gives: &[
                "HTTP/1.1 204 No Content\r\n\r\n",
                "HTTP/1.1 200 OK\r\ncontent-length: 1\r\n\r\n",
                TWO,
            ],
        }],
        calls: &[A, HEAD, B],
        wanted: &["204 ", "200 ", "200 2"],
        unopened: 0,
    },
];

/// Connections for two calls, the first of which is not used again.
pub const PARTED: &[&[Peer]] = &[
    // the reply says `close`
    &[
        Peer {
            takes: &[A_BYTES],
            gives: &["HTTP/1.1 200 OK\r\ncontent-length: 1\r\nConnection: x, CLOSE\r\n\r\n1"],
        },
        SECOND,
    ],
    // HTTP/1.0, with `keep-alive` and without
    &[
        Peer {
            takes: &[A_BYTES],
            gives: &["HTTP/1.0 200 OK\r\ncontent-length: 1\r\n\r\n1"],
        },
        SECOND,
    ],
    &[
        Peer {
            takes: &[A_BYTES],
            gives: &["HTTP/1.0 200 OK\r\ncontent-length: 1\r\nconnection: keep-alive\r\n\r\n1"],
        },
        SECOND,
    ],
    // the body ends with the connection
    &[
        Peer {
            takes: &[A_BYTES],
            gives: &["HTTP/1.1 200 OK\r\n\r\n1"],
        },
        SECOND,
    ],
    // bytes beyond the reply: one, and another reply
    &[
        Peer {
            takes: &[A_BYTES],
            gives: &["HTTP/1.1 200 OK\r\ncontent-length: 1\r\n\r\n12"],
        },
        SECOND,
    ],
    &[
        Peer {
            takes: &[A_BYTES],
            gives: &[
                "HTTP/1.1 200 OK\r\ncontent-length: 1\r\n\r\n1\
                HTTP/1.1 200 OK\r\ncontent-length: 1\r\n\r\n3",
            ],
        },
        SECOND,
    ],
];

/// Two calls over such connections.
pub fn parted(peers: &'static [Peer]) -> Row {
    Row {
        most_idle: 1,
        peers,
        calls: BOTH,
        wanted: OK,
        unopened: 0,
    }
}

const THREE: &str = "HTTP/1.1 200 OK\r\ncontent-length: 1\r\n\r\n3";

/// Connections that are kept, and on which bytes wait before the next call.
pub const UNASKED: &[Row] = &[
    // a whole reply: it is not the reply to the second call
    Row {
        most_idle: 1,
        peers: &[
            Peer {
                takes: &[A_BYTES, B_BYTES],
                gives: &[ONE, "", THREE],
            },
            SECOND,
        ],
        calls: BOTH,
        wanted: OK,
        unopened: 0,
    },
    // one byte, behind two calls on the connection
    Row {
        most_idle: 1,
        peers: &[
            Peer {
                takes: &[A_BYTES, A_BYTES, B_BYTES],
                gives: &[ONE, ONE, "", "\n", THREE],
            },
            SECOND,
        ],
        calls: &[A, A, B],
        wanted: &["200 1", "200 1", "200 2"],
        unopened: 0,
    },
    // no other connection can be opened, and the first one is not taken up again
    Row {
        most_idle: 1,
        peers: &[Peer {
            takes: &[A_BYTES, B_BYTES],
            gives: &[ONE, "", THREE],
        }],
        calls: &[A, B, B],
        wanted: &[
            "200 1",
            "Http1(Connect(Kind(ConnectionRefused)))",
            "Http1(Connect(Kind(ConnectionRefused)))",
        ],
        unopened: 0,
    },
    // the connection to another place stays
    Row {
        most_idle: 2,
        peers: &[
            Peer {
                takes: &[A_BYTES],
                gives: &[ONE, "", THREE],
            },
            Peer {
                takes: &[OTHER_BYTES, OTHER_BYTES],
                gives: &[TWO, TWO],
            },
            SECOND,
        ],
        calls: &[A, OTHER, B, OTHER],
        wanted: &["200 1", "200 2", "200 2", "200 2"],
        unopened: 0,
    },
];

/// Calls after which the connection is not used again either.
pub const DROPPED: &[Row] = &[
    // the request says `close`
    Row {
        most_idle: 1,
        peers: &[
            Peer {
                takes: &[CLOSE_BYTES],
                gives: &[ONE],
            },
            SECOND,
        ],
        calls: &[CLOSE, B],
        wanted: OK,
        unopened: 0,
    },
    // no connection is to be idle
    Row {
        most_idle: 0,
        peers: &[
            Peer {
                takes: &[A_BYTES],
                gives: &[ONE],
            },
            SECOND,
        ],
        calls: BOTH,
        wanted: OK,
        unopened: 0,
    },
];

const A_PEER: Peer = Peer {
    takes: &[A_BYTES, A_BYTES, A_BYTES],
    gives: &[ONE, ONE, ONE],
};

const OTHER_PEER: Peer = Peer {
    takes: &[OTHER_BYTES, OTHER_BYTES],
    gives: &[TWO, TWO],
};

/// Calls to several places.
pub const PLACES: &[Row] = &[
    // one connection is idle: that of the last call
    Row {
        most_idle: 1,
        peers: &[A_PEER, OTHER_PEER, A_PEER],
        calls: &[A, OTHER, A, A],
        wanted: &["200 1", "200 2", "200 1", "200 1"],
        unopened: 0,
    },
    // the scheme is another one
    Row {
        most_idle: 2,
        peers: &[A_PEER, A_PEER],
        calls: &[A, THIRD, A, THIRD],
        wanted: &["200 1", "200 1", "200 1", "200 1"],
        unopened: 0,
    },
    // two are idle; the third place takes the room of the one that was used least recently
    Row {
        most_idle: 2,
        peers: &[A_PEER, OTHER_PEER, A_PEER, OTHER_PEER],
        calls: &[A, OTHER, A, THIRD, A, OTHER],
        wanted: &["200 1", "200 2", "200 1", "200 1", "200 1", "200 2"],
        unopened: 0,
    },
];

const CUT: &str = "Http1(Reply(Response(UnexpectedEof)))";

/// Calls that get no reply.
pub const FAILED: &[Row] = &[
    // a used connection was closed: the next call opens another one
    Row {
        most_idle: 1,
        peers: &[
            Peer {
                takes: &[A_BYTES, B_BYTES],
                gives: &[ONE],
            },
            SECOND,
        ],
        calls: &[A, B, B],
        wanted: &[
            "200 1",
            "Unanswered { error: Reply(Response(UnexpectedEof)), may_be_sent_again: true }",
            "200 2",
        ],
        unopened: 0,
    },
    // the same of a POST
    Row {
        most_idle: 1,
        peers: &[Peer {
            takes: &[A_BYTES, POST_BYTES],
            gives: &[ONE],
        }],
        calls: &[A, POST],
        wanted: &[
            "200 1",
            "Unanswered { error: Reply(Response(UnexpectedEof)), may_be_sent_again: false }",
        ],
        unopened: 0,
    },
    // a write on a used connection fails
    Row {
        most_idle: 1,
        peers: &[Peer {
            takes: &[A_BYTES],
            gives: &[ONE],
        }],
        calls: &[A, POST],
        wanted: &[
            "200 1",
            "Unanswered { error: Write(Kind(BrokenPipe)), may_be_sent_again: false }",
        ],
        unopened: 0,
    },
    // a reply on a used connection is cut
    Row {
        most_idle: 1,
        peers: &[Peer {
            takes: &[A_BYTES, B_BYTES],
            gives: &[ONE, "H"],
        }],
        calls: &[A, B],
        wanted: &["200 1", CUT],
        unopened: 0,
    },
    // a new connection gives nothing, and one takes nothing
    Row {
        most_idle: 1,
        peers: &[
            Peer {
                takes: &[A_BYTES],
                gives: &[],
            },
            Peer {
                takes: &[],
                gives: &[],
            },
        ],
        calls: &[A, A, A],
        wanted: &[
            CUT,
            "Http1(Write(Kind(BrokenPipe)))",
            "Http1(Connect(Kind(ConnectionRefused)))",
        ],
        unopened: 0,
    },
    // a request without a place
    Row {
        most_idle: 1,
        peers: &[SECOND],
        calls: &[NOWHERE],
        wanted: &["Http1(Request(NoOrigin))"],
        unopened: 1,
    },
];
