//! Calls of one client, one after the other.

use crate::connections::peer::{Peer, Peers};
use crate::connections::rows::{
    A, Call, DROPPED, FAILED, KEPT, PARTED, PLACES, Row, UNASKED, parted,
};
use crate::support::request_of;
use http_header::HeaderValue;
use oauth2_http1_connections::{KeepAliveClient, KeepAliveError};
use oauth2_wire::{HttpResponse, SyncHttpClient};
use std::io;
use std::process::Abort;

// The status and the body of a reply, or the error.
fn text_of(
    rt: &(impl Abort + AllocGlobal),
    answer: Result<HttpResponse, KeepAliveError<io::Error>>,
) -> String {
    let alloc = rt.alloc();
    match answer {
        Ok(reply) => {
            let body = str::from_utf8(reply.body()).expect(rt, "a text");
            format!(in alloc; "{} {body}", reply.status().as_u16())
        }
        Err(error) => format!(in alloc; "{error:?}"),
    }
    .expect(rt, "a text")
}

fn assert_call(
    rt: &(impl Abort + AllocGlobal),
    client: &mut KeepAliveClient<Peers, Peer>,
    call: Call,
    wanted: &str,
) {
    let request = request_of(rt.alloc(), call).expect(rt, "a request");
    let text = text_of(rt, client.call(request));
    assert!(rt; text.as_str() == wanted, "{}: {text}", call.target);
}

fn assert_row(rt: &(impl Abort + AllocGlobal), row: &Row) {
    let peers = Peers { left: row.peers };
    let mut client = KeepAliveClient::new(rt.alloc(), peers).set_most_idle(row.most_idle);
    for (call, wanted) in row.calls.iter().zip(row.wanted) {
        assert_call(rt, &mut client, *call, wanted);
    }
    let unopened = client.into_connect().left.len();
    assert!(rt; unopened == row.unopened, "{unopened} are not opened");
}

#[test]
fn connections_that_are_used_again(rt: HostRuntime) {
    for row in KEPT {
        assert_row(&rt, row);
    }
}

#[test]
fn connections_that_are_dropped(rt: HostRuntime) {
    for peers in PARTED {
        assert_row(&rt, &parted(peers));
    }
    for row in DROPPED {
        assert_row(&rt, row);
    }
}

#[test]
fn bytes_that_wait_before_a_call(rt: HostRuntime) {
    for row in UNASKED {
        assert_row(&rt, row);
    }
}

#[test]
fn several_places(rt: HostRuntime) {
    for row in PLACES {
        assert_row(&rt, row);
    }
}

#[test]
fn no_reply(rt: HostRuntime) {
    for row in FAILED {
        assert_row(&rt, row);
    }
}

// A request with the client's `User-Agent`.
const AGENT_BYTES: &str = "GET /a HTTP/1.1\r\nhost: as.example\r\n\
    accept-encoding: identity\r\nuser-agent: my-app/1.0\r\n\r\n";

const AGENT: &[Peer] = &[Peer {
    takes: &[AGENT_BYTES],
    gives: &["HTTP/1.1 204 No Content\r\n\r\n"],
}];

#[test]
fn a_user_agent(rt: HostRuntime) {
    let agent = HeaderValue::from_bytes(rt.alloc(), b"my-app/1.0").expect(&rt, "a value");
    let mut client = KeepAliveClient::new(rt.alloc(), Peers { left: AGENT }).set_user_agent(agent);
    assert_call(&rt, &mut client, A, "204 ");
}
