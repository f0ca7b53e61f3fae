//! Laws about a connection that carried several exchanges.

ghost use Rattle.std.specs.Prelude.{ℕ, List, ◌++◌, ⊤, Result, false};
ghost use Rattle.std.specs.Io.KnownBytes.{Appends};
ghost use Rattle.http1.specs.declared.conn.Limits.{Limits};
ghost use Rattle.oauth2_http1.specs.Origin.{Place};
ghost use Rattle.oauth2_http1_connections.specs.Law.{Asked, Carries, AreKnown, ReadsLeave};
ghost use Rattle.oauth2_http1_connections.specs.Law.{sent_bytes, read_bytes};
ghost use Rattle.oauth2_http1_connections.specs.Law.{BeginsWithReplies, BeginsWithRequests};
ghost use Rattle.oauth2_http1_connections.specs.Law.{TakesAll, HasHistory, EachHasHistory};
ghost use Rattle.oauth2_http1_connections.specs.Law.{KeepsHistories, IsNext, asked_of};
ghost use Rattle.oauth2_http1_connections.specs.KeptFromBytes.{EachIsFromKeptBytes};
ghost use Rattle.oauth2_http1_connections.specs.Client.{Answers, Calls};
ghost use Rattle.oauth2_http1_connections.specs.declared.client.KeepAliveClient.{KeepAliveClient};
ghost use Rattle.oauth2_http1_connections.specs.declared.error.KeepAliveError.{KeepAliveError};
ghost use Rattle.oauth2_wire.specs.Request.{HttpRequest};
ghost use Rattle.oauth2_wire.specs.Reply.{HttpResponse};

use crate::connect::KeepAliveConnect;
use oauth2_json::FromJson;

/// The bytes that were written to a connection are the messages of the requests, one after the
/// other. A server that takes the heads reads them as these requests, and in no other way.
pub fn requests_stay_in_order<C: KeepAliveConnect>()
    ensures sent { (place : Place) (all : List Asked) (before after : C.Stream)
        (carried : Carries C.looks C.Stream.contents C.Stream.remaining
        C.Stream.reads C.Stream.writes C.Stream.flushes place false all before after)
        → ReadsLeave C.looks C.Stream.contents C.Stream.remaining
        C.Stream.reads C.Stream.writes C.Stream.flushes place
        → Appends (C.Stream.contents before) (C.Stream.contents after)
        (sent_bytes C.looks C.Stream.contents C.Stream.remaining
        C.Stream.reads C.Stream.writes C.Stream.flushes place false all before after carried) }
    ensures requests { (limits : Limits) (place : Place) (all : List Asked)
        (before after : C.Stream) (carried : Carries C.looks C.Stream.contents C.Stream.remaining
        C.Stream.reads C.Stream.writes C.Stream.flushes place false all before after)
        (more : List ℕ) → TakesAll limits place all
        → BeginsWithRequests limits place all
        (sent_bytes C.looks C.Stream.contents C.Stream.remaining
        C.Stream.reads C.Stream.writes C.Stream.flushes
        place false all before after carried ++ more) more }
{}

/// The bytes that were read from a connection are the replies to its requests, in their order: the
/// n-th reply is the n-th message, whatever follows.
pub fn replies_stay_in_order<C: KeepAliveConnect>()
    ensures { (place : Place) (all : List Asked) (before after : C.Stream)
        (carried : Carries C.looks C.Stream.contents C.Stream.remaining
        C.Stream.reads C.Stream.writes C.Stream.flushes place false all before after)
        (more : List ℕ)
        → AreKnown C.looks C.Stream.contents C.Stream.remaining
        C.Stream.reads C.Stream.writes C.Stream.flushes place false all before after carried
        → BeginsWithReplies all
        (read_bytes C.looks C.Stream.contents C.Stream.remaining
        C.Stream.reads C.Stream.writes C.Stream.flushes
        place false all before after carried ++ more) more }
{}

/// Each idle connection of a client carried exchanges one after the other since it was opened, all
/// for its own place; a new client has none, and each call leaves it so. So the reply of a call is
/// the next message of its connection.
pub fn each_idle_connection_has_a_history<C: KeepAliveConnect>()
    ensures { (before : KeepAliveClient C C.Stream) (request : HttpRequest)
        (result : Result HttpResponse (KeepAliveError C.Error))
        (after : KeepAliveClient C C.Stream)
        → EachHasHistory C.opens C.looks C.Stream.contents C.Stream.remaining
        C.Stream.reads C.Stream.writes C.Stream.flushes before
        → Calls C.opens C.looks C.Stream.contents C.Stream.remaining
        C.Stream.reads C.Stream.writes C.Stream.flushes before request result after
        → KeepsHistories C.opens C.looks C.Stream.contents C.Stream.remaining
        C.Stream.reads C.Stream.writes C.Stream.flushes before request result after }
{}

/// The reply of a call is the next message of its connection, behind the replies to all earlier
/// requests since it was opened; so are the bytes of the request. It has such a history.
pub fn each_reply_is_the_next_message<C: KeepAliveConnect>()
    ensures next { (before : KeepAliveClient C C.Stream) (request : HttpRequest)
        (response : HttpResponse) (after : KeepAliveClient C C.Stream)
        (did : Answers C.opens C.looks C.Stream.contents C.Stream.remaining
        C.Stream.reads C.Stream.writes C.Stream.flushes before request response after)
        (history : HasHistory C.opens C.looks C.Stream.contents C.Stream.remaining
        C.Stream.reads C.Stream.writes C.Stream.flushes did.place did.gets.taken)
        → IsNext C.opens C.looks C.Stream.contents C.Stream.remaining
        C.Stream.reads C.Stream.writes C.Stream.flushes did.place did.gets.taken history
        (asked_of before request response) did.exchange.wrote.bytes did.exchange.sent }
    ensures history { (before : KeepAliveClient C C.Stream) (request : HttpRequest)
        (response : HttpResponse) (after : KeepAliveClient C C.Stream)
        → EachHasHistory C.opens C.looks C.Stream.contents C.Stream.remaining
        C.Stream.reads C.Stream.writes C.Stream.flushes before
        → (did : Answers C.opens C.looks C.Stream.contents C.Stream.remaining
        C.Stream.reads C.Stream.writes C.Stream.flushes before request response after)
        → HasHistory C.opens C.looks C.Stream.contents C.Stream.remaining
        C.Stream.reads C.Stream.writes C.Stream.flushes did.place did.gets.taken }
{}

/// The result of a request that meets its contract over this client says which bytes were written
/// to which connection, and which message of this connection the result was read from.
pub fn each_result_is_from_kept_bytes<C: KeepAliveConnect, D: FromJson, T: FromJson>()
    ensures body { EachIsFromKeptBytes C.opens C.looks C.Stream.contents C.Stream.remaining
        C.Stream.reads C.Stream.writes C.Stream.flushes
        D.meaning T.meaning }
    ensures status_only { EachIsFromKeptBytes C.opens C.looks C.Stream.contents C.Stream.remaining
        C.Stream.reads C.Stream.writes C.Stream.flushes
        (λ (done : ⊤). done) T.meaning }
{}
