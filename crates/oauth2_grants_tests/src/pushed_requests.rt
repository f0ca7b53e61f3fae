//! Tests of pushed authorization requests: the examples of RFC 9126, what is refused, and replies.

mod pusher;
mod replies;
mod requests;
