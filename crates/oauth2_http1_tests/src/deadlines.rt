//! Tests of the deadlines of `oauth2_http1_connections`: exchanges with a server in memory, by a clock
//! that goes on by one second whenever it is read. Each write, flush and read takes one reading.

mod exchanges;
mod slow_server;
