//! Tests of `oauth2_http1_connections`, by calls over connections in memory.

mod calls;
mod peer;
mod rows;
