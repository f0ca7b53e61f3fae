//! Tests of extension grants, of assertions as grants, and of token exchanges: what is sent, and what
//! a reply reads to.

mod asking;
mod bearer;
mod exchanges;
mod extensions;
mod replies;
