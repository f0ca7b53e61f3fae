//! Exchanges of `oauth2_http1` over connections in memory: tests, and what the program makes of them.

#[cfg(test)]
mod bounds;
#[cfg(test)]
mod checks;
#[cfg(test)]
mod connections;
mod exchange;
#[cfg(test)]
mod failures;
#[cfg(test)]
mod reads;
#[cfg(test)]
mod replies;
#[cfg(test)]
mod requests;
#[cfg(test)]
mod server;
#[cfg(test)]
mod texts;
#[cfg(test)]
mod timed;
pub mod token_exchange;
pub mod two_exchanges;
mod wire;
