//! Types that an application defines itself: a token type, extra fields, error codes, an error
//! response and a revocable token. A client with these types calls every endpoint, and tests call
//! the client.

#[cfg(test)]
mod client;
mod colorful_error;
mod colorful_fields;
mod colorful_token;
mod colorful_token_type;
#[cfg(test)]
mod custom_client;
mod custom_error;
#[cfg(test)]
mod kept;
#[cfg(test)]
mod tests;
