//! Tests of texts, secrets, challenges, URLs and clients, and of what is read from JSON and
//! written as JSON, through the names of `oauth2`.

#![tactic(auto)]

#[cfg(test)]
mod clients;
#[cfg(test)]
mod device_response;
#[cfg(test)]
mod error_response;
#[cfg(test)]
mod error_texts;
#[cfg(test)]
mod extra_fields;
#[cfg(test)]
mod introspection_response;
#[cfg(test)]
mod json_helpers;
#[cfg(test)]
mod kept;
#[cfg(test)]
mod named_members;
#[cfg(test)]
mod pkce;
#[cfg(test)]
mod revocable_token;
#[cfg(test)]
mod secrets;
#[cfg(test)]
mod support;
#[cfg(test)]
mod texts;
#[cfg(test)]
mod token_response;
#[cfg(test)]
mod urls;
