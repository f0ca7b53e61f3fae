//! Tests of requests and of their replies: the module `messages` has those through the names of
//! `oauth2`, and `metadata` those of `oauth2_metadata`.

#![tactic(auto)]

#[cfg(test)]
mod messages;
#[cfg(test)]
mod metadata;
