//! Tests of the content of a request, how a server decodes it, how it is sent and how its reply is
//! read, through the names of `oauth2`. They test what the stored scripts of `oauth2_run`
//! cannot.

mod added_params;
mod each_request;
mod endpoint_requests;
mod error_texts;
mod form_encoding;
mod one_shot;
mod replies;
mod views;
