//! The traits of error responses and of their codes.

use oauth2_json::{FromJson, ToJson};
use std::fmt;

/// The code of an error response, which is read from JSON and written as JSON.
pub trait ErrorResponseType: FromJson + ToJson + fmt::Debug {}

/// An error response, which is read from JSON, written as JSON and displayed.
pub trait ErrorResponse: FromJson + ToJson + fmt::Debug + fmt::Display {}
