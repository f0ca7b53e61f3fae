//! Finds and runs the row of a name.

use crate::ends::show_login;
use crate::starts::{show_start, show_stored_login};
use crate::tokens::show_token;
use oauth2_refusals_support::{Ended, Rows};
use std::alloc::Global;
use std::io::Write;

/// The rows of logins with OpenID Connect.
pub struct OpenIdRows;

impl Rows for OpenIdRows {
    fn show_row<W: Write>(alloc: Global, name: &str, out: &mut W) -> Result<bool, Ended> {
        match name {
            "openid_start" => show_start(alloc, out),
            "openid_stored" => show_stored_login(alloc, out),
            "openid_login" => show_login(alloc, out),
            "openid_token" => show_token(alloc, out),
            _ => Err(Ended::Unknown),
        }
    }
}
