//! Prints what a keeper keeps, and until when its token is used.

use crate::client::OneReply;
use crate::values::{show_duration, show_moment};
use jiff::Timestamp;
use oauth2_keeper::{BasicPatientKeeper, BasicTokenKeeper};
use oauth2_refusals_support::Ended;
use oauth2_retry_after::TellsBusy;
use std::alloc::Global;
use std::io::Write;

/// Prints what a keeper keeps.
pub fn show_kept<W: Write>(out: &mut W, keeper: &BasicTokenKeeper<'_>) -> Result<(), Ended> {
    show_moment(out, "accepted at", keeper.accepted_at())?;
    show_duration(out, "lifetime", keeper.lifetime())?;
    show_moment(out, "good until", keeper.good_until())?;
    if let Some(token) = keeper.refresh_token() {
        writeln!(out, "refresh token {}", token.secret().as_str())?;
    }
    Ok(())
}

fn bytes_by_token(
    alloc: Global,
    keeper: &mut BasicPatientKeeper<'_>,
    now: Timestamp,
) -> Option<usize> {
    let mut http_client = TellsBusy::new(OneReply::without_reply());
    match keeper.token(alloc, now, &mut http_client) {
        Ok(token) => Some(token.secret().len()),
        Err(_) => None,
    }
}

fn bytes_by_with_token(
    alloc: Global,
    keeper: &mut BasicPatientKeeper<'_>,
    now: Timestamp,
) -> Option<usize> {
    let mut http_client = TellsBusy::new(OneReply::without_reply());
    keeper
        .with_token(alloc, now, &mut http_client, |token| token.secret().len())
        .ok()
}

/// Prints how many bytes the kept token has, by each of the two calls that return it (`token` and
/// `with_token`).
pub fn show_lent<W: Write>(
    alloc: Global,
    keeper: &mut BasicPatientKeeper<'_>,
    now: Timestamp,
    out: &mut W,
) -> Result<(), Ended> {
    let token = bytes_by_token(alloc, keeper, now);
    let with_token = bytes_by_with_token(alloc, keeper, now);
    writeln!(out, "lent {token:?} {with_token:?}")?;
    Ok(())
}
