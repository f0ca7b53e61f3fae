//! The times and durations of the rows, and how they are printed.

use jiff::Timestamp;
use oauth2_refusals_support::Ended;
use std::io::Write;
use std::time::Duration;

/// A time in seconds and nanoseconds since 1970.
pub type Moment = (i64, i32);

/// A duration in seconds and nanoseconds.
pub type Span = (u64, u64);

/// The time of so many seconds and nanoseconds since 1970.
pub fn moment((second, nanosecond): Moment) -> Result<Timestamp, Ended> {
    match Timestamp::new(second, nanosecond) {
        Ok(moment) => Ok(moment),
        Err(_) => Err(Ended::Refused),
    }
}

/// The duration of so many seconds and nanoseconds.
pub fn duration((seconds, nanoseconds): Span) -> Duration {
    Duration::from_secs(seconds).saturating_add(Duration::from_nanos(nanoseconds))
}

/// Prints a time as seconds and nanoseconds, which have the same sign.
pub fn show_moment<W: Write>(
    out: &mut W,
    name: &str,
    moment: Option<Timestamp>,
) -> Result<(), Ended> {
    match moment {
        Some(moment) => writeln!(
            out,
            "{name} {} {}",
            moment.as_second(),
            moment.subsec_nanosecond()
        )?,
        None => writeln!(out, "{name} none")?,
    }
    Ok(())
}

/// Prints a duration as seconds and nanoseconds.
pub fn show_duration<W: Write>(
    out: &mut W,
    name: &str,
    duration: Option<Duration>,
) -> Result<(), Ended> {
    match duration {
        Some(duration) => writeln!(
            out,
            "{name} {} {}",
            duration.as_secs(),
            duration.subsec_nanos()
        )?,
        None => writeln!(out, "{name} none")?,
    }
    Ok(())
}
