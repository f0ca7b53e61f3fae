//! The clock of the runtime, and one in its place.

use oauth2_client_secret_jwt::{Clock, RuntimeClock};
use oauth2_tests_support::{check, check_equal};
use std::io;
use std::test::Fail;
use std::time::Duration;

struct Standing;

impl std::time::Clock for Standing {
    fn monotonic(&self) -> io::Result<Duration> {
        Ok(Duration::ZERO)
    }

    fn since_1970(&self) -> io::Result<Duration> {
        Ok(Duration::from_secs(1_300_819_380))
    }
}

#[test]
fn clocks(rt: HostRuntime) -> Result<(), Fail> {
    match RuntimeClock::new(&Standing).now() {
        Ok(moment) => check_equal(moment.as_second(), 1_300_819_380)?,
        Err(_) => return Err(Fail::new("no time")),
    }
    check(RuntimeClock::new(&rt).now().is_ok(), "the runtime's clock")
}
