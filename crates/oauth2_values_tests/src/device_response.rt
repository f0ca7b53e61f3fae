//! The members of a device authorization response (RFC 8628, section 3.2).

use oauth2::{EmptyExtraDeviceAuthorizationFields, StandardDeviceAuthorizationResponse};
use oauth2_tests_support::{check_equal, check_text, read};
use std::ops::Deref;
use std::test::Fail;
use std::time::Duration;

fn check_texts(device: &StandardDeviceAuthorizationResponse) -> Result<(), Fail> {
    check_text(device.device_code().secret().as_str(), "d")?;
    check_text(device.user_code().secret().as_str(), "u")?;
    check_text(device.verification_uri().deref().as_str(), "https://v/")?;
    let complete = device.verification_uri_complete().ok_or("no complete URI")?;
    check_text(complete.secret().as_str(), "https://v/u")
}

fn check_times(device: &StandardDeviceAuthorizationResponse) -> Result<(), Fail> {
    check_equal(device.expires_in(), Duration::from_secs(300))?;
    check_equal(device.interval(), Duration::from_secs(7))
}

#[test]
fn members_of_a_device_response(rt: HostRuntime) -> Result<(), Fail> {
    let device = read::<StandardDeviceAuthorizationResponse>(
        rt.alloc(),
        "{\"device_code\":\"d\",\"expires_in\":300,\"interval\":7,\"user_code\":\"u\",\
        \"verification_uri\":\"https://v/\",\"verification_uri_complete\":\"https://v/u\"}",
    )?;
    check_texts(&device)?;
    check_times(&device)?;
    let EmptyExtraDeviceAuthorizationFields {} = device.extra_fields();
    Ok(())
}
