//! Tests of the URL of an issuer's metadata, if the issuer is a `Url`.

use oauth2_metadata::{metadata_url, openid_metadata_url};
use oauth2_tests_support::{check_text, url};
use std::test::Fail;

// The issuer of RFC 8414, section 3.1, with a slash at its end. Scripts test other issuers.
#[test]
fn places(rt: HostRuntime) -> Result<(), Fail> {
    let alloc = rt.alloc();
    let issuer = url(alloc, "https://example.com/issuer1/")?;
    check_text(
        metadata_url(alloc, &issuer)?.as_str(),
        "https://example.com/.well-known/oauth-authorization-server/issuer1",
    )?;
    check_text(
        openid_metadata_url(alloc, &issuer)?.as_str(),
        "https://example.com/issuer1/.well-known/openid-configuration",
    )
}
