//! Tests of URLs, which keep the text that was given next to the parsed URL.

ghost use Rattle.std.specs.Prelude.{IsTrue};

use crate::support::check_copy_alike;
use oauth2::url::{ParseError, Url};
use oauth2::{
    AuthUrl, DeviceAuthorizationUrl, EndUserVerificationUrl, IntrospectionUrl, RedirectUrl,
    RevocationUrl, TokenUrl, TryClone,
};
use oauth2_tests_support::{check, check_debug, check_display, check_equal, check_text, text, url};
use std::alloc::{AllocError, Global};
use std::cmp::Ordering;
use std::fmt::{Debug, Display};
use std::hash::Hash;
use std::test::Fail;

const GIVEN: &str = "https://example.com";

const PARSED: &str = "https://example.com/";

fn given_text(alloc: Global) -> Result<String, AllocError> {
    text(alloc, GIVEN)
}

// The text that is given, and the URL that is parsed from it.
fn forms(alloc: Global) -> Result<(String, Url), Fail> {
    let given = given_text(alloc)?;
    let parsed = url(alloc, GIVEN)?;
    Ok((given, parsed))
}

// Checks the texts of a URL, its copy, and that it is less than the other one.
fn check_less<T: Debug + Display + Ord + Hash + TryClone + Drop>(
    alloc: Global,
    value: &T,
    greater: &T,
    debug: &str,
) -> Result<(), Fail> {
    check_display(alloc, value, GIVEN)?;
    check_display(alloc, greater, PARSED)?;
    check_debug(alloc, value, debug)?;
    check_copy_alike(alloc, value)?;
    check(*value != *greater && *value < *greater, debug)
}

// Checks the texts of a URL, its copy, and that it is less than a URL made from its parsed form.
fn check_ordered<T: Debug + Display + Ord + Hash + TryClone + Drop, U: Fn(&T) -> &Url>(
    alloc: Global,
    given: Result<T, ParseError>,
    parsed: Result<T, AllocError>,
    url: U,
    debug: &str,
) -> Result<(), Fail>
    requires { U.IsAlwaysCallable url }
{
    let value = given?;
    let greater = parsed?;
    check(*url(&value) == *url(&greater), debug)?;
    check_less(alloc, &value, &greater, debug)
}

// Checks the URLs that the user's browser opens.
fn check_urls_of_pages(alloc: Global) -> Result<(), Fail> {
    let (given, parsed) = forms(alloc)?;
    check_ordered(
        alloc,
        AuthUrl::new(alloc, given),
        AuthUrl::from_url(alloc, parsed),
        AuthUrl::url,
        "AuthUrl(\"https://example.com\")",
    )?;
    let (given, parsed) = forms(alloc)?;
    check_ordered(
        alloc,
        EndUserVerificationUrl::new(alloc, given),
        EndUserVerificationUrl::from_url(alloc, parsed),
        EndUserVerificationUrl::url,
        "EndUserVerificationUrl(\"https://example.com\")",
    )?;
    let (given, parsed) = forms(alloc)?;
    check_ordered(
        alloc,
        RedirectUrl::new(alloc, given),
        RedirectUrl::from_url(alloc, parsed),
        RedirectUrl::url,
        "RedirectUrl(\"https://example.com\")",
    )
}

// Checks the URLs that the client calls.
fn check_urls_of_calls(alloc: Global) -> Result<(), Fail> {
    let (given, parsed) = forms(alloc)?;
    check_ordered(
        alloc,
        DeviceAuthorizationUrl::new(alloc, given),
        DeviceAuthorizationUrl::from_url(alloc, parsed),
        DeviceAuthorizationUrl::url,
        "DeviceAuthorizationUrl(\"https://example.com\")",
    )?;
    let (given, parsed) = forms(alloc)?;
    check_ordered(
        alloc,
        IntrospectionUrl::new(alloc, given),
        IntrospectionUrl::from_url(alloc, parsed),
        IntrospectionUrl::url,
        "IntrospectionUrl(\"https://example.com\")",
    )?;
    let (given, parsed) = forms(alloc)?;
    check_ordered(
        alloc,
        RevocationUrl::new(alloc, given),
        RevocationUrl::from_url(alloc, parsed),
        RevocationUrl::url,
        "RevocationUrl(\"https://example.com\")",
    )?;
    let (given, parsed) = forms(alloc)?;
    check_ordered(
        alloc,
        TokenUrl::new(alloc, given),
        TokenUrl::from_url(alloc, parsed),
        TokenUrl::url,
        "TokenUrl(\"https://example.com\")",
    )
}

#[test]
fn urls_keep_their_texts(rt: HostRuntime) -> Result<(), Fail> {
    check_urls_of_pages(rt.alloc())?;
    check_urls_of_calls(rt.alloc())
}

#[test]
fn refused_urls(rt: HostRuntime) -> Result<(), Fail> {
    let refused = TokenUrl::new(rt.alloc(), text(rt.alloc(), "not a url")?);
    check_equal(refused.err(), Some(ParseError::RelativeUrlWithoutBase))
}

// Whether the order and the equality of two values agree.
fn is_lawful<T: Ord>(a: &T, b: &T) -> bool
    ensures { IsTrue result }
{
    (a.cmp(b) == Ordering::Equal) == (*a == *b)
}

// Checks both texts of a URL, and that a copy obeys the law.
fn check_redirect(alloc: Global, redirect: &RedirectUrl) -> Result<(), Fail> {
    check_text(redirect.as_str(), GIVEN)?;
    check_text(redirect.url().as_str(), PARSED)?;
    let same = redirect.try_clone(alloc)?;
    check(is_lawful(redirect, &same), "a copy")
}

#[test]
fn kept_texts(rt: HostRuntime) -> Result<(), Fail> {
    let redirect = RedirectUrl::new(rt.alloc(), given_text(rt.alloc())?)?;
    check_redirect(rt.alloc(), &redirect)
}
