//! Code challenges (RFC 7636), and the random texts of states and verifiers.

use crate::support::check_debug_in_lines;
use oauth2::{CsrfToken, PkceCodeChallenge, PkceCodeChallengeMethod, PkceCodeVerifier, TryClone};
use oauth2_refusals_support::{Repeated, VERIFIER};
use oauth2_tests_support::{check, check_debug, check_equal, check_text, text};
use std::alloc::{AllocError, Global};
use std::test::Fail;

// The challenge of RFC 7636, appendix B.
const CHALLENGE: &str = "E9Melhoa2OwvFrEMTJguCHaoeK1t8URWbuGJSstw-cM";

// Checks the text, the method and the debug text of a challenge.
fn check_challenge(
    alloc: Global,
    challenge: &PkceCodeChallenge,
    text: &str,
    method: &str,
    debug: &str,
) -> Result<(), Fail> {
    check_text(challenge.as_str(), text)?;
    check_text(challenge.method().as_str(), method)?;
    check_debug(alloc, challenge, debug)
}

// The SHA-256 challenge of a verifier.
fn sha256_of(alloc: Global, verifier: &PkceCodeVerifier) -> Result<PkceCodeChallenge, Fail> {
    if !verifier.has_valid_length() {
        return Err(Fail::new("another length"));
    }
    Ok(PkceCodeChallenge::from_code_verifier_sha256(alloc, verifier)?)
}

// The SHA-256 challenge of `VERIFIER`.
fn sha256_of_verifier(alloc: Global) -> Result<PkceCodeChallenge, Fail> {
    let verifier = PkceCodeVerifier::new(text(alloc, VERIFIER)?);
    sha256_of(alloc, &verifier)
}

fn check_copy(alloc: Global, challenge: &PkceCodeChallenge) -> Result<(), Fail> {
    let copy = challenge.try_clone(alloc)?;
    check(copy == *challenge, "a copy")
}

#[test]
fn challenge_by_sha256(rt: HostRuntime) -> Result<(), Fail> {
    let challenge = sha256_of_verifier(rt.alloc())?;
    check_challenge(
        rt.alloc(),
        &challenge,
        CHALLENGE,
        "S256",
        "PkceCodeChallenge { code_challenge: \"E9Melhoa2OwvFrEMTJguCHaoeK1t8URWbuGJSstw-cM\", \
         code_challenge_method: PkceCodeChallengeMethod(\"S256\") }",
    )?;
    check_copy(rt.alloc(), &challenge)
}

fn plain(alloc: Global, verifier: &PkceCodeVerifier) -> Result<PkceCodeChallenge, Fail> {
    if !verifier.has_valid_length() {
        return Err(Fail::new("another length"));
    }
    Ok(PkceCodeChallenge::from_code_verifier_plain(alloc, verifier)?)
}

// The plain challenge of `VERIFIER`.
fn plain_of_verifier(alloc: Global) -> Result<PkceCodeChallenge, Fail> {
    let verifier = PkceCodeVerifier::new(text(alloc, VERIFIER)?);
    plain(alloc, &verifier)
}

// The same challenge, made from its parts.
fn plain_of_parts(alloc: Global) -> Result<PkceCodeChallenge, Fail> {
    let method = PkceCodeChallengeMethod::new(text(alloc, "plain")?);
    Ok(PkceCodeChallenge::from_parts(text(alloc, VERIFIER)?, method))
}

#[test]
fn plain_challenge(rt: HostRuntime) -> Result<(), Fail> {
    let challenge = plain_of_verifier(rt.alloc())?;
    check_challenge(
        rt.alloc(),
        &challenge,
        VERIFIER,
        "plain",
        "PkceCodeChallenge { code_challenge: [redacted], code_challenge_method: \
        PkceCodeChallengeMethod(\"plain\") }",
    )?;
    check_equal(plain_of_parts(rt.alloc())?, challenge)
}

#[test]
fn plain_challenge_in_lines(rt: HostRuntime) -> Result<(), Fail> {
    let challenge = plain_of_parts(rt.alloc())?;
    check_debug_in_lines(
        rt.alloc(),
        &challenge,
        "PkceCodeChallenge {\n    code_challenge: [redacted],\n\
         \x20   code_challenge_method: PkceCodeChallengeMethod(\n        \"plain\",\n    ),\n}",
    )
}

fn check_state(made: Result<CsrfToken, AllocError>, wanted: &str) -> Result<(), Fail> {
    let state = made?;
    check_text(state.secret().as_str(), wanted)
}

#[test]
fn random_states(rt: HostRuntime) -> Result<(), Fail> {
    let state = CsrfToken::new_random(rt.alloc(), &mut Repeated(0));
    check_state(state, "AAAAAAAAAAAAAAAAAAAAAA")?;
    for (n, word, wanted) in [
        (0, 0, ""),
        (1, 0xff, "_w"),
        (2, 0xffff, "__8"),
        (3, 0xbe_effb, "----"),
    ] {
        let state = CsrfToken::new_random_len(rt.alloc(), &mut Repeated(word), n);
        check_state(state, wanted)?;
    }
    Ok(())
}

// The verifier that is made from 96 zero bytes.
const LONGEST: &str =
    "AAAAAAAAAAAAAAAAAAAAAAAAAAAAAAAAAAAAAAAAAAAAAAAAAAAAAAAAAAAAAAAAAAAAAAAAAAAAAAAAAAAAAAAAAAAA\
    AAAAAAAAAAAAAAAAAAAAAAAAAAAAAAAAAAAA";

// The verifier that is made from 32 zero bytes.
const SHORTEST: &str = "AAAAAAAAAAAAAAAAAAAAAAAAAAAAAAAAAAAAAAAAAAA";

// Checks the texts of a challenge and of its verifier.
fn check_pair(
    made: Result<(PkceCodeChallenge, PkceCodeVerifier), AllocError>,
    challenge: &str,
    verifier: &str,
) -> Result<(), Fail> {
    let (made_challenge, made_verifier) = made?;
    check_text(made_challenge.as_str(), challenge)?;
    check_text(made_verifier.secret().as_str(), verifier)
}

// The SHA-256 challenges were made by Python's `hashlib`.
#[test]
fn random_challenges(rt: HostRuntime) -> Result<(), Fail> {
    let longest = PkceCodeChallenge::new_random_sha256_len(rt.alloc(), &mut Repeated(0), 96);
    check_pair(
        longest,
        "tqw8wQOGMxx2XwTwQcFH0PJ48q7Y6qAh4tAFf8b2_54",
        LONGEST,
    )?;
    let shortest = PkceCodeChallenge::new_random_sha256(rt.alloc(), &mut Repeated(0));
    check_pair(
        shortest,
        "DwBzhbb51LfusnSGBa_hqYSgo7-j8BTQnip4TOnlzRo",
        SHORTEST,
    )?;
    let plain = PkceCodeChallenge::new_random_plain(rt.alloc(), &mut Repeated(0));
    check_pair(plain, SHORTEST, SHORTEST)
}

fn check_length(alloc: Global, letter: &str, n: usize, is_valid: bool) -> Result<(), Fail> {
    let text = letter.repeat(alloc, n)?;
    let verifier = PkceCodeVerifier::new(text);
    check(verifier.has_valid_length() == is_valid, letter)
}

#[test]
fn valid_lengths(rt: HostRuntime) -> Result<(), Fail> {
    for (letter, n, is_valid) in [
        ("a", 42, false),
        ("a", 43, true),
        ("a", 128, true),
        ("a", 129, false),
        ("é", 21, false),
        ("é", 22, true),
    ] {
        check_length(rt.alloc(), letter, n, is_valid)?;
    }
    Ok(())
}
