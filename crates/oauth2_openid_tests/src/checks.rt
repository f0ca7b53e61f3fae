//! Tests of ID tokens that meet each rule, and of ID tokens that break one.

use crate::support::{ACCESS_TOKEN, APPENDIX_A2, assert_text_at, read, text, token};
use jiff::Timestamp;
use oauth2_openid::{AccessTokenHash, ClaimsError, Expected, IssuerRule, Nonce};
use oauth2_types::{AccessToken, ClientId};
use std::process::Abort;
use std::time::Duration;

// A list of texts.
fn texts(rt: &(impl Abort + AllocGlobal), texts: &[&str]) -> Vec<String> {
    let mut list = Vec::new(rt.alloc());
    for each in texts {
        list.push(text(rt, *each)).expect(rt, "a list");
    }
    list
}

// What the client of the standard's examples expects of this issuer. It also trusts another
// audience and another authorized party.
fn expected_of(rt: &(impl Abort + AllocGlobal), issuer: IssuerRule) -> Expected {
    Expected {
        issuer,
        client_id: ClientId::new(text(rt, "s6BhdRkqt3")),
        other_audiences: texts(rt, &["other"]),
        authorized_parties: texts(rt, &["app"]),
        algorithm: None,
        nonce: Some(Nonce::new(text(rt, "n-0S6_WzA2Mj"))),
        leeway: Duration::from_secs(0),
        max_age: Some(Duration::from_secs(100)),
    }
}

// What the client of the standard's examples expects.
fn expected(rt: &(impl Abort + AllocGlobal)) -> Expected {
    expected_of(rt, IssuerRule::Is(text(rt, "https://server.example.com")))
}

// What the client of appendix A expects, which sent no maximum age.
fn expected_in_appendix(rt: &(impl Abort + AllocGlobal)) -> Expected {
    let mut wanted = expected_of(rt, IssuerRule::Is(text(rt, "http://server.example.com")));
    wanted.max_age = None;
    wanted
}

// The claims of the example in section 2, with the members that a row adds. If a name is there
// twice, its last value is read.
fn claims(rt: &(impl Abort + AllocGlobal), more: &str) -> String {
    format!(in rt.alloc(); "{{{SECTION_2}{more}}}").expect(rt, "claims")
}

const SECTION_2: &str = r#""iss":"https://server.example.com","sub":"24400320","aud":"s6BhdRkqt3",
    "nonce":"n-0S6_WzA2Mj","exp":1311281970,"iat":1311280970,"auth_time":1311280969,
    "acr":"urn:mace:incommon:iap:silver""#;

// What a check of the token returns at that second.
fn check_at(
    rt: &(impl Abort + AllocGlobal),
    token: &str,
    wanted: &Expected,
    second: i64,
) -> Result<AccessTokenHash, ClaimsError> {
    let now = Timestamp::from_second(second).ok().expect(rt, "a time");
    let access_token = AccessToken::new(text(rt, ACCESS_TOKEN));
    let token = read(rt, token);
    token.check(wanted, &access_token, now)
}

fn word_of(
    rt: &(impl Abort + AllocGlobal),
    checked: Result<AccessTokenHash, ClaimsError>,
) -> String {
    match checked {
        Ok(hash) => format!(in rt.alloc(); "{hash:?}").expect(rt, "a word"),
        Err(error) => format!(in rt.alloc(); "{error:?}").expect(rt, "a word"),
    }
}

// What a check of the token returns at that second, as one word. It takes what the client expects,
// so that only this function drops one: its drop is proved by many cases.
fn word(rt: &(impl Abort + AllocGlobal), token: &str, wanted: Expected, second: i64) -> String {
    let result = check_at(rt, token, &wanted, second);
    word_of(rt, result)
}

// Checks what a check of the token at that second returns.
fn assert_checked_as(
    rt: &(impl Abort + AllocGlobal),
    token: &str,
    wanted: Expected,
    second: i64,
    word_wanted: &str,
) {
    assert_text_at(
        rt,
        word(rt, token, wanted, second).as_str(),
        word_wanted,
        token,
    );
}

// Checks what a check returns for the claims of section 2, with this header and these members.
fn assert_row(
    rt: &(impl Abort + AllocGlobal),
    wanted: Expected,
    header: &str,
    more: &str,
    word_wanted: &str,
) {
    let token = token(rt, header, claims(rt, more).as_str());
    let found = word(rt, token.as_str(), wanted, 1311281000);
    assert_text_at(rt, found.as_str(), word_wanted, more);
}

const RS256: &str = r#"{"alg":"RS256"}"#;

// The members about the user, the start and the login that are added, and what the check returns.
// Each test has a short table, since its proof grows with the rows.
const STARTS: [(&str, &str); 16] = [
    ("", "Absent"),
    (r#","sub":"""#, "NoSubject"),
    (r#","sub":"","aud":"x""#, "NoSubject"),
    (r#","sub":" ""#, "Absent"),
    (r#","nbf":1311281000"#, "Absent"),
    (r#","nbf":1311281001"#, "NotYetValid"),
    (r#","nbf":1311281000.5"#, "NotYetValid"),
    (r#","nbf":1311280999.5"#, "Absent"),
    (r#","nbf":-1"#, "Absent"),
    (r#","nbf":null"#, "Absent"),
    (r#","nbf":"1311280999""#, "NotYetValid"),
    (r#","nbf":1e99"#, "NotYetValid"),
    (r#","auth_time":1311281001"#, "AuthLater"),
    (r#","auth_time":1311281000.5"#, "AuthLater"),
    (r#","auth_time":1311281000"#, "Absent"),
    (r#","auth_time":1311281001,"nbf":1311281001"#, "AuthLater"),
];

#[test]
fn names_the_rule_that_the_user_or_the_start_breaks(rt: HostRuntime) {
    for (more, word_wanted) in STARTS {
        assert_row(&rt, expected(&rt), RS256, more, word_wanted);
    }
}

// The issuers, audiences and authorized parties that are added, and what the check returns.
const PARTIES: [(&str, &str); 17] = [
    (r#","iss":"https://server.example.com/""#, "OtherIssuer"),
    (r#","iss":"https://Server.example.com""#, "OtherIssuer"),
    (r#","iss":"""#, "OtherIssuer"),
    (r#","aud":"s6BhdRkqt""#, "OtherAudience"),
    (r#","aud":[]"#, "OtherAudience"),
    (r#","aud":["s6BhdRkqt3"]"#, "Absent"),
    (r#","aud":["other","s6BhdRkqt3"]"#, "NoAuthorizedParty"),
    (r#","aud":["s6BhdRkqt3","s6BhdRkqt3"]"#, "NoAuthorizedParty"),
    (
        r#","aud":["other","s6BhdRkqt3"],"azp":"s6BhdRkqt3""#,
        "Absent",
    ),
    (
        r#","aud":["other","s6BhdRkqt3"],"azp":"other""#,
        "OtherAuthorizedParty",
    ),
    (r#","aud":["other"],"azp":"s6BhdRkqt3""#, "OtherAudience"),
    (
        r#","aud":["s6BhdRkqt3","x"],"azp":"s6BhdRkqt3""#,
        "UntrustedAudience",
    ),
    (r#","aud":["s6BhdRkqt3","x"]"#, "UntrustedAudience"),
    (r#","aud":["other","s6BhdRkqt3"],"azp":"app""#, "Absent"),
    (r#","azp":"app""#, "Absent"),
    (r#","azp":"s6BhdRkqt3""#, "Absent"),
    (r#","azp":"other""#, "OtherAuthorizedParty"),
];

#[test]
fn names_the_rule_that_the_issuer_or_the_audience_breaks(rt: HostRuntime) {
    for (more, word_wanted) in PARTIES {
        assert_row(&rt, expected(&rt), RS256, more, word_wanted);
    }
}

// The times, nonces and hashes that are added, and what the check returns.
const CLAIMS: [(&str, &str); 24] = [
    (r#","exp":1311281001"#, "Absent"),
    (r#","exp":1311281000"#, "Expired"),
    (r#","exp":1311280999"#, "Expired"),
    (r#","exp":-1"#, "Expired"),
    (r#","exp":1311281000.5"#, "Absent"),
    (r#","iat":1311281000.5"#, "IssuedLater"),
    (r#","auth_time":"1311280969""#, "NoAuthTime"),
    (r#","auth_time":1311280899.9"#, "AuthTooOld"),
    (r#","acr":0,"amr":"pwd""#, "Absent"),
    (r#","iat":1311281000"#, "Absent"),
    (r#","iat":1311281001"#, "IssuedLater"),
    (r#","nonce":null"#, "NoNonce"),
    (r#","nonce":"n-0S6_WzA2Mk""#, "OtherNonce"),
    (r#","nonce":"n-0S6_WzA2M""#, "OtherNonce"),
    (r#","auth_time":null"#, "NoAuthTime"),
    (r#","auth_time":1311280900"#, "Absent"),
    (r#","auth_time":1311280899"#, "AuthTooOld"),
    (r#","iss":"x","aud":"x","exp":0"#, "OtherIssuer"),
    (r#","at_hash":"77QmUPtjPfzWtF2AnpK9RQ""#, "Matches"),
    (r#","at_hash":"2SmKENGwc1g33EvYXaxkGw""#, "OtherAccessToken"),
    (
        r#","at_hash":"77QmUPtjPfzWtF2AnpK9RQ==""#,
        "OtherAccessToken",
    ),
    (r#","at_hash":"77QmUPtjPfzWtF2AnpK9R""#, "OtherAccessToken"),
    (
        r#","at_hash":"77QmUPtjPfzWtF2AnpK9RWpXrWlrecdbLUyJDIb7S6Q""#,
        "OtherAccessToken",
    ),
    (r#","at_hash":"""#, "OtherAccessToken"),
];

#[test]
fn names_the_rule_that_another_claim_breaks(rt: HostRuntime) {
    for (more, word_wanted) in CLAIMS {
        assert_row(&rt, expected(&rt), RS256, more, word_wanted);
    }
}

// The header with its type, the members that are added, and what the check returns.
const TYPES: [(&str, &str, &str); 17] = [
    (r#"{"alg":"RS256","typ":"JWT"}"#, "", "Absent"),
    (r#"{"alg":"RS256","typ":"jwt"}"#, "", "Absent"),
    (r#"{"alg":"RS256","typ":"Jwt"}"#, "", "Absent"),
    (r#"{"alg":"RS256","typ":"application/jwt"}"#, "", "Absent"),
    (r#"{"alg":"RS256","typ":"Application/JWT"}"#, "", "Absent"),
    (r#"{"alg":"RS256","typ":"at+jwt"}"#, "", "OtherType"),
    (
        r#"{"alg":"RS256","typ":"application/at+jwt"}"#,
        "",
        "OtherType",
    ),
    (r#"{"alg":"RS256","typ":"logout+jwt"}"#, "", "OtherType"),
    (r#"{"alg":"RS256","typ":"secevent+jwt"}"#, "", "OtherType"),
    (r#"{"alg":"RS256","typ":"dpop+jwt"}"#, "", "OtherType"),
    (r#"{"alg":"RS256","typ":"JWT "}"#, "", "OtherType"),
    (
        r#"{"alg":"RS256","typ":"application/application/jwt"}"#,
        "",
        "OtherType",
    ),
    (r#"{"alg":"RS256","typ":""}"#, "", "OtherType"),
    (r#"{"alg":"RS256","typ":null}"#, "", "OtherType"),
    (r#"{"alg":"RS256","typ":1}"#, "", "OtherType"),
    (r#"{"alg":"RS256","typ":["JWT"]}"#, "", "OtherType"),
    (
        r#"{"alg":"RS256","typ":"at+jwt"}"#,
        r#","iss":"x""#,
        "OtherType",
    ),
];

#[test]
fn names_the_type_that_is_no_id_token(rt: HostRuntime) {
    for (header, more, word_wanted) in TYPES {
        assert_row(&rt, expected(&rt), header, more, word_wanted);
    }
}

// The header without a type, the members that are added, and what the check returns.
const HEADERS: [(&str, &str, &str); 15] = [
    (r#"{"alg":"RS256","b64":true}"#, "", "Absent"),
    (r#"{"alg":"RS256","b64":false}"#, "", "UnencodedPayload"),
    (r#"{"alg":"RS256","b64":null}"#, "", "UnencodedPayload"),
    (r#"{"alg":"RS256","b64":"true"}"#, "", "UnencodedPayload"),
    (
        r#"{"alg":"RS256","b64":false,"typ":"at+jwt"}"#,
        "",
        "UnencodedPayload",
    ),
    (
        r#"{"alg":"RS256","b64":false,"crit":["b64"]}"#,
        "",
        "CriticalExtension",
    ),
    (r#"{"alg":"none"}"#, "", "NoSignature"),
    (r#"{"alg":"none"}"#, r#","iss":"x""#, "NoSignature"),
    (r#"{"alg":"None"}"#, "", "NoSignature"),
    (r#"{"alg":"nOnE"}"#, "", "NoSignature"),
    (r#"{"alg":""}"#, "", "NoSignature"),
    (
        r#"{"alg":"RS256","crit":["exp"],"exp":1363284000}"#,
        "",
        "CriticalExtension",
    ),
    (r#"{"alg":"RS256","crit":null}"#, "", "CriticalExtension"),
    (
        r#"{"alg":"RS256","crit":["exp"]}"#,
        r#","iss":"x""#,
        "CriticalExtension",
    ),
    (r#"{"alg":"none","crit":["exp"]}"#, "", "NoSignature"),
];

#[test]
fn names_the_rule_that_the_header_breaks(rt: HostRuntime) {
    for (header, more, word_wanted) in HEADERS {
        assert_row(&rt, expected(&rt), header, more, word_wanted);
    }
}

// The header with its algorithm, the hash that is added, and what the check returns.
const HASHES: [(&str, &str, &str); 17] = [
    (
        r#"{"alg":"ES256"}"#,
        r#","at_hash":"77QmUPtjPfzWtF2AnpK9RQ""#,
        "Matches",
    ),
    (
        r#"{"alg":"PS256"}"#,
        r#","at_hash":"77QmUPtjPfzWtF2AnpK9RQ""#,
        "Matches",
    ),
    (
        r#"{"alg":"HS256"}"#,
        r#","at_hash":"77QmUPtjPfzWtF2AnpK9RQ""#,
        "Matches",
    ),
    (
        r#"{"alg":"RS384"}"#,
        r#","at_hash":"jtAeDp945y1dDqU3nkIVGNZP1HjH_MFs""#,
        "Matches",
    ),
    (
        r#"{"alg":"ES384"}"#,
        r#","at_hash":"jtAeDp945y1dDqU3nkIVGNZP1HjH_MFs""#,
        "Matches",
    ),
    (
        r#"{"alg":"PS384"}"#,
        r#","at_hash":"jtAeDp945y1dDqU3nkIVGNZP1HjH_MFs""#,
        "Matches",
    ),
    (
        r#"{"alg":"HS384"}"#,
        r#","at_hash":"jtAeDp945y1dDqU3nkIVGNZP1HjH_MFs""#,
        "Matches",
    ),
    (
        r#"{"alg":"RS512"}"#,
        r#","at_hash":"q7nS86GgvvFaZkzALLWqJYaJIKw2wCDAVfCAsm5CrBM""#,
        "Matches",
    ),
    (
        r#"{"alg":"ES512"}"#,
        r#","at_hash":"q7nS86GgvvFaZkzALLWqJYaJIKw2wCDAVfCAsm5CrBM""#,
        "Matches",
    ),
    (
        r#"{"alg":"PS512"}"#,
        r#","at_hash":"q7nS86GgvvFaZkzALLWqJYaJIKw2wCDAVfCAsm5CrBM""#,
        "Matches",
    ),
    (
        r#"{"alg":"HS512"}"#,
        r#","at_hash":"q7nS86GgvvFaZkzALLWqJYaJIKw2wCDAVfCAsm5CrBM""#,
        "Matches",
    ),
    (
        r#"{"alg":"ES384"}"#,
        r#","at_hash":"77QmUPtjPfzWtF2AnpK9RQ""#,
        "OtherAccessToken",
    ),
    (
        r#"{"alg":"RS512"}"#,
        r#","at_hash":"jtAeDp945y1dDqU3nkIVGNZP1HjH_MFs""#,
        "OtherAccessToken",
    ),
    (
        r#"{"alg":"EdDSA"}"#,
        r#","at_hash":"q7nS86GgvvFaZkzALLWqJYaJIKw2wCDAVfCAsm5CrBM""#,
        "Matches",
    ),
    (
        r#"{"alg":"EdDSA"}"#,
        r#","at_hash":"77QmUPtjPfzWtF2AnpK9RQ""#,
        "OtherAccessToken",
    ),
    (
        r#"{"alg":"ES256K"}"#,
        r#","at_hash":"77QmUPtjPfzWtF2AnpK9RQ""#,
        "NotChecked",
    ),
    (
        r#"{"alg":"rs256"}"#,
        r#","at_hash":"77QmUPtjPfzWtF2AnpK9RQ""#,
        "NotChecked",
    ),
];

#[test]
fn compares_the_hash_by_the_algorithm(rt: HostRuntime) {
    for (header, more, word_wanted) in HASHES {
        assert_row(&rt, expected(&rt), header, more, word_wanted);
    }
}

// The same for the names of RFC 9864.
const HASHES_BY_CURVE: [(&str, &str, &str); 7] = [
    (
        r#"{"alg":"ESP256"}"#,
        r#","at_hash":"77QmUPtjPfzWtF2AnpK9RQ""#,
        "Matches",
    ),
    (
        r#"{"alg":"ESP384"}"#,
        r#","at_hash":"jtAeDp945y1dDqU3nkIVGNZP1HjH_MFs""#,
        "Matches",
    ),
    (
        r#"{"alg":"ESP512"}"#,
        r#","at_hash":"q7nS86GgvvFaZkzALLWqJYaJIKw2wCDAVfCAsm5CrBM""#,
        "Matches",
    ),
    (
        r#"{"alg":"Ed25519"}"#,
        r#","at_hash":"q7nS86GgvvFaZkzALLWqJYaJIKw2wCDAVfCAsm5CrBM""#,
        "Matches",
    ),
    (
        r#"{"alg":"ESP256"}"#,
        r#","at_hash":"jtAeDp945y1dDqU3nkIVGNZP1HjH_MFs""#,
        "OtherAccessToken",
    ),
    (
        r#"{"alg":"Ed25519"}"#,
        r#","at_hash":"77QmUPtjPfzWtF2AnpK9RQ""#,
        "OtherAccessToken",
    ),
    (
        r#"{"alg":"Ed448"}"#,
        r#","at_hash":"q7nS86GgvvFaZkzALLWqJYaJIKw2wCDAVfCAsm5CrBM""#,
        "NotChecked",
    ),
];

#[test]
fn compares_the_hash_by_an_algorithm_that_tells_the_curve(rt: HostRuntime) {
    for (header, more, word_wanted) in HASHES_BY_CURVE {
        assert_row(&rt, expected(&rt), header, more, word_wanted);
    }
}

// The algorithm that the client registered, the header, and what the check returns.
const ALGORITHMS: [(&str, &str, &str); 5] = [
    ("RS256", r#"{"alg":"RS256"}"#, "Absent"),
    ("RS256", r#"{"alg":"HS256"}"#, "OtherAlgorithm"),
    ("RS256", r#"{"alg":"none"}"#, "OtherAlgorithm"),
    ("none", r#"{"alg":"none"}"#, "Absent"),
    ("none", r#"{"alg":"RS256"}"#, "OtherAlgorithm"),
];

// What a client expects that registered this algorithm.
fn expected_with_algorithm(rt: &(impl Abort + AllocGlobal), algorithm: &str) -> Expected {
    let mut wanted = expected(rt);
    wanted.algorithm = Some(text(rt, algorithm));
    wanted
}

#[test]
fn takes_the_registered_algorithm(rt: HostRuntime) {
    for (algorithm, header, word_wanted) in ALGORITHMS {
        assert_row(
            &rt,
            expected_with_algorithm(&rt, algorithm),
            header,
            "",
            word_wanted,
        );
    }
}

// Claims that break each rule.
const BROKEN: &str = r#","iss":"x","sub":"","aud":["x","y"],"exp":0,"iat":1311281001,"nonce":"x",
    "auth_time":1311281001,"nbf":1311281001,"at_hash":"x""#;

// The header, the members that are added to those of the rows before, and what the check returns.
// Each row corrects what the row before it reported.
const ORDER: [(&str, &str, &str); 16] = [
    (
        r#"{"alg":"none","crit":[],"b64":false,"typ":"x"}"#,
        "",
        "NoSignature",
    ),
    (
        r#"{"alg":"RS256","crit":[],"b64":false,"typ":"x"}"#,
        "",
        "CriticalExtension",
    ),
    (
        r#"{"alg":"RS256","b64":false,"typ":"x"}"#,
        "",
        "UnencodedPayload",
    ),
    (r#"{"alg":"RS256","typ":"x"}"#, "", "OtherType"),
    (RS256, "", "OtherIssuer"),
    (RS256, r#","iss":"https://server.example.com""#, "NoSubject"),
    (RS256, r#","sub":"24400320""#, "OtherAudience"),
    (RS256, r#","aud":["x","s6BhdRkqt3"]"#, "UntrustedAudience"),
    (
        RS256,
        r#","aud":["other","s6BhdRkqt3"]"#,
        "NoAuthorizedParty",
    ),
    (RS256, r#","azp":"s6BhdRkqt3""#, "Expired"),
    (RS256, r#","exp":1311281970"#, "IssuedLater"),
    (RS256, r#","iat":1311280970"#, "OtherNonce"),
    (RS256, r#","nonce":"n-0S6_WzA2Mj""#, "AuthLater"),
    (RS256, r#","auth_time":0"#, "AuthTooOld"),
    (RS256, r#","auth_time":1311280969"#, "NotYetValid"),
    (RS256, r#","nbf":1311281000"#, "OtherAccessToken"),
];

#[test]
fn names_the_first_rule(rt: HostRuntime) {
    let mut more = text(&rt, BROKEN);
    for (header, mend, word_wanted) in ORDER {
        more.push_str(mend).expect(&rt, "members");
        assert_row(&rt, expected(&rt), header, more.as_str(), word_wanted);
    }
}

// A token that was issued at 900 after a login at 900, and expires at 1000.
fn token_of_900(rt: &(impl Abort + AllocGlobal)) -> String {
    let claims = claims(rt, r#","exp":1000,"iat":900,"auth_time":900"#);
    token(rt, RS256, claims.as_str())
}

// The leeway and the maximum age in seconds, the second of the check, and what it returns.
const TIMES: [(u64, u64, i64, &str); 14] = [
    (60, 100, -1, "IssuedLater"),
    (60, 100, 839, "IssuedLater"),
    (60, 100, 840, "Absent"),
    (60, 100, 1059, "Absent"),
    (60, 100, 1060, "Expired"),
    (60, 100, 253402207200, "Expired"),
    (u64::MAX, u64::MAX, 253402207200, "Absent"),
    (0, 50, 900, "Absent"),
    (0, 50, 950, "Absent"),
    (0, 50, 951, "AuthTooOld"),
    (10, 50, 960, "Absent"),
    (10, 50, 961, "AuthTooOld"),
    (10, u64::MAX, 961, "Absent"),
    (0, 0, 900, "Absent"),
];

// What a client expects with this leeway and this maximum age, in seconds.
fn expected_within(rt: &(impl Abort + AllocGlobal), leeway: u64, max_age: u64) -> Expected {
    let mut wanted = expected(rt);
    wanted.leeway = Duration::from_secs(leeway);
    wanted.max_age = Some(Duration::from_secs(max_age));
    wanted
}

#[test]
fn takes_the_leeway_on_the_right_side(rt: HostRuntime) {
    let token = token_of_900(&rt);
    for (leeway, max_age, second, word_wanted) in TIMES {
        let wanted = expected_within(&rt, leeway, max_age);
        assert_checked_as(&rt, token.as_str(), wanted, second, word_wanted);
    }
}

// What the client of appendix A expects if it sent no nonce, and this maximum age, if any.
fn expected_without_nonce(rt: &(impl Abort + AllocGlobal), max_age: Option<Duration>) -> Expected {
    let mut wanted = expected_in_appendix(rt);
    wanted.nonce = None;
    wanted.max_age = max_age;
    wanted
}

#[test]
fn asks_for_the_nonce_that_was_sent(rt: HostRuntime) {
    let claims =
        r#"{"iss":"http://server.example.com","sub":"1","aud":"s6BhdRkqt3","exp":1000,"iat":900}"#;
    let no_nonce = token(&rt, RS256, claims);
    let wanted = expected_in_appendix(&rt);
    assert_checked_as(&rt, APPENDIX_A2, wanted, 1311281000, "Absent");
    let wanted = expected_in_appendix(&rt);
    assert_checked_as(&rt, APPENDIX_A2, wanted, 1311281970, "Expired");
    let wanted = expected_in_appendix(&rt);
    assert_checked_as(&rt, no_nonce.as_str(), wanted, 950, "NoNonce");
    let wanted = expected_without_nonce(&rt, None);
    assert_checked_as(&rt, APPENDIX_A2, wanted, 1311281000, "NonceNotSent");
    let wanted = expected_without_nonce(&rt, None);
    assert_checked_as(&rt, no_nonce.as_str(), wanted, 950, "Absent");
    let wanted = expected_without_nonce(&rt, Some(Duration::from_secs(100)));
    assert_checked_as(&rt, no_nonce.as_str(), wanted, 950, "NoAuthTime");
}

// The claims that are added, and what the check returns to a client of a provider with tenants.
const TENANTS: [(&str, &str); 5] = [
    (
        r#","iss":"https://login.microsoftonline.com/t1/v2.0","tid":"t1""#,
        "Absent",
    ),
    (
        r#","iss":"https://login.microsoftonline.com/t1/v2.0","tid":"t2""#,
        "OtherIssuer",
    ),
    (
        r#","iss":"https://login.microsoftonline.com/t1/v2.0""#,
        "OtherIssuer",
    ),
    (
        r#","iss":"https://login.microsoftonline.com/t1/v1.0","tid":"t1""#,
        "OtherIssuer",
    ),
    (
        r#","iss":"https://login.microsoftonline.com/t1/v2.0","tid":1"#,
        "OtherIssuer",
    ),
];

// What a client of a provider with tenants expects.
fn expected_of_a_tenant(rt: &(impl Abort + AllocGlobal)) -> Expected {
    let issuer = IssuerRule::PerTenant {
        before: text(rt, "https://login.microsoftonline.com/"),
        after: text(rt, "/v2.0"),
    };
    expected_of(rt, issuer)
}

// What a client of a provider with two issuers expects.
fn expected_of_either(rt: &(impl Abort + AllocGlobal)) -> Expected {
    let issuers = texts(rt, &["x", "https://server.example.com"]);
    expected_of(rt, IssuerRule::OneOf(issuers))
}

#[test]
fn takes_the_issuer_of_a_tenant(rt: HostRuntime) {
    for (more, word_wanted) in TENANTS {
        assert_row(&rt, expected_of_a_tenant(&rt), RS256, more, word_wanted);
    }
    assert_row(&rt, expected_of_either(&rt), RS256, "", "Absent");
    assert_row(
        &rt,
        expected_of_either(&rt),
        RS256,
        r#","iss":"y""#,
        "OtherIssuer",
    );
}
