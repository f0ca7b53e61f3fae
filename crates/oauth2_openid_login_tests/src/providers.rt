//! Tests of providers whose ID tokens have several issuers, audiences or authorized parties.

use crate::support::{check_end, finish_query, response};
use oauth2_openid::IssuerRule;
use oauth2_openid_login::{OpenIdProvider, RedirectIssuer};
use oauth2_tests_support::{OneReply, text};
use std::alloc::{AllocError, Global};
use std::test::Fail;
use std::time::Duration;

// The claims are made and encoded by Python: those of the standard's example, and then of an issuer
// as a tenant of Microsoft Entra has it, of Google's second spelling, with the `azp` of an Android
// app as Google has it, and for another audience too.
const OF_A_TENANT: &str =
    "eyJpc3MiOiJodHRwczovL2xvZ2luLm1pY3Jvc29mdG9ubGluZS5jb20vOTEyMjA0MGQtNmM2Ny00YzViLWIxMTIt\
     MzZhMzA0YjY2ZGFkL3YyLjAiLCJzdWIiOiIyNDgyODk3NjEwMDEiLCJhdWQiOiJzNkJoZFJrcXQzIiwibm9uY2Ui\
     OiJuLTBTNl9XekEyTWoiLCJleHAiOjEzMTEyODE5NzAsImlhdCI6MTMxMTI4MDk3MCwidGlkIjoiOTEyMjA0MGQt\
     NmM2Ny00YzViLWIxMTItMzZhMzA0YjY2ZGFkIn0";

const OF_THE_SECOND_SPELLING: &str =
    "eyJpc3MiOiJhY2NvdW50cy5nb29nbGUuY29tIiwic3ViIjoiMjQ4Mjg5NzYxMDAxIiwiYXVkIjoiczZCaGRSa3F0\
     MyIsIm5vbmNlIjoibi0wUzZfV3pBMk1qIiwiZXhwIjoxMzExMjgxOTcwLCJpYXQiOjEzMTEyODA5NzB9";

const OF_AN_APP: &str =
    "eyJpc3MiOiJodHRwOi8vc2VydmVyLmV4YW1wbGUuY29tIiwic3ViIjoiMjQ4Mjg5NzYxMDAxIiwiYXVkIjoiczZC\
     aGRSa3F0MyIsIm5vbmNlIjoibi0wUzZfV3pBMk1qIiwiZXhwIjoxMzExMjgxOTcwLCJpYXQiOjEzMTEyODA5NzAs\
     ImF6cCI6IjEyMzQ5ODc4MTkyMDAtYW5kcm9pZC5hcHBzLmdvb2dsZXVzZXJjb250ZW50LmNvbSJ9";

const FOR_ANOTHER_AUDIENCE: &str =
    "eyJpc3MiOiJodHRwOi8vc2VydmVyLmV4YW1wbGUuY29tIiwic3ViIjoiMjQ4Mjg5NzYxMDAxIiwiYXVkIjpbInM2\
     QmhkUmtxdDMiLCJodHRwczovL2FwaS5leGFtcGxlLmNvbSJdLCJub25jZSI6Im4tMFM2X1d6QTJNaiIsImV4cCI6\
     MTMxMTI4MTk3MCwiaWF0IjoxMzExMjgwOTcwLCJhenAiOiJzNkJoZFJrcXQzIn0";

fn provider(issuer: &str) -> OpenIdProvider<'_> {
    OpenIdProvider::new(
        issuer,
        RedirectIssuer::OwnRedirectUri,
        Duration::from_secs(60),
    )
}

// A login that was stored at the provider with this issuer.
fn stored_at(alloc: Global, issuer: &str) -> Result<String, AllocError> {
    format!(in alloc;
        "{{\"client_id\":\"s6BhdRkqt3\",\"issuer\":\"{issuer}\",\"issuer_in_each_redirect\":false,\
         \"nonce\":\"n-0S6_WzA2Mj\",\"redirect_uri\":\"https://client.example.org/cb\",\
         \"state\":\"af0ifjsldkj\",\"token_url\":\"https://server.example.com/token\",\
         \"verifier\":\"v\"}}"
    )
}

// Checks the result of a login at this provider, which has this issuer, if the reply has these
// claims, and the redirect has this query next to its state and its code.
fn check_login(
    alloc: Global,
    issuer: &str,
    provider: &OpenIdProvider<'_>,
    claims: &str,
    more: &str,
    wanted: &str,
) -> Result<(), Fail> {
    let query = format!(in alloc; "state=af0ifjsldkj&code=c{more}")?;
    let body = response(alloc, claims)?;
    let mut http_client = OneReply::with_body(alloc, 200, body.as_str())?;
    let stored = stored_at(alloc, issuer)?;
    let end = finish_query(
        alloc,
        &mut http_client,
        stored.as_str(),
        query.as_str(),
        provider,
    )?;
    check_end(alloc, end, wanted)
}

// A redirect is compared with the provider's own issuer, whatever the rule for its ID tokens says.
#[test]
fn an_issuer_for_each_tenant(rt: HostRuntime) -> Result<(), Fail> {
    let alloc = rt.alloc();
    let own = "https://login.microsoftonline.com/{tenantid}/v2.0";
    let tenants = IssuerRule::PerTenant {
        before: text(alloc, "https://login.microsoftonline.com/")?,
        after: text(alloc, "/v2.0")?,
    };
    let wrong = "ID token: the issuer is another one";
    check_login(alloc, own, &provider(own), OF_A_TENANT, "", wrong)?;
    let entra = provider(own).set_issuer_rule(&tenants);
    check_login(alloc, own, &entra, OF_A_TENANT, "", "Absent")?;
    check_login(alloc, own, &entra, OF_THE_SECOND_SPELLING, "", wrong)?;
    let of_a_tenant = "&iss=https://login.microsoftonline.com/9122040d/v2.0";
    let wrong = "redirect has another issuer";
    check_login(alloc, own, &entra, OF_A_TENANT, of_a_tenant, wrong)
}

#[test]
fn an_issuer_of_two_spellings(rt: HostRuntime) -> Result<(), Fail> {
    let alloc = rt.alloc();
    let own = "https://accounts.google.com";
    let mut spellings = Vec::new(alloc);
    for spelling in [own, "accounts.google.com"] {
        spellings.push(text(alloc, spelling)?)?;
    }
    let spellings = IssuerRule::OneOf(spellings);
    let wrong = "ID token: the issuer is another one";
    check_login(
        alloc,
        own,
        &provider(own),
        OF_THE_SECOND_SPELLING,
        "",
        wrong,
    )?;
    let google = provider(own).set_issuer_rule(&spellings);
    let told = "&iss=https%3A%2F%2Faccounts.google.com";
    check_login(alloc, own, &google, OF_THE_SECOND_SPELLING, told, "Absent")?;
    check_login(alloc, own, &google, OF_A_TENANT, told, wrong)
}

#[test]
fn other_audiences_and_parties(rt: HostRuntime) -> Result<(), Fail> {
    let alloc = rt.alloc();
    let own = "http://server.example.com";
    let app = ["1234987819200-android.apps.googleusercontent.com"];
    let wrong = "ID token: the authorized party is another one";
    let audiences = provider(own).set_other_audiences(&app);
    check_login(alloc, own, &audiences, OF_AN_APP, "", wrong)?;
    let parties = provider(own).set_authorized_parties(&app);
    check_login(alloc, own, &parties, OF_AN_APP, "", "Absent")?;
    let api = ["https://api.example.com"];
    let wrong = "ID token: an audience is not trusted";
    let parties = provider(own).set_authorized_parties(&api);
    check_login(alloc, own, &parties, FOR_ANOTHER_AUDIENCE, "", wrong)?;
    let audiences = provider(own).set_other_audiences(&api);
    check_login(alloc, own, &audiences, FOR_ANOTHER_AUDIENCE, "", "Absent")
}
