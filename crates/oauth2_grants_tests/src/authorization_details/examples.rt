//! The details of RFC 9396, sections 2 and 3, and requests with them. Ours have the members of each
//! object in byte order. Each expected text was made by Python's `json` and `urllib.parse`.

use crate::checks::check_sent;
use oauth2::basic::BasicClient;
use oauth2::{
    AuthUrl, AuthorizationCode, ClientId, CsrfToken, EndpointNotSet, EndpointSet, RedirectUrl,
    TokenUrl,
};
use oauth2_grants::{AuthorizationDetails, RichAuthorizationRequest};
use oauth2_tests_support::{check_text, text};
use serde_json::json;
use std::alloc::Global;
use std::test::Fail;

/// The payment of section 2, figure 2, as the standard has it.
pub(crate) const PAYMENT: &str = "[\n   {\n      \"type\": \"payment_initiation\",\n\
      \"actions\": [\n         \"initiate\",\n         \"status\",\n         \"cancel\"\n      ],\n\
      \"locations\": [\n         \"https://example.com/payments\"\n      ],\n\
      \"instructedAmount\": {\n         \"currency\": \"EUR\",\n         \"amount\": \"123.50\"\n      },\n\
      \"creditorName\": \"Merchant A\",\n\
      \"creditorAccount\": {\n         \"iban\": \"DE02100100109307118603\"\n      },\n\
      \"remittanceInformationUnstructured\": \"Ref Number Merchant\"\n   }\n]";

/// The same, compact.
pub(crate) const COMPACT_PAYMENT: &str = "[{\"actions\":[\"initiate\",\"status\",\"cancel\"],\
\"creditorAccount\":{\"iban\":\"DE02100100109307118603\"},\"creditorName\":\"Merchant A\",\
\"instructedAmount\":{\"amount\":\"123.50\",\"currency\":\"EUR\"},\
\"locations\":[\"https://example.com/payments\"],\
\"remittanceInformationUnstructured\":\"Ref Number Merchant\",\"type\":\"payment_initiation\"}]";

// The two details of section 3's request.
const BOTH: &str = "[{\"type\":\"account_information\",\"actions\":[\"list_accounts\",\
\"read_balances\",\"read_transactions\"],\"locations\":[\"https://example.com/accounts\"]},\
{\"type\":\"payment_initiation\",\"actions\":[\"initiate\",\"status\",\"cancel\"],\
\"locations\":[\"https://example.com/payments\"],\"instructedAmount\":{\"currency\":\"EUR\",\
\"amount\":\"123.50\"},\"creditorName\":\"Merchant A\",\
\"creditorAccount\":{\"iban\":\"DE02100100109307118603\"},\
\"remittanceInformationUnstructured\":\"Ref Number Merchant\"}]";

// As a parameter.
const ENCODED_BOTH: &str = "%5B%7B%22actions%22%3A%5B%22list_accounts%22%2C%22read_balances%22%2C\
%22read_transactions%22%5D%2C%22locations%22%3A%5B%22https%3A%2F%2Fexample.com%2Faccounts%22%5D%2C\
%22type%22%3A%22account_information%22%7D%2C%7B%22actions%22%3A%5B%22initiate%22%2C%22status%22%2C\
%22cancel%22%5D%2C%22creditorAccount%22%3A%7B%22iban%22%3A%22DE02100100109307118603%22%7D%2C\
%22creditorName%22%3A%22Merchant+A%22%2C%22instructedAmount%22%3A%7B%22amount%22%3A%22123.50%22%2C\
%22currency%22%3A%22EUR%22%7D%2C%22locations%22%3A%5B%22https%3A%2F%2Fexample.com%2Fpayments%22%5D%2C\
%22remittanceInformationUnstructured%22%3A%22Ref+Number+Merchant%22%2C\
%22type%22%3A%22payment_initiation%22%7D%5D";

type Asker = BasicClient<EndpointSet, EndpointNotSet, EndpointNotSet, EndpointNotSet, EndpointSet>;

fn client(alloc: Global) -> Result<Asker, Fail> {
    let redirect = text(alloc, "https://client.example.org/cb")?;
    Ok(
        BasicClient::new(ClientId::new(text(alloc, "s6BhdRkqt3")?))
            .set_redirect_uri(RedirectUrl::new(alloc, redirect)?)
            .set_auth_uri(AuthUrl::new(alloc, text(alloc, "https://as.example/authorize")?)?)
            .set_token_uri(TokenUrl::new(alloc, text(alloc, "https://as.example/token")?)?),
    )
}

// The request of section 3, without its challenge.
#[test]
fn an_authorization(rt: HostRuntime) -> Result<(), Fail> {
    let alloc = rt.alloc();
    let client = client(alloc)?;
    let details = AuthorizationDetails::from_text(alloc, BOTH)?;
    let state = CsrfToken::new(text(alloc, "af0ifjsldkj")?);
    let (url, _) = client
        .authorize_url(alloc, move || state)
        .add_authorization_details(alloc, &details)?
        .url(alloc)?;
    let wanted = format!(in alloc;
        "https://as.example/authorize?response_type=code&client_id=s6BhdRkqt3&state=af0ifjsldkj\
&redirect_uri=https%3A%2F%2Fclient.example.org%2Fcb&authorization_details={ENCODED_BOTH}"
    )?;
    check_text(url.as_str(), wanted.as_str())
}

// Section 6: the same parameter in a request for a token.
#[test]
fn a_code(rt: HostRuntime) -> Result<(), Fail> {
    let alloc = rt.alloc();
    let client = client(alloc)?;
    let details = AuthorizationDetails::from_text(alloc, BOTH)?;
    let code = AuthorizationCode::new(text(alloc, "c")?);
    let request = client
        .exchange_code(alloc, code)
        .add_authorization_details(alloc, &details)?
        .prepare_request(alloc)?;
    let wanted = format!(in alloc;
        "grant_type=authorization_code&code=c&client_id=s6BhdRkqt3\
&redirect_uri=https%3A%2F%2Fclient.example.org%2Fcb&authorization_details={ENCODED_BOTH}"
    )?;
    check_sent(&request, wanted.as_str())
}

#[test]
fn a_payment(rt: HostRuntime) -> Result<(), Fail> {
    let alloc = rt.alloc();
    let details = AuthorizationDetails::from_text(alloc, PAYMENT)?;
    check_text(details.to_text(alloc)?.as_str(), COMPACT_PAYMENT)
}

// Built from values, and without any item.
#[test]
fn values(rt: HostRuntime) -> Result<(), Fail> {
    let alloc = rt.alloc();
    let value = json!(in alloc; [{"type": "a", "n": 1}, {"type": ""}])?;
    let details = AuthorizationDetails::from_value(value)?;
    check_text(
        details.to_text(alloc)?.as_str(),
        "[{\"n\":1,\"type\":\"a\"},{\"type\":\"\"}]",
    )?;
    let none = AuthorizationDetails::from_text(alloc, " [ ] ")?;
    check_text(none.to_text(alloc)?.as_str(), "[]")
}
