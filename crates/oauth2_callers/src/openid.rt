//! A login with OpenID Connect (Core 1.0, section 3.1), as an application calls it from its own
//! crate: the URL to send the user to, and who the user is.

ghost use Rattle.std.specs.Prelude.{
  ◌≡◌,
  ◌⊎◌,
  ℕ,
  List,
  Some,
  None,
  Ok,
  Err,
  IfOk,
  IfErr,
  IsSome,
  false,
  codes,
};
ghost use Rattle.std.specs.Duration.{as_nanos};
ghost use Rattle.rand_core.specs.Stream.{Stream};
ghost use Rattle.jiff.specs.Types.{Timestamp};
ghost use Rattle.oauth2_types.specs.Pkce.{IsRandomText};
ghost use Rattle.oauth2_urls.specs.Addressed.{Addressed};
ghost use Rattle.oauth2_form.specs.Query.{ExtendsQuery, query_form};
ghost use Rattle.oauth2_redirect.specs.End.{ExchangesCode};
ghost use Rattle.oauth2_redirect.specs.Query.{sole_text};
ghost use Rattle.oauth2_redirect.specs.Bound.{mismatch};
ghost use Rattle.oauth2_redirect.specs.Redirect.{MayWantMemory, is_state};
ghost use Rattle.oauth2_openid.specs.Seen.{token_of};
ghost use Rattle.oauth2_openid.specs.Token.{DecodedToken, TokenFault};
ghost use Rattle.oauth2_openid.specs.TokenRules.{Holds, token_checked};
ghost use Rattle.oauth2_openid_login.specs.End.{IsRefusedFor, fault_told, id_token_reading};
ghost use Rattle.oauth2_openid_login.specs.Provider.{expected_of, redirect_issuer};
ghost use Rattle.oauth2_openid_login.specs.Refusal.{
  AuthorizesOpenIdLogin,
  ShowsOpenIdRefusal,
  provider_refusal,
};
ghost use Rattle.oauth2_callers.specs.Login.{GetsResponse, openid_pairs};

use jiff::Timestamp;
use oauth2::basic::BasicErrorResponse;
use oauth2::url::Url;
use oauth2::{FromJson, SyncHttpClient};
use oauth2_openid_login::{
    OpenIdClient, OpenIdLogin, OpenIdLoginEnd, OpenIdLoginError, OpenIdLoginRefusal,
    OpenIdLoginUrlFault, OpenIdProvider, OpenIdTokenResponse, RedirectIssuer,
};
use oauth2_redirect::{LoginMismatch, LoginRefusal, RedirectError};
use rand_core::Rng;
use std::alloc::Global;
use std::time::Duration;

/// The settings for a provider that adds its issuer to each redirect (RFC 9207), and whose ID
/// tokens are signed with `RS256`.
pub fn provider(issuer: &str) -> OpenIdProvider<'_>
    ensures { result.issuer ≡ issuer.now }
{
    let leeway = Duration::from_secs(60);
    OpenIdProvider::new(issuer, RedirectIssuer::InEachRedirect, leeway).set_algorithm("RS256")
}

/// The URL to send the user to, and what to keep until the user is back.
pub fn start_login<R: Rng>(
    alloc: Global,
    client: &OpenIdClient,
    provider: &OpenIdProvider<'_>,
    rng: &mut R,
) -> Result<(Url, OpenIdLogin), OpenIdLoginUrlFault>
    ensures random { IfOk result (λ (_, kept). (second : Stream) × (third : Stream)
        × IsRandomText 16 (R.stream rng.old) second kept.login.state
        × IsRandomText 32 second third kept.login.verifier
        × IsRandomText 16 third (R.stream rng.new) kept.nonce) }
    ensures url { IfOk result (λ (url, kept). (endpoint : Addressed)
        × (client.now.auth_url ≡ Some endpoint) × ExtendsQuery endpoint.url url
        (openid_pairs client.now kept.login.state kept.login.verifier kept.nonce)) }
    ensures redirect_uri { IfOk result
        (λ (_, kept). client.now.redirect_url ≡ Some kept.login.redirect_uri) }
    ensures bound { IfOk result (λ (_, kept). (kept.login.issuer ≡ redirect_issuer provider.now)
        × (kept.login.client_id ≡ client.now.client_id)) }
    ensures refusal { result ≡ Err OpenIdLoginUrlFault.NoRedirectUri
        → client.now.redirect_url ≡ None }
{
    Ok(OpenIdLogin::start(alloc, client, provider, rng)?.url(alloc)?)
}

/// Returns who the user is and the tokens. The redirect then came to the login's redirect URI, has
/// its state and may come from the provider, and the ID token meets each rule, except that for its
/// signature, at the time that the clock shows. The tokens are what the reply to one request, with
/// the code and the login's verifier, is read as.
pub fn finish_login<C: SyncHttpClient, K: FnOnce() -> Timestamp + Drop>(
    alloc: Global,
    client: &OpenIdClient,
    http_client: &mut C,
    login: OpenIdLogin,
    redirect: &Url,
    provider: &OpenIdProvider<'_>,
    clock: K,
) -> Result<OpenIdLoginEnd<OpenIdTokenResponse>, OpenIdLoginError<C::Error, BasicErrorResponse>>
    requires client { C.is_ready http_client.old }
    requires clock { K.IsAlwaysCallable clock }
    ensures other_state { let state = sole_text (codes "state") (query_form redirect.now) in
        is_state login.login.state state ≡ false → http_client.new ≡ http_client.old }
    ensures user { IfOk result (λ end. GetsResponse ⟦<OpenIdTokenResponse as FromJson>⟧.reading
        ⟦<BasicErrorResponse as FromJson>⟧.reading C.step client.now login provider.now
        redirect.now (query_form redirect.now) http_client.old http_client.new
        (λ response. (id_token_reading response.extra_fields.value
        ≡ Some (Ok (token_of end.id_token)))
        × (now : Timestamp) × K.post clock now
        × Holds (expected_of provider.now client.now login) response.access_token now.nanosecond
        (token_of end.id_token))) }
    ensures no_id_token { result ≡ Err OpenIdLoginError.NoIdToken
        → GetsResponse ⟦<OpenIdTokenResponse as FromJson>⟧.reading
        ⟦<BasicErrorResponse as FromJson>⟧.reading C.step client.now login provider.now
        redirect.now (query_form redirect.now) http_client.old http_client.new
        (λ response. response.extra_fields.value ≡ None) }
    ensures rule { (error : _) → result ≡ Err (OpenIdLoginError.Claims error)
        → GetsResponse ⟦<OpenIdTokenResponse as FromJson>⟧.reading
        ⟦<BasicErrorResponse as FromJson>⟧.reading C.step client.now login provider.now
        redirect.now (query_form redirect.now) http_client.old http_client.new
        (λ response. (token : DecodedToken)
        × (id_token_reading response.extra_fields.value ≡ Some (Ok token))
        × (now : Timestamp) × K.post clock now
        × (token_checked (expected_of provider.now client.now login) response.access_token
        now.nanosecond token ≡ Err error)) }
    ensures unread { (error : _) → result ≡ Err (OpenIdLoginError.Read error)
        → GetsResponse ⟦<OpenIdTokenResponse as FromJson>⟧.reading
        ⟦<BasicErrorResponse as FromJson>⟧.reading C.step client.now login provider.now
        redirect.now (query_form redirect.now) http_client.old http_client.new
        (λ response. (fault : TokenFault) × (fault_told error ≡ Some fault)
        × (id_token_reading response.extra_fields.value ≡ Some (Err fault))) }
    ensures memory { result ≡ Err OpenIdLoginError.Memory
        → GetsResponse ⟦<OpenIdTokenResponse as FromJson>⟧.reading
        ⟦<BasicErrorResponse as FromJson>⟧.reading C.step client.now login provider.now
        redirect.now (query_form redirect.now) http_client.old http_client.new
        (λ response. IsSome response.extra_fields.value) }
    ensures given_back { (refused : _) → result ≡ Err (OpenIdLoginError.Refused refused)
        → (refused.login ≡ login) × (http_client.new ≡ http_client.old) }
    ensures refusal { (refused : _) → result ≡ Err (OpenIdLoginError.Refused refused)
        → ShowsOpenIdRefusal client.now login provider.now redirect.now
        (query_form redirect.now) refused.error }
    ensures other_provider { (error : OpenIdLoginRefusal)
        → provider_refusal client.now login provider.now ≡ Some error
        → IsRefusedFor error result × (http_client.new ≡ http_client.old) }
    ensures other_place { (error : LoginMismatch)
        → provider_refusal client.now login provider.now ≡ None
        → mismatch client.now login.login redirect.now ≡ Some error
        → IsRefusedFor (OpenIdLoginRefusal.Login (LoginRefusal.Mismatch error)) result
        × (http_client.new ≡ http_client.old) }
    ensures redirect_memory { IsRefusedFor (OpenIdLoginRefusal.Login
        (LoginRefusal.Redirect RedirectError.Memory)) result
        → MayWantMemory login.login.state login.login.issuer (query_form redirect.now) }
    ensures no_state { sole_text (codes "state") (query_form redirect.now) ≡ None
        → provider_refusal client.now login provider.now ≡ None
        → mismatch client.now login.login redirect.now ≡ None
        → IsRefusedFor (OpenIdLoginRefusal.Login
        (LoginRefusal.Redirect RedirectError.OtherState)) result }
    ensures token { (error : _) → result ≡ Err (OpenIdLoginError.Token error) → (code : List ℕ)
        × AuthorizesOpenIdLogin client.now login provider.now redirect.now
        (query_form redirect.now) code
        × ExchangesCode ⟦<OpenIdTokenResponse as FromJson>⟧.meaning
        ⟦<BasicErrorResponse as FromJson>⟧.meaning
        ⟦<OpenIdTokenResponse as FromJson>⟧.reading
        ⟦<BasicErrorResponse as FromJson>⟧.reading C.step client.now login.login code
        http_client.old (Err error) http_client.new }
    ensures ready { C.is_ready http_client.new }
{
    login.finish_without_signature(alloc, client, http_client, redirect, provider, clock)
}
