//! A provider whose ID tokens are verified, and the end of a login at it.

ghost use Rattle.std.specs.Prelude.{◌≡◌, Ok, Err, IfOk};
ghost use Rattle.oauth2_form.specs.Pairs.{form};
ghost use Rattle.oauth2_form.specs.Query.{query_form};
ghost use Rattle.oauth2_openid.specs.Seen.{token_of};
ghost use Rattle.oauth2_verified_login.specs.End.{FinishesVerifiedLogin, before_signature};
ghost use Rattle.oauth2_verified_login.specs.Provider.{verifying};
ghost use Rattle.oauth2_keys.specs.Signature.{IsSignatureRefusal, IsSigned, check_of};

use crate::login_end::{VerifiedLoginEnd, verify_end};
use crate::login_error::VerifiedLoginError;
use jiff::Timestamp;
use oauth2::{Client, EndpointSet, EndpointState};
use oauth2_codes::ErrorResponse;
use oauth2_keys::SignatureCheck;
use oauth2_openid_login::{
    HasIdToken, OpenIdLogin, OpenIdLoginEnd, OpenIdLoginError, OpenIdProvider,
};
use oauth2_wire::SyncHttpClient;
use std::alloc::Global;
use std::marker::Model;
use url::Url;

/// An OpenID provider whose ID tokens are verified: what a client knows of it, and how the
/// signature of its ID tokens is checked.
#[derive(Drop)]
pub struct VerifiedProvider<'a> {
    provider: OpenIdProvider<'a>,
    check: SignatureCheck<'a>,
}

impl<'a> Model for VerifiedProvider<'a> {
    ghost use Rattle.oauth2_verified_login.specs.Provider.{Verifying};
    ghost use Rattle.oauth2_keys.specs.Signature.{check_of};

    ghost Value = { Verifying };

    ghost view = { λ p. record { provider = p.provider; check = check_of p.check } };
}

impl<'a> VerifiedProvider<'a> {
    /// This provider, with the check for the signatures of its ID tokens. The expected algorithm is
    /// that of the check, whatever `set_algorithm` set.
    pub fn new(provider: OpenIdProvider<'a>, check: SignatureCheck<'a>) -> VerifiedProvider<'a>
        ensures { result ≡ verifying provider.entry (check_of check.entry) }
    {
        VerifiedProvider {
            provider: provider.set_algorithm(check.algorithm_name()),
            check,
        }
    }

    /// Ends a login at this provider as `OpenIdLogin::finish_without_signature` does, and checks the
    /// signature of the ID token. If only the signature is refused, the code is spent, and the error
    /// holds the tokens for a check by other keys.
    pub fn finish<TE, TR, TIR, RT, TRE, A, D, I, R, C: SyncHttpClient, K>(
        &self,
        alloc: Global,
        login: OpenIdLogin,
        client: &Client<TE, TR, TIR, RT, TRE, A, D, I, R, EndpointSet>,
        http_client: &mut C,
        redirect: &Url,
        clock: K,
    ) -> Result<VerifiedLoginEnd<TR>, VerifiedLoginError<TR, C::Error, TE>>
    where
        TE: ErrorResponse,
        TR: HasIdToken,
        A: EndpointState,
        D: EndpointState,
        I: EndpointState,
        R: EndpointState,
        K: FnOnce() -> Timestamp + Drop,
        requires client { C.is_ready http_client.old }
        requires clock { K.IsAlwaysCallable clock }
        ensures { FinishesVerifiedLogin TR.meaning TE.meaning TR.reading TE.reading C.is_ready
            C.step TR.access_token TR.token_type_text TR.id_token client.now login self.now
            (K.post clock) redirect.now (query_form redirect.now) http_client.old result
            http_client.new }
    {
        let ended = login.finish_without_signature(
            alloc,
            client,
            http_client,
            redirect,
            &self.provider,
            clock,
        );
        verified_end(ended, self.check)
    }

    /// As `finish`, for a handler that has no `Url` of the redirect. `called` is the URL to which the
    /// redirect came, with its query: behind a proxy, the redirect URI that the handler serves
    /// there. `query` holds the parameters of the redirect: that query without the `?`, or the form
    /// in the body of the request (`response_mode=form_post`).
    pub fn finish_query<TE, TR, TIR, RT, TRE, A, D, I, R, C: SyncHttpClient, K>(
        &self,
        alloc: Global,
        login: OpenIdLogin,
        client: &Client<TE, TR, TIR, RT, TRE, A, D, I, R, EndpointSet>,
        http_client: &mut C,
        called: &Url,
        query: &str,
        clock: K,
    ) -> Result<VerifiedLoginEnd<TR>, VerifiedLoginError<TR, C::Error, TE>>
    where
        TE: ErrorResponse,
        TR: HasIdToken,
        A: EndpointState,
        D: EndpointState,
        I: EndpointState,
        R: EndpointState,
        K: FnOnce() -> Timestamp + Drop,
        requires client { C.is_ready http_client.old }
        requires clock { K.IsAlwaysCallable clock }
        ensures { FinishesVerifiedLogin TR.meaning TE.meaning TR.reading TE.reading C.is_ready
            C.step TR.access_token TR.token_type_text TR.id_token client.now login self.now
            (K.post clock) called.now (form query.now) http_client.old result http_client.new }
    {
        let finished = login.finish_query_without_signature(
            alloc,
            client,
            http_client,
            called,
            query,
            &self.provider,
            clock,
        );
        verified_end(finished, self.check)
    }
}

// Checks the signature, if the login ended with an ID token.
fn verified_end<TR, RE, T>(
    ended: Result<OpenIdLoginEnd<TR>, OpenIdLoginError<RE, T>>,
    check: SignatureCheck<'_>,
) -> Result<VerifiedLoginEnd<TR>, VerifiedLoginError<TR, RE, T>>
    ensures ended { before_signature result ≡ ended }
    ensures verified { IfOk result (λ end. IsSigned (check_of check.entry) (token_of end.id_token)) }
    ensures unverified { (unverified : _) → result ≡ Err (VerifiedLoginError.Signature unverified)
        → IsSignatureRefusal (check_of check.entry) (token_of unverified.end.id_token)
        unverified.error }
{
    match ended {
        Ok(end) => Ok(verify_end(end, check)?),
        Err(error) => Err(VerifiedLoginError::Login(error)),
    }
}
