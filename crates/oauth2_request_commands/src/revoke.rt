//! The command `revoke`: a token is revoked.

ghost use Rattle.std.specs.Prelude.{◌≡◌, false, string_bytes, IfOk, refl};
ghost use Rattle.oauth2_replies.specs.Revocable.{hint_of, secret_of};
ghost use Rattle.oauth2_request_commands.specs.Revoke as spec;
ghost use Rattle.oauth2_request_commands.specs.Out.{Adds};
ghost use Rattle.oauth2_world.specs.Replay.{client_replies};
ghost use Rattle.oauth2_script.specs.Views.{revoke_view};

use crate::answer::{show_configuration_error, show_revocation};
use crate::client::ScriptClient;
use crate::extra::{Extensible, with_extra};
use crate::status::RunStatus;
use oauth2::basic::BasicRevocationErrorResponse;
use oauth2::{AccessToken, ParamText, RefreshToken, RevocationRequest, StandardRevocableToken};
use oauth2_script::{RevokeParams, TokenKind};
use oauth2_world::ScriptedClient;
use std::alloc::{AllocError, Global};

type Revocation<'a> = RevocationRequest<'a, StandardRevocableToken, BasicRevocationErrorResponse>;

impl<'a> Extensible<'a> for Revocation<'a> {
    ghost with_params = { λ r f. record r {
      base = record r.base { extra_params = f r.base.extra_params };
    } };

    ghost laws = { λ r f g. (refl, refl) };

    fn with_pair(self, name: &'a str, value: &'a str) -> Result<Self, AllocError> {
        self.add_extra_param(ParamText::Borrowed(name), ParamText::Borrowed(value))
    }
}

fn token_of(text: String, kind: TokenKind) -> StandardRevocableToken
    ensures text { secret_of result ≡ string_bytes text }
    ensures hint { hint_of result ≡ spec.hint_text kind }
{
    match kind {
        TokenKind::Access => StandardRevocableToken::AccessToken(AccessToken::new(text)),
        TokenKind::Refresh => StandardRevocableToken::RefreshToken(RefreshToken::new(text)),
    }
}

/// Revokes a token, and shows the request and its result (RFC 7009, section 2.1).
pub fn run_revoke(
    alloc: Global,
    client: &ScriptClient,
    params: RevokeParams,
    http_client: &mut ScriptedClient,
) -> Result<RunStatus, AllocError>
    ensures { IfOk result (λ status. http_client.new.is_starved ≡ false
        → Adds http_client.old.events http_client.new.events status
        (spec.IsRevokeOutput client.now (revoke_view params) (client_replies http_client.old))) }
{
    match client.revoke_token(alloc, token_of(params.token, params.kind)) {
        Ok(request) => {
            let asked = with_extra(request, params.extra_params.as_slice())?;
            let end = asked.request(alloc, http_client);
            show_revocation(alloc, &mut http_client.events, &end)
        }
        Err(error) => show_configuration_error(alloc, &mut http_client.events, &error),
    }
}
