//! The command `exchange_token`: a token is exchanged for another one.

ghost use Rattle.std.specs.Prelude.{◌≡◌, ◌++◌, ◌∷◌, false, map, option_map, string_bytes, IfOk};
ghost use Rattle.std.specs.Prelude.{[], None};
ghost use Rattle.oauth2_grant_commands.specs.ExchangeToken as spec;
ghost use Rattle.oauth2_grant_commands.specs.TokenGrant.{WithExtra};
ghost use Rattle.oauth2_grants.specs.Extension.{new_extension_request, with_params};
ghost use Rattle.oauth2_grants.specs.TokenExchange.{token_exchange_grant, token_exchange_pairs};
ghost use Rattle.oauth2_request_commands.specs.Out.{Adds};
ghost use Rattle.oauth2_request_commands.specs.Client.{given_or};
ghost use Rattle.oauth2_script.specs.Views.{client_view, exchange_token_view, typed_token_view};
ghost use Rattle.oauth2_wire.specs.ServerView.{pair_texts};
ghost use Rattle.oauth2_world.specs.Replay.{client_replies};

use crate::token_grant::{show_grant_fault, token_client, with_extra};
use oauth2_grants::{
    ExtensionTokenRequest, TokenClient, TokenExchange, TokenExchangeErrorResponse,
    TokenExchangeResponse, TokenTypeIdentifier,
};
use oauth2_request_commands::{RunStatus, show_end, show_missing};
use oauth2_script::{AbsoluteUri, ClientPart, ExchangeTokenParams, TypedTokenParam};
use oauth2_world::ScriptedClient;
use std::alloc::{AllocError, Global};

// A request whose reply is read as that to an exchange.
type ExchangeRequest<'a> = ExtensionTokenRequest<
    'a,
    TokenExchangeErrorResponse,
    TokenExchangeResponse,
>;

// An exchange of this token.
fn new_exchange<'a>(alloc: Global, subject: &'a TypedTokenParam) -> TokenExchange<'a>
    ensures { result ≡ record {
      resources = [];
      audiences = [];
      requested_token_type = None;
      subject = spec.typed_token (typed_token_view subject.now);
      actor = None;
    } }
{
    let token_type = TokenTypeIdentifier::Other(subject.token_type.as_str());
    match TokenExchange::new(alloc, subject.token.as_str(), token_type) {
        Ok(exchange) => exchange,
        Err(_) => unreachable!(),
    }
}

// The exchange with the token of the acting party, if there is one.
fn with_actor<'a>(
    exchange: TokenExchange<'a>,
    actor: &'a Option<TypedTokenParam>,
) -> TokenExchange<'a>
    ensures { let given = option_map spec.typed_token (option_map typed_token_view actor.now) in
        result ≡ record exchange.entry { actor = given_or given exchange.entry.actor } }
{
    match actor {
        Some(actor) => {
            let token_type = TokenTypeIdentifier::Other(actor.token_type.as_str());
            match exchange.set_actor_token(actor.token.as_str(), token_type) {
                Ok(exchange) => exchange,
                Err(_) => unreachable!(),
            }
        }
        None => exchange,
    }
}

// The exchange with the type of the token that is asked for, if it is given.
fn with_requested<'a>(
    exchange: TokenExchange<'a>,
    token_type: &'a Option<AbsoluteUri>,
) -> TokenExchange<'a>
    ensures { result ≡ record exchange.entry {
      requested_token_type = given_or token_type.now exchange.entry.requested_token_type;
    } }
{
    match token_type {
        Some(token_type) => {
            let named = TokenTypeIdentifier::Other(token_type.as_str());
            match exchange.set_requested_token_type(named) {
                Ok(exchange) => exchange,
                Err(_) => unreachable!(),
            }
        }
        None => exchange,
    }
}

// Adds this resource.
fn with_resource<'a>(
    exchange: TokenExchange<'a>,
    resource: &'a AbsoluteUri,
) -> Result<TokenExchange<'a>, AllocError>
    ensures { IfOk result (λ e. e ≡ record exchange.entry {
      resources = exchange.entry.resources ++ resource.now ∷ [];
    }) }
{
    match exchange.add_resource(resource.as_str()) {
        Ok(exchange) => Ok(exchange),
        Err(_) => Err(AllocError),
    }
}

// Adds each of these resources, in order.
fn with_resources<'a>(
    exchange: TokenExchange<'a>,
    resources: &'a [AbsoluteUri],
) -> Result<TokenExchange<'a>, AllocError>
    ensures { IfOk result (λ e. e ≡ record exchange.entry {
      resources = exchange.entry.resources ++ resources.now;
    }) }
{
    let mut exchange = exchange;
    for resource in resources {
        exchange = with_resource(exchange, resource)?;
    }
    Ok(exchange)
}

// Adds each of these audiences, in order.
fn with_audiences<'a>(
    exchange: TokenExchange<'a>,
    audiences: &'a [String],
) -> Result<TokenExchange<'a>, AllocError>
    ensures { IfOk result (λ e. e ≡ record exchange.entry {
      audiences = exchange.entry.audiences ++ map string_bytes audiences.now;
    }) }
{
    let mut exchange = exchange;
    for audience in audiences {
        exchange = exchange.add_audience(audience.as_str())?;
    }
    Ok(exchange)
}

// The exchange that the command asks for.
fn exchange_of<'a>(
    alloc: Global,
    params: &'a ExchangeTokenParams,
) -> Result<TokenExchange<'a>, AllocError>
    ensures { IfOk result (λ e. e ≡ spec.exchange_of (exchange_token_view params.now)) }
{
    let started = new_exchange(alloc, &params.subject);
    let acting = with_actor(started, &params.actor);
    let typed = with_requested(acting, &params.requested_token_type);
    let aimed = with_resources(typed, params.resources.as_slice())?;
    with_audiences(aimed, params.audiences.as_slice())
}

// The request of that exchange.
fn new_request<'c>(
    alloc: Global,
    client: TokenClient<'c>,
    params: &ExchangeTokenParams,
) -> Result<ExchangeRequest<'c>, AllocError>
    ensures { IfOk result (λ r. r
        ≡ with_params (new_extension_request client.entry token_exchange_grant)
        (token_exchange_pairs (spec.exchange_of (exchange_token_view params.now)))) }
{
    let exchange = exchange_of(alloc, params)?;
    exchange.to_request(alloc, client)
}

// Sends the request with these parameters, and shows it and its result.
fn show_exchange(
    alloc: Global,
    request: ExchangeRequest<'_>,
    extra: &[(String, String)],
    http_client: &mut ScriptedClient,
) -> Result<RunStatus, AllocError>
    ensures { IfOk result (λ status. http_client.new.is_starved ≡ false
        → Adds http_client.old.events http_client.new.events status
        (WithExtra (spec.IsExchangeAsked (client_replies http_client.old)) request.entry
        (map pair_texts extra.now))) }
{
    match with_extra(request, extra) {
        Ok(asked) => {
            let end = asked.request(alloc, http_client);
            show_end(alloc, &mut http_client.events, &end)
        }
        Err(fault) => show_grant_fault(alloc, &mut http_client.events, fault),
    }
}

// Exchanges a token, and shows the request and its result (RFC 8693, section 2.1).
pub(crate) fn run_exchange_token(
    alloc: Global,
    client: &ClientPart,
    params: ExchangeTokenParams,
    http_client: &mut ScriptedClient,
) -> Result<RunStatus, AllocError>
    ensures { IfOk result (λ status. http_client.new.is_starved ≡ false
        → Adds http_client.old.events http_client.new.events status
        (spec.IsExchangeTokenOutput (client_view client.now) (exchange_token_view params)
        (client_replies http_client.old))) }
{
    match &client.endpoints.token {
        Some(url) => {
            let request = new_request(alloc, token_client(client, url), &params)?;
            let scoped = request.add_scopes(params.scopes)?;
            show_exchange(alloc, scoped, params.extra_params.as_slice(), http_client)
        }
        None => show_missing(alloc, &mut http_client.events, "token"),
    }
}
