//! The command `metadata`: the client gets an issuer's metadata.

ghost use Rattle.std.specs.Prelude.{◌≡◌, false, option_map, string_bytes, unwrap_or, IfOk};
ghost use Rattle.oauth2_commands.specs.Metadata as spec;
ghost use Rattle.oauth2_request_commands.specs.Out.{failure_output, Adds, AddsOutput};
ghost use Rattle.oauth2_commands.specs.private.Discovery.{discovery_output};
ghost use Rattle.oauth2_commands.specs.private.Discovery.{metadata_error_output};
ghost use Rattle.oauth2_commands.specs.private.Discovery.{HasRoom};
ghost use Rattle.oauth2_metadata.specs.Issuer.{issuer_error_text};
ghost use Rattle.oauth2_metadata.specs.Request.{IsAsked};
ghost use Rattle.oauth2_script.specs.Views.{metadata_view};
ghost use Rattle.oauth2_world.specs.declared.event.FaultKind.TheVariants.{BadIssuer};
ghost use Rattle.oauth2_world.specs.Replay.{client_replies};

use oauth2::EmptyExtraTokenFields;
use oauth2_metadata::{IssuerError, MetadataError, MetadataRequest, ServerMetadata};
use oauth2_request_commands::{RunStatus, ScriptClient, show_answer, show_error_text, show_fault};
use oauth2_script::{MetadataParams, WellKnown};
use oauth2_world::{Events, FaultKind, NoReply, ScriptedClient};
use std::alloc::{AllocError, Global};

type Metadata = ServerMetadata<EmptyExtraTokenFields>;

// The request for the issuer's metadata at this well-known URI.
fn request_of(
    alloc: Global,
    issuer: String,
    well_known: WellKnown,
) -> Result<MetadataRequest, IssuerError>
    ensures { IsAsked (spec.place well_known) (string_bytes issuer) result }
{
    match well_known {
        WellKnown::OauthAuthorizationServer => MetadataRequest::new(alloc, issuer),
        WellKnown::OpenidConfiguration => MetadataRequest::openid(alloc, issuer),
    }
}

// The request, where the metadata has to name `issuer` if one is given.
fn with_expected_issuer(request: MetadataRequest, issuer: Option<String>) -> MetadataRequest
    ensures { result ≡ record request {
      issuer = unwrap_or (option_map string_bytes issuer) request.issuer;
    } }
{
    match issuer {
        Some(issuer) => request.set_expected_issuer(issuer),
        None => request,
    }
}

// Adds the event why a text is not an issuer. A URL that is too long counts as out of memory.
fn show_issuer_error(
    alloc: Global,
    events: &mut Events,
    error: IssuerError,
) -> Result<RunStatus, AllocError>
    ensures { IfOk result (λ status. HasRoom error
        × AddsOutput events.old events.new status
        (failure_output BadIssuer (issuer_error_text error))) }
{
    match error {
        IssuerError::Memory | IssuerError::TooLong => Err(AllocError),
        error => show_error_text(alloc, events, FaultKind::BadIssuer, &error),
    }
}

// Adds the event why there is no metadata.
fn show_metadata_error(
    alloc: Global,
    events: &mut Events,
    error: &MetadataError<NoReply>,
) -> Result<RunStatus, AllocError>
    ensures { IfOk result (λ status. AddsOutput events.old events.new
        status (metadata_error_output error.now)) }
{
    match error {
        MetadataError::Reply(fault) => show_fault(alloc, events, fault),
        MetadataError::Status(_) => show_error_text(alloc, events, FaultKind::OtherStatus, error),
        MetadataError::Endpoint(_) => show_error_text(alloc, events, FaultKind::BadMetadata, error),
        MetadataError::OtherIssuer(_) => {
            let kind = FaultKind::OtherIssuer;
            show_error_text(alloc, events, kind, error)
        }
    }
}

fn show_metadata(
    alloc: Global,
    events: &mut Events,
    end: &Result<Metadata, MetadataError<NoReply>>,
) -> Result<RunStatus, AllocError>
    ensures { IfOk result (λ status. AddsOutput events.old events.new
        status (discovery_output end.now)) }
{
    match end {
        Ok(metadata) => show_answer(alloc, events, metadata),
        Err(error) => show_metadata_error(alloc, events, error),
    }
}

// Sends the request, and shows it and its result.
fn ask(
    alloc: Global,
    request: MetadataRequest,
    http_client: &mut ScriptedClient,
) -> Result<RunStatus, AllocError>
    ensures { IfOk result (λ status. http_client.new.is_starved ≡ false
        → Adds http_client.old.events http_client.new.events status
        (spec.IsDiscovered request.reply_rule request.issuer request.url
        (client_replies http_client.old))) }
{
    let end = request.request(alloc, http_client);
    show_metadata(alloc, &mut http_client.events, &end)
}

/// Gets an issuer's metadata, and shows the request and its result (RFC 8414, section 3).
pub fn run_metadata(
    alloc: Global,
    client: &ScriptClient,
    params: MetadataParams,
    http_client: &mut ScriptedClient,
) -> Result<RunStatus, AllocError>
    ensures { IfOk result (λ status. http_client.new.is_starved ≡ false
        → Adds http_client.old.events http_client.new.events status
        (spec.IsMetadataOutput client.now (metadata_view params)
        (client_replies http_client.old))) }
{
    let rule = client.reply_rule();
    match request_of(alloc, params.issuer, params.well_known) {
        Ok(request) => {
            let request = with_expected_issuer(
                request.set_reply_rule(rule),
                params.expected_issuer,
            );
            ask(alloc, request, http_client)
        }
        Err(error) => show_issuer_error(alloc, &mut http_client.events, error),
    }
}
