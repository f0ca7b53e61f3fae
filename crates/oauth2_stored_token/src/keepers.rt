//! Makes a stored token of what a keeper keeps, and starts a keeper from a stored token.

ghost use Rattle.std.specs.Prelude.{◌≡◌, IfOk, Some, option_copied};
ghost use Rattle.url.specs.Parts.{serialize};
ghost use Rattle.oauth2_stored_token.specs.Started.{is_of, Takes};
ghost use Rattle.oauth2_stored_token.specs.Stored.{stored_of};

use crate::client_at_endpoint::{is_request_url, request_url};
use crate::stored_token::StoredToken;
use crate::stored_token_error::StoredTokenError;
use oauth2::{ClientId, EndpointState, RefreshToken, TokenResponse, TokenUrl, TryClone};
use oauth2_keeper::TokenKeeper;
use oauth2_keeper::token_types::NamedTokenType;
use std::alloc::{AllocError, Global};

// A copy of a refresh token, if there is one.
fn copied_refresh_token(
    alloc: Global,
    refresh_token: Option<&RefreshToken>,
) -> Result<Option<RefreshToken>, AllocError>
    ensures { IfOk result (λ copy. copy ≡ option_copied refresh_token.entry) }
{
    Ok(match refresh_token {
        Some(refresh_token) => Some(refresh_token.try_clone(alloc)?),
        None => None,
    })
}

/// A copy of the token and the refresh token of a keeper, with the client and the token endpoint
/// that they belong to; `None` if the keeper has no token.
pub fn to_stored<TE, TR, TIR, RT, TRE, A, D, I, R>(
    alloc: Global,
    keeper: &TokenKeeper<'_, TE, TR, TIR, RT, TRE, A, D, I, R>,
) -> Result<Option<StoredToken>, AllocError>
where
    TR: TokenResponse + Drop,
    TR::TokenType: NamedTokenType,
    A: EndpointState,
    D: EndpointState,
    I: EndpointState,
    R: EndpointState,
    ensures { IfOk result (λ stored. stored ≡ stored_of keeper.now) }
{
    let texts = (keeper.get(), keeper.token_type());
    match (texts, keeper.accepted_at(), keeper.lifetime()) {
        ((Some(token), Some(kind)), Some(accepted_at), Some(lifetime)) => Ok(Some(StoredToken {
            access_token: token.try_clone(alloc)?,
            token_type: String::from_str(alloc, kind)?,
            accepted_at,
            lifetime,
            refresh_token: copied_refresh_token(alloc, keeper.refresh_token())?,
            client_id: Some(keeper.client_id().try_clone(alloc)?),
            token_url: Some(request_url(alloc, keeper.token_uri())?),
        })),
        _ => Ok(None),
    }
}

// Whether a stored token belongs to this client, or names no client.
fn is_of_client(stored: &StoredToken, client_id: &ClientId) -> bool
    ensures { result ≡ is_of stored.now.client_id (Some client_id.now) }
{
    match &stored.client_id {
        Some(stored) => stored.as_str() == client_id.as_str(),
        None => true,
    }
}

// Whether a stored token belongs to this token endpoint, or names no endpoint.
fn is_of_endpoint(stored: &StoredToken, token_url: &TokenUrl) -> bool
    ensures { result ≡ is_of stored.now.token_url (Some (serialize token_url.now.url)) }
{
    match &stored.token_url {
        Some(stored) => is_request_url(stored.as_str(), token_url),
        None => true,
    }
}

/// Starts a keeper from a stored token: its token and its refresh token replace those of the
/// keeper, whose client, margin and settings do not change. A `PatientKeeper` made of it hands the
/// token out only if its caller can use tokens of that type. A stored token of another client or of
/// another token endpoint is refused; the URLs are compared as requests go to them. A token that
/// was stored by an earlier version names neither, and is taken.
pub fn start_from_stored<TE, TR, TIR, RT, TRE, A, D, I, R>(
    keeper: &mut TokenKeeper<'_, TE, TR, TIR, RT, TRE, A, D, I, R>,
    stored: StoredToken,
) -> Result<(), StoredTokenError>
where
    TR: TokenResponse + Drop,
    A: EndpointState,
    D: EndpointState,
    I: EndpointState,
    R: EndpointState,
    ensures { Takes keeper.old stored result keeper.new }
{
    if !is_of_client(&stored, keeper.client_id()) {
        return Err(StoredTokenError::OtherClient(stored));
    }
    if !is_of_endpoint(&stored, keeper.token_uri()) {
        return Err(StoredTokenError::OtherEndpoint(stored));
    }
    let StoredToken {
        access_token,
        token_type,
        accepted_at,
        lifetime,
        refresh_token,
        client_id: _,
        token_url: _,
    } = stored;
    keeper.start_from(
        access_token,
        token_type,
        accepted_at,
        lifetime,
        refresh_token,
    );
    Ok(())
}
