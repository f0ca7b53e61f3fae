//! The exchange of a token for another one (RFC 8693).

ghost use Rattle.std.specs.Prelude.{◌≡◌, ◌∷◌, [], ◌++◌, Some, None, IfOk, IsOkAnd, IsErrAnd, OnOk};
ghost use Rattle.std.specs.Prelude.{IfErr, IsTrue, false, codes, map, option_map, if◌then◌else◌};
ghost use Rattle.oauth2_wire.specs.Expected.{optional_pair};
ghost use Rattle.oauth2_resource_indicators.specs.AbsoluteUri.{is_absolute_uri};
ghost use Rattle.oauth2_grants.specs.Extension.{new_extension_request, with_params};
ghost use Rattle.oauth2_grants.specs.TokenExchange.{
  actor_pairs,
  pairs_named,
  token_exchange_grant,
  token_exchange_pairs,
  token_type_text,
};
ghost use Rattle.oauth2_grants.specs.declared.grant_fault.GrantFault.TheVariants.{
  Memory,
  ResourceIsNoUri,
  TokenTypeIsNoUri,
};

use crate::extension_token_request::ExtensionTokenRequest;
use crate::grant_fault::GrantFault;
use crate::token_client::TokenClient;
use crate::token_type::TokenTypeIdentifier;
use oauth2_form::ParamBuffer;
use oauth2_resource_indicators::is_absolute_uri;
use std::alloc::{AllocError, Global};
use std::convert::AsStr;
use std::marker::Model;

/// The grant type of a token exchange (RFC 8693, section 2.1).
pub const TOKEN_EXCHANGE: &str = "urn:ietf:params:oauth:grant-type:token-exchange";

/// A token and its type.
#[derive(Drop)]
struct TypedToken<'a> {
    token: &'a str,
    token_type: TokenTypeIdentifier<'a>,
}

impl<'a> Model for TypedToken<'a> {
    ghost use Rattle.oauth2_grants.specs.TokenExchange as exchange;

    ghost Value = { exchange.TypedToken };

    ghost view = { λ t. record {
      token = t.token.now;
      token_type = exchange.token_type_text t.token_type;
    } };
}

/// What an exchange asks for, beside the scopes (RFC 8693, section 2.1). It holds tokens and has no
/// debug text.
pub struct TokenExchange<'a> {
    resources: Vec<&'a str>,
    audiences: Vec<&'a str>,
    requested_token_type: Option<TokenTypeIdentifier<'a>>,
    subject: TypedToken<'a>,
    actor: Option<TypedToken<'a>>,
}

impl Drop for TokenExchange<'_> {
    fn drop(self) {
        let TokenExchange {
            resources: _,
            audiences: _,
            requested_token_type: _,
            subject: _,
            actor: _,
        } = self;
    }
}

impl<'a> Model for TokenExchange<'a> {
    ghost use Rattle.std.specs.Prelude.{map, option_map};
    ghost use Rattle.oauth2_grants.specs.TokenExchange.{Exchange, token_type_text};

    ghost Value = { Exchange };

    ghost view = { λ e. record {
      resources = map (λ r. r.now) e.resources.items;
      audiences = map (λ a. a.now) e.audiences.items;
      requested_token_type = option_map token_type_text e.requested_token_type;
      subject = e.subject;
      actor = e.actor;
    } };
}

impl<'a> TokenExchange<'a> {
    /// An exchange of this token, of this type: the token of the party on whose behalf the request
    /// is made.
    pub fn new(
        alloc: Global,
        subject_token: &'a str,
        subject_token_type: TokenTypeIdentifier<'a>,
    ) -> Result<TokenExchange<'a>, GrantFault>
        ensures uri { IsTrue (is_absolute_uri (token_type_text subject_token_type.entry))
            → IsOkAnd result (λ e. e ≡ record {
              resources = [];
              audiences = [];
              requested_token_type = None;
              subject = record {
                token = subject_token.now;
                token_type = token_type_text subject_token_type.entry;
              };
              actor = None;
            }) }
        ensures no_uri { is_absolute_uri (token_type_text subject_token_type.entry) ≡ false
            → IsErrAnd result (λ fault. fault ≡ TokenTypeIsNoUri) }
    {
        if !is_absolute_uri(subject_token_type.as_str()) {
            return Err(GrantFault::TokenTypeIsNoUri);
        }
        Ok(TokenExchange {
            resources: Vec::new(alloc),
            audiences: Vec::new(alloc),
            requested_token_type: None,
            subject: TypedToken {
                token: subject_token,
                token_type: subject_token_type,
            },
            actor: None,
        })
    }

    /// Adds a target service or resource: an absolute URI without a fragment.
    pub fn add_resource(mut self, resource: &'a str) -> Result<TokenExchange<'a>, GrantFault>
        ensures ok { IfOk result (λ e. IsTrue (is_absolute_uri resource.now)
            × (e ≡ record self.entry {
              resources = self.entry.resources ++ resource.now ∷ [];
            })) }
        ensures err { IfErr result (λ fault. fault
            ≡ (if is_absolute_uri resource.now then Memory else ResourceIsNoUri)) }
    {
        if !is_absolute_uri(resource) {
            return Err(GrantFault::ResourceIsNoUri);
        }
        push_text(&mut self.resources, resource)?;
        Ok(self)
    }

    /// Adds a target service by the name that the server knows it by.
    pub fn add_audience(mut self, audience: &'a str) -> Result<TokenExchange<'a>, AllocError>
        ensures { IfOk result (λ e. e ≡ record self.entry {
          audiences = self.entry.audiences ++ audience.now ∷ [];
        }) }
    {
        push_text(&mut self.audiences, audience)?;
        Ok(self)
    }

    /// Sets the type of the token that is asked for.
    pub fn set_requested_token_type(
        mut self,
        token_type: TokenTypeIdentifier<'a>,
    ) -> Result<TokenExchange<'a>, GrantFault>
        ensures uri { IsTrue (is_absolute_uri (token_type_text token_type.entry))
            → IsOkAnd result (λ e. e ≡ record self.entry {
              requested_token_type = Some (token_type_text token_type.entry);
            }) }
        ensures no_uri { is_absolute_uri (token_type_text token_type.entry) ≡ false
            → IsErrAnd result (λ fault. fault ≡ TokenTypeIsNoUri) }
    {
        if !is_absolute_uri(token_type.as_str()) {
            return Err(GrantFault::TokenTypeIsNoUri);
        }
        self.requested_token_type = Some(token_type);
        Ok(self)
    }

    /// Sets the token of the acting party, and its type.
    pub fn set_actor_token(
        mut self,
        actor_token: &'a str,
        actor_token_type: TokenTypeIdentifier<'a>,
    ) -> Result<TokenExchange<'a>, GrantFault>
        ensures uri { IsTrue (is_absolute_uri (token_type_text actor_token_type.entry))
            → IsOkAnd result (λ e. e ≡ record self.entry {
              actor = Some (record {
                token = actor_token.now;
                token_type = token_type_text actor_token_type.entry;
              });
            }) }
        ensures no_uri { is_absolute_uri (token_type_text actor_token_type.entry) ≡ false
            → IsErrAnd result (λ fault. fault ≡ TokenTypeIsNoUri) }
    {
        if !is_absolute_uri(actor_token_type.as_str()) {
            return Err(GrantFault::TokenTypeIsNoUri);
        }
        self.actor = Some(TypedToken {
            token: actor_token,
            token_type: actor_token_type,
        });
        Ok(self)
    }

    /// The request for this exchange, of this client. Scopes are added to it. An error means out of
    /// memory.
    pub fn to_request<'c, TE, TR>(
        &self,
        alloc: Global,
        client: TokenClient<'c>,
    ) -> Result<ExtensionTokenRequest<'c, TE, TR>, AllocError>
        ensures { IfOk result (λ r. r
            ≡ with_params (new_extension_request client.entry token_exchange_grant)
            (token_exchange_pairs self.now)) }
    {
        let params = self.params(alloc)?;
        Ok(ExtensionTokenRequest::of_params(client, TOKEN_EXCHANGE, params))
    }

    // The parameters, in the order of the standard.
    fn params(&self, alloc: Global) -> Result<ParamBuffer, AllocError>
        ensures { IfOk result (λ params. params ≡ record {
          scope = None;
          extra_params = token_exchange_pairs self.now;
        }) }
    {
        let mut params = ParamBuffer::new(alloc);
        add_each(&mut params, "resource", self.resources.as_slice())?;
        add_each(&mut params, "audience", self.audiences.as_slice())?;
        add_requested(&mut params, &self.requested_token_type)?;
        add_typed(
            &mut params,
            "subject_token",
            "subject_token_type",
            &self.subject,
        )?;
        add_actor(&mut params, &self.actor)?;
        Ok(params)
    }
}

// Adds a text at the end.
fn push_text<'a>(texts: &mut Vec<&'a str>, text: &'a str) -> Result<(), AllocError>
    ensures { OnOk result (map (λ t. t.now) texts.new.items
        ≡ map (λ t. t.now) texts.old.items ++ text.now ∷ []) }
{
    texts.push(text)?;
    Ok(())
}

// Adds a parameter of this name for each value, in order.
fn add_each(params: &mut ParamBuffer, name: &str, values: &[&str]) -> Result<(), AllocError>
    ensures { OnOk result (params.new ≡ record params.old {
      extra_params =
          params.old.extra_params ++ pairs_named name.now (map (λ v. v.now) values.now);
    }) }
{
    for value in values {
        params.add_extra(name, value)?;
    }
    Ok(())
}

// Adds the type of the token that is asked for, if it was set.
fn add_requested(
    params: &mut ParamBuffer,
    token_type: &Option<TokenTypeIdentifier<'_>>,
) -> Result<(), AllocError>
    ensures { let text = option_map token_type_text token_type.now in
        OnOk result (params.new ≡ record params.old {
          extra_params =
              params.old.extra_params ++ optional_pair (codes "requested_token_type") text;
        }) }
{
    match token_type {
        Some(token_type) => {
            params.add_extra("requested_token_type", token_type.as_str())?;
            Ok(())
        }
        None => Ok(()),
    }
}

// Adds a token and its type, under these names.
fn add_typed(
    params: &mut ParamBuffer,
    name: &str,
    type_name: &str,
    token: &TypedToken<'_>,
) -> Result<(), AllocError>
    ensures { OnOk result (params.new ≡ record params.old {
      extra_params =
          params.old.extra_params
          ++ (name.now, token.now.token) ∷ (type_name.now, token.now.token_type) ∷ [];
    }) }
{
    params.add_extra(name, token.token)?;
    params.add_extra(type_name, token.token_type.as_str())?;
    Ok(())
}

// Adds the token of the acting party, if there is one.
fn add_actor(params: &mut ParamBuffer, actor: &Option<TypedToken<'_>>) -> Result<(), AllocError>
    ensures { OnOk result (params.new ≡ record params.old {
      extra_params = params.old.extra_params ++ actor_pairs actor.now;
    }) }
{
    match actor {
        Some(actor) => {
            add_typed(params, "actor_token", "actor_token_type", actor)?;
            Ok(())
        }
        None => Ok(()),
    }
}
