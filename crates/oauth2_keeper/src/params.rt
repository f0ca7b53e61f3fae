//! The scopes and the extra parameters of a keeper's requests.

ghost use Rattle.std.specs.Prelude.{◌≡◌, ◌++◌, ◌∷◌, [], OnOk, OnErr, IfOk, map, option_copied};
ghost use Rattle.oauth2_wire.specs.Texts.{param_bytes, param_pair};
ghost use Rattle.oauth2_keeper.specs.private.Params.{with_params};

use oauth2::{ClientCredentialsTokenRequest, ParamText, RefreshTokenRequest, Scope, TryClone};
use std::alloc::{AllocError, Global};
use std::marker::Model;

/// Parameters, in the order in which they were added.
#[derive(Drop)]
pub(crate) struct Params<'a> {
    params: Option<Vec<(ParamText<'a>, ParamText<'a>)>>,
}

impl<'a> Model for Params<'a> {
    ghost use Rattle.std.specs.Prelude.{List};
    ghost use Rattle.oauth2_form.specs.Pairs.{Pair};
    ghost use Rattle.oauth2_keeper.specs.Keeper.{pairs_of};

    ghost Value = { List Pair };

    ghost view = { λ p. pairs_of p.params };
}

impl<'a> Params<'a> {
    // No parameters.
    pub(crate) fn new() -> Params<'a>
        ensures { result ≡ [] }
    {
        Params { params: None }
    }

    // Adds a parameter at the end. After an error, nothing is added.
    pub(crate) fn push(
        &mut self,
        alloc: Global,
        name: ParamText<'a>,
        value: ParamText<'a>,
    ) -> Result<(), AllocError>
        ensures ok { let added = (param_bytes name.entry, param_bytes value.entry) ∷ [] in
            OnOk result (self.new ≡ self.old ++ added) }
        ensures err { OnErr result (self.new ≡ self.old) }
    {
        match &mut self.params {
            Some(params) => {
                params.push((name, value))?;
                Ok(())
            }
            None => {
                let mut params = Vec::new(alloc);
                params.push((name, value))?;
                self.params = Some(params);
                Ok(())
            }
        }
    }

    // The parameters, in the order in which they were added.
    fn as_slice(&self) -> &[(ParamText<'a>, ParamText<'a>)]
        ensures { map param_pair result.now ≡ self.now }
    {
        match &self.params {
            Some(params) => params.as_slice(),
            None => &[],
        }
    }
}

// Adds the scopes, if there are any, and the parameters to a request by the client's credentials.
pub(crate) fn with_client_params<'r, TE, TR>(
    alloc: Global,
    request: ClientCredentialsTokenRequest<'r, TE, TR>,
    scope: Option<&Scope>,
    extra_params: &'r Params<'_>,
) -> Result<ClientCredentialsTokenRequest<'r, TE, TR>, AllocError>
    ensures { let scopes = option_copied scope.entry in
        IfOk result (λ r. r ≡ record request.entry {
          base = with_params request.entry.base scopes extra_params.now;
        }) }
{
    let mut request = match scope {
        Some(scope) => request.add_scope(scope.try_clone(alloc)?)?,
        None => request,
    };
    for (name, value) in extra_params.as_slice() {
        request = request.add_extra_param(
            ParamText::Borrowed(name.as_str()),
            ParamText::Borrowed(value.as_str()),
        )?;
    }
    Ok(request)
}

// Adds the scopes, if there are any, and the parameters to a request by a refresh token.
pub(crate) fn with_refresh_params<'r, TE, TR>(
    alloc: Global,
    request: RefreshTokenRequest<'r, TE, TR>,
    scope: Option<&Scope>,
    params: &'r Params<'_>,
) -> Result<RefreshTokenRequest<'r, TE, TR>, AllocError>
    ensures { let scopes = option_copied scope.entry in
        IfOk result (λ r. r ≡ record request.entry {
          base = with_params request.entry.base scopes params.now;
        }) }
{
    let mut request = match scope {
        Some(scope) => request.add_scope(scope.try_clone(alloc)?)?,
        None => request,
    };
    for (name, value) in params.as_slice() {
        request = request.add_extra_param(
            ParamText::Borrowed(name.as_str()),
            ParamText::Borrowed(value.as_str()),
        )?;
    }
    Ok(request)
}
