//! The request for an authorization URL (RFC 6749, section 4.1.1).

ghost use Rattle.std.specs.Prelude.{◌≡◌, ◌↔◌, ◌++◌, ◌∷◌, [], Some, None, Err, IfOk, IfErr, OnOk};
ghost use Rattle.std.specs.Prelude.{IsTrue, List, ℕ, codes, map, option_copied, option_map};
ghost use Rattle.std.specs.Prelude.{unwrap_or};
ghost use Rattle.std.specs.Iterator.{Drains, IsFinite};
ghost use Rattle.oauth2_json.specs.Words.{joined_words};
ghost use Rattle.url.specs.Parser.{IsOutOfRoom};
ghost use Rattle.url.specs.Parts.{IsValid};
ghost use Rattle.oauth2_wire.specs.Expected.{optional_pair};
ghost use Rattle.oauth2_wire.specs.Texts.{param_bytes, param_pair, redirect_of, given_text};
ghost use Rattle.oauth2_requests.specs.Authorization.{IsTooLong, asked_url, query_pairs};
ghost use Rattle.oauth2_requests.specs.Authorization.{challenge_pairs, scope_pairs};
ghost use Rattle.oauth2_requests.specs.Authorization.{required_pairs, optional_pairs};
ghost use Rattle.form_urlencoded.specs.Form.{extend_pairs};
ghost use Rattle.oauth2_form.specs.Length.{usize_len};
ghost use Rattle.oauth2_form.specs.Query.{ExtendsQuery};
ghost use Rattle.oauth2_form.specs.ExtendsForm.{ExtendsForm};

use crate::query_len::{with_challenge, with_extra_params, with_pair, with_redirect, with_scopes};
use oauth2_form::{append_pair, append_plain_pair, query_text, with_query};
use oauth2_json::members;
use oauth2_types::{ClientId, CsrfToken, PkceCodeChallenge, ResponseType, Scope};
use oauth2_urls::{AuthUrl, RedirectUrl};
use oauth2_wire::{ParamText, RedirectRef};
use std::alloc::{AllocError, Global};
use std::marker::Model;
use url::{ParseError, Position, Url};

/// A request for an authorization URL.
#[derive(Debug, Drop)]
pub struct AuthorizationRequest<'a> {
    auth_url: &'a AuthUrl,
    client_id: &'a ClientId,
    state: CsrfToken,
    response_type: ParamText<'a>,
    pkce_challenge: Option<PkceCodeChallenge>,
    redirect_url: Option<RedirectRef<'a>>,
    scopes: Vec<Scope>,
    extra_params: Vec<(ParamText<'a>, ParamText<'a>)>,
}

impl<'a> Model for AuthorizationRequest<'a> {
    ghost use Rattle.std.specs.Prelude.{map, option_map};
    ghost use Rattle.oauth2_wire.specs.Texts.{param_bytes, param_pair, redirect_of};
    ghost use Rattle.oauth2_requests.specs.Authorization.{Authorization};

    ghost Value = { Authorization };

    ghost view = { λ r. record {
      auth_url = r.auth_url.now;
      client_id = r.client_id.now;
      state = r.state;
      response_type = param_bytes r.response_type;
      pkce_challenge = r.pkce_challenge;
      redirect_url = option_map redirect_of r.redirect_url;
      scopes = r.scopes.items;
      extra_params = map param_pair r.extra_params.items;
    } };
}

impl<'a> AuthorizationRequest<'a> {
    /// A request for a code, with this state. `oauth2::Client` builds it; call `new` yourself if
    /// you keep your endpoints without a `Client`.
    pub fn new(
        alloc: Global,
        auth_url: &'a AuthUrl,
        client_id: &'a ClientId,
        redirect_url: Option<&'a RedirectUrl>,
        state: CsrfToken,
    ) -> Self
        ensures { result ≡ record {
          auth_url = auth_url.now;
          client_id = client_id.now;
          state = state;
          response_type = codes "code";
          pkce_challenge = None;
          redirect_url = option_copied redirect_url.entry;
          scopes = [];
          extra_params = [];
        } }
    {
        AuthorizationRequest {
            auth_url,
            client_id,
            state,
            response_type: ParamText::Borrowed("code"),
            pkce_challenge: None,
            redirect_url: redirect_url.map(RedirectRef::Borrowed),
            scopes: Vec::new(alloc),
            extra_params: Vec::new(alloc),
        }
    }

    /// Adds a scope.
    pub fn add_scope(mut self, scope: Scope) -> Result<Self, AllocError>
        ensures { IfOk result (λ r. r ≡ record self.entry {
          scopes = self.entry.scopes ++ scope ∷ [];
        }) }
    {
        self.scopes.push(scope)?;
        Ok(self)
    }

    /// Adds scopes, in order. The iterator must end.
    pub fn add_scopes<I: IntoIterator<Item = Scope>>(
        mut self,
        scopes: I,
    ) -> Result<Self, AllocError>
        requires { (it : I.IntoIter) → I.into_iter_gives scopes it
            → I.IntoIter.can_next it × IsFinite (I.IntoIter.remaining it) }
        ensures { IfOk result (λ r. (it : I.IntoIter) × (added : List (List ℕ))
            × I.into_iter_gives scopes it × Drains I.IntoIter.next_gives it added
            × (r ≡ record self.entry { scopes = self.entry.scopes ++ added })) }
    {
        self.scopes.extend(scopes)?;
        Ok(self)
    }

    /// Adds an extra parameter. If the request itself sends a parameter with that name, both are
    /// sent.
    pub fn add_extra_param(
        mut self,
        name: ParamText<'a>,
        value: ParamText<'a>,
    ) -> Result<Self, AllocError>
        ensures { let added = (param_bytes name.entry, param_bytes value.entry) ∷ [] in
            IfOk result (λ r. r ≡ record self.entry {
              extra_params = self.entry.extra_params ++ added;
            }) }
    {
        self.extra_params.push((name, value))?;
        Ok(self)
    }

    /// Requests a token instead of a code: the implicit flow (RFC 6749, section 4.2.1).
    pub fn use_implicit_flow(mut self) -> Self
        ensures { result ≡ record self.entry { response_type = codes "token" } }
    {
        self.response_type = ParamText::Borrowed("token");
        self
    }

    /// Sets the response type. Without this call, it is `code`.
    pub fn set_response_type(
        mut self,
        alloc: Global,
        response_type: &ResponseType,
    ) -> Result<Self, AllocError>
        ensures { IfOk result (λ r. r ≡ record self.entry { response_type = response_type.now }) }
    {
        self.response_type = ParamText::Owned(String::from_str(alloc, response_type.as_str())?);
        Ok(self)
    }

    /// Sets the code challenge (RFC 7636, section 4.3).
    pub fn set_pkce_challenge(mut self, pkce_code_challenge: PkceCodeChallenge) -> Self
        ensures { result ≡ record self.entry { pkce_challenge = Some pkce_code_challenge } }
    {
        self.pkce_challenge = Some(pkce_code_challenge);
        self
    }

    /// Sets the redirect URL. Without this call, it is that of the client, if the client has one.
    pub fn set_redirect_uri(mut self, redirect_url: RedirectRef<'a>) -> Self
        ensures { result ≡ record self.entry {
          redirect_url = Some (redirect_of redirect_url.entry);
        } }
    {
        self.redirect_url = Some(redirect_url);
        self
    }

    /// The URL to send the user to, and the state. The error is `OutOfMemory`, or `Overflow` if the
    /// URL would be longer than a `Url` can be.
    pub fn url(self, alloc: Global) -> Result<(Url, CsrfToken), ParseError>
        ensures ok { IfOk result (λ r.
            ExtendsQuery self.entry.auth_url.url r.0 (query_pairs self.entry)) }
        ensures state { IfOk result (λ r. r.1 ≡ self.entry.state) }
        ensures refusal { IfErr result IsOutOfRoom }
        ensures overflow { result ≡ Err ParseError.Overflow ↔ IsTooLong (asked_url self.entry) }
    {
        let url = self.authorization_url(alloc)?;
        Ok((url, self.state))
    }

    /// The URL without the state. It borrows the request, so you can call it again if memory ran
    /// out. The errors are those of `url`.
    pub fn authorization_url(&self, alloc: Global) -> Result<Url, ParseError>
        ensures ok { IfOk result (λ url.
            ExtendsQuery self.now.auth_url.url url (query_pairs self.now)) }
        ensures refusal { IfErr result IsOutOfRoom }
        ensures overflow { result ≡ Err ParseError.Overflow ↔ IsTooLong (asked_url self.now) }
    {
        let url = self.auth_url.url();
        let Ok(form) = self.extended_query(alloc) else {
            return Err(self.refusal());
        };
        // This is tested first, because the contract of `with_query` does not say which of its two
        // errors is returned when.
        if is_too_long(url, form.len()) {
            return Err(ParseError::Overflow);
        }
        match with_query(url, form.as_slice()) {
            Ok(extended) => Ok(extended),
            Err(_) => Err(ParseError::OutOfMemory),
        }
    }

    // The error if memory ran out for the query: `Overflow` if the URL would be too long anyway.
    // The length is computed pair by pair, which allocates nothing.
    fn refusal(&self) -> ParseError
        ensures room { IsOutOfRoom result }
        ensures overflow { result ≡ ParseError.Overflow ↔ IsTooLong (asked_url self.now) }
    {
        if is_too_long(self.auth_url.url(), self.query_len()) {
            ParseError::Overflow
        } else {
            ParseError::OutOfMemory
        }
    }

    // The length in bytes of the query of the authorization URL, or `usize::MAX` if it is longer.
    fn query_len(&self) -> usize
        ensures { let query = unwrap_or self.now.auth_url.url.query [] in
            result ≡ usize_len (extend_pairs query (query_pairs self.now)) }
    {
        let own = own_query(self.auth_url.url());
        let len = self.required_len(own.len());
        let len = with_challenge(len, &self.pkce_challenge);
        let len = with_redirect(len, &self.redirect_url);
        let len = with_scopes(len, &self.scopes);
        with_extra_params(len, &self.extra_params)
    }

    // The length of a query of `own` bytes with the parameters that every request sends.
    fn required_len(&self, own: usize) -> usize
        ensures { (query : List ℕ) → own ≡ usize_len query
            → result ≡ usize_len (extend_pairs query (required_pairs self.now)) }
    {
        let len = with_pair(own, "response_type", self.response_type.as_str());
        let len = with_pair(len, "client_id", self.client_id.as_str());
        with_pair(len, "state", self.state.secret().as_str())
    }

    // The query of the endpoint with the parameters of the request appended.
    fn extended_query(&self, alloc: Global) -> Result<Vec<u8>, AllocError>
        ensures { let query = unwrap_or self.now.auth_url.url.query [] in
            IfOk result (λ form. ExtendsForm query form.items (query_pairs self.now)) }
    {
        let mut form = query_text(alloc, self.auth_url.url())?;
        self.push_required(&mut form)?;
        self.push_optional(alloc, &mut form)?;
        Ok(form)
    }

    // Appends the parameters that every request sends.
    fn push_required(&self, form: &mut Vec<u8>) -> Result<(), AllocError>
        ensures { OnOk result
            (ExtendsForm form.old.items form.new.items (required_pairs self.now)) }
    {
        append_plain_pair(form, "response_type", self.response_type.as_str())?;
        append_plain_pair(form, "client_id", self.client_id.as_str())?;
        append_plain_pair(form, "state", self.state.secret().as_str())?;
        Ok(())
    }

    // Appends the parameters that a request sends only if they were set.
    fn push_optional(&self, alloc: Global, form: &mut Vec<u8>) -> Result<(), AllocError>
        ensures { OnOk result
            (ExtendsForm form.old.items form.new.items (optional_pairs self.now)) }
    {
        push_challenge(form, &self.pkce_challenge)?;
        push_redirect(form, &self.redirect_url)?;
        push_scopes(alloc, form, &self.scopes)?;
        push_extra_params(form, &self.extra_params)?;
        Ok(())
    }
}

// The query of a URL, or the empty text if it has none.
fn own_query(url: &Url) -> &str
    ensures { result.now ≡ unwrap_or url.now.query [] }
{
    url.query().unwrap_or("")
}

// Whether the URL with a query of `query_len` bytes would be longer than a `Url` can be.
fn is_too_long(url: &Url, query_len: usize) -> bool
    ensures longer { (query : List ℕ) → query_len ≡ usize_len query
        → (IsTrue result ↔ IsTooLong (record url.now { query = Some query })) }
    ensures valid { IsValid url.now }
{
    let fragment = url.as_str().len() - url.index(Position::AfterQuery);
    let others = url.index(Position::AfterPath) + "?".len() + fragment;
    others.saturating_add(query_len) > u32::MAX as usize
}

fn push_challenge(
    form: &mut Vec<u8>,
    challenge: &Option<PkceCodeChallenge>,
) -> Result<(), AllocError>
    ensures { OnOk result
        (ExtendsForm form.old.items form.new.items (challenge_pairs challenge.now)) }
{
    if let Some(challenge) = challenge {
        append_plain_pair(form, "code_challenge", challenge.as_str())?;
        append_plain_pair(form, "code_challenge_method", challenge.method().as_str())?;
    }
    Ok(())
}

fn push_redirect(form: &mut Vec<u8>, redirect: &Option<RedirectRef<'_>>) -> Result<(), AllocError>
    ensures { let text = option_map given_text (option_map redirect_of redirect.now) in
        OnOk result (ExtendsForm form.old.items form.new.items
        (optional_pair (codes "redirect_uri") text)) }
{
    if let Some(redirect) = redirect {
        append_plain_pair(form, "redirect_uri", redirect.redirect_url().as_str())?;
    }
    Ok(())
}

fn push_scopes(alloc: Global, form: &mut Vec<u8>, scopes: &[Scope]) -> Result<(), AllocError>
    ensures { let scope = joined_words scopes.now in
        OnOk result (ExtendsForm form.old.items form.new.items (scope_pairs scope)) }
{
    let scope = members::join_with_spaces(alloc, scopes)?;
    push_scope(form, scope.as_str())?;
    Ok(())
}

fn push_scope(form: &mut Vec<u8>, scope: &str) -> Result<(), AllocError>
    ensures { OnOk result (ExtendsForm form.old.items form.new.items (scope_pairs scope.now)) }
{
    if !scope.is_empty() {
        append_plain_pair(form, "scope", scope)?;
    }
    Ok(())
}

fn push_extra_params(
    form: &mut Vec<u8>,
    extra_params: &[(ParamText<'_>, ParamText<'_>)],
) -> Result<(), AllocError>
    ensures { OnOk result
        (ExtendsForm form.old.items form.new.items (map param_pair extra_params.now)) }
{
    for (name, value) in extra_params {
        append_pair(form, name.as_str(), value.as_str())?;
    }
    Ok(())
}
