//! Laws: a login's URL and its token request agree when a server compares them.

ghost use Rattle.std.specs.Prelude.{ℕ, List};
ghost use Rattle.url.specs.Parts.{serialize};
ghost use Rattle.oauth2_urls.specs.Addressed.{Addressed};
ghost use Rattle.oauth2_form.specs.Pairs.{Pair, form};
ghost use Rattle.oauth2_wire.specs.Request.{IsRequestOf, RequestView};
ghost use Rattle.oauth2_requests.specs.Code.{code_configuration};
ghost use Rattle.oauth2.specs.CodeFlow.{PassesCheck};
ghost use Rattle.oauth2.specs.Settings.{Settings};
ghost use Rattle.oauth2_redirect.specs.Start.{ShowsLogin};
ghost use Rattle.oauth2_redirect.specs.End.{RepeatsRedirectUri, login_exchange};
ghost use Rattle.oauth2_redirect.specs.Login.{LoginView};

/// The verifier in a login's token request passes the server's check against the challenge in the
/// login's URL (RFC 7636, section 4.6).
pub fn login_passes_check()
    ensures { (login : LoginView) (query : List Pair) (client : Settings) (endpoint : Addressed)
        (code : List ℕ) (v : RequestView)
        → ShowsLogin login query
        → IsRequestOf (code_configuration (login_exchange client endpoint login code))
        (serialize endpoint.url) v
        → PassesCheck login.verifier query (form v.body) }
{}

/// A login's token request repeats the redirect URI of the login's URL (RFC 6749, section 4.1.3),
/// whatever redirect URI the client has by then.
pub fn login_repeats_redirect_uri()
    ensures { (login : LoginView) (query : List Pair) (client : Settings) (endpoint : Addressed)
        (code : List ℕ) (v : RequestView)
        → ShowsLogin login query
        → IsRequestOf (code_configuration (login_exchange client endpoint login code))
        (serialize endpoint.url) v
        → RepeatsRedirectUri login.redirect_uri.text query (form v.body) }
{}
