//! The texts of `{:?}` and `{:#?}` of a client.

ghost use Rattle.std.specs.Prelude.{◌≡◌, ℕ, List, Some, codes};
ghost use Rattle.std.specs.Fmt.{debug_str};
ghost use Rattle.oauth2.specs.ClientText.{
  auth_type_text,
  client_debug_text,
  closing,
  field_text,
  named_text,
  opening,
  option_text,
  reply_rule_text,
};

use crate::client::{Endpoints, Parts};
use oauth2_urls::{
    AuthUrl, DeviceAuthorizationUrl, IntrospectionUrl, RedirectUrl, RevocationUrl, TokenUrl,
};
use oauth2_wire::{AuthType, ReplyRule};
use std::fmt;

// A URL type, which is shown as the text that it was parsed from.
trait GivenText {
    ghost given_text: { Self → List ℕ };

    fn given_text(&self) -> &str
        ensures { result.now ≡ given_text self.now };
}

impl GivenText for AuthUrl {
    ghost given_text = { λ url. url.text };

    fn given_text(&self) -> &str {
        self.as_str()
    }
}

impl GivenText for TokenUrl {
    ghost given_text = { λ url. url.text };

    fn given_text(&self) -> &str {
        self.as_str()
    }
}

impl GivenText for RedirectUrl {
    ghost given_text = { λ url. url.text };

    fn given_text(&self) -> &str {
        self.as_str()
    }
}

impl GivenText for IntrospectionUrl {
    ghost given_text = { λ url. url.text };

    fn given_text(&self) -> &str {
        self.as_str()
    }
}

impl GivenText for RevocationUrl {
    ghost given_text = { λ url. url.text };

    fn given_text(&self) -> &str {
        self.as_str()
    }
}

impl GivenText for DeviceAuthorizationUrl {
    ghost given_text = { λ url. url.text };

    fn given_text(&self) -> &str {
        self.as_str()
    }
}

// A name, and a value in parentheses. The fields: whether on several lines, the indent, the name
// and the value.
#[derive(Drop)]
struct Named<'a, T>(bool, &'a str, &'a str, T);

impl<T: fmt::Debug> fmt::Debug for Named<'_, T> {
    ghost debug_output = { λ x. named_text x.0 x.1.now x.2.now (T.debug_output x.3) };

    fn fmt<W: fmt::Write>(&self, f: &mut fmt::Formatter<W>) -> fmt::Result {
        let indent = self.1;
        let name = self.2;
        if self.0 {
            write!(f, "{name}(\n    {indent}{:?},\n{indent})", self.3)
        } else {
            write!(f, "{name}({:?})", self.3)
        }
    }
}

// A field whose value is a word. The fields: whether on several lines, the name and the word.
#[derive(Drop)]
struct WordField<'a>(bool, &'a str, &'a str);

impl fmt::Display for WordField<'_> {
    ghost output = { λ x. field_text x.0 x.1.now (Some x.2.now) };

    fn fmt<W: fmt::Write>(&self, f: &mut fmt::Formatter<W>) -> fmt::Result {
        let name = self.1;
        let word = self.2;
        if self.0 {
            write!(f, ",\n    {name}: {word}")
        } else {
            write!(f, ", {name}: {word}")
        }
    }
}

// A field with an optional value. The fields: whether on several lines, the name and the value.
#[derive(Drop)]
struct OptionField<'a, T>(bool, &'a str, Option<T>);

impl<T: fmt::Debug> fmt::Display for OptionField<'_, T> {
    ghost output = { λ x. field_text x.0 x.1.now (option_text x.0 T.debug_output x.2) };

    fn fmt<W: fmt::Write>(&self, f: &mut fmt::Formatter<W>) -> fmt::Result {
        let name = self.1;
        match &self.2 {
            Some(value) => {
                let value = Named(self.0, "    ", "Some", value);
                if self.0 {
                    write!(f, ",\n    {name}: {value:?}")
                } else {
                    write!(f, ", {name}: {value:?}")
                }
            }
            None => {
                let field = WordField(self.0, name, "None");
                write!(f, "{field}")
            }
        }
    }
}

// A field whose value is a URL. The fields: whether on several lines, the name, the name of its
// type and the URL.
#[derive(Drop)]
struct UrlField<'a, U>(bool, &'a str, &'a str, &'a Option<U>);

impl<U: GivenText> fmt::Display for UrlField<'_, U> {
    ghost output = { λ x. field_text x.0 x.1.now (option_text x.0
        (λ url. named_text x.0 (codes "        ") x.2.now (debug_str (U.given_text url)))
        x.3.now) };

    fn fmt<W: fmt::Write>(&self, f: &mut fmt::Formatter<W>) -> fmt::Result {
        match self.3 {
            Some(url) => {
                let value = Named(self.0, "        ", self.2, url.given_text());
                let field = OptionField(self.0, self.1, Some(value));
                write!(f, "{field}")
            }
            None => {
                let field = WordField(self.0, self.1, "None");
                write!(f, "{field}")
            }
        }
    }
}

fn auth_type_word(auth_type: AuthType) -> &'static str
    ensures { result.now ≡ auth_type_text auth_type }
{
    match auth_type {
        AuthType::BasicAuth => "BasicAuth",
        AuthType::RequestBody => "RequestBody",
    }
}

fn reply_rule_word(reply_rule: ReplyRule) -> &'static str
    ensures { result.now ≡ reply_rule_text reply_rule }
{
    match reply_rule {
        ReplyRule::Prefix => "Prefix",
        ReplyRule::MediaType => "MediaType",
    }
}

fn opening(in_lines: bool) -> &'static str
    ensures { result.now ≡ opening in_lines }
{
    if in_lines {
        "Client {\n    client_id: "
    } else {
        "Client { client_id: "
    }
}

fn closing(in_lines: bool) -> &'static str
    ensures { result.now ≡ closing in_lines }
{
    if in_lines { ",\n}" } else { " }" }
}

// The text of a client: the settings in the order of the Rust crate oauth2, then the rule for
// replies.
#[derive(Drop)]
pub(crate) struct ClientText<'a> {
    pub(crate) in_lines: bool,
    pub(crate) parts: &'a Parts,
    pub(crate) endpoints: &'a Endpoints,
}

impl fmt::Display for ClientText<'_> {
    ghost output = { λ x. client_debug_text x.in_lines (record {
      client_id = x.parts.now.client_id;
      client_secret = x.parts.now.client_secret;
      auth_type = x.parts.now.auth_type;
      reply_rule = x.parts.now.reply_rule;
      redirect_url = x.parts.now.redirect_url;
      auth_url = x.endpoints.now.auth_url;
      device_authorization_url = x.endpoints.now.device_authorization_url;
      introspection_url = x.endpoints.now.introspection_url;
      revocation_url = x.endpoints.now.revocation_url;
      token_url = x.endpoints.now.token_url;
    }) };

    #[tactic(auto, unfolding(crate::specs::ClientText::client_debug_text))]
    fn fmt<W: fmt::Write>(&self, f: &mut fmt::Formatter<W>) -> fmt::Result {
        let (lines, parts, ends) = (self.in_lines, self.parts, self.endpoints);
        let opening = opening(lines);
        let client_id = Named(lines, "    ", "ClientId", parts.client_id.as_str());
        let client_secret = OptionField(lines, "client_secret", parts.client_secret.as_ref());
        let auth_url = UrlField(lines, "auth_url", "AuthUrl", &ends.auth_url);
        let auth_type = WordField(lines, "auth_type", auth_type_word(parts.auth_type));
        let token_url = UrlField(lines, "token_url", "TokenUrl", &ends.token_url);
        let redirect_url = UrlField(lines, "redirect_url", "RedirectUrl", &parts.redirect_url);
        let introspection_url = UrlField(
            lines,
            "introspection_url",
            "IntrospectionUrl",
            &ends.introspection_url,
        );
        let revocation_url = UrlField(
            lines,
            "revocation_url",
            "RevocationUrl",
            &ends.revocation_url,
        );
        let device_authorization_url = UrlField(
            lines,
            "device_authorization_url",
            "DeviceAuthorizationUrl",
            &ends.device_authorization_url,
        );
        let reply_rule = WordField(lines, "reply_rule", reply_rule_word(parts.reply_rule));
        let closing = closing(lines);
        write!(
            f,
            "{opening}{client_id:?}{client_secret}{auth_url}{auth_type}{token_url}\
             {redirect_url}{introspection_url}{revocation_url}{device_authorization_url}\
             {reply_rule}{closing}"
        )
    }
}
