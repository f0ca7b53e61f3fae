//! Texts and redirect URLs that are borrowed or owned.

ghost use Rattle.std.specs.Prelude.{◌≡◌, string_bytes};
ghost use Rattle.oauth2_wire.specs.Texts.{param_bytes, redirect_of};

use oauth2_urls::RedirectUrl;

/// A name or a value of a parameter, borrowed or owned.
#[derive(Debug, Drop)]
pub enum ParamText<'a> {
    /// A text that the caller keeps.
    Borrowed(&'a str),
    /// A text that this value owns.
    Owned(String),
}

impl<'a> From<&'a str> for ParamText<'a> {
    ghost from_gives = { λ text param. param_bytes param ≡ text.now };

    fn from(text: &'a str) -> ParamText<'a> {
        ParamText::Borrowed(text)
    }
}

impl<'a> From<String> for ParamText<'a> {
    ghost from_gives = { λ text param. param_bytes param ≡ string_bytes text };

    fn from(text: String) -> ParamText<'a> {
        ParamText::Owned(text)
    }
}

impl ParamText<'_> {
    /// The text.
    pub fn as_str(&self) -> &str
        ensures { result.now ≡ param_bytes self.now }
    {
        match self {
            ParamText::Borrowed(text) => text,
            ParamText::Owned(text) => text.as_str(),
        }
    }
}

/// A redirect URL, borrowed or owned.
#[derive(Debug, Drop)]
pub enum RedirectRef<'a> {
    /// A URL that the caller keeps.
    Borrowed(&'a RedirectUrl),
    /// A URL that this value owns.
    Owned(RedirectUrl),
}

impl<'a> From<&'a RedirectUrl> for RedirectRef<'a> {
    ghost from_gives = { λ url redirect. redirect_of redirect ≡ url.now };

    fn from(url: &'a RedirectUrl) -> RedirectRef<'a> {
        RedirectRef::Borrowed(url)
    }
}

impl<'a> From<RedirectUrl> for RedirectRef<'a> {
    ghost from_gives = { λ url redirect. redirect_of redirect ≡ url };

    fn from(url: RedirectUrl) -> RedirectRef<'a> {
        RedirectRef::Owned(url)
    }
}

impl RedirectRef<'_> {
    /// The redirect URL.
    pub fn redirect_url(&self) -> &RedirectUrl
        ensures { result.now ≡ redirect_of self.now }
    {
        match self {
            RedirectRef::Borrowed(url) => url,
            RedirectRef::Owned(url) => url,
        }
    }
}
