//! How each type of URL is read from its text.

ghost use Rattle.oauth2_script_values.specs.Part as spec;

use crate::part::Part;
use crate::part_error::{PartError, bad};
use crate::script_cause::ScriptCause;
use oauth2_urls::{
    AuthUrl, DeviceAuthorizationUrl, IntrospectionUrl, RedirectUrl, RevocationUrl, TokenUrl,
};
use serde_json::Value;
use std::alloc::Global;
use url::Url;

impl Part for AuthUrl {
    ghost use Rattle.oauth2_urls.specs.Addressed.{Addressed};

    ghost Meaning = { Addressed };

    ghost meaning = { λ url. url };

    ghost reading = { spec.address };

    fn from_value(alloc: Global, value: &Value) -> Result<AuthUrl, PartError> {
        let text = String::from_value(alloc, value)?;
        Ok(AuthUrl::new(alloc, text)?)
    }
}

impl Part for DeviceAuthorizationUrl {
    ghost use Rattle.oauth2_urls.specs.Addressed.{Addressed};

    ghost Meaning = { Addressed };

    ghost meaning = { λ url. url };

    ghost reading = { spec.address };

    fn from_value(alloc: Global, value: &Value) -> Result<DeviceAuthorizationUrl, PartError> {
        let text = String::from_value(alloc, value)?;
        Ok(DeviceAuthorizationUrl::new(alloc, text)?)
    }
}

impl Part for IntrospectionUrl {
    ghost use Rattle.oauth2_urls.specs.Addressed.{Addressed};

    ghost Meaning = { Addressed };

    ghost meaning = { λ url. url };

    ghost reading = { spec.address };

    fn from_value(alloc: Global, value: &Value) -> Result<IntrospectionUrl, PartError> {
        let text = String::from_value(alloc, value)?;
        Ok(IntrospectionUrl::new(alloc, text)?)
    }
}

impl Part for RedirectUrl {
    ghost use Rattle.oauth2_urls.specs.Addressed.{Addressed};

    ghost Meaning = { Addressed };

    ghost meaning = { λ url. url };

    ghost reading = { spec.address };

    fn from_value(alloc: Global, value: &Value) -> Result<RedirectUrl, PartError> {
        let text = String::from_value(alloc, value)?;
        Ok(RedirectUrl::new(alloc, text)?)
    }
}

impl Part for RevocationUrl {
    ghost use Rattle.oauth2_urls.specs.Addressed.{Addressed};

    ghost Meaning = { Addressed };

    ghost meaning = { λ url. url };

    ghost reading = { spec.address };

    fn from_value(alloc: Global, value: &Value) -> Result<RevocationUrl, PartError> {
        let text = String::from_value(alloc, value)?;
        Ok(RevocationUrl::new(alloc, text)?)
    }
}

impl Part for TokenUrl {
    ghost use Rattle.oauth2_urls.specs.Addressed.{Addressed};

    ghost Meaning = { Addressed };

    ghost meaning = { λ url. url };

    ghost reading = { spec.address };

    fn from_value(alloc: Global, value: &Value) -> Result<TokenUrl, PartError> {
        let text = String::from_value(alloc, value)?;
        Ok(TokenUrl::new(alloc, text)?)
    }
}

impl Part for Url {
    ghost use Rattle.url.specs.Parts.{Parts};

    ghost Meaning = { Parts };

    ghost meaning = { λ url. url };

    ghost reading = { spec.url_part };

    fn from_value(alloc: Global, value: &Value) -> Result<Url, PartError> {
        let text = value.as_str().ok_or(bad(ScriptCause::WrongType))?;
        Ok(Url::parse(alloc, text)?)
    }
}
