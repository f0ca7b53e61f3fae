//! The scopes and the extra parameters of a request, encoded as they are added.

ghost use Rattle.std.specs.Prelude.{◌≡◌, ◌↔◌, ◌∷◌, [], ◌++◌, None, Some, OnOk, OnErr, IsSome};
ghost use Rattle.std.specs.Prelude.{IsTrue, option_copied};
ghost use Rattle.oauth2_form.specs.Params.{no_params, with_scope};

use crate::encoded_text::EncodedText;
use crate::form_body::FormBody;
use std::alloc::{AllocError, Global};
use std::marker::Model;

/// The scopes and the extra parameters of a request, encoded as they are added.
///
/// Contracts see the scopes as one text, separated by spaces (RFC 6749, 3.3), and the parameters as
/// a list of pairs.
#[derive(Debug)]
pub struct ParamBuffer {
    scope: Option<EncodedText>,
    extra_params: FormBody,
    alloc: Global,
}

impl Drop for ParamBuffer {
    fn drop(self) {
        let ParamBuffer {
            scope: _,
            extra_params: _,
            alloc: _,
        } = self;
    }
}

impl Model for ParamBuffer {
    ghost use Rattle.oauth2_form.specs.Params.{Params};

    ghost Value = { Params };

    ghost view = { λ b. record { scope = b.scope; extra_params = b.extra_params } };
}

impl ParamBuffer {
    /// A buffer with no scope and no parameter.
    pub fn new(alloc: Global) -> ParamBuffer
        ensures { result ≡ no_params }
    {
        ParamBuffer {
            scope: None,
            extra_params: FormBody::new(alloc),
            alloc,
        }
    }

    /// Adds a scope. If memory runs out, the buffer is unchanged.
    pub fn add_scope(&mut self, scope: &str) -> Result<(), AllocError>
        ensures ok { OnOk result
            (self.new ≡ record self.old { scope = Some (with_scope self.old.scope scope.now) }) }
        ensures err { OnErr result (self.new ≡ self.old) }
    {
        match &mut self.scope {
            Some(text) => {
                text.push_word(scope)?;
                Ok(())
            }
            None => {
                self.scope = Some(EncodedText::new(self.alloc, scope)?);
                Ok(())
            }
        }
    }

    /// Adds an extra parameter. If memory runs out, the buffer is unchanged.
    pub fn add_extra(&mut self, name: &str, value: &str) -> Result<(), AllocError>
        ensures ok { OnOk result (self.new ≡ record self.old {
          extra_params = self.old.extra_params ++ (name.now, value.now) ∷ [];
        }) }
        ensures err { OnErr result (self.new ≡ self.old) }
    {
        self.extra_params.push(name, value)?;
        Ok(())
    }

    /// Whether a scope was added.
    pub fn has_scope(&self) -> bool
        ensures { IsTrue result ↔ IsSome self.now.scope }
    {
        self.scope.is_some()
    }

    /// The scopes as one encoded text, separated by spaces; `None` if no scope was added.
    pub fn scope(&self) -> Option<&EncodedText>
        ensures { option_copied result ≡ self.now.scope }
    {
        self.scope.as_ref()
    }

    /// The extra parameters, encoded.
    pub fn extra_params(&self) -> &FormBody
        ensures { result.now ≡ self.now.extra_params }
    {
        &self.extra_params
    }
}
