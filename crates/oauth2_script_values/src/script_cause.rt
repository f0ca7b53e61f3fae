//! Why a member of a script is bad.

ghost use Rattle.std.specs.Prelude.{◌≡◌};
ghost use Rattle.oauth2_script_values.specs.Cause.{cause_word};

/// Why a member of a script is bad.
#[derive(Clone, Copy, Debug, PartialEq, Eq)]
pub enum ScriptCause {
    /// The input is not one whole JSON value.
    NotJson,
    /// The value is not an object.
    NotObject,
    /// The member is absent.
    Missing,
    /// The value is of another type.
    WrongType,
    /// The number is outside the range.
    OutOfRange,
    /// The text is no URL, or no absolute URI.
    BadUrl,
    /// The text is none of the words that the member may have.
    UnknownWord,
    /// The text has another length, or has bytes that the member may not have.
    BadText,
    /// Another member is present that excludes this one.
    Excluded,
}

impl ScriptCause {
    /// The cause as one word, as `wrong_type`.
    pub fn as_str(self) -> &'static str
        ensures { result.now ≡ cause_word self }
    {
        match self {
            ScriptCause::NotJson => "not_json",
            ScriptCause::NotObject => "not_object",
            ScriptCause::Missing => "missing",
            ScriptCause::WrongType => "wrong_type",
            ScriptCause::OutOfRange => "out_of_range",
            ScriptCause::BadUrl => "bad_url",
            ScriptCause::UnknownWord => "unknown_word",
            ScriptCause::BadText => "bad_text",
            ScriptCause::Excluded => "excluded",
        }
    }
}
