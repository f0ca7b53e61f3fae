//! Writing texts so that a formatter's options don't change them.

ghost use Rattle.std.specs.Prelude.{◌≡◌};
ghost use Rattle.std.specs.Fmt.{DisplaysOnOk, DisplaysStyledOnOk, debug_str, debug_variant};
ghost use Rattle.oauth2_types.specs.Display.{WritesDebugText};

use std::fmt;
use std::fmt::Write;

// A writer that passes each text to a formatter and ignores the formatter's options.
#[derive(Drop)]
struct Through<'f, W> {
    f: &'f mut fmt::Formatter<W>,
}

impl<'f, W: fmt::Write> Through<'f, W> {
    // Has no effect at run time. The proof needs the returned reference, to know what the
    // formatter became.
    fn into_inner(self) -> &'f mut fmt::Formatter<W>
        ensures { result ≡ self.entry.f }
    {
        self.f
    }
}

impl<'f, W: fmt::Write> fmt::Write for Through<'f, W> {
    ghost use Rattle.oauth2_types.specs.Passing.{PassesOn};

    ghost write_str_gives = { PassesOn W.write_str_gives };

    fn write_str(&mut self, s: &str) -> fmt::Result {
        self.f.write_str(s)
    }
}

/// Writes a value as `{}` does, whatever options the formatter has. The contract of `write!` covers
/// only a formatter without options; that of `write_display(f, format_args!(..))` covers all.
pub fn write_display<W: fmt::Write, D: fmt::Display + Drop>(
    f: &mut fmt::Formatter<W>,
    value: D,
) -> fmt::Result
    ensures writes { DisplaysOnOk W.write_str_gives f.old result (D.output value) f.new }
    ensures styled { DisplaysStyledOnOk W.write_str_gives f.old result (D.output value) f.new }
{
    let mut through = Through { f };
    let result = through.write(value);
    through.into_inner();
    result
}

/// Writes the name of a type and its text in quotes and parentheses. Under `{:#?}` the text has a
/// separate line. Other options change nothing.
pub fn write_debug_text<W: fmt::Write>(
    f: &mut fmt::Formatter<W>,
    name: &str,
    text: &str,
) -> fmt::Result
    ensures writes { DisplaysOnOk W.write_str_gives f.old result
        (debug_variant name.now (debug_str text.now)) f.new }
    ensures styled { WritesDebugText W.write_str_gives f.old result name.now text.now f.new }
{
    if f.alternate() {
        return write_display(f, format_args!("{name}(\n    {text:?},\n)"));
    }
    write_display(f, format_args!("{name}({text:?})"))
}
