// Parts of the debug text of a key.

ghost use Rattle.std.specs.Fmt.{WritesStyledOnOk, formatter_spec, spec_alternate, styled_decimal};
ghost use Rattle.std.specs.Prelude.{◌≡◌, ◌<◌, if◌then◌else◌, length};
ghost use Rattle.modular_arithmetic.specs.DebugText.{octets_text};

use std::fmt;

/// One of two texts: that for several lines, as under `{:#?}`, or that for one line.
pub fn choose(in_lines: bool, lines: &'static str, line: &'static str) -> &'static str
    ensures { result.now ≡ (if in_lines then lines.now else line.now) }
{
    if in_lines { lines } else { line }
}

/// Writes octets as the derived `Debug` of a struct writes a field that is a slice: as numbers in
/// brackets, and under `{:#?}` with a line for each.
pub fn write_octets<W: fmt::Write>(f: &mut fmt::Formatter<W>, octets: &[u8]) -> fmt::Result
    requires { 0 < length octets.now }
    ensures { WritesStyledOnOk W.write_str_gives f.old result
        (octets_text (spec_alternate (formatter_spec f.old)) (styled_decimal (formatter_spec f.old))
        octets.now) f.new }
{
    let in_lines = f.alternate();
    let mut before = choose(in_lines, "[\n        ", "[");
    for octet in octets {
        f.write_str(before)?;
        fmt::Display::fmt(octet, f)?;
        before = choose(in_lines, ",\n        ", ", ");
    }
    f.write_str(choose(in_lines, ",\n    ]", "]"))
}
