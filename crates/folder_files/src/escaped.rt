//! Text that stays in one line.

ghost use Rattle.std.specs.Prelude.{encode_utf8_all};
ghost use Rattle.std.specs.Char.Escape.{escape_default};
ghost use Rattle.std.specs.Fmt.{WritesOnOk};
ghost use Rattle.folder_files.specs.Escaped.{escaped_char, escaped_text};

use std::fmt;

/// A text that is printed with its control characters escaped, as `\n` or `\u{1b}`.
#[derive(Clone, Copy, Debug)]
pub struct Escaped<'a>(pub &'a str);

impl fmt::Display for Escaped<'_> {
    ghost use Rattle.std.specs.Prelude.{Some};
    ghost use Rattle.folder_files.specs.Escaped.{escaped_text};

    ghost output = { λ e. Some (escaped_text e.0.now) };

    fn fmt<W: fmt::Write>(&self, f: &mut fmt::Formatter<W>) -> fmt::Result {
        write_escaped(self.0, f)
    }
}

fn write_escaped<W: fmt::Write>(text: &str, f: &mut fmt::Formatter<W>) -> fmt::Result
    ensures { WritesOnOk W.write_str_gives f.old result (escaped_text text.now) f.new }
{
    for c in text.chars() {
        write_shown(c, f)?;
    }
    Ok(())
}

fn write_shown<W: fmt::Write>(c: char, f: &mut fmt::Formatter<W>) -> fmt::Result
    ensures { WritesOnOk W.write_str_gives f.old result (escaped_char c) f.new }
{
    if c.is_control() {
        return write_escape(c, f);
    }
    f.write_char(c)
}

fn write_escape<W: fmt::Write>(c: char, f: &mut fmt::Formatter<W>) -> fmt::Result
    ensures { WritesOnOk W.write_str_gives f.old result (encode_utf8_all (escape_default c)) f.new }
{
    let mut rest = c.escape_default();
    'escape: while let Some(next) = rest.next() {
        f.write_char(next)?;
    }
    Ok(())
}
