//! Faults on one line, whatever a name in them holds.
ghost use Rattle.std.specs.Prelude.{◌≡◌, ◌<◌, Some};
ghost use Rattle.vme_program.specs.Shown as spec;

use std::fmt::{self, Write};

/// A digit of a number in base 16.
fn hex_digit(n: u32) -> char
    requires { n < 16 }
    ensures { result ≡ spec.hex_digit n }
{
    if n < 10 {
        char::from(b'0' + n as u8)
    } else {
        char::from(b'a' - 10 + n as u8)
    }
}

/// A character of a line. A control character or a backslash is escaped as in a TOML string.
#[derive(Clone, Copy)]
struct Shown(char);

impl fmt::Display for Shown {
    ghost output = { λ s. Some (spec.shown s.0) };

    fn fmt<W: fmt::Write>(&self, f: &mut fmt::Formatter<W>) -> fmt::Result {
        match self.0 {
            '\u{8}' => write!(f, "\\b"),
            '\t' => write!(f, "\\t"),
            '\n' => write!(f, "\\n"),
            '\u{c}' => write!(f, "\\f"),
            '\r' => write!(f, "\\r"),
            '\\' => write!(f, "\\\\"),
            c if c.is_control() => {
                let (high, low) = (hex_digit(c as u32 / 16), hex_digit(c as u32 % 16));
                write!(f, "\\u00{high}{low}")
            }
            c => write!(f, "{c}"),
        }
    }
}

/// A writer of what it is given. If it `breaks` lines, line feeds and backslashes stay as they are.
#[derive(Drop)]
struct Line<'a, W> {
    out: &'a mut fmt::Formatter<W>,
    breaks: bool,
}

impl<W: fmt::Write> fmt::Write for Line<'_, W> {
    fn write_str(&mut self, s: &str) -> fmt::Result {
        for c in s.chars() {
            if self.breaks && (c == '\n' || c == '\\') {
                self.out.write_char(c)?;
            } else {
                write!(self.out, "{}", Shown(c))?;
            }
        }
        Ok(())
    }
}

/// A text that is printed on one line.
#[derive(Drop)]
pub(crate) struct OneLine<D>(pub(crate) D);

impl<D: fmt::Display> fmt::Display for OneLine<D> {
    fn fmt<W: fmt::Write>(&self, f: &mut fmt::Formatter<W>) -> fmt::Result {
        let mut line = Line {
            out: f,
            breaks: false,
        };
        write!(line, "{}", self.0)
    }
}

/// A text that is printed on its own lines.
#[derive(Drop)]
pub(crate) struct Lines<D>(pub(crate) D);

impl<D: fmt::Display> fmt::Display for Lines<D> {
    fn fmt<W: fmt::Write>(&self, f: &mut fmt::Formatter<W>) -> fmt::Result {
        let mut line = Line {
            out: f,
            breaks: true,
        };
        write!(line, "{}", self.0)
    }
}
