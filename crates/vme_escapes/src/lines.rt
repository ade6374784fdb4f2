//! Faults on one line, whatever a name in them holds.

use crate::escapes::escape_of;
use std::fmt::{self, Write};

/// Writes a character as a line shows it.
fn write_shown<W: fmt::Write>(c: char, out: &mut fmt::Formatter<W>) -> fmt::Result {
    let Some(escape) = escape_of(c) else {
        return out.write_char(c);
    };
    for byte in escape.as_slice() {
        out.write_char(char::from(*byte))?;
    }
    Ok(())
}

/// A writer of what it is given. If it `breaks` lines, line feeds and backslashes stay as they are.
#[derive(Drop)]
struct Line<'a, W> {
    out: &'a mut fmt::Formatter<W>,
    breaks: bool,
}

impl<W: fmt::Write> fmt::Write for Line<'_, W> {
    fn write_str(&mut self, s: &str) -> fmt::Result {
        for c in s.chars() {
            if self.breaks && (c == '\n' || c == '\\') {
                self.out.write_char(c)?;
            } else {
                write_shown(c, self.out)?;
            }
        }
        Ok(())
    }
}

/// A text that is printed on one line.
#[derive(Drop)]
pub struct OneLine<D>(pub D);

impl<D: fmt::Display> fmt::Display for OneLine<D> {
    fn fmt<W: fmt::Write>(&self, f: &mut fmt::Formatter<W>) -> fmt::Result {
        let mut line = Line {
            out: f,
            breaks: false,
        };
        write!(line, "{}", self.0)
    }
}

/// A text that is printed on its own lines.
#[derive(Drop)]
pub struct Lines<D>(pub D);

impl<D: fmt::Display> fmt::Display for Lines<D> {
    fn fmt<W: fmt::Write>(&self, f: &mut fmt::Formatter<W>) -> fmt::Result {
        let mut line = Line {
            out: f,
            breaks: true,
        };
        write!(line, "{}", self.0)
    }
}
