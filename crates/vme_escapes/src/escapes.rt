//! The escapes of characters that a line cannot show as they are.
ghost use Rattle.std.specs.Prelude.{◌≡◌, ◌<◌, ◌≤◌, ◌||◌, ◌==◌, length, option_map, true};
ghost use Rattle.std.specs.Char.{is_control};
ghost use Rattle.vme_escapes.specs.Shown as spec;

use arrayvec::ArrayVec;
use vme_text::push;

/// The length of the longest escape, in bytes.
const ESCAPE: usize = 6;

/// A digit of a number in base 16.
fn hex_digit(n: u8) -> u8
    requires { n < 16 }
    ensures { result ≡ spec.hex_digit n }
{
    if n < 10 { b'0' + n } else { b'a' - 10 + n }
}

/// An escape that is one of a few.
fn short_escape(text: &[u8]) -> ArrayVec<u8, ESCAPE>
    requires { length text.now ≤ 6 }
    ensures { result.items ≡ text.now }
{
    let mut escape = ArrayVec::new();
    push(&mut escape, text);
    escape
}

/// The escape of a character below 256, by its number.
fn numbered_escape(c: u8) -> ArrayVec<u8, ESCAPE>
    ensures { result.items ≡ spec.numbered_escape c }
{
    let mut escape = ArrayVec::new();
    push(&mut escape, b"\\u00");
    escape.push(hex_digit(c / 16));
    escape.push(hex_digit(c % 16));
    escape
}

/// The escape of a character that a line cannot show as it is: a control character or a backslash.
/// It is that of a TOML string.
pub fn escape_of(c: char) -> Option<ArrayVec<u8, ESCAPE>>
    ensures { option_map (λ escape. escape.items) result ≡ spec.escape_of c }
{
    match c {
        '\u{8}' => Some(short_escape(b"\\b")),
        '\t' => Some(short_escape(b"\\t")),
        '\n' => Some(short_escape(b"\\n")),
        '\u{c}' => Some(short_escape(b"\\f")),
        '\r' => Some(short_escape(b"\\r")),
        '\\' => Some(short_escape(b"\\\\")),
        c if c.is_control() => Some(numbered_escape(c as u32 as u8)),
        _ => None,
    }
}
