//! How deep the tables and arrays of a text are nested. It is tested before the text is parsed,
//! because what the parser makes is dropped by recursion.
ghost use Rattle.std.specs.Prelude.{◌≡◌, ◌<◌, ◌≤◌, true, false};
ghost use Rattle.arrayvec.specs.ArrayVec.{array_vec_len};
ghost use Rattle.vme_scenario.specs.Depth as spec;
ghost use Rattle.vme_scenario.specs.Borrowed.{is_filler, placed};

use arrayvec::ArrayVec;

/// The deepest nesting of tables and arrays, counting the dots of keys. docs/FAULTS.md has the
/// limits.
const MOST_DEEP: usize = 80;

/// Whether a byte stands in a string or a comment, and how its string ends.
#[derive(Clone, Copy, PartialEq, Eq, Debug)]
enum Mode {
    Plain,
    Comment,
    /// After the first delimiter of a string.
    Opened(u8),
    /// After the second delimiter: the string is empty, or goes over several lines.
    Doubled(u8),
    /// In a string on one line, with its delimiter.
    Short(u8),
    ShortEscape,
    /// In a string over several lines, with its delimiter, and after how many delimiters in a row.
    Long(u8, u8),
    LongEscape,
}

/// The place of the next byte.
#[derive(Drop)]
struct Place {
    mode: Mode,
    /// Whether its line has a `=` yet. If not, a bracket begins a header.
    keyed: bool,
    here: usize,
    /// The depth of the table or array in which it stands.
    held: usize,
    /// The depths of the tables and arrays around that one, from the inside out.
    outer: ArrayVec<usize, 81>,
}

/// The mode after a byte outside of strings and comments.
fn mode_behind(byte: u8) -> Mode
    ensures { result ≡ spec.mode_behind byte }
{
    match byte {
        b'"' | b'\'' => Mode::Opened(byte),
        b'#' => Mode::Comment,
        _ => Mode::Plain,
    }
}

/// The mode after a byte in a string on one line.
fn in_short(delimiter: u8, byte: u8) -> Mode
    ensures { result ≡ spec.in_short delimiter byte }
{
    if byte == delimiter {
        Mode::Plain
    } else if byte == b'\\' && delimiter == b'"' {
        Mode::ShortEscape
    } else {
        Mode::Short(delimiter)
    }
}

/// The mode after a byte in a string over several lines, given how many delimiters stand before the
/// byte.
fn in_long(delimiter: u8, run: u8, byte: u8) -> Mode
    ensures { result ≡ spec.in_long delimiter run byte }
{
    if byte == delimiter {
        Mode::Long(delimiter, if 3 <= run { 3 } else { run + 1 })
    } else if 3 <= run {
        mode_behind(byte)
    } else if byte == b'\\' && delimiter == b'"' {
        Mode::LongEscape
    } else {
        Mode::Long(delimiter, 0)
    }
}

/// The mode after one more byte.
fn mode_after(mode: Mode, byte: u8) -> Mode
    ensures { result ≡ spec.mode_after mode byte }
{
    match mode {
        Mode::Plain => mode_behind(byte),
        Mode::Comment if byte == b'\n' => Mode::Plain,
        Mode::Comment => Mode::Comment,
        Mode::Opened(delimiter) if byte == delimiter => Mode::Doubled(delimiter),
        Mode::Opened(delimiter) => in_short(delimiter, byte),
        Mode::Doubled(delimiter) if byte == delimiter => Mode::Long(delimiter, 0),
        Mode::Doubled(_) => mode_behind(byte),
        Mode::Short(delimiter) => in_short(delimiter, byte),
        Mode::ShortEscape => Mode::Short(b'"'),
        Mode::Long(delimiter, run) => in_long(delimiter, run, byte),
        Mode::LongEscape => Mode::Long(b'"', 0),
    }
}

/// Whether a byte outside of strings and comments changes no place: it begins none of them, and is
/// no part of a key's path, a table or an array.
fn is_filler(byte: u8) -> bool
    ensures { result ≡ is_filler byte }
{
    !matches!(
        byte,
        b'"' | b'\'' | b'#' | b'.' | b'=' | b'[' | b'{' | b']' | b'}' | b',' | b'\n'
    )
}

impl Place {
    /// The place of the first byte.
    fn front() -> Place
        ensures { placed result ≡ spec.front }
    {
        Place {
            mode: Mode::Plain,
            keyed: false,
            here: 0,
            held: 0,
            outer: ArrayVec::new(),
        }
    }

    fn is_within(&self) -> bool
        ensures within { result ≡ spec.is_within (placed self.now) }
        ensures room { result ≡ true → (self.now.here ≤ 80) × (array_vec_len self.now.outer ≤ 80) }
    {
        self.here <= MOST_DEEP && self.outer.len() <= MOST_DEEP
    }

    fn open(&mut self)
        requires { (self.old.here ≤ 80) × (array_vec_len self.old.outer ≤ 80) }
        ensures { placed self.new ≡ spec.opened (placed self.old) }
    {
        self.outer.insert(0, self.held);
        self.here += 1;
        self.held = self.here;
    }

    fn close(&mut self)
        ensures { placed self.new ≡ spec.closed_to (placed self.old) (placed self.old).outer }
    {
        if !self.outer.is_empty() {
            self.held = self.outer.remove(0);
            self.here = self.held;
        }
    }

    fn end_line(&mut self)
        ensures { placed self.new ≡ spec.broken_in (placed self.old) (placed self.old).outer }
    {
        if !self.outer.is_empty() {
            self.here = self.held;
        } else if self.keyed {
            self.keyed = false;
            self.here = self.held;
        } else {
            self.held = self.here;
        }
    }

    fn bracket(&mut self)
        requires { (self.old.here ≤ 80) × (array_vec_len self.old.outer ≤ 80) }
        ensures { placed self.new ≡ spec.bracketed (placed self.old) }
    {
        if self.keyed {
            self.open();
        } else {
            self.here = 0;
            self.held = 0;
        }
    }

    /// Takes the next byte, which stands outside of strings and comments.
    fn take_outside(&mut self, byte: u8)
        requires { (self.old.here ≤ 80) × (array_vec_len self.old.outer ≤ 80) }
        ensures { placed self.new ≡ spec.structured (placed self.old) byte }
    {
        match byte {
            b'.' => self.here += 1,
            b'=' => self.keyed = true,
            b'[' => self.bracket(),
            b'{' => self.open(),
            b']' | b'}' => self.close(),
            b',' => self.here = self.held,
            b'\n' => self.end_line(),
            _ => {}
        }
    }

    /// Whether the next byte changes nothing, as most do not.
    #[tactic(auto, using(crate::proofs::Fillers::filler_stays, crate::proofs::Fillers::comment_stays))]
    fn stays_at(&self, byte: u8) -> bool
        ensures { result ≡ true → spec.behind (placed self.now) byte ≡ placed self.now }
    {
        match self.mode {
            Mode::Plain => is_filler(byte),
            Mode::Comment => byte != b'\n',
            _ => false,
        }
    }

    /// Takes the next byte.
    fn take(&mut self, byte: u8)
        requires { (self.old.here ≤ 80) × (array_vec_len self.old.outer ≤ 80) }
        ensures { placed self.new ≡ spec.behind (placed self.old) byte }
    {
        if self.stays_at(byte) {
            return;
        }
        self.mode = mode_after(self.mode, byte);
        if matches!(self.mode, Mode::Plain) {
            self.take_outside(byte);
        }
    }
}

/// Whether no table or array of a text is too deep.
pub(crate) fn is_shallow(text: &[u8]) -> bool
    ensures { result ≡ spec.is_shallow text.now }
{
    let mut place = Place::front();
    for byte in text {
        place.take(*byte);
        if !place.is_within() {
            return false;
        }
    }
    true
}
