//! Bytes in an array, appended by copies of a fixed length.
ghost use Rattle.std.specs.Prelude.{◌≡◌, ◌+◌, ◌<◌, ◌≤◌, ◌↔◌, ◌++◌, ◌∷◌, [], length, take, IsTrue};

use std::marker::Model;

/// How many bytes of a line's row are copied.
const ROW: usize = 24;

/// How many bytes of a line's tail are copied.
const TAIL: usize = 8;

/// The most bytes that a text holds.
pub const ROOM: usize = 8_192;

/// If a text is not nearly full, it has room for at least this many bytes: more than any ten lines
/// have.
pub const LINE_ROOM: usize = 640;

/// A buffer in which a text is put together before it is written. It holds at most 8,192 bytes.
#[derive(Drop)]
pub struct Text {
    bytes: [u8; ROOM],
    len: usize,
}

impl Model for Text {
    ghost use Rattle.std.specs.Prelude.{ℕ, List, ◌≤◌, take};

    ghost Value = { List ℕ };

    ghost view = { λ t. take t.len t.bytes };

    ghost invariant = { λ t. t.len ≤ 8192 };
}

impl Text {
    /// An empty text.
    pub fn new() -> Text
        ensures { result ≡ [] }
    {
        Text {
            bytes: [0; ROOM],
            len: 0,
        }
    }

    /// The bytes of the text.
    #[inline(always)]
    pub fn as_slice(&self) -> &[u8]
        ensures { result.now ≡ self.now }
    {
        &self.bytes[..self.len]
    }

    /// Empties the text.
    #[inline(always)]
    pub fn clear(&mut self)
        ensures { self.new ≡ [] }
    {
        self.len = 0;
    }

    /// Whether there is room for fewer than [`LINE_ROOM`] more bytes.
    #[inline(always)]
    pub fn is_nearly_full(&self) -> bool
        ensures { IsTrue result ↔ ROOM < length self.now + LINE_ROOM }
    {
        self.len > ROOM - LINE_ROOM
    }

    /// Appends the first `many` bytes of a row, at most `N`. It copies `N` bytes, since a copy of a
    /// fixed length is the fastest; the bytes beyond the text's new end do not matter.
    #[inline(always)]
    pub fn append<const N: usize>(&mut self, row: &[u8], many: usize)
        requires row { N ≤ length row.now }
        requires many { many ≤ N }
        requires room { length self.old + N ≤ ROOM }
        ensures { self.new ≡ self.old ++ take many row.now }
    {
        let len = self.len;
        self.bytes[len..len + N].copy_from_slice(&row[..N]);
        self.len = len + many;
    }

    /// Appends a line: the first `many` bytes of a row, a digit, and the first `size` bytes of a
    /// tail. The tail is passed by value: behind a reference, the compiler could not know that its
    /// bytes are not those of the text itself.
    #[inline(always)]
    pub fn append_line(&mut self, row: &[u8], many: usize, digit: u8, tail: [u8; TAIL], size: usize)
        requires row { ROW ≤ length row.now }
        requires many { many ≤ ROW }
        requires size { size ≤ TAIL }
        requires room { length self.old + 33 ≤ ROOM }
        ensures { self.new ≡ self.old ++ (take many row.now ++ (digit ∷ take size tail)) }
    {
        let len = self.len;
        let end = len + many;
        self.bytes[len..len + ROW].copy_from_slice(&row[..ROW]);
        self.bytes[end] = digit;
        self.bytes[end + 1..end + 1 + TAIL].copy_from_slice(&tail);
        // One sum of what is known beforehand, so that the next line waits for nothing else.
        self.len = len + (many + 1 + size);
    }

    /// Appends bytes. The text has to have room for them.
    pub fn push(&mut self, bytes: &[u8])
        requires { length self.old + length bytes.now ≤ ROOM }
        ensures { self.new ≡ self.old ++ bytes.now }
    {
        let end = self.len + bytes.len();
        self.bytes[self.len..end].copy_from_slice(bytes);
        self.len = end;
    }
}
