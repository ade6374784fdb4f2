//! A line and its line feed as two words, by which it is looked up.
ghost use Rattle.std.specs.Prelude.{◌≡◌, ◌+◌, ◌<◌, ◌≤◌, IsTrue, ◌↔◌, length, take, drop};
ghost use Rattle.vme_trace.specs.Known.{number_of, key_number};

/// How many places there are for lines that were read before: a few more than the 959 lines that
/// spell an edge.
pub(crate) const PLACES: usize = 1024;

/// Mixes the bits of two words into those of a place.
const MIXER: u64 = 0x8ba1_dacd_5350_09f3;

/// For each group of lines, the number that is combined, by exclusive or, with the place that the
/// mixer alone would give them. A search found the mixer and these numbers such that no two lines
/// that spell an edge have the same place. What is read never depends on them, since a line may be
/// looked up at any place.
static DISTANCES: [u8; 256] = [
    1, 54, 0, 5, 2, 0, 4, 69, 0, 10, 17, 8, 8, 2, 11, 3, 20, 14, 8, 5, 128, 4, 7, 79, 1, 27, 14,
    17, 1, 0, 85, 62, 46, 34, 11, 61, 5, 8, 244, 4, 11, 68, 2, 0, 12, 3, 19, 74, 14, 34, 12, 2, 4,
    2, 122, 144, 41, 14, 1, 68, 23, 0, 4, 14, 7, 1, 0, 1, 0, 46, 1, 85, 18, 18, 28, 3, 3, 11, 0, 0,
    5, 11, 1, 10, 50, 12, 94, 17, 2, 0, 5, 3, 61, 11, 39, 29, 2, 26, 1, 9, 2, 72, 13, 0, 20, 1, 91,
    5, 25, 10, 204, 4, 13, 11, 1, 9, 3, 0, 64, 23, 6, 40, 177, 26, 11, 45, 71, 38, 14, 11, 5, 2,
    173, 0, 0, 4, 0, 76, 1, 0, 9, 19, 31, 43, 70, 0, 1, 12, 29, 0, 5, 78, 0, 9, 58, 14, 19, 0, 8,
    62, 72, 68, 97, 12, 42, 4, 14, 26, 164, 114, 19, 0, 9, 0, 100, 71, 132, 227, 2, 72, 53, 17,
    136, 0, 64, 25, 5, 17, 57, 31, 96, 5, 27, 0, 64, 7, 41, 114, 91, 22, 13, 37, 52, 149, 66, 32,
    1, 246, 0, 0, 0, 13, 124, 13, 33, 0, 41, 27, 8, 1, 4, 176, 7, 0, 35, 147, 2, 67, 66, 12, 90, 4,
    30, 27, 0, 86, 0, 113, 30, 143, 90, 19, 9, 0, 4, 5, 0, 0, 0, 166, 156, 38, 35, 100, 62, 63,
];

/// The bytes of a line that stand in its first word, by the number of bytes before the line feed.
static LOW: [u64; 16] = [
    0xff,
    0xffff,
    0xff_ffff,
    0xffff_ffff,
    0xff_ffff_ffff,
    0xffff_ffff_ffff,
    0xff_ffff_ffff_ffff,
    0xffff_ffff_ffff_ffff,
    0xffff_ffff_ffff_ffff,
    0xffff_ffff_ffff_ffff,
    0xffff_ffff_ffff_ffff,
    0xffff_ffff_ffff_ffff,
    0xffff_ffff_ffff_ffff,
    0xffff_ffff_ffff_ffff,
    0xffff_ffff_ffff_ffff,
    0xffff_ffff_ffff_ffff,
];

/// The bytes of a line that stand in its second word, by the number of bytes before the line feed.
static HIGH: [u64; 16] = [
    0,
    0,
    0,
    0,
    0,
    0,
    0,
    0,
    0xff,
    0xffff,
    0xff_ffff,
    0xffff_ffff,
    0xff_ffff_ffff,
    0xffff_ffff_ffff,
    0xff_ffff_ffff_ffff,
    0xffff_ffff_ffff_ffff,
];

/// A line and its line feed, at most 16 bytes: the first eight as one number, and the others as
/// another.
///
/// Packed so, two comparisons find whether a line was read before.
#[derive(Clone, Copy)]
pub(crate) struct Key {
    pub(crate) low: u64,
    pub(crate) high: u64,
}

/// The first eight bytes of a text as a number, with the first byte lowest.
#[inline(always)]
fn word(text: &[u8]) -> u64
    requires { 8 ≤ length text.now }
    ensures { result ≡ number_of (take 8 text.now) }
{
    u64::from_le_bytes([
        text[0], text[1], text[2], text[3], text[4], text[5], text[6], text[7],
    ])
}

/// The key of the line at a place of a text, which has `line` bytes before its line feed.
#[inline(always)]
pub(crate) fn key_at(text: &[u8], at: usize, line: usize) -> Key
    requires room { at + 16 ≤ length text.now }
    requires short { line < 16 }
    ensures { key_number result ≡ number_of (take (line + 1) (drop at text.now)) }
{
    Key {
        low: word(&text[at..]) & LOW[line],
        high: word(&text[at + 8..]) & HIGH[line],
    }
}

impl Key {
    /// Whether the two are the key of the same line.
    #[inline(always)]
    pub(crate) fn is_same(self, other: Key) -> bool
        ensures { IsTrue result ↔ (self ≡ other) }
    {
        (self.low == other.low) & (self.high == other.high)
    }

    /// The place at which a line of this key is looked up.
    #[inline(always)]
    pub(crate) fn place(self) -> usize
        ensures { result < 1024 }
    {
        let bits = (self.low ^ (self.high << 20)).wrapping_mul(MIXER);
        let group = (bits >> 40) % 256;
        ((bits >> 54) as usize ^ usize::from(DISTANCES[group as usize])) % PLACES
    }
}
