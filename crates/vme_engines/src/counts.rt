//! The numbers of verdict lines, counted up in decimal.
ghost use Rattle.std.specs.Prelude.{◌≡◌, ◌+◌, ◌<◌, ◌≤◌, ◌^◌, ◌++◌, length, decimal};

use itoa::write_digits;
use std::marker::Model;
use vme_text::Text;

/// Where the digits end.
const END: usize = 20;

/// How many bytes of a number's row are copied at once.
const ROW: usize = 24;

/// The number of an edge, below 2^64, kept in decimal before bytes that do not matter, so that its
/// digits can be copied as a row of fixed length.
#[derive(Drop)]
pub(crate) struct Count {
    n: u64,
    first: usize,
    line: [u8; 44],
}

impl Model for Count {
    ghost use Rattle.std.specs.Prelude.{ℕ};
    ghost use Rattle.vme_engines.specs.Counting.{IsSpelled};

    ghost Value = { ℕ };

    ghost view = { λ c. c.n };

    ghost invariant = { λ c. IsSpelled c.n c.first c.line };
}

impl Count {
    /// The number n.
    pub(crate) fn new(n: u64) -> Count
        ensures { result ≡ n }
    {
        let mut line = *b"00000000000000000000........................";
        let first = write_digits(n, &mut line, END);
        Count { n, first, line }
    }

    /// Counts on by one. Nine times in ten only the last digit changes.
    #[inline(always)]
    pub(crate) fn advance(&mut self)
        requires { self.old + 1 < 2 ^ 64 }
        ensures { self.new ≡ self.old + 1 }
    {
        self.n += 1;
        if self.line[END - 1] < b'9' {
            self.line[END - 1] += 1;
        } else {
            self.first = write_digits(self.n, &mut self.line, END);
        }
    }

    /// Appends the number in decimal: at most 20 bytes.
    #[inline(always)]
    pub(crate) fn push_digits(&self, text: &mut Text)
        requires { length text.old + 24 ≤ 8192 }
        ensures text { text.new ≡ text.old ++ decimal self.now }
        ensures short { length text.new ≤ length text.old + 20 }
    {
        text.append::<ROW>(&self.line[self.first..], END - self.first);
    }
}
