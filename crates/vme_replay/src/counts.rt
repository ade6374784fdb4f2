//! The numbers of verdict lines, counted up in decimal.
ghost use Rattle.std.specs.Prelude.{◌≡◌, ◌+◌, ◌-◌, ◌*◌, ◌/◌, ◌%◌, ◌<◌, ◌≤◌, ◌^◌, ◌++◌, decimal, drop, length, take};
ghost use Rattle.vme_replay.specs.Counting.{tens_text};

use itoa::write_digits;
use std::marker::Model;
use vme_text::Text;

/// Where the digits of the tens end.
const END: usize = 20;

/// How many bytes of a number's row are copied at once.
const ROW: usize = 24;

/// The number of an edge, at most 2^64, kept in decimal. The digits of all its tens, none of 0,
/// stand before bytes that do not matter, so that they can be copied as a row of fixed length. The
/// last digit stands apart, since a row is slow to read just after one byte of it was stored.
#[derive(Drop)]
pub(crate) struct Count {
    tens: u64,
    last: u8,
    first: usize,
    line: [u8; 44],
}

impl Model for Count {
    ghost use Rattle.std.specs.Prelude.{ℕ, ◌+◌, ◌-◌, ◌*◌};
    ghost use Rattle.vme_replay.specs.Counting.{IsSpelled};

    ghost Value = { ℕ };

    ghost view = { λ c. 10 * c.tens + (c.last - 48) };

    ghost invariant = { λ c. IsSpelled c.tens c.last c.first c.line };
}

/// Writes the digits of a number, none of 0, up to [`END`], and answers where they begin.
fn spell(n: u64, line: &mut [u8; 44]) -> usize
    ensures ends { result + length (tens_text n) ≡ 20 }
    ensures is { drop result line.new ≡ tens_text n ++ drop 20 line.old }
{
    if n == 0 {
        END
    } else {
        write_digits(n, line, END)
    }
}

impl Count {
    /// The number n.
    pub(crate) fn new(n: u64) -> Count
        ensures { result ≡ n }
    {
        let mut line = *b"00000000000000000000........................";
        let first = spell(n / 10, &mut line);
        Count {
            tens: n / 10,
            last: b'0' + (n % 10) as u8,
            first,
            line,
        }
    }

    /// How many numbers there are from this one on that have its tens: at most ten.
    #[inline(always)]
    pub(crate) fn left(&self) -> u8
        ensures { result + self.now % 10 ≡ 10 }
    {
        b'9' + 1 - self.last
    }

    /// Counts on by so many, at most to the next number that ends in 0.
    #[inline(always)]
    pub(crate) fn advance(&mut self, many: u8)
        requires tens { self.old % 10 + many ≤ 10 }
        requires small { self.old + many ≤ 2 ^ 64 }
        ensures { self.new ≡ self.old + many }
    {
        self.last += many;
        if self.last > b'9' {
            self.last = b'0';
            self.tens += 1;
            self.first = spell(self.tens, &mut self.line);
        }
    }

    /// Appends the number with these tens and this last digit, in decimal, and the first `size`
    /// bytes of a tail.
    #[inline(always)]
    pub(crate) fn push_line(&self, text: &mut Text, digit: u8, tail: [u8; 8], size: usize)
        requires least { 48 ≤ digit }
        requires most { digit < 58 }
        requires small { 10 * (self.now / 10) + (digit - 48) < 2 ^ 64 }
        requires size { size ≤ 8 }
        requires room { length text.old + 33 ≤ 8192 }
        ensures text { text.new ≡ text.old
            ++ (decimal (10 * (self.now / 10) + (digit - 48)) ++ take size tail) }
        ensures short { length text.new ≤ length text.old + 20 + size }
    {
        let row = &self.line[self.first..self.first + ROW];
        text.append_line(row, END - self.first, digit, tail, size);
    }

    /// The last digit, as it is spelled.
    #[inline(always)]
    pub(crate) fn last_digit(&self) -> u8
        ensures { result ≡ 48 + self.now % 10 }
    {
        self.last
    }
}
