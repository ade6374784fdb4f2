//! Texts and numbers at the end of a line, which is an `ArrayVec` of bytes.
ghost use Rattle.std.specs.Prelude.{◌≡◌, ◌+◌, ◌≤◌, ◌++◌, length, decimal};
ghost use Rattle.arrayvec.specs.ArrayVec.{array_vec_len};

use arrayvec::ArrayVec;
use itoa::Buffer;

/// Appends a text to a line that has room for it.
pub fn push<const N: usize>(line: &mut ArrayVec<u8, N>, text: &[u8])
    requires { array_vec_len line.old + length text.now ≤ N }
    ensures items { line.new.items ≡ line.old.items ++ text.now }
    ensures len { array_vec_len line.new ≡ array_vec_len line.old + length text.now }
{
    if line.try_extend_from_slice(text).is_err() {
        unreachable!()
    }
}

/// Appends a number in decimal, at most 20 bytes, to a line that has room for as many.
pub fn push_number<const N: usize>(line: &mut ArrayVec<u8, N>, n: u64)
    requires { array_vec_len line.old + 20 ≤ N }
    ensures items { line.new.items ≡ line.old.items ++ decimal n }
    ensures len { array_vec_len line.new ≤ array_vec_len line.old + 20 }
{
    let mut digits = Buffer::new();
    push(line, digits.format(n).as_bytes());
}

/// Appends a byte's value in decimal, at most 3 bytes, to a line that has room for as many: digit
/// by digit, since half the verdicts of a trace may name a rule.
pub fn push_byte<const N: usize>(line: &mut ArrayVec<u8, N>, n: u8)
    requires { array_vec_len line.old + 3 ≤ N }
    ensures items { line.new.items ≡ line.old.items ++ decimal n }
    ensures len { array_vec_len line.new ≤ array_vec_len line.old + 3 }
{
    if n >= 100 {
        line.push(b'0' + n / 100);
    }
    if n >= 10 {
        line.push(b'0' + n / 10 % 10);
    }
    line.push(b'0' + n % 10);
}
