//! The codes that are no rules: those of verdicts that name a rule, and those of faults.
ghost use Rattle.std.specs.Prelude.{◌≡◌, ◌≤◌, find, length};
ghost use Rattle.std.specs.Str.{bytes_eq};
ghost use Rattle.vme_rulebook.specs.Codes as said;

use crate::texts;

/// A code that the program prints and that is no rule. E3 and E4 are verdicts that name a rule, and
/// the others are faults. Source: profile.
#[derive(Clone, Copy, PartialEq, Eq, Debug)]
pub enum Code {
    E3,
    E4,
    F1,
    F2,
    F3,
    F4,
    F5,
    F6,
    L3,
    L4,
    L6,
    P1,
    P2,
    P3,
    P4,
    P5,
    P6,
    P7,
    P8,
    P9,
    Q1,
    Q2,
    Q3,
    Q4,
    Q6,
    X1,
    X2,
    X3,
    X4,
    X5,
    X6,
    X8,
    X9,
    X10,
    X11,
    X12,
    X13,
    X14,
    X15,
    X16,
    X17,
}

/// What stands for a code in a table of all codes.
macro_rules! by_code {
    ($code:expr; $($name:ident => $value:expr),* $(,)?) => {
        match $code {
            $(Code::$name => $value,)*
        }
    };
}

impl Code {
    /// All codes that are no rules, in the order of their names.
    pub const ALL: [Code; 41] = [
        Code::E3,
        Code::E4,
        Code::F1,
        Code::F2,
        Code::F3,
        Code::F4,
        Code::F5,
        Code::F6,
        Code::L3,
        Code::L4,
        Code::L6,
        Code::P1,
        Code::P2,
        Code::P3,
        Code::P4,
        Code::P5,
        Code::P6,
        Code::P7,
        Code::P8,
        Code::P9,
        Code::Q1,
        Code::Q2,
        Code::Q3,
        Code::Q4,
        Code::Q6,
        Code::X1,
        Code::X2,
        Code::X3,
        Code::X4,
        Code::X5,
        Code::X6,
        Code::X8,
        Code::X9,
        Code::X10,
        Code::X11,
        Code::X12,
        Code::X13,
        Code::X14,
        Code::X15,
        Code::X16,
        Code::X17,
    ];

    /// The name of the code, such as `X2`: at most 3 bytes.
    pub fn name(self) -> &'static str
        ensures text { result.now ≡ said.code_name self }
        ensures short { length result.now ≤ 3 }
    {
        by_code!(self;
            E3 => "E3", E4 => "E4", F1 => "F1", F2 => "F2", F3 => "F3", F4 => "F4", F5 => "F5",
            F6 => "F6", L3 => "L3", L4 => "L4", L6 => "L6", P1 => "P1", P2 => "P2", P3 => "P3",
            P4 => "P4", P5 => "P5", P6 => "P6", P7 => "P7", P8 => "P8", P9 => "P9", Q1 => "Q1",
            Q2 => "Q2", Q3 => "Q3", Q4 => "Q4", Q6 => "Q6", X1 => "X1", X2 => "X2", X3 => "X3",
            X4 => "X4", X5 => "X5", X6 => "X6", X8 => "X8", X9 => "X9", X10 => "X10", X11 => "X11",
            X12 => "X12", X13 => "X13", X14 => "X14", X15 => "X15", X16 => "X16", X17 => "X17",
        )
    }

    /// The code explained, in lines of at most 80 bytes and 512 bytes in all: first the code with
    /// the text that follows it, and then what it means, what usually causes it and what to do.
    pub fn text(self) -> &'static str
        ensures text { result.now ≡ said.code_text self }
        ensures short { length result.now ≤ 512 }
    {
        by_code!(self;
            E3 => texts::E3, E4 => texts::E4, F1 => texts::F1, F2 => texts::F2, F3 => texts::F3,
            F4 => texts::F4, F5 => texts::F5, F6 => texts::F6, L3 => texts::L3, L4 => texts::L4,
            L6 => texts::L6, P1 => texts::P1, P2 => texts::P2, P3 => texts::P3, P4 => texts::P4,
            P5 => texts::P5, P6 => texts::P6, P7 => texts::P7, P8 => texts::P8, P9 => texts::P9,
            Q1 => texts::Q1, Q2 => texts::Q2, Q3 => texts::Q3, Q4 => texts::Q4, Q6 => texts::Q6,
            X1 => texts::X1, X2 => texts::X2, X3 => texts::X3, X4 => texts::X4, X5 => texts::X5,
            X6 => texts::X6, X8 => texts::X8, X9 => texts::X9, X10 => texts::X10, X11 => texts::X11,
            X12 => texts::X12, X13 => texts::X13, X14 => texts::X14, X15 => texts::X15,
            X16 => texts::X16, X17 => texts::X17,
        )
    }

    /// The code of that name, if there is one.
    pub fn named(words: &[u8]) -> Option<Code>
        ensures { result ≡ said.code_named words.now }
    {
        first_named(&Code::ALL, words)
    }
}

/// The first of these codes that has that name.
fn first_named(codes: &[Code], words: &[u8]) -> Option<Code>
    ensures { result ≡ find (λ c. bytes_eq words.now (said.code_name c)) codes.now }
{
    codes
        .iter()
        .copied()
        .find(|code| words == code.name().as_bytes())
}
