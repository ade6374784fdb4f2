//! Daisy chains, and sets of levels and chains with one bit each.
ghost use Rattle.std.specs.Prelude.{◌≡◌, ◌-◌, ◌^◌, ◌≤◌, ⊤, [], ◌∷◌, false, codes, slice_index_or, if◌then◌else◌, Some};
ghost use Rattle.vme_model.specs.Plan.{grant_chain};
ghost use Rattle.vme_model.specs.Sets.{has_level, has_bus_level, has_chain, with_level, with_chain, irq_levels, bus_levels, chain_bit, chain_name};

use bitflags::{Flag, Flags};
use std::fmt;

/// A daisy chain. Source: Std 1014, chapters 3 and 4.
#[derive(Clone, Copy, PartialEq, Eq, Debug)]
pub enum ChainId {
    Bg0,
    Bg1,
    Bg2,
    Bg3,
    Iack,
}

impl fmt::Display for ChainId {
    ghost output = { λ c. Some (chain_name c) };

    fn fmt<W: fmt::Write>(&self, f: &mut fmt::Formatter<W>) -> fmt::Result {
        f.write_str(match self {
            ChainId::Bg0 => "bg0",
            ChainId::Bg1 => "bg1",
            ChainId::Bg2 => "bg2",
            ChainId::Bg3 => "bg3",
            ChainId::Iack => "iack",
        })
    }
}

impl ChainId {
    /// The chain of a grant level, 0 to 3.
    pub fn of_grant(level: u8) -> ChainId
        ensures { result ≡ grant_chain level }
    {
        match level {
            0 => ChainId::Bg0,
            1 => ChainId::Bg1,
            2 => ChainId::Bg2,
            _ => ChainId::Bg3,
        }
    }
}

/// The table of a set's flags, each under the name of its constant.
///
/// `bitflag_items!` would write this table too, but with it operators and number formats that have
/// no contract and that nobody calls.
macro_rules! flag_table {
    ($set:ident: $($flag:ident),*) => {
        &[$(Flag { name: stringify!($flag), value: $set::$flag }),*]
    };
}

/// What a line adds to a set: the value of its bit if it is low, and 0 otherwise.
#[inline(always)]
fn bit(low: bool, value: u8) -> u8
    ensures value { result ≡ (if low then value else 0) }
    ensures small { result ≤ value }
{
    if low { value } else { 0 }
}

/// A set of interrupt levels: level n, 1 to 7, is bit n - 1. Source: profile (the numbering of
/// bits).
#[derive(Clone, Copy, PartialEq, Eq, Debug)]
pub struct Levels(u8);

impl Levels {
    pub const IRQ1: Levels = Levels(1);

    pub const IRQ2: Levels = Levels(2);

    pub const IRQ3: Levels = Levels(4);

    pub const IRQ4: Levels = Levels(8);

    pub const IRQ5: Levels = Levels(16);

    pub const IRQ6: Levels = Levels(32);

    pub const IRQ7: Levels = Levels(64);

    pub const FLAGS: &'static [Flag<Levels>] =
        flag_table!(Levels: IRQ1, IRQ2, IRQ3, IRQ4, IRQ5, IRQ6, IRQ7);
}

impl Flags for Levels {
    type Bits = u8;

    ghost exact = { ⊤ };

    ghost table = { (codes "IRQ1", 1) ∷ (codes "IRQ2", 2) ∷ (codes "IRQ3", 4) ∷ (codes "IRQ4", 8)
        ∷ (codes "IRQ5", 16) ∷ (codes "IRQ6", 32) ∷ (codes "IRQ7", 64) ∷ [] };

    ghost set_of = { λ p. p.0 };

    fn flags<'a>() -> &'a [Flag<Levels>] {
        Levels::FLAGS
    }

    fn bits(&self) -> u8 {
        self.0
    }

    fn from_bits_retain(bits: u8) -> Levels {
        Levels(bits)
    }
}

impl Levels {
    /// The set of just this level, 1 to 7.
    pub fn of(level: u8) -> Levels
        requires low { 1 ≤ level }
        requires high { level ≤ 7 }
        ensures { result ≡ record { 0 = 2 ^ (level - 1) } }
    {
        Levels(1 << (level - 1))
    }

    /// The set of the levels whose lines are low. `low[n - 1]` says whether the line of level n is
    /// low.
    pub fn of_lines(low: [bool; 7]) -> Levels
        ensures { result ≡ irq_levels (λ n. slice_index_or low (n - 1) false) }
    {
        let [one, two, three, four, five, six, seven] = low;
        Levels(
            bit(one, 1)
                + bit(two, 2)
                + bit(three, 4)
                + bit(four, 8)
                + bit(five, 16)
                + bit(six, 32)
                + bit(seven, 64),
        )
    }

    /// Whether the level is in the set. It is false for any level outside 1 to 7.
    pub fn has(self, level: u8) -> bool
        ensures { result ≡ has_level self level }
    {
        (1..=7).contains(&level) && self.contains(Levels(1 << (level - 1)))
    }

    /// The set with that level, 1 to 7, added.
    pub fn with(self, level: u8) -> Levels
        requires low { 1 ≤ level }
        requires high { level ≤ 7 }
        ensures { result ≡ with_level self level }
    {
        let mut levels = self;
        levels.insert(Levels(1 << (level - 1)));
        levels
    }
}

/// A set of bus request levels: level n, 0 to 3, is bit n. Source: profile (the numbering of bits).
#[derive(Clone, Copy, PartialEq, Eq, Debug)]
pub struct BusLevels(u8);

impl BusLevels {
    pub const BR0: BusLevels = BusLevels(1);

    pub const BR1: BusLevels = BusLevels(2);

    pub const BR2: BusLevels = BusLevels(4);

    pub const BR3: BusLevels = BusLevels(8);

    pub const FLAGS: &'static [Flag<BusLevels>] = flag_table!(BusLevels: BR0, BR1, BR2, BR3);
}

impl Flags for BusLevels {
    type Bits = u8;

    ghost exact = { ⊤ };

    ghost table = { (codes "BR0", 1) ∷ (codes "BR1", 2)
        ∷ (codes "BR2", 4) ∷ (codes "BR3", 8) ∷ [] };

    ghost set_of = { λ p. p.0 };

    fn flags<'a>() -> &'a [Flag<BusLevels>] {
        BusLevels::FLAGS
    }

    fn bits(&self) -> u8 {
        self.0
    }

    fn from_bits_retain(bits: u8) -> BusLevels {
        BusLevels(bits)
    }
}

impl BusLevels {
    /// The set of the levels whose lines are low. `low[n]` says whether the line of level n is low.
    pub fn of_lines(low: [bool; 4]) -> BusLevels
        ensures { result ≡ bus_levels (λ n. slice_index_or low n false) }
    {
        let [zero, one, two, three] = low;
        BusLevels(bit(zero, 1) + bit(one, 2) + bit(two, 4) + bit(three, 8))
    }

    /// Whether the level is in the set. It is false for any level above 3.
    pub fn has(self, level: u8) -> bool
        ensures { result ≡ has_bus_level self level }
    {
        level < 4 && self.contains(BusLevels(1 << level))
    }
}

/// A set of daisy chains, one bit each, in the order of `ChainId`. Source: profile (the numbering
/// of bits).
#[derive(Clone, Copy, PartialEq, Eq, Debug)]
pub struct Chains(u8);

impl Chains {
    pub const BG0: Chains = Chains(1);

    pub const BG1: Chains = Chains(2);

    pub const BG2: Chains = Chains(4);

    pub const BG3: Chains = Chains(8);

    pub const IACK: Chains = Chains(16);

    pub const FLAGS: &'static [Flag<Chains>] = flag_table!(Chains: BG0, BG1, BG2, BG3, IACK);
}

impl Flags for Chains {
    type Bits = u8;

    ghost exact = { ⊤ };

    ghost table = { (codes "BG0", 1) ∷ (codes "BG1", 2) ∷ (codes "BG2", 4) ∷ (codes "BG3", 8)
        ∷ (codes "IACK", 16) ∷ [] };

    ghost set_of = { λ p. p.0 };

    fn flags<'a>() -> &'a [Flag<Chains>] {
        Chains::FLAGS
    }

    fn bits(&self) -> u8 {
        self.0
    }

    fn from_bits_retain(bits: u8) -> Chains {
        Chains(bits)
    }
}

impl Chains {
    /// The set of just this chain.
    pub fn of(chain: ChainId) -> Chains
        ensures { result ≡ record { 0 = chain_bit chain } }
    {
        match chain {
            ChainId::Bg0 => Chains::BG0,
            ChainId::Bg1 => Chains::BG1,
            ChainId::Bg2 => Chains::BG2,
            ChainId::Bg3 => Chains::BG3,
            ChainId::Iack => Chains::IACK,
        }
    }

    /// Whether the chain is in the set.
    pub fn has(self, chain: ChainId) -> bool
        ensures { result ≡ has_chain self chain }
    {
        self.contains(Chains::of(chain))
    }

    /// The set with that chain added.
    pub fn with(self, chain: ChainId) -> Chains
        ensures { result ≡ with_chain self chain }
    {
        let mut chains = self;
        chains.insert(Chains::of(chain));
        chains
    }
}
