//! The kinds of edges.
ghost use Rattle.std.specs.Prelude.{◌≡◌, ◌==◌, ◌<◌};
ghost use Rattle.vme_bus.specs.Sets.{has};
ghost use Rattle.vme_seeds.specs.Kinds.{addressing, kind_of, number};

use vme_bus::SlotSet;
use vme_model::{Cycle, Edge, Wire};

/// How many kinds there are.
pub const KIND_COUNT: usize = 28;

/// What an edge does, whoever makes it: its wire and its direction, with all grants counted as one
/// wire, and for an address group that goes on, what it shows. Source: profile.
#[derive(Clone, Copy, PartialEq, Eq, Debug)]
pub enum Kind {
    BgFall,
    BgRise,
    BclrFall,
    BclrRise,
    IackFall,
    IackRise,
    BerrFall,
    BerrRise,
    BrFall,
    BrRise,
    BgOutFall,
    BgOutRise,
    BbsyFall,
    BbsyRise,
    /// The address group goes on with an interrupt acknowledge.
    Acknowledge,
    /// The address group goes on with an access to a slot with a board.
    Access,
    /// The address group goes on with an access to a slot without a board.
    EmptyAccess,
    AddrOff,
    AddressStrobeFall,
    AddressStrobeRise,
    DataStrobeFall,
    DataStrobeRise,
    IrqFall,
    IrqRise,
    IackOutFall,
    IackOutRise,
    DtackFall,
    DtackRise,
}

/// All kinds, in the order in which they are drawn.
pub(crate) const KINDS: [Kind; KIND_COUNT] = [
    Kind::BgFall,
    Kind::BgRise,
    Kind::BclrFall,
    Kind::BclrRise,
    Kind::IackFall,
    Kind::IackRise,
    Kind::BerrFall,
    Kind::BerrRise,
    Kind::BrFall,
    Kind::BrRise,
    Kind::BgOutFall,
    Kind::BgOutRise,
    Kind::BbsyFall,
    Kind::BbsyRise,
    Kind::Acknowledge,
    Kind::Access,
    Kind::EmptyAccess,
    Kind::AddrOff,
    Kind::AddressStrobeFall,
    Kind::AddressStrobeRise,
    Kind::DataStrobeFall,
    Kind::DataStrobeRise,
    Kind::IrqFall,
    Kind::IrqRise,
    Kind::IackOutFall,
    Kind::IackOutRise,
    Kind::DtackFall,
    Kind::DtackRise,
];

/// The kind of an address group that goes on, by the slots with a board and by what it shows.
fn addressing(boards: SlotSet, value: Option<Cycle>) -> Kind
    ensures { result ≡ addressing (has boards) value }
{
    match value {
        Some(Cycle::Access(slot)) => {
            if boards.has(slot) {
                Kind::Access
            } else {
                Kind::EmptyAccess
            }
        }
        _ => Kind::Acknowledge,
    }
}

impl Kind {
    /// The kind of an edge, if these slots have a board. Source: profile.
    pub(crate) fn of(boards: SlotSet, edge: &Edge) -> Kind
        ensures { result ≡ kind_of (has boards) edge.now }
    {
        match (edge.wire, edge.fall) {
            (Wire::Bg(_), true) => Kind::BgFall,
            (Wire::Bg(_), false) => Kind::BgRise,
            (Wire::Bclr, true) => Kind::BclrFall,
            (Wire::Bclr, false) => Kind::BclrRise,
            (Wire::Iack, true) => Kind::IackFall,
            (Wire::Iack, false) => Kind::IackRise,
            (Wire::Berr, true) => Kind::BerrFall,
            (Wire::Berr, false) => Kind::BerrRise,
            (Wire::Br, true) => Kind::BrFall,
            (Wire::Br, false) => Kind::BrRise,
            (Wire::BgOut, true) => Kind::BgOutFall,
            (Wire::BgOut, false) => Kind::BgOutRise,
            (Wire::Bbsy, true) => Kind::BbsyFall,
            (Wire::Bbsy, false) => Kind::BbsyRise,
            (Wire::Addr, true) => addressing(boards, edge.value),
            (Wire::Addr, false) => Kind::AddrOff,
            (Wire::AddressStrobe, true) => Kind::AddressStrobeFall,
            (Wire::AddressStrobe, false) => Kind::AddressStrobeRise,
            (Wire::DataStrobe, true) => Kind::DataStrobeFall,
            (Wire::DataStrobe, false) => Kind::DataStrobeRise,
            (Wire::Irq, true) => Kind::IrqFall,
            (Wire::Irq, false) => Kind::IrqRise,
            (Wire::IackOut, true) => Kind::IackOutFall,
            (Wire::IackOut, false) => Kind::IackOutRise,
            (Wire::Dtack, true) => Kind::DtackFall,
            (Wire::Dtack, false) => Kind::DtackRise,
        }
    }

    /// The place of the kind in the order of kinds, 0 to 27.
    pub(crate) fn number(self) -> usize
        ensures number { result ≡ number self }
        ensures within { result < 28 }
    {
        self as usize
    }

    /// Whether the two kinds are the same.
    pub(crate) fn is_same(self, other: Kind) -> bool
        ensures { result ≡ (number self == number other) }
    {
        self.number() == other.number()
    }
}
