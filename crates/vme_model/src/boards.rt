//! What stands in the slots of a backplane.
ghost use Rattle.std.specs.Prelude.{◌≡◌};
ghost use Rattle.vme_model.specs.Plan.{requests_on, works};

use crate::sets::{ChainId, Chains, Levels};

/// When a requester gives up the bus. Source: Std 1014, chapter 3; the bound on a burst is profile.
#[derive(Clone, Copy, PartialEq, Eq, Debug)]
pub enum Release {
    /// Release when done (RWD): its master is done, after at most `burst` cycles, 1 to 255.
    Done { burst: u8 },
    /// Release on request (ROR): another board requests the bus.
    Request,
}

/// A board's requester, with the one master that it serves. Source: Std 1014, chapter 3; that a
/// board has at most one is profile.
#[derive(Clone, Copy, PartialEq, Eq, Debug)]
pub struct RequesterRow {
    /// The level of BR0* to BR3*, 0 to 3.
    pub level: u8,
    pub release: Release,
}

/// What ends an interrupt request. Source: Std 1014, chapter 4.
#[derive(Clone, Copy, PartialEq, Eq, Debug)]
pub enum IrqKind {
    /// Release on acknowledge (ROAK): its acknowledge ends it.
    Roak,
    /// Release on register access (RORA): an access to the board's register ends it.
    Rora,
}

/// A board's interrupter. Source: Std 1014, chapter 4; its single level and status byte are
/// profile.
#[derive(Clone, Copy, PartialEq, Eq, Debug)]
pub struct InterrupterRow {
    /// The level of IRQ1* to IRQ7*, 1 to 7.
    pub level: u8,
    pub kind: IrqKind,
    /// The status/ID byte with which it answers an acknowledge.
    pub status: u8,
}

/// One board: its slot and its parts. Source: profile (at most one requester and one interrupter).
#[derive(Clone, Copy, PartialEq, Eq, Debug)]
pub struct Row {
    /// Its slot, from 1.
    pub slot: u8,
    pub requester: Option<RequesterRow>,
    pub interrupter: Option<InterrupterRow>,
    /// The interrupt levels that it handles. The empty set means that it has no handler.
    pub handler: Levels,
}

/// The chains of which a jumper in an empty slot joins the input to the output. Source: Std 1014,
/// chapters 3 and 4.
#[derive(Clone, Copy, PartialEq, Eq, Debug)]
pub struct Jumper {
    pub slot: u8,
    pub chains: Chains,
}

/// The arbiter's policy: which of the requested levels it picks. Source: Std 1014, chapter 3.
#[derive(Clone, Copy, PartialEq, Eq, Debug)]
pub enum ArbiterKind {
    /// Single level (SGL): it serves only BR3*.
    Sgl,
    /// Priority (PRI): it picks the highest level.
    Pri,
    /// Round robin select (RRS): it looks first at the level below the one last granted, and goes
    /// on at 3 after 0.
    Rrs,
}

impl Row {
    /// Whether the board has a requester on that level. Source: Std 1014, chapter 3.
    pub fn requests_on(&self, level: u8) -> bool
        ensures { result ≡ requests_on level self.now }
    {
        matches!(self.requester, Some(requester) if requester.level == level)
    }

    /// Whether the board works the chain, that is, passes it on by an edge of its own: a grant
    /// chain if its requester has that level, and the acknowledge chain if it has an interrupter.
    /// Source: Std 1014, chapters 3 and 4.
    pub fn works(&self, chain: ChainId) -> bool
        ensures { result ≡ works chain self.now }
    {
        match chain {
            ChainId::Bg0 => self.requests_on(0),
            ChainId::Bg1 => self.requests_on(1),
            ChainId::Bg2 => self.requests_on(2),
            ChainId::Bg3 => self.requests_on(3),
            ChainId::Iack => self.interrupter.is_some(),
        }
    }
}
