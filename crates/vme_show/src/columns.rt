//! A column of a picture: an edge, what became of it, and the marks of what is so after it.
ghost use Rattle.std.specs.Prelude.{◌≡◌, option_map, IfSome, IsTrue};
ghost use Rattle.vme_model.specs.Signals.{is_edge_of, is_in_range, is_slot};
ghost use Rattle.vme_model.specs.Stands.{grant_at};
ghost use Rattle.vme_model.specs.Verdict.{after};
ghost use Rattle.vme_show.specs.Picture.{cycle_mark, edge_mark, slot_mark, state_mark};
ghost use Rattle.vme_show.specs.Columns.{cell, column_of, is_accepted, low_after, verdict_cell, verdict_of, wire_cell};

use vme_bus::Bus;
use vme_model::{Cycle, Delivery, Driver, Edge, Refused, Wire};

/// What became of an edge.
#[derive(Clone, Copy, PartialEq, Eq, Debug, Default)]
pub(crate) enum Verdict {
    #[default]
    Refused,
    Accepted,
    /// Accepted, and it delivered a status byte.
    Delivered,
}

/// What a row shows of the time after each edge.
#[derive(Clone, Copy, PartialEq, Eq, Debug)]
pub(crate) enum Topic {
    /// The slot at which a grant travels.
    GrantAt,
    /// The slot that holds the bus.
    Holder,
    /// What the address lines show.
    Shown,
    Verdict,
}

/// An edge, what became of it, and the marks of what is so after it.
#[derive(Clone, Copy, PartialEq, Eq, Debug, Default)]
pub(crate) struct Column {
    edge: Edge,
    verdict: Verdict,
    grant_at: u8,
    holder: u8,
    shown: u8,
}

impl Verdict {
    /// What an answer comes to.
    fn of(answer: Result<Option<Delivery>, Refused>) -> Verdict
        ensures { result ≡ verdict_of answer }
    {
        match answer {
            Err(_) => Verdict::Refused,
            Ok(None) => Verdict::Accepted,
            Ok(Some(_)) => Verdict::Delivered,
        }
    }

    /// Whether the edge was accepted.
    fn is_accepted(self) -> bool
        ensures { result ≡ is_accepted self }
    {
        self != Verdict::Refused
    }

    /// Its mark.
    fn mark(self) -> u8
        ensures { result ≡ verdict_cell self }
    {
        match self {
            Verdict::Refused => b'x',
            Verdict::Accepted => b'.',
            Verdict::Delivered => b'!',
        }
    }
}

/// The mark of a slot: `1` to `9`, and `A` for slot 10 to `L` for slot 21.
fn slot_mark(slot: Option<u8>) -> u8
    requires { IfSome slot (λ s. IsTrue (is_slot s)) }
    ensures { result ≡ slot_mark slot }
{
    match slot {
        None => b'.',
        Some(slot @ ..10) => b'0' + slot,
        Some(slot) => b'A' + (slot - 10),
    }
}

/// The mark of what is shown: an acknowledge's level, `a` for level 1, or an access's target.
fn cycle_mark(shown: Option<Cycle>) -> u8
    requires { IfSome shown (λ c. IsTrue (is_in_range c)) }
    ensures { result ≡ cycle_mark shown }
{
    match shown {
        None => b'.',
        Some(Cycle::Acknowledge(level)) => b'a' + (level - 1),
        Some(Cycle::Access(slot)) => slot_mark(Some(slot)),
    }
}

/// The mark of a wire at an edge of its own.
fn edge_mark(accepted: bool, fall: bool) -> u8
    ensures { result ≡ edge_mark accepted fall }
{
    match (accepted, fall) {
        (false, _) => b'x',
        (true, true) => b'\\',
        (true, false) => b'/',
    }
}

/// The mark of a wire at another's edge.
fn state_mark(low: bool) -> u8
    ensures { result ≡ state_mark low }
{
    if low { b'_' } else { b'-' }
}

/// The slot at which a grant travels.
fn granted(bus: &Bus) -> Option<u8>
    ensures slot { result
        ≡ option_map (λ at. at.1) (grant_at bus.now.plan bus.now.history) }
    ensures range { IfSome result (λ s. IsTrue (is_slot s)) }
{
    match bus.grant_at() {
        Some(grant) => Some(grant.slot),
        None => None,
    }
}

impl Column {
    /// Steps a bus by an edge, and notes it and of what is so after it.
    pub(crate) fn step(bus: &mut Bus, edge: Edge) -> Column
        ensures column { result ≡ column_of (bus.old, edge) }
        ensures bus { bus.new ≡ after bus.old edge }
    {
        let verdict = Verdict::of(bus.step(edge));
        Column {
            edge,
            verdict,
            grant_at: slot_mark(granted(bus)),
            holder: slot_mark(bus.holder()),
            shown: cycle_mark(bus.shown()),
        }
    }

    /// Whether its edge is of that driver's wire.
    pub(crate) fn is_of(&self, driver: Driver, wire: Wire) -> bool
        ensures { result ≡ is_edge_of driver wire self.now.edge }
    {
        self.edge.wire.is_same(wire) && self.edge.driver.is_same(driver)
    }

    /// The mark of a wire, which was low before it or not.
    pub(crate) fn wire_mark(&self, driver: Driver, wire: Wire, low: bool) -> u8
        ensures { result ≡ wire_cell low driver wire self.now }
    {
        if self.is_of(driver, wire) {
            edge_mark(self.verdict.is_accepted(), self.edge.fall)
        } else {
            state_mark(low)
        }
    }

    /// Whether a wire is low after it, which was low before it or not.
    pub(crate) fn low_after(&self, driver: Driver, wire: Wire, low: bool) -> bool
        ensures { result ≡ low_after low driver wire self.now }
    {
        if self.is_of(driver, wire) && self.verdict.is_accepted() {
            self.edge.fall
        } else {
            low
        }
    }

    /// The mark of what a row shows.
    pub(crate) fn mark(&self, topic: Topic) -> u8
        ensures { result ≡ cell topic self.now }
    {
        match topic {
            Topic::GrantAt => self.grant_at,
            Topic::Holder => self.holder,
            Topic::Shown => self.shown,
            Topic::Verdict => self.verdict.mark(),
        }
    }
}
