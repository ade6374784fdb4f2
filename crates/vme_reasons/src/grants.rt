//! Where the grant travels.
ghost use Rattle.std.specs.Prelude.{◌≡◌, ◌<◌, find, option_map};
ghost use Rattle.vme_model.specs.Plan.{active, grant_chain};
ghost use Rattle.vme_model.specs.History.{input};
ghost use Rattle.vme_model.specs.Stands.{grant_at, is_granted_at};
ghost use Rattle.vme_reasons.specs.Traced.{OfTrace};

use crate::Marks;
use crate::drivers::is_low;
use vme_bus::Bus;
use vme_model::{ChainId, Driver, Wire};

/// A grant that stands at a slot of its chain.
#[derive(Clone, Copy)]
pub(crate) struct Grant {
    /// 0 to 3.
    pub(crate) level: u8,
    pub(crate) slot: u8,
}

/// Whether the slot's input on the chain of a grant level below 4 is low.
fn is_input_low(bus: &Bus, marks: &Marks, level: u8, slot: u8) -> bool
    requires { level < 4 }
    ensures { OfTrace bus.now marks.now (λ _. result
        ≡ input bus.now.plan bus.now.history (grant_chain level) slot) }
{
    match bus.plan().upstream(ChainId::of_grant(level), slot) {
        None => is_low(bus, marks, Driver::Controller, Wire::Bg(level)),
        Some(below) => is_low(bus, marks, Driver::Slot(below), Wire::BgOut),
    }
}

/// Whether a grant of a level below 4 stands at the slot, which has neither passed it on nor taken it.
fn is_granted_at(bus: &Bus, marks: &Marks, level: u8, slot: u8) -> bool
    requires { level < 4 }
    ensures { OfTrace bus.now marks.now (λ _. result
        ≡ is_granted_at bus.now.plan bus.now.history (level, slot)) }
{
    is_input_low(bus, marks, level, slot)
        && !is_low(bus, marks, Driver::Slot(slot), Wire::BgOut)
        && !is_low(bus, marks, Driver::Slot(slot), Wire::Bbsy)
}

/// The least slot of its chain at which a grant of a level below 4 stands.
fn granted_slot(bus: &Bus, marks: &Marks, level: u8) -> Option<u8>
    requires { level < 4 }
    ensures { OfTrace bus.now marks.now (λ _. result
        ≡ find (λ s. is_granted_at bus.now.plan bus.now.history (level, s))
        (active bus.now.plan (grant_chain level))) }
{
    for slot in bus.plan().active(ChainId::of_grant(level)) {
        if is_granted_at(bus, marks, level, *slot) {
            return Some(*slot);
        }
    }
    None
}

/// The grant that travels, and the slot that it stands at.
pub(crate) fn grant_at(bus: &Bus, marks: &Marks) -> Option<Grant>
    ensures { OfTrace bus.now marks.now (λ _. option_map (λ g. (g.level, g.slot)) result
        ≡ grant_at bus.now.plan bus.now.history) }
{
    for level in 0..4 {
        if let Some(slot) = granted_slot(bus, marks, level) {
            return Some(Grant { level, slot });
        }
    }
    None
}
