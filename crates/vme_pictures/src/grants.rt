//! Who holds the bus, where the grant stands, and what is shown.
ghost use Rattle.std.specs.Prelude.{◌≡◌, ◌<◌, ℕ, find, option_map, IfSome, IsSomeAnd, IsTrue};
ghost use Rattle.vme_model.specs.Signals.{is_in_range};
ghost use Rattle.vme_model.specs.Plan.{active, grant_chain};
ghost use Rattle.vme_model.specs.History.{input, shown};
ghost use Rattle.vme_model.specs.GrantSafety.{Travels};
ghost use Rattle.vme_model.specs.Stands.{grant_at, holder, is_granted_at};

use crate::wires::is_low;
use vme_bus::Bus;
use vme_model::{ChainId, Cycle, Driver, Wire};

/// A grant that travels, by where it stands.
#[derive(Clone, Copy, PartialEq, Eq, Debug)]
pub struct Grant {
    /// Its level, 0 to 3.
    pub level: u8,
    /// The slot that it stands at, 1 to 21.
    pub slot: u8,
}

/// The slot that holds the bus.
pub(crate) fn holder(bus: &Bus) -> Option<u8>
    ensures slot { result ≡ holder bus.now.plan bus.now.history }
    ensures range { IfSome result (λ s. s < 22) }
{
    bus.laws();
    for below in 0..bus.plan().slots() {
        let slot = below + 1;
        if is_low(bus, Driver::Slot(slot), Wire::Bbsy) {
            return Some(slot);
        }
    }
    None
}

/// Whether the slot's input on the chain of a grant level below 4 is low.
fn is_input_low(bus: &Bus, level: u8, slot: u8) -> bool
    requires { level < 4 }
    ensures { result
        ≡ input bus.now.plan bus.now.history (grant_chain level) slot }
{
    match bus.plan().upstream(ChainId::of_grant(level), slot) {
        None => is_low(bus, Driver::Controller, Wire::Bg(level)),
        Some(below) => is_low(bus, Driver::Slot(below), Wire::BgOut),
    }
}

/// Whether a grant of a level below 4 stands at the slot, which has neither passed it on nor taken it.
fn is_granted_at(bus: &Bus, level: u8, slot: u8) -> bool
    requires { level < 4 }
    ensures { result ≡ is_granted_at bus.now.plan bus.now.history (level, slot) }
{
    is_input_low(bus, level, slot)
        && !is_low(bus, Driver::Slot(slot), Wire::BgOut)
        && !is_low(bus, Driver::Slot(slot), Wire::Bbsy)
}

/// The least slot of its chain at which a grant of a level below 4 stands.
fn granted_on(bus: &Bus, level: u8) -> Option<u8>
    requires { level < 4 }
    ensures slot { result
        ≡ find (λ s. is_granted_at bus.now.plan bus.now.history (level, s))
        (active bus.now.plan (grant_chain level)) }
    ensures range { IfSome result (λ s. s < 22) }
{
    bus.laws();
    for slot in bus.plan().active(ChainId::of_grant(level)) {
        if is_granted_at(bus, level, *slot) {
            return Some(*slot);
        }
    }
    None
}

/// The grant that travels: it stands at the slot whose input of its level is low, while the board there
/// has neither passed it on nor taken the bus (chapter 3 of the standard). There is one at most.
pub fn grant_at(bus: &Bus) -> Option<Grant>
    ensures at { option_map (λ g. (g.level, g.slot)) result
        ≡ grant_at bus.now.plan bus.now.history }
    ensures range { IfSome result (λ g. (g.level < 4) × (g.slot < 22)) }
    ensures only { (n s : ℕ) → Travels bus.now.plan bus.now.history n s
        → IsSomeAnd result (λ g. (g.level ≡ n) × (g.slot ≡ s)) }
{
    bus.safety();
    for level in 0..4 {
        if let Some(slot) = granted_on(bus, level) {
            return Some(Grant { level, slot });
        }
    }
    None
}

/// The slot at which a grant travels.
pub(crate) fn granted(bus: &Bus) -> Option<u8>
    ensures slot { result
        ≡ option_map (λ at. at.1) (grant_at bus.now.plan bus.now.history) }
    ensures range { IfSome result (λ s. s < 22) }
{
    match grant_at(bus) {
        Some(grant) => Some(grant.slot),
        None => None,
    }
}

/// What the address lines show.
pub(crate) fn shown(bus: &Bus) -> Option<Cycle>
    ensures cycle { result ≡ shown bus.now.plan bus.now.history }
    ensures range { IfSome result (λ c. IsTrue (is_in_range c)) }
{
    bus.laws();
    bus.pins(Driver::Controller).shown
}
