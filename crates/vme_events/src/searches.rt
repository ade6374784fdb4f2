//! The first edge that one condition alone refuses.
ghost use Rattle.std.specs.Prelude.{◌≡◌, [], ◌∷◌, find};
ghost use Rattle.std.specs.List.{flat_map};
ghost use Rattle.vme_model.specs.Offers.{turned, wires};
ghost use Rattle.vme_model.specs.Open.{moves, showing};
ghost use Rattle.vme_model.specs.Failing.{unmet};
ghost use Rattle.vme_model.specs.Plan.{board_of};
ghost use Rattle.vme_model.specs.Verdict.{verdict};
ghost use Rattle.vme_events.specs.Misses.{fails_rule, fails_settling, has_kind, is_alone, is_edge_of, is_lone, is_missed, is_same_kind, misses, refuses};
ghost use Rattle.vme_events.specs.Turned.{is_by_one, is_rule, is_settling, refusal, turned_to};

use crate::before::interrupter_of;
use vme_bus::Bus;
use vme_goals::{Miss, counts};
use vme_model::{Condition, Cycle, Driver, Edge, IrqKind, Refused, Rule, Wire};

/// All that an address group can show: the acknowledges, then the accesses.
const CYCLES: [Cycle; 28] = [
    Cycle::Acknowledge(1),
    Cycle::Acknowledge(2),
    Cycle::Acknowledge(3),
    Cycle::Acknowledge(4),
    Cycle::Acknowledge(5),
    Cycle::Acknowledge(6),
    Cycle::Acknowledge(7),
    Cycle::Access(1),
    Cycle::Access(2),
    Cycle::Access(3),
    Cycle::Access(4),
    Cycle::Access(5),
    Cycle::Access(6),
    Cycle::Access(7),
    Cycle::Access(8),
    Cycle::Access(9),
    Cycle::Access(10),
    Cycle::Access(11),
    Cycle::Access(12),
    Cycle::Access(13),
    Cycle::Access(14),
    Cycle::Access(15),
    Cycle::Access(16),
    Cycle::Access(17),
    Cycle::Access(18),
    Cycle::Access(19),
    Cycle::Access(20),
    Cycle::Access(21),
];

/// What refuses the edge, if anything does.
fn refusal(bus: &Bus, edge: Edge) -> Option<Refused>
    ensures { result ≡ refusal (verdict bus.now edge) }
{
    bus.answer(edge).err()
}

/// Whether that condition fails, and no other.
fn is_alone(condition: Condition, failing: &[Condition]) -> bool
    ensures { result ≡ is_alone condition failing.now }
{
    failing.len() == 1 && failing[0] == condition
}

/// Whether that rule refuses.
fn is_rule(refused: Option<Refused>, rule: u8) -> bool
    ensures { result ≡ is_rule rule refused }
{
    matches!(refused, Some(Refused::Rule(number)) if number == rule)
}

/// Whether that settling rule refuses.
fn is_settling(refused: Option<Refused>, rule: u8) -> bool
    ensures { result ≡ is_settling rule refused }
{
    matches!(refused, Some(Refused::NotSettled(number)) if number == rule)
}

/// Whether the rule refuses the edge.
fn fails_rule(bus: &Bus, edge: Edge, rule: u8) -> bool
    ensures { result ≡ fails_rule rule (verdict bus.now edge) }
{
    is_rule(refusal(bus, edge), rule)
}

/// Whether the settling rule refuses the edge.
fn fails_settling(bus: &Bus, edge: Edge, rule: u8) -> bool
    ensures { result ≡ fails_settling rule (verdict bus.now edge) }
{
    is_settling(refusal(bus, edge), rule)
}

/// Whether the two are one kind.
fn is_same_kind(kind: IrqKind, other: IrqKind) -> bool
    ensures { result ≡ is_same_kind kind other }
{
    kind == other
}

/// Whether the driver's board has an interrupter of that kind.
fn has_kind(bus: &Bus, driver: Driver, kind: IrqKind) -> bool
    ensures { result ≡ has_kind kind (board_of bus.now.plan driver) }
{
    match interrupter_of(bus, driver) {
        Some(interrupter) => is_same_kind(interrupter.kind, kind),
        None => false,
    }
}

/// Whether the rule guards the edge.
fn is_edge_of(edge: Edge, rule: Rule) -> bool
    ensures { result ≡ is_edge_of rule edge }
{
    Rule::of_edge(edge.wire, edge.fall) == rule
}

/// Whether a settling rule refuses, or a rule by one of its conditions alone, if these fail.
fn is_by_one(refused: Option<Refused>, failing: &[Condition]) -> bool
    ensures { result ≡ is_by_one refused failing.now }
{
    match refused {
        Some(Refused::Rule(_)) => failing.len() == 1,
        Some(Refused::NotSettled(_)) => true,
        _ => false,
    }
}

/// Whether one condition of the edge's rule refuses the edge, and no other does, or its settling
/// rule does.
fn is_lone(bus: &Bus, edge: Edge) -> bool
    ensures { result ≡ is_lone (verdict bus.now edge) (unmet bus.now edge) }
{
    is_by_one(refusal(bus, edge), bus.failing(edge).as_slice())
}

/// Whether this alone refuses the edge.
fn refuses(bus: &Bus, miss: Miss, edge: Edge) -> bool
    ensures { result ≡ refuses bus.now miss edge }
{
    match miss {
        Miss::Rule(rule, condition) => {
            fails_rule(bus, edge, rule) && is_alone(condition, bus.failing(edge).as_slice())
        }
        Miss::Unserved(kind) => { fails_rule(bus, edge, 22) && has_kind(bus, edge.driver, kind) }
        Miss::Settling(rule) => fails_settling(bus, edge, rule),
        Miss::AnyOf(rule) => is_edge_of(edge, rule) && is_lone(bus, edge),
    }
}

/// Whether this alone refuses the edge, and the edge counts: if only one driver's do, it is its.
fn is_missed(bus: &Bus, only: Option<Driver>, miss: Miss, edge: Edge) -> bool
    ensures { result ≡ is_missed bus.now only miss edge }
{
    counts(only, edge.driver) && refuses(bus, miss, edge)
}

/// An edge without a value.
fn turned(driver: Driver, wire: Wire, fall: bool) -> Edge
    ensures { result ≡ turned_to driver wire fall }
{
    Edge {
        driver,
        wire,
        fall,
        value: None,
    }
}

/// The address group going on.
fn showing(driver: Driver, cycle: Cycle) -> Edge
    ensures { result ≡ showing driver cycle }
{
    Edge {
        driver,
        wire: Wire::Addr,
        fall: true,
        value: Some(cycle),
    }
}

/// The first of these cycles that the driver is refused to show by this alone.
fn shown(
    bus: &Bus,
    only: Option<Driver>,
    miss: Miss,
    driver: Driver,
    cycles: &[Cycle],
) -> Option<Cycle>
    ensures { result ≡ find (λ c. is_missed bus.now only miss (showing driver c)) cycles.now }
{
    cycles.iter().copied().find(|cycle| is_missed(bus, only, miss, showing(driver, *cycle)))
}

/// The edge that moves the driver's address group, if this alone refuses it.
///
/// One to the state that the group is in is refused by E2, and never by this.
fn on_address(bus: &Bus, only: Option<Driver>, miss: Miss, driver: Driver) -> Option<Edge>
    ensures { result ≡ find (is_missed bus.now only miss)
        (moves bus.now.history driver Wire.Addr) }
{
    let off = turned(driver, Wire::Addr, false);
    if is_missed(bus, only, miss, off) {
        return Some(off);
    }
    match shown(bus, only, miss, driver, &CYCLES) {
        Some(cycle) => Some(showing(driver, cycle)),
        None => None,
    }
}

/// The edge that moves another wire of the driver, if this alone refuses it.
fn on_other(bus: &Bus, only: Option<Driver>, miss: Miss, driver: Driver, wire: Wire) -> Option<Edge>
    ensures { result ≡ find (is_missed bus.now only miss)
        (turned bus.now.history driver wire ∷ []) }
{
    let fall = turned(driver, wire, true);
    if is_missed(bus, only, miss, fall) {
        return Some(fall);
    }
    let rise = turned(driver, wire, false);
    if is_missed(bus, only, miss, rise) {
        return Some(rise);
    }
    None
}

/// The first edge that moves the driver's wire and that this alone refuses.
fn on_wire(bus: &Bus, only: Option<Driver>, miss: Miss, driver: Driver, wire: Wire) -> Option<Edge>
    ensures { result ≡ find (is_missed bus.now only miss) (moves bus.now.history driver wire) }
{
    match wire {
        Wire::Addr => on_address(bus, only, miss, driver),
        _ => on_other(bus, only, miss, driver, wire),
    }
}

/// The first edge of these wires of the driver.
fn on_wires(
    bus: &Bus,
    only: Option<Driver>,
    miss: Miss,
    driver: Driver,
    wires: &[Wire],
) -> Option<Edge>
    ensures { result ≡ find (is_missed bus.now only miss)
        (flat_map (moves bus.now.history driver) wires.now) }
{
    for wire in wires {
        let edge = on_wire(bus, only, miss, driver, *wire);
        if edge.is_some() {
            return edge;
        }
    }
    None
}

/// The first edge of the driver.
fn of_driver(bus: &Bus, only: Option<Driver>, miss: Miss, driver: Driver) -> Option<Edge>
    ensures { result ≡ find (is_missed bus.now only miss)
        (flat_map (moves bus.now.history driver) (wires driver)) }
{
    on_wires(bus, only, miss, driver, driver.wires())
}

/// The first edge of these drivers.
fn of_drivers(bus: &Bus, only: Option<Driver>, miss: Miss, drivers: &[Driver]) -> Option<Edge>
    ensures { result ≡ find (is_missed bus.now only miss)
        (flat_map (λ d. flat_map (moves bus.now.history d) (wires d)) drivers.now) }
{
    for driver in drivers {
        let edge = of_driver(bus, only, miss, *driver);
        if edge.is_some() {
            return edge;
        }
    }
    None
}

/// The first edge that this alone refuses, of all that move a wire to its other state, or of those
/// of one driver alone: by driver, the controller first, then by slot; by wire in the order of
/// offers; of an address group that goes on by acknowledges, then by accesses. None if there is
/// none, or if the one driver is none of the plan.
///
/// It tries some 800 edges at most.
pub fn miss(bus: &Bus, only: Option<Driver>, miss: Miss) -> Option<Edge>
    ensures { result ≡ misses bus.now only miss }
{
    of_drivers(bus, only, miss, bus.plan().drivers().as_slice())
}
