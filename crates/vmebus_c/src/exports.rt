//! What C calls. The header is `vmebus.h`, and docs/EMBEDDING.md describes its use.
//!
//! No function has a condition on its arguments: each argument is tested, and any value has an
//! answer.
ghost use Rattle.std.specs.Prelude.{◌≡◌, ◌≢◌, ◌<◌, ◌↔◌, [], false, true, length, option_map, unwrap_or};
ghost use Rattle.vme_model.specs.History.{drive};
ghost use Rattle.vme_model.specs.Plan.{has_driver};
ghost use Rattle.vme_model.specs.Signals.{is_slot};
ghost use Rattle.vme_model.specs.declared.signals.Driver.TheVariants.{Controller};
ghost use Rattle.vme_model.specs.Stands.{holder, grant_at};
ghost use Rattle.vme_model.specs.Text.{edge_of};
ghost use Rattle.vme_model.specs.Views.{pins};
ghost use Rattle.vme_bus.specs.States.{IsStateOf, OfHistory};
ghost use Rattle.vmebus_c.specs.Asked.{asked_of, failed_numbers, open_numbers, spelled, why_text};
ghost use Rattle.vmebus_c.specs.Bits.{pins_number};
ghost use Rattle.vmebus_c.specs.Built.{build_numbers};
ghost use Rattle.vmebus_c.specs.Named.{version_of_number, driver_of_number, edge_of_numbers, wire_of_number};
ghost use Rattle.vmebus_c.specs.Opened.{HasFault, HasNoFault, IsOpened, IsSizedFault, bus_bytes, draws_bytes, size_fault};
ghost use Rattle.vme_seeds.specs.declared.kinds.Kind.{Kind as KindOf};
ghost use Rattle.vme_seeds.specs.Choices.{weight};
ghost use Rattle.vme_seeds.specs.Draws.{IsCountedIn, is_seeded, made_of, numbers_of, weight_of};
ghost use Rattle.vme_seeds.specs.Kinds.{has_board};
ghost use Rattle.vme_seeds.specs.Numbers.{after_words, generator};
ghost use Rattle.vmebus_c.specs.Played.{AreWeighed, IsFullKept, IsNumberIn, drawn_answer, drawn_edge, drawn_number, played, weighing_words};
ghost use Rattle.vmebus_c.specs.Rooms.{HasFew, HasShort, most_build, most_failing, most_fault, most_line, most_open, most_verdict, most_why, written, written_text};
ghost use Rattle.vmebus_c.specs.Stepped.{answered_or, delivery_of_edge, followed, no_bus, no_driver, no_edge};
ghost use Rattle.vmebus_c.specs.Verdicts.{verdict_of_numbers};

use crate::asked::{failed_numbers, open_numbers, spelled, why_text};
use crate::bits::pins_number;
use crate::named::{driver_of, edge_of_numbers, wire_of};
use crate::numbers::{delivery_number, edge_number, refusal_number};
use crate::opens::{fault_number, opened, write_fault};
use crate::played::draw;
use crate::rooms::{write, write_text};
use crate::verdicts::verdict_of;
use std::alloc::Global;
use vme_bus::BusState;
use vme_histories::Judges;
use vme_model::{Driver, Edge};
use vme_seeds::Draws;
use vme_trace::edge_of;

/// How many 32-bit words of C a bus has, as its header says.
const WORDS: u32 = 165;

const _: () = prove!(size_of::<BusState>() == 4 * WORDS as usize);

/// How many 32-bit words of C draws have.
const DRAWS_WORDS: u32 = 37;

const _: () = prove!(size_of::<Draws>() == 4 * DRAWS_WORDS as usize);

/// The version of the library, 2.0.0, a byte for each number. It is that of the program.
const VERSION: u32 = 0x2_0000;

/// 1 in a library that was proved.
const IS_PROVED: u32 = 1;

/// The fault of a caller whose bus or draws have another size.
const OTHER_SIZE: u32 = 32;

/// The answer if the record is not a bus.
const NO_BUS: u32 = 0xffff_ffff;

/// The answer if draws are those of no seed.
const NO_SEED: u32 = NO_BUS;

/// The answer if nothing is drawn, since no edge is open.
const NONE_OPEN: u32 = 1;

/// E1: no driver has such an edge.
const NO_DRIVER: u32 = 0x100;

/// The answer to a line that spells no edge.
const NO_EDGE: u32 = 0x500;

/// Opens a bus on the plan of a scenario, under the rules of a version, 1 or 2. `bytes` is the size
/// of the caller's bus.
///
/// It returns 0, or the number of the first fault: 32 if the size is not 660; 31 if there is no
/// such version; 20 if the scenario has more than 1,048,576 bytes; 1 to 9 for P1 to P9; 11 to 14
/// and 16 for Q1 to Q4 and Q6. If memory runs out, 9 or 16 may be returned in place of any fault of
/// the scenario. After a fault the bus is as it was, and nothing of it was read or written.
#[unsafe(no_mangle)]
pub extern "C" fn vmebus_open_sized(
    bus: &mut BusState,
    bytes: usize,
    version: u32,
    scenario: &[u8],
    alloc: Global,
) -> u32
    ensures size { result ≡ 0 → bytes ≡ bus_bytes }
    ensures opened { result ≡ 0 → IsOpened (version_of_number version) scenario.now bus.new }
    ensures fault { result ≢ 0
        → IsSizedFault bytes (version_of_number version) scenario.now result }
    ensures unchanged { result ≢ 0 → bus.new ≡ bus.old }
{
    if bytes != size_of::<BusState>() {
        return OTHER_SIZE;
    }
    match opened(alloc, version, scenario) {
        Ok((version, plan)) => {
            *bus = BusState::new(&plan, version);
            0
        }
        Err(fault) => fault_number(&fault),
    }
}

/// Writes the line of the first fault of a version and a scenario, as the program prints it, such
/// as `Q3 missing key slots`.
///
/// It returns how many bytes the line has, at most 1,024, and 0 if there is no fault; it writes
/// nothing if there is less room. A zero byte stands behind the line if there is room for it. If
/// memory runs out, the line may be that of P9 or Q6.
#[unsafe(no_mangle)]
pub extern "C" fn vmebus_fault_text(
    version: u32,
    scenario: &[u8],
    text: &mut [u8],
    alloc: Global,
) -> u32
    ensures none { result ≡ 0 → HasNoFault (version_of_number version) scenario.now }
    ensures fault { result ≢ 0 → HasFault (version_of_number version) scenario.now }
    ensures unwritten { result ≡ 0 → text.new ≡ text.old }
    ensures few { HasShort most_fault result text.old text.new }
{
    match opened(alloc, version, scenario) {
        Ok(_) => 0,
        Err(fault) => write_fault(alloc, &fault, text),
    }
}

/// Judges an edge, and takes it in if it is accepted. It returns `none` if there is no edge.
#[inline(always)]
fn step(bus: &mut BusState, edge: Option<Edge>, none: u32, delivered: &mut u32) -> u32
    requires { 0 < none }
    ensures answer { OfHistory bus.old (λ version p h.
        result ≡ answered_or none version p h edge) }
    ensures delivered { OfHistory bus.old (λ version p h.
        delivered.new ≡ delivery_of_edge version p h edge) }
    ensures state { OfHistory bus.old (λ version p h.
        IsStateOf version p (followed version p h edge) bus.new) }
    ensures unchanged { result ≢ 0 → bus.new ≡ bus.old }
    ensures nothing { result ≢ 0 → delivered.new ≡ 0 }
    ensures no_bus { is_slot bus.old.layout.slots ≡ false → result ≡ no_bus }
{
    *delivered = 0;
    if !bus.is_bus() {
        return NO_BUS;
    }
    let Some(edge) = edge else {
        return none;
    };
    match bus.step(edge) {
        Ok(None) => 0,
        Ok(Some(delivery)) => {
            *delivered = delivery_number(delivery);
            0
        }
        Err(refused) => refusal_number(refused),
    }
}

/// Judges an edge, and takes it in if it is accepted.
///
/// `driver` is 0 for the controller, or the slot. `wire` is 0 to 3 for bg0 to bg3, 4 for bclr, 5
/// iack, 6 berr, 7 br, 8 bgout, 9 bbsy, 10 addr, 11 as, 12 ds, 13 irq, 14 iackout, 15 dtack. `fall`
/// is 1 for a fall and 0 for a rise. `value` is 0, or for a fall of addr 1 to 7 for an acknowledge
/// of that level, and 32 + t for an access to slot t.
///
/// It returns 0 if the edge is accepted, and 0x100 * n + k if it is refused: n is 1 to 4 for E1 to
/// E4, and k is the number of the rule. Numbers that name no edge are E1. It returns 0xffffffff if
/// the record is not a bus, that is, its number of slots is not 1 to 21. An edge that is not
/// accepted leaves the record as it was, and delivers 0.
///
/// `delivered` becomes 0 if nothing is delivered, or level << 24 | handler << 16 | slot << 8 |
/// status, with bit 31 set. Source: docs/RULES.md, E1 to E4 and Deliveries.
#[unsafe(no_mangle)]
pub extern "C" fn vmebus_step(
    bus: &mut BusState,
    driver: u32,
    wire: u32,
    fall: u32,
    value: u32,
    delivered: &mut u32,
) -> u32
    ensures answer { OfHistory bus.old (λ version p h. result
        ≡ answered_or no_driver version p h (edge_of_numbers driver wire fall value)) }
    ensures delivered { OfHistory bus.old (λ version p h. delivered.new
        ≡ delivery_of_edge version p h (edge_of_numbers driver wire fall value)) }
    ensures state { OfHistory bus.old (λ version p h. IsStateOf version p
        (followed version p h (edge_of_numbers driver wire fall value)) bus.new) }
    ensures unchanged { result ≢ 0 → bus.new ≡ bus.old }
    ensures nothing { result ≢ 0 → delivered.new ≡ 0 }
    ensures no_bus { is_slot bus.old.layout.slots ≡ false → result ≡ no_bus }
{
    let edge = edge_of_numbers(driver, wire, fall, value);
    step(bus, edge, NO_DRIVER, delivered)
}

/// Judges the edge that a line of a trace spells, given without its line feed, and takes it in if
/// it is accepted. docs/TRACES.md describes the lines.
///
/// It returns what `vmebus_step` returns for that edge, and 0x500 if the line spells no edge.
#[unsafe(no_mangle)]
pub extern "C" fn vmebus_line(bus: &mut BusState, line: &[u8], delivered: &mut u32) -> u32
    ensures answer { OfHistory bus.old (λ version p h. result
        ≡ answered_or no_edge version p h (edge_of line.now)) }
    ensures delivered { OfHistory bus.old (λ version p h. delivered.new
        ≡ delivery_of_edge version p h (edge_of line.now)) }
    ensures state { OfHistory bus.old (λ version p h. IsStateOf version p
        (followed version p h (edge_of line.now)) bus.new) }
    ensures unchanged { result ≢ 0 → bus.new ≡ bus.old }
    ensures nothing { result ≢ 0 → delivered.new ≡ 0 }
    ensures no_bus { is_slot bus.old.layout.slots ≡ false → result ≡ no_bus }
{
    step(bus, edge_of(line), NO_EDGE, delivered)
}

/// The slot that holds the bus, 1 to 21; 0 if no slot does, or if the record is not a bus.
#[unsafe(no_mangle)]
pub extern "C" fn vmebus_holder(bus: &BusState) -> u32
    ensures slot { OfHistory bus.now (λ _ p h. result ≡ unwrap_or (holder p h) 0) }
    ensures no_bus { is_slot bus.now.layout.slots ≡ false → result ≡ 0 }
{
    match bus.holder() {
        Some(holder) if bus.is_bus() => u32::from(holder),
        _ => 0,
    }
}

/// The slot at which a grant stands, 1 to 21; 0 if no grant travels, or if the record is not a bus.
#[unsafe(no_mangle)]
pub extern "C" fn vmebus_grant_at(bus: &BusState) -> u32
    ensures slot { OfHistory bus.now (λ _ p h. result
        ≡ unwrap_or (option_map (λ at. at.1) (grant_at p h)) 0) }
    ensures no_bus { is_slot bus.now.layout.slots ≡ false → result ≡ 0 }
{
    match bus.grant_at() {
        Some(at) if bus.is_bus() => u32::from(at),
        _ => 0,
    }
}

/// What a driver reads on its pins, with a bit for each line and input that is low. `driver` is 0
/// for the controller, or the slot.
///
/// Bits 0 to 3 are BR0* to BR3*, 4 BBSY*, 5 BCLR*, 6 AS*, 7 DS0*, 8 DTACK*, 9 BERR*, 10 its own
/// grant-in, 11 its own iackin, and 12 to 18 IRQ1* to IRQ7*. Bits 24 to 29 are what is shown, as
/// the value of an edge. A driver that does not exist reads what the controller reads. The answer
/// is 0 if the record is not a bus.
#[unsafe(no_mangle)]
pub extern "C" fn vmebus_pins(bus: &BusState, driver: u32) -> u32
    ensures pins { OfHistory bus.now (λ _ p h. result
        ≡ pins_number (pins p h (unwrap_or (driver_of_number driver) Controller))) }
    ensures no_bus { is_slot bus.now.layout.slots ≡ false → result ≡ 0 }
{
    let driver = driver_of(driver).unwrap_or(Driver::Controller);
    if bus.is_bus() {
        pins_number(&bus.pins(driver))
    } else {
        0
    }
}

/// Writes the numbers of the conditions that an edge fails, in the order in which `explain` prints
/// them, and returns how many there are: at most 5, and 0 if the edge would be accepted.
///
/// The conditions are those of the first of E1 to E4 that applies. A condition's number is its
/// place among those of the header, from 0. The edge is named as for `vmebus_step`; numbers that
/// name no edge fail the one condition of E1. If there is less room, the first of the numbers are
/// written. On a record that is not a bus nothing is written, and 0 returned.
#[unsafe(no_mangle)]
pub extern "C" fn vmebus_failing(
    bus: &BusState,
    driver: u32,
    wire: u32,
    fall: u32,
    value: u32,
    conditions: &mut [u32],
) -> u32
    ensures count { OfHistory bus.now (λ version p h. result
        ≡ length (failed_numbers version p h (edge_of_numbers driver wire fall value))) }
    ensures conditions { OfHistory bus.now (λ version p h. conditions.new ≡ written conditions.old
        (failed_numbers version p h (edge_of_numbers driver wire fall value))) }
    ensures no_bus { is_slot bus.now.layout.slots ≡ false → result ≡ 0 }
    ensures unwritten { is_slot bus.now.layout.slots ≡ false → conditions.new ≡ conditions.old }
    ensures few { HasFew most_failing result conditions.old conditions.new }
{
    if !bus.is_bus() {
        return 0;
    }
    let numbers = failed_numbers(bus, edge_of_numbers(driver, wire, fall, value));
    write(conditions, numbers.as_slice());
    numbers.len() as u32
}

/// Writes the text of a condition that an edge fails, as `explain` prints it, with ` (profile)`
/// behind what is not the standard's. The condition is that of a place, from 0, among those of
/// `vmebus_failing`.
///
/// It returns how many bytes the text has, at most 58; it writes nothing if there is less room. It
/// returns 0 if fewer conditions fail, if no backplane has the edge, or if the record is not a bus.
#[unsafe(no_mangle)]
pub extern "C" fn vmebus_why(
    bus: &BusState,
    driver: u32,
    wire: u32,
    fall: u32,
    value: u32,
    place: u32,
    text: &mut [u8],
) -> u32
    ensures count { OfHistory bus.now (λ version p h. result
        ≡ length (why_text version p h (edge_of_numbers driver wire fall value) place)) }
    ensures text { OfHistory bus.now (λ version p h. text.new ≡ written_text text.old
        (why_text version p h (edge_of_numbers driver wire fall value) place)) }
    ensures no_bus { is_slot bus.now.layout.slots ≡ false → result ≡ 0 }
    ensures unwritten { is_slot bus.now.layout.slots ≡ false → text.new ≡ text.old }
    ensures few { HasShort most_why result text.old text.new }
{
    if !bus.is_bus() {
        return 0;
    }
    let line = why_text(bus, edge_of_numbers(driver, wire, fall, value), place);
    write_text(text, line.as_slice());
    line.len() as u32
}

/// Writes the line of an edge, as in a trace, without its line feed. The edge is named as for
/// `vmebus_step`.
///
/// It returns how many bytes the line has, at most 12; it writes nothing if there is less room. It
/// returns 0 if no backplane has the edge.
#[unsafe(no_mangle)]
pub extern "C" fn vmebus_spell(
    driver: u32,
    wire: u32,
    fall: u32,
    value: u32,
    line: &mut [u8],
) -> u32
    ensures count { result ≡ length (spelled (edge_of_numbers driver wire fall value)) }
    ensures line { line.new
        ≡ written_text line.old (spelled (edge_of_numbers driver wire fall value)) }
    ensures few { HasShort most_line result line.old line.new }
{
    let spelling = spelled(edge_of_numbers(driver, wire, fall, value));
    write_text(line, spelling.as_slice());
    spelling.len() as u32
}

/// Writes all edges that a driver can make now, in the order in which `state` prints them, and
/// returns how many there are: at most 36. `driver` is 0 for the controller, or the slot.
///
/// An edge is one word: driver << 24 | wire << 16 | fall << 8 | value, with the numbers of
/// `vmebus_step`. If there is less room, the first of them are written. A driver that does not
/// exist has none. On a record that is not a bus nothing is written, and 0 returned.
#[unsafe(no_mangle)]
pub extern "C" fn vmebus_open_edges(bus: &BusState, driver: u32, edges: &mut [u32]) -> u32
    ensures count { OfHistory bus.now (λ version p h. result
        ≡ length (open_numbers version p h (driver_of_number driver))) }
    ensures edges { OfHistory bus.now (λ version p h. edges.new
        ≡ written edges.old (open_numbers version p h (driver_of_number driver))) }
    ensures no_bus { is_slot bus.now.layout.slots ≡ false → result ≡ 0 }
    ensures unwritten { is_slot bus.now.layout.slots ≡ false → edges.new ≡ edges.old }
    ensures few { HasFew most_open result edges.old edges.new }
{
    if !bus.is_bus() {
        return 0;
    }
    let numbers = open_numbers(bus, driver_of(driver));
    write(edges, numbers.as_slice());
    numbers.len() as u32
}

/// 1 if a driver drives a wire low, or has its address group on, and otherwise 0. It is 0 for a
/// wire that the driver lacks, and if the record is not a bus.
#[unsafe(no_mangle)]
pub extern "C" fn vmebus_low(bus: &BusState, driver: u32, wire: u32) -> u32
    ensures low { OfHistory bus.now (λ _ _ h. result
        ≡ asked_of (drive h) (driver_of_number driver) (wire_of_number wire)) }
    ensures no_bus { is_slot bus.now.layout.slots ≡ false → result ≡ 0 }
{
    match (driver_of(driver), wire_of(wire)) {
        (Some(driver), Some(wire)) if bus.is_bus() => u32::from(bus.is_low(driver, wire)),
        _ => 0,
    }
}

/// 1 if the backplane has a driver with such a wire, and otherwise 0; it is 0, too, if the record
/// is not a bus.
#[unsafe(no_mangle)]
pub extern "C" fn vmebus_has(bus: &BusState, driver: u32, wire: u32) -> u32
    ensures has { OfHistory bus.now (λ _ p _. result
        ≡ asked_of (has_driver p) (driver_of_number driver) (wire_of_number wire)) }
    ensures no_bus { is_slot bus.now.layout.slots ≡ false → result ≡ 0 }
{
    match (driver_of(driver), wire_of(wire)) {
        (Some(driver), Some(wire)) if bus.is_bus() => u32::from(bus.has_driver(driver, wire)),
        _ => 0,
    }
}

/// Writes the verdict on an edge, as `replay` prints it, by what a step returned and delivered:
/// `ok`, `ok irq 4 to 1 from 2 status 65`, `E3 G16`.
///
/// It returns how many bytes the verdict has, at most 37, and 0 for a number that is no answer to
/// an edge; it writes nothing if there is less room. A zero byte stands behind the text if there is
/// room for it.
#[unsafe(no_mangle)]
pub extern "C" fn vmebus_verdict(answer: u32, delivered: u32, text: &mut [u8]) -> u32
    ensures count { result ≡ length (verdict_of_numbers answer delivered) }
    ensures text { text.new ≡ written_text text.old (verdict_of_numbers answer delivered) }
    ensures few { HasShort most_verdict result text.old text.new }
{
    let verdict = verdict_of(answer, delivered);
    write_text(text, verdict.as_slice());
    verdict.len() as u32
}

/// Makes the draws of a seed: by it `drive --seed` draws the same numbers and weights. No edge was
/// drawn yet. `bytes` is the size of the caller's draws.
///
/// It returns 0, or 32 if the size is not 148, and then nothing was written.
#[unsafe(no_mangle)]
pub extern "C" fn vmebus_seed_sized(draws: &mut Draws, bytes: usize, seed: u64) -> u32
    ensures size { (result ≡ 0) ↔ (bytes ≡ draws_bytes) }
    ensures other { result ≢ 0 → result ≡ size_fault }
    ensures unchanged { result ≢ 0 → draws.new ≡ draws.old }
    ensures numbers { result ≡ 0
        → numbers_of draws.new ≡ after_words weighing_words (generator seed) }
    ensures weights { result ≡ 0
        → (k : KindOf) → weight_of draws.new k ≡ weight (generator seed) k }
    ensures weighed { result ≡ 0 → AreWeighed draws.new }
    ensures made { result ≡ 0 → (k : KindOf) → made_of draws.new k ≡ 0 }
{
    if bytes != size_of::<Draws>() {
        return OTHER_SIZE;
    }
    *draws = Draws::new(seed);
    0
}

/// Draws the next edge among all open edges of the wires that the library plays, and counts it. The
/// bus is not stepped.
///
/// `wires` are 22 masks, for the controller and for each slot: the bit of a wire's number is set if
/// the library plays it; a mask that is missing is 0. The edge is one word, as `vmebus_open_edges`
/// writes it.
///
/// It returns 0 if an edge was drawn, and 1 if none of the wires has an open edge; two numbers are
/// drawn all the same then. It returns 0xffffffff, and leaves the draws as they were, if the record
/// is not a bus, or if `draws` are those of no seed, such as zeros. Unless it returns 0, `edge`
/// becomes 0. Draws of a seed that are drawn on all wires, and a bus that is stepped with each
/// edge, make the trace of `drive --seed`.
#[unsafe(no_mangle)]
pub extern "C" fn vmebus_draw(
    bus: &BusState,
    draws: &mut Draws,
    wires: &[u32],
    edge: &mut u32,
) -> u32
    ensures answer { is_seeded draws.old ≡ true
        → OfHistory bus.now (λ version p h. result
        ≡ drawn_answer (drawn_edge version p h wires.now draws.old)) }
    ensures edge { is_seeded draws.old ≡ true
        → OfHistory bus.now (λ version p h. edge.new
        ≡ drawn_number (drawn_edge version p h wires.now draws.old)) }
    ensures among { OfHistory bus.now (λ version p h. result ≡ 0
        → IsNumberIn (played version p h wires.now) edge.new) }
    ensures none { AreWeighed draws.old → OfHistory bus.now (λ version p h.
        (result ≡ 1) ↔ (played version p h wires.now ≡ [])) }
    ensures numbers { is_seeded draws.old ≡ true → OfHistory bus.now (λ _ _ _.
        numbers_of draws.new ≡ after_words 2 (numbers_of draws.old)) }
    ensures weights { draws.new.weights ≡ draws.old.weights }
    ensures counts { is_seeded draws.old ≡ true → OfHistory bus.now (λ version p h.
        IsCountedIn (has_board p) (drawn_edge version p h wires.now draws.old)
        draws.old draws.new) }
    ensures full { is_seeded draws.old ≡ true → OfHistory bus.now (λ version p h.
        IsFullKept (has_board p) (drawn_edge version p h wires.now draws.old)
        draws.old draws.new) }
    ensures no_bus { is_slot bus.now.layout.slots ≡ false → result ≡ no_bus }
    ensures no_seed { is_seeded draws.old ≡ false → result ≡ no_bus }
    ensures nothing { result ≢ 0 → edge.new ≡ 0 }
    ensures unchanged { result ≡ no_bus → draws.new ≡ draws.old }
{
    *edge = 0;
    if !bus.is_bus() {
        return NO_BUS;
    }
    if !draws.is_seeded() {
        return NO_SEED;
    }
    match draw(bus, draws, wires) {
        Some(drawn) => {
            *edge = edge_number(&drawn);
            0
        }
        None => NONE_OPEN,
    }
}

/// Writes what the build is, and returns how many numbers that are, 4: the version of the library,
/// 0x20000 for 2.0.0; how many words a bus and draws have; and 1 if the library is proved, 0 if it
/// is not. If there is less room, the first of them are written. A program compares the first three
/// with those of its header.
#[unsafe(no_mangle)]
pub extern "C" fn vmebus_build(numbers: &mut [u32]) -> u32
    ensures count { result ≡ length build_numbers }
    ensures numbers { numbers.new ≡ written numbers.old build_numbers }
    ensures few { HasFew most_build result numbers.old numbers.new }
{
    write(numbers, &[VERSION, WORDS, DRAWS_WORDS, IS_PROVED]);
    4
}
