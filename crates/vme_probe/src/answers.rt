//! What is written behind the lines of the changes.
ghost use Rattle.std.specs.Prelude.{◌≡◌, ◌+◌, ◌≤◌, ◌||◌, ◌++◌, ◌∷◌, [], IsTrue};
ghost use Rattle.arrayvec.specs.ArrayVec.{array_vec_len};
ghost use Rattle.vme_bus.specs.Sets.{has};
ghost use Rattle.vme_captures.specs.Signals.{is_change, is_line};
ghost use Rattle.vme_standings.specs.Standings.{is_nobody};
ghost use Rattle.vme_probe.specs.Ends.{AddsComing, interrupt_lines, next_changes, next_cycles, next_interrupts, next_lines, next_of, next_of_probe, next_pins, next_requests, next_strobes, pulled_line, request_lines, strobe_fall};
ghost use Rattle.vme_probe.specs.Stopped.{board_lines, board_obstacle, has_ours, is_ours_if, nobody_text, is_refused_by_ours, obstacle_if, obstacle_text, refused_text, stopped_text};
ghost use Rattle.vme_probe.specs.Ends.{IsEnd, IsPlaces, IsStanding, are_slots, is_probe};
ghost use Rattle.vme_probe.specs.Rooms.{boards_width, coming_width, interrupts_width, low_width, next_interrupts_width, next_lines_width, next_pins_width, next_requests_width, next_strobes_width, next_width, nobody_width, obstacle_width, refused_width, report_room, requests_width, standing_width};

use crate::conditions::obstacle;
use crate::lines::{
    Places, Report, push_cycle, push_grant, push_holder, push_impossible, push_low, push_may_come,
    push_none, push_places, push_possible,
};
use crate::obstacles::{Obstacle, no_driver_line, obstacle_line};
use crate::pins::{probe_at, segment_at};
use crate::texts::SLOTS;
use arrayvec::ArrayVec;
use vme_bus::SlotSet;
use vme_captures::{Change, Line, Probe, Signal, Value};
use vme_model::{ChainId, Cycle, Driver};
use vme_slots::Plan;
use vme_standings::grants::boards_of_level;
use vme_standings::{Drivers, GrantPhases, Probed, Standings};
use vme_text::push;

/// What stands in the way of a driver, if it has the line or drives the wire of the change.
#[tactic(auto, unfolding(crate::specs::Stopped::obstacle_if))]
fn obstacle_if(
    plan: &Plan,
    probed: &Probed,
    before: &Standings,
    change: &Change,
    driver: Driver,
    has_line: bool,
) -> Option<Obstacle>
    ensures { result
        ≡ obstacle_if plan.now probed.now.version before.now change.now driver has_line }
{
    if has_line {
        obstacle(before, plan, probed, change, driver)
    } else {
        None
    }
}

/// Appends the line of what stands in the way of a driver, if something does: at most 97 bytes. The
/// result is whether that is a condition of our own rules alone.
fn push_obstacle(report: &mut Report, driver: Driver, found: Option<Obstacle>) -> bool
    requires { array_vec_len report.old + obstacle_width ≤ report_room }
    ensures items { report.new.items ≡ report.old.items ++ obstacle_text driver found }
    ensures len { array_vec_len report.new ≤ array_vec_len report.old + obstacle_width }
    ensures ours { result ≡ is_ours_if found }
{
    match found {
        None => false,
        Some(found) => {
            push(report, obstacle_line(driver, &found).as_slice());
            push(report, b"\n");
            found.is_ours()
        }
    }
}

/// Appends the lines of what stands in the way of boards: at most 2,134 bytes. The result is
/// whether some is a condition of our own rules alone.
fn push_of_boards(
    report: &mut Report,
    plan: &Plan,
    probed: &Probed,
    before: &Standings,
    change: &Change,
    boards: SlotSet,
) -> bool
    requires { array_vec_len report.old + boards_width ≤ report_room }
    ensures items { report.new.items ≡ report.old.items
        ++ board_lines (board_obstacle plan.now probed.now.version before.now change.now boards) }
    ensures len { array_vec_len report.new ≤ array_vec_len report.old + boards_width }
    ensures ours { result
        ≡ has_ours (board_obstacle plan.now probed.now.version before.now change.now boards) }
{
    let mut is_ours = false;
    for slot in 0..SLOTS {
        let driver = Driver::Slot(slot);
        let found = obstacle_if(plan, probed, before, change, driver, boards.has(slot));
        let of_slot = push_obstacle(report, driver, found);
        is_ours = either(is_ours, of_slot);
    }
    is_ours
}

/// Whether one of them is so.
pub(crate) fn either(a: bool, b: bool) -> bool
    ensures { result ≡ (a || b) }
{
    a || b
}

/// Appends the line that says that nobody has the line or wire of a change, if that is so: at most
/// 40 bytes.
fn push_if_nobody(report: &mut Report, drivers: Drivers)
    requires { array_vec_len report.old + nobody_width ≤ report_room }
    ensures items { report.new.items ≡ report.old.items ++ nobody_text drivers }
    ensures len { array_vec_len report.new ≤ array_vec_len report.old + nobody_width }
{
    if drivers.is_nobody() {
        push(report, no_driver_line());
        push(report, b"\n");
    }
}

/// Appends the line of a change that nobody may have made, and what stands in the way of each of
/// those who have its line or drive its wire: at most 2,326 bytes. The result is whether some is a
/// condition of our own rules alone.
#[tactic(auto, unfolding(crate::specs::Stopped::refused_text, crate::specs::Stopped::is_refused_by_ours))]
pub(crate) fn push_refused(
    report: &mut Report,
    plan: &Plan,
    probed: &Probed,
    before: &Standings,
    moment: u64,
    change: &Change,
    drivers: Drivers,
) -> bool
    requires room { array_vec_len report.old + refused_width ≤ report_room }
    requires change { IsTrue (is_change change.now) }
    ensures items { report.new.items ≡ report.old.items
        ++ refused_text plan.now probed.now.version before.now moment change.now drivers }
    ensures len { array_vec_len report.new ≤ array_vec_len report.old + refused_width }
    ensures ours { result
        ≡ is_refused_by_ours plan.now probed.now.version before.now change.now drivers }
{
    push_none(report, moment, change);
    push_if_nobody(report, drivers);
    let has_line = drivers.controller;
    let found = obstacle_if(plan, probed, before, change, Driver::Controller, has_line);
    let of_controller = push_obstacle(report, Driver::Controller, found);
    let of_boards = push_of_boards(report, plan, probed, before, change, drivers.boards);
    either(of_controller, of_boards)
}

/// Appends what is written of a change that nobody may have made, and the last line.
#[tactic(auto, unfolding(crate::specs::Stopped::stopped_text))]
pub(crate) fn push_stopped(
    report: &mut Report,
    plan: &Plan,
    probed: &Probed,
    before: &Standings,
    moment: u64,
    change: &Change,
    drivers: Drivers,
)
    requires empty { report.old.items ≡ [] }
    requires change { IsTrue (is_change change.now) }
    ensures { report.new.items
        ≡ stopped_text plan.now probed.now.version before.now moment change.now drivers }
{
    let is_ours = push_refused(report, plan, probed, before, moment, change, drivers);
    push_impossible(report, moment, is_ours);
}

/// The places at which a grant may stand.
fn places_of(plan: &Plan, phases: &GrantPhases) -> Places
    ensures { IsPlaces plan.now phases.now result.items }
{
    let mut places = ArrayVec::new();
    if phases.may_be_nowhere(plan) {
        push(&mut places, b" none");
    }
    push_places(&mut places, 0, phases.standing_at(plan, 0));
    push_places(&mut places, 1, phases.standing_at(plan, 1));
    push_places(&mut places, 2, phases.standing_at(plan, 2));
    push_places(&mut places, 3, phases.standing_at(plan, 3));
    places
}

/// Appends the line of the boards that may pull a line, if it is low: at most 101 bytes.
fn push_pulled(report: &mut Report, standings: &Standings, line: Line, pullers: SlotSet)
    requires room { array_vec_len report.old + low_width ≤ report_room }
    requires line { IsTrue (is_line line) }
    ensures items { report.new.items
        ≡ report.old.items ++ pulled_line standings.now line (has pullers) }
    ensures len { array_vec_len report.new ≤ array_vec_len report.old + low_width }
{
    push_low(report, standings.lines.is_low(line), line, pullers);
}

/// Appends the lines of the request lines that are low: at most 404 bytes.
fn push_requests(report: &mut Report, plan: &Plan, standings: &Standings)
    requires { array_vec_len report.old + requests_width ≤ report_room }
    ensures items { report.new.items ≡ report.old.items ++ request_lines plan.now standings.now }
    ensures len { array_vec_len report.new ≤ array_vec_len report.old + requests_width }
{
    for level in 0..4_u8 {
        push_pulled(
            report,
            standings,
            Line::Br(level),
            boards_of_level(plan, level),
        );
    }
}

/// Appends the lines of the interrupt request lines that are low: at most 707 bytes.
fn push_interrupts(report: &mut Report, plan: &Plan, standings: &Standings)
    requires { array_vec_len report.old + interrupts_width ≤ report_room }
    ensures items { report.new.items ≡ report.old.items ++ interrupt_lines plan.now standings.now }
    ensures len { array_vec_len report.new ≤ array_vec_len report.old + interrupts_width }
{
    for below in 0..7_u8 {
        let level = below + 1;
        push_pulled(
            report,
            standings,
            Line::Irq(level),
            standings.pullers(plan, level),
        );
    }
}

/// Appends the line of a change, if somebody may make it: at most 127 bytes.
fn push_change(
    report: &mut Report,
    plan: &Plan,
    probed: &Probed,
    standings: &Standings,
    change: Change,
)
    requires room { array_vec_len report.old + coming_width ≤ report_room }
    requires change { IsTrue (is_change change) }
    ensures adds { AddsComing plan.now probed.now standings.now (change ∷ [])
        report.old.items report.new.items }
    ensures len { array_vec_len report.new ≤ array_vec_len report.old + coming_width }
{
    push_may_come(report, &change, standings.drivers(plan, probed, &change));
}

/// Appends the line of the next change of a line, which is seen with nothing, if somebody may make
/// it: at most 127 bytes. A fall of AS* is seen with something.
fn push_next(report: &mut Report, plan: &Plan, probed: &Probed, standings: &Standings, line: Line)
    requires room { array_vec_len report.old + coming_width ≤ report_room }
    requires line { IsTrue (is_line line) }
    requires change { IsTrue (is_change (next_of standings.now line)) }
    ensures adds { AddsComing plan.now probed.now standings.now (next_of standings.now line ∷ [])
        report.old.items report.new.items }
    ensures len { array_vec_len report.new ≤ array_vec_len report.old + coming_width }
{
    let change = Change {
        signal: Signal::Line(line),
        fall: !standings.lines.is_low(line),
        value: None,
    };
    push_change(report, plan, probed, standings, change);
}

/// Appends the lines of the next changes of the request lines: at most 508 bytes.
fn push_next_requests(report: &mut Report, plan: &Plan, probed: &Probed, standings: &Standings)
    requires { array_vec_len report.old + next_requests_width ≤ report_room }
    ensures adds { AddsComing plan.now probed.now standings.now (next_requests standings.now)
        report.old.items report.new.items }
    ensures len { array_vec_len report.new ≤ array_vec_len report.old + next_requests_width }
{
    for level in 0..4_u8 {
        push_next(report, plan, probed, standings, Line::Br(level));
    }
}

/// Appends the lines of the next changes of the interrupt request lines: at most 889 bytes.
fn push_next_interrupts(report: &mut Report, plan: &Plan, probed: &Probed, standings: &Standings)
    requires { array_vec_len report.old + next_interrupts_width ≤ report_room }
    ensures adds { AddsComing plan.now probed.now standings.now (next_interrupts standings.now)
        report.old.items report.new.items }
    ensures len { array_vec_len report.new ≤ array_vec_len report.old + next_interrupts_width }
{
    for below in 0..7_u8 {
        push_next(report, plan, probed, standings, Line::Irq(below + 1));
    }
}

/// A fall of AS*, with what is seen then.
fn strobe_fall(value: Value) -> Change
    ensures { result ≡ strobe_fall value }
{
    Change {
        signal: Signal::Line(Line::AddressStrobe),
        fall: true,
        value: Some(value),
    }
}

/// Appends the lines of the falls of AS*: at most 1,016 bytes.
fn push_next_cycles(report: &mut Report, plan: &Plan, probed: &Probed, standings: &Standings)
    requires { array_vec_len report.old + next_strobes_width ≤ report_room }
    ensures adds { AddsComing plan.now probed.now standings.now next_cycles
        report.old.items report.new.items }
    ensures len { array_vec_len report.new ≤ array_vec_len report.old + next_strobes_width }
{
    for below in 0..7_u8 {
        let value = Value::Shown(Cycle::Acknowledge(below + 1));
        push_change(report, plan, probed, standings, strobe_fall(value));
    }
    push_change(report, plan, probed, standings, strobe_fall(Value::Access));
}

/// Appends the lines of the next changes of AS*: at most 1,016 bytes.
fn push_next_strobes(report: &mut Report, plan: &Plan, probed: &Probed, standings: &Standings)
    requires { array_vec_len report.old + next_strobes_width ≤ report_room }
    ensures adds { AddsComing plan.now probed.now standings.now (next_strobes standings.now)
        report.old.items report.new.items }
    ensures len { array_vec_len report.new ≤ array_vec_len report.old + next_strobes_width }
{
    if standings.lines.is_low(Line::AddressStrobe) {
        push_next(report, plan, probed, standings, Line::AddressStrobe);
    } else {
        push_next_cycles(report, plan, probed, standings);
    }
}

/// Appends the line of the next change of a pin, if there is a probe and somebody may make it: at
/// most 127 bytes.
fn push_next_pin(
    report: &mut Report,
    plan: &Plan,
    probed: &Probed,
    standings: &Standings,
    probe: Option<Probe>,
)
    requires room { array_vec_len report.old + coming_width ≤ report_room }
    requires slot { IsTrue (is_probe probe) }
    ensures adds { AddsComing plan.now probed.now standings.now (next_of_probe probe)
        report.old.items report.new.items }
    ensures len { array_vec_len report.new ≤ array_vec_len report.old + coming_width }
{
    if let Some(probe) = probe {
        let change = Change {
            signal: Signal::Pin(probe.pin),
            fall: !probe.low,
            value: None,
        };
        push_change(report, plan, probed, standings, change);
    }
}

/// Appends the lines of the next changes of the probed pins of a chain, from the controller's end:
/// at most 2,794 bytes.
fn push_next_pins(
    report: &mut Report,
    plan: &Plan,
    probed: &Probed,
    standings: &Standings,
    probes: &[Probe],
    chain: ChainId,
)
    requires room { array_vec_len report.old + next_pins_width ≤ report_room }
    requires slots { IsTrue (are_slots probes.now) }
    ensures adds { AddsComing plan.now probed.now standings.now (next_pins probes.now chain)
        report.old.items report.new.items }
    ensures len { array_vec_len report.new ≤ array_vec_len report.old + next_pins_width }
{
    for slot in 0..SLOTS {
        let probe = probe_at(probes, segment_at(chain, slot));
        push_next_pin(report, plan, probed, standings, probe);
    }
}

/// Appends the lines of the next changes of the shared lines: at most 3,048 bytes.
fn push_next_lines(report: &mut Report, plan: &Plan, probed: &Probed, standings: &Standings)
    requires { array_vec_len report.old + next_lines_width ≤ report_room }
    ensures adds { AddsComing plan.now probed.now standings.now (next_lines standings.now)
        report.old.items report.new.items }
    ensures len { array_vec_len report.new ≤ array_vec_len report.old + next_lines_width }
{
    push_next_requests(report, plan, probed, standings);
    push_next_interrupts(report, plan, probed, standings);
    push_next(report, plan, probed, standings, Line::Bbsy);
    push_next_strobes(report, plan, probed, standings);
    push_next(report, plan, probed, standings, Line::DataStrobe);
    push_next(report, plan, probed, standings, Line::Dtack);
    push_next(report, plan, probed, standings, Line::Berr);
    push_next(report, plan, probed, standings, Line::Bclr);
}

/// Appends the lines of the changes that may come next: at most 17,018 bytes.
fn push_coming(
    report: &mut Report,
    plan: &Plan,
    probed: &Probed,
    standings: &Standings,
    probes: &[Probe],
)
    requires room { array_vec_len report.old + next_width ≤ report_room }
    requires slots { IsTrue (are_slots probes.now) }
    ensures { AddsComing plan.now probed.now standings.now
        (next_changes standings.now probes.now) report.old.items report.new.items }
{
    push_next_lines(report, plan, probed, standings);
    push_next_pins(report, plan, probed, standings, probes, ChainId::Bg0);
    push_next_pins(report, plan, probed, standings, probes, ChainId::Bg1);
    push_next_pins(report, plan, probed, standings, probes, ChainId::Bg2);
    push_next_pins(report, plan, probed, standings, probes, ChainId::Bg3);
    push_next_pins(report, plan, probed, standings, probes, ChainId::Iack);
}

/// Appends how the bus stands behind so many changes: at most 2,632 bytes.
fn push_standing(report: &mut Report, plan: &Plan, standings: &Standings, changes: u64)
    requires { report.old.items ≡ [] }
    ensures text { IsStanding plan.now standings.now changes report.new.items }
    ensures len { array_vec_len report.new ≤ standing_width }
{
    push_possible(report, changes);
    push_holder(report, standings.phases.holders());
    push_grant(report, &places_of(plan, &standings.phases));
    push_cycle(report, standings.shown, standings.addressers);
    push_requests(report, plan, standings);
    push_interrupts(report, plan, standings);
}

/// Appends how the bus stands behind so many changes, with the edges that no probe sees, and which
/// changes may come next.
pub(crate) fn push_end(
    report: &mut Report,
    plan: &Plan,
    probed: &Probed,
    standings: &Standings,
    probes: &[Probe],
    changes: u64,
)
    requires empty { report.old.items ≡ [] }
    requires slots { IsTrue (are_slots probes.now) }
    ensures { IsEnd plan.now probed.now standings.now probes.now changes report.new.items }
{
    push_standing(report, plan, standings, changes);
    push_coming(report, plan, probed, standings, probes);
}
