//! The state to which a backplane's edges lead.
ghost use Rattle.std.specs.Prelude.{◌≡◌, ◌<◌, ◌∷◌, [], ℕ, List, Some, Ok, length, option_map, set};
ghost use Rattle.std.specs.List.{slice_get};
ghost use Rattle.std.specs.Option.{option_copied};
ghost use Rattle.vme_model.specs.declared.boards.ArbiterKind.{ArbiterKind as KindValue};
ghost use Rattle.vme_model.specs.declared.boards.Row.{Row as RowValue};
ghost use Rattle.vme_model.specs.declared.signals.Edge.{Edge as EdgeValue};
ghost use Rattle.vme_model.specs.declared.signals.Version.{Version as VersionValue};
ghost use Rattle.vme_model.specs.Plan.{Plan as PlanValue, board};
ghost use Rattle.vme_model.specs.History.{shown};
ghost use Rattle.vme_model.specs.Verdict.{verdict_but_full};
ghost use Rattle.vme_arbiter.specs.Local.{controller_of};
ghost use Rattle.vme_wiring.specs.Boards.{OfPlace, parts_of, place};
ghost use Rattle.vme_wiring.specs.Counts.{high_pins, lines_after, shared_after, shared_after_controller};
ghost use Rattle.vme_histories.specs.Shown.{addressing_after};
ghost use Rattle.vme_wiring.specs.Chained.{after_board, after_controller, CanMoveHead};

use crate::boards::Board;
use crate::chains::{Chains, note_segment};
use crate::lines::{Lines, note_address, note_controllers, note_line};
use crate::places::Placed;
use vme_arbiter::{AnyPolicy, Arbiter};
use vme_model::{BusLevels, Driver, Edge, Levels, Pins, Version};
use vme_slots::Plan;

/// The state to which the edges so far lead, kept in a fixed number of places: the parts of each
/// board by its slot, the controller's part, the counts of the lines, and the segments of the
/// chains.
#[derive(Drop)]
pub struct Wiring {
    pub(crate) version: Version,
    pub(crate) slots: u8,
    pub(crate) boards: [Option<Placed>; 22],
    pub(crate) arbiter: Arbiter<AnyPolicy>,
    pub(crate) lines: Lines,
    pub(crate) chains: Chains,
    // what all drivers see alike: the lines, and what is shown
    pub(crate) shared: Pins,
    // the slot whose address group is on
    pub(crate) addressing: Option<u8>,
}

/// The board of a slot, before any edge.
fn board_of(plan: &Plan, slot: u8, version: Version) -> Option<Placed>
    ensures { result ≡ option_map (parts_of version plan.now []) (board plan.now slot) }
{
    match plan.row(slot) {
        Some(row) => Some(Placed::new(*row, version)),
        None => None,
    }
}

/// The boards of a plan, before any edge.
fn boards_of(plan: &Plan, version: Version) -> [Option<Placed>; 22]
    ensures room { length result ≡ 22 }
    ensures boards { (s : ℕ) → s < 22
        → slice_get result s ≡ Some (option_map (parts_of version plan.now []) (board plan.now s)) }
{
    let mut boards = [None; 22];
    for slot in 0..22_u8 {
        boards[usize::from(slot)] = board_of(plan, slot, version);
    }
    boards
}

/// What all drivers see alike if every line is high.
fn all_high() -> Pins
    ensures { result ≡ high_pins }
{
    Pins {
        requests: BusLevels::of_lines([false; 4]),
        bbsy: false,
        bclr: false,
        address_strobe: false,
        data_strobe: false,
        dtack: false,
        berr: false,
        irq: Levels::of_lines([false; 7]),
        shown: None,
        grant_in: false,
        iack_in: false,
    }
}

impl Wiring {
    ghost use Rattle.vme_wiring.specs.Wired.{IsWiringOf, OfHistory, CanNote, CanTake};

    /// The wiring of a plan at power-up, before any edge.
    pub fn new(plan: &Plan, version: Version) -> Wiring
        ensures { IsWiringOf version plan.now [] result }
    {
        plan.accepted();
        Wiring {
            version,
            slots: plan.slots(),
            boards: boards_of(plan, version),
            arbiter: Arbiter::new(AnyPolicy::from(plan.arbiter()), plan.arbiter(), version),
            lines: Lines::new(),
            chains: Chains::new(plan),
            shared: all_high(),
            addressing: None,
        }
    }

    /// The board of a slot, in its place.
    #[inline(always)]
    pub(crate) fn placed(&self, slot: u8) -> Option<&Placed>
        ensures { option_copied result ≡ place self.now.boards slot }
    {
        match self.boards.get(usize::from(slot)) {
            Some(Some(placed)) => Some(placed),
            _ => None,
        }
    }

    /// The board of a slot.
    #[inline(always)]
    pub(crate) fn board(&self, slot: u8) -> Option<&Board>
        ensures { option_copied result ≡ place self.now.boards slot }
    {
        match self.placed(slot) {
            Some(placed) => Some(placed.board()),
            None => None,
        }
    }

    /// Takes in an edge that the rules allow after the history of this wiring.
    #[inline(always)]
    pub fn note(&mut self, edge: Edge)
        requires allowed { CanTake self.old edge }
        ensures { OfHistory self.old (λ version p h. verdict_but_full version p h edge ≡ Ok tt
            → IsWiringOf version p (edge ∷ h) self.new) }
    {
        match edge.driver {
            Driver::Controller => self.note_controller(edge),
            Driver::Slot(slot) => self.note_board(slot, edge),
        }
    }

    /// Takes in an edge of the controller.
    #[inline(always)]
    fn note_controller(&mut self, edge: Edge)
        requires head { CanMoveHead edge.wire edge.fall self.old.chains }
        ensures version { self.new.version ≡ self.old.version }
        ensures slots { self.new.slots ≡ self.old.slots }
        ensures boards { self.new.boards ≡ self.old.boards }
        ensures policy { self.new.arbiter.0 ≡ self.old.arbiter.0 }
        ensures arbiter { (kind : KindValue) (version : VersionValue) (h : List EdgeValue)
            → self.old.arbiter.1 ≡ controller_of kind version h
            → self.new.arbiter.1 ≡ controller_of kind version (edge ∷ h) }
        ensures lines { self.new.lines ≡ self.old.lines }
        ensures chains { self.new.chains ≡ after_controller edge.wire edge.fall self.old.chains }
        ensures shared { self.new.shared
            ≡ shared_after_controller self.old.shared edge.wire edge.fall }
        ensures addressing { self.new.addressing ≡ self.old.addressing }
    {
        self.arbiter.note(edge);
        self.chains.note_head(edge);
        note_controllers(&mut self.shared, edge);
    }

    /// Takes in an edge of the slot's board.
    #[inline(always)]
    #[tactic(auto, using(crate::proofs::Parts::read_place))]
    fn note_board(&mut self, slot: u8, edge: Edge)
        requires slot { slot < 22 }
        requires board { OfPlace self.old.boards slot (λ b. CanNote self.old b.row edge) }
        ensures version { self.new.version ≡ self.old.version }
        ensures slots { self.new.slots ≡ self.old.slots }
        ensures boards { (version : VersionValue) (p : PlanValue) (h : List EdgeValue)
            → (r : RowValue)
            → place self.old.boards slot ≡ Some (parts_of version p h r)
            → self.old.shared.shown ≡ shown p h
            → self.new.boards ≡ set self.old.boards slot (Some (parts_of version p (edge ∷ h) r)) }
        ensures arbiter { self.new.arbiter ≡ self.old.arbiter }
        ensures lines { OfPlace self.old.boards slot (λ b. self.new.lines
            ≡ lines_after self.old.lines b.row edge.wire edge.fall) }
        ensures chains { OfPlace self.old.boards slot (λ b. self.new.chains
            ≡ after_board b.row edge.wire edge.fall self.old.chains) }
        ensures shared { OfPlace self.old.boards slot (λ b. self.new.shared
            ≡ shared_after self.old.shared self.new.lines edge.wire edge.value) }
        ensures addressing { OfPlace self.old.boards slot (λ b. self.new.addressing
            ≡ addressing_after self.old.addressing slot edge.wire edge.fall) }
    {
        let shown = self.shared.shown;
        match &mut self.boards[usize::from(slot)] {
            Some(placed) => {
                let row = &placed.board().row;
                note_line(&mut self.lines, &mut self.shared, row, edge);
                note_segment(&mut self.chains, row, edge);
                note_address(&mut self.addressing, slot, edge);
                placed.note(edge, shown);
            }
            None => {}
        }
    }
}
