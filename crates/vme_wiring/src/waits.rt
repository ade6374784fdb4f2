//! Which drivers wait for an edge of another driver.
ghost use Rattle.std.specs.Prelude.{◌≡◌, ◌&&◌, true, [], Some};
ghost use Rattle.vme_model.specs.declared.signals.Driver.TheVariants.{Slot};
ghost use Rattle.vme_model.specs.Readings.{readings};
ghost use Rattle.vme_wiring.specs.Boards.{OfParts};
ghost use Rattle.vme_wiring.specs.Asked.{seen_by, read_by};
ghost use Rattle.vme_histories.specs.Shown.{is_access_to};
ghost use Rattle.vme_wiring.specs.Waits.{is_unserved};
ghost use Rattle.vme_wiring.specs.declared.wirings.Wiring.{Wiring as WiringValue};

use crate::boards::Board;
use crate::places::{Placed, is_interrupter_quiet, is_master_quiet, is_requester_quiet};
use crate::wirings::Wiring;
use vme_histories::Waiting;
use vme_model::{Cycle, Driver};

/// Whether an access to the slot is shown.
fn is_access_to(slot: u8, shown: Option<Cycle>) -> bool
    ensures { result ≡ is_access_to slot shown }
{
    match shown {
        Some(Cycle::Access(target)) => slot == target,
        _ => false,
    }
}

/// Whether the board's interrupter, if it has one, requests and has not been served.
fn is_unserved(board: &Board) -> bool
    ensures { OfParts board.now (λ _ _ _ _. (w : WiringValue)
        → result ≡ is_unserved (read_by w board.now) board.now.row) }
{
    match board.row.interrupter {
        Some(interrupter) => board.interrupter.is_pending(interrupter.level),
        None => true,
    }
}

impl Wiring {
    ghost use Rattle.vme_wiring.specs.Wired.{OfHistory, OfPlaced};
    ghost use Rattle.vme_wiring.specs.Boards.{low_of};
    ghost use Rattle.vme_wiring.specs.Chained.{grant_in, iack_in};
    ghost use Rattle.vme_histories.specs.Offered.{offered_but_full};
    ghost use Rattle.vme_wiring.specs.Waits.{is_quiet, is_ungranted, is_unaddressed, is_left_alone, is_waiting};
    ghost use Rattle.vme_wiring.specs.Waits.{waits_for_bus, waits_for_cycle, waits_for_grant, requester_waits, master_waits, interrupter_waits};

    /// Whether the board's requester, if it has one, may not withdraw, and no grant has reached it.
    #[inline(always)]
    fn is_ungranted(&self, board: &Board) -> bool
        ensures { result ≡ is_ungranted self.now.version
            (grant_in self.now.chains board.now.row) board.now.row }
    {
        match board.row.requester {
            Some(_) => !self.version.is_two() && !self.chains.grant_in(&board.row),
            None => true,
        }
    }

    /// Whether no access to the board is shown, and no acknowledge has reached its interrupter, if
    /// it has one.
    #[inline(always)]
    fn is_unaddressed(&self, board: &Board) -> bool
        ensures { result ≡ is_unaddressed self.now.shared.shown
            (iack_in self.now.chains board.now.row) board.now.row }
    {
        !is_access_to(board.row.slot, self.shared.shown)
            && match board.row.interrupter {
                Some(_) => !self.chains.iack_in(&board.row),
                None => true,
            }
    }

    /// Whether the board's requester, if it has one, waits for its grant.
    fn waits_for_grant(&self, board: &Board) -> bool
        ensures { result
            ≡ waits_for_grant self.now.version (read_by self.now board.now) board.now.row }
    {
        is_requester_quiet(board) && self.is_ungranted(board)
    }

    /// Whether the board has nothing to answer or to pass on.
    fn waits_for_cycle(&self, board: &Board) -> bool
        ensures { result ≡ waits_for_cycle (read_by self.now board.now) board.now.row }
    {
        is_interrupter_quiet(board) && self.is_unaddressed(board)
    }

    /// Whether the board has nothing to answer or to pass on, and its interrupter, if it has one,
    /// waits to be served.
    #[inline(always)]
    fn is_interrupter_waiting(&self, board: &Board) -> bool
        ensures { OfPlaced self.now board.now (λ _ p h s. result
            ≡ (waits_for_cycle (readings p h (Slot s)) board.now.row
            && is_unserved (readings p h (Slot s)) board.now.row)) }
    {
        self.waits_for_cycle(board) && is_unserved(board)
    }

    /// Which parts of a board wait.
    #[inline(always)]
    fn waiting_parts(&self, board: &Board) -> Waiting
        ensures requester { OfPlaced self.now board.now (λ version p h s. result.requester
            ≡ waits_for_grant version (readings p h (Slot s)) board.now.row) }
        ensures master { OfPlaced self.now board.now (λ _ p h s. result.master
            ≡ waits_for_bus (readings p h (Slot s))) }
        ensures interrupter { OfPlaced self.now board.now (λ _ p h s. result.interrupter
            ≡ (waits_for_cycle (readings p h (Slot s)) board.now.row
            && is_unserved (readings p h (Slot s)) board.now.row)) }
    {
        Waiting {
            requester: self.waits_for_grant(board),
            master: is_master_quiet(board),
            interrupter: self.is_interrupter_waiting(board),
        }
    }

    /// Which parts of a slot's board wait. All of them do if there is no board.
    #[inline(always)]
    pub(crate) fn waiting(&self, slot: u8) -> Waiting
        ensures requester { OfHistory self.now (λ version p h.
            result.requester ≡ requester_waits version p h slot) }
        ensures master { OfHistory self.now (λ _ p h. result.master ≡ master_waits p h slot) }
        ensures interrupter { OfHistory self.now (λ _ p h.
            result.interrupter ≡ interrupter_waits p h slot) }
    {
        match self.board(slot) {
            Some(board) => self.waiting_parts(board),
            None => Waiting {
                requester: true,
                master: true,
                interrupter: true,
            },
        }
    }

    /// Whether nothing has reached the board that it could answer or pass on.
    #[inline(always)]
    fn is_left_alone(&self, board: &Board) -> bool
        ensures { result ≡ is_left_alone self.now.version
            (seen_by self.now.chains self.now.shared board.now.row) board.now.row }
    {
        self.is_ungranted(board) && self.is_unaddressed(board)
    }

    /// Whether the board is quiet and left alone. If so, its requester and its master wait, and it
    /// has nothing to answer. This holds for most boards in most turns.
    #[inline(always)]
    fn is_board_waiting(&self, placed: &Placed) -> bool
        ensures { result ≡ (is_quiet (low_of placed.now) placed.now.row
            && is_left_alone self.now.version
            (seen_by self.now.chains self.now.shared placed.now.row) placed.now.row) }
    {
        placed.is_quiet() && self.is_left_alone(placed.board())
    }

    /// Whether the driver waits for an edge of another driver. It does if each part of its board
    /// waits: the requester for a grant, the master for the bus, and the rest for a cycle. The
    /// rules then allow none of the edges that are considered for it. Source: profile.
    ///
    /// The call reads only a few fields. If it answers false, `offers` may still be empty.
    pub fn is_waiting(&self, driver: Driver) -> bool
        ensures waits { OfHistory self.now (λ version p h. result ≡ is_waiting version p h driver) }
        ensures none { OfHistory self.now (λ version p h. result ≡ true
            → offered_but_full version p h driver ≡ []) }
    {
        match driver {
            Driver::Controller => false,
            Driver::Slot(slot) => match self.placed(slot) {
                Some(placed) => self.is_board_waiting(placed) && is_unserved(placed.board()),
                None => true,
            },
        }
    }
}
