//! A board in its place, with what each of its edges changes and every turn asks for.
ghost use Rattle.std.specs.Prelude.{◌≡◌, ◌&&◌, ◌∷◌, [], true};
ghost use Rattle.vme_model.specs.Plan.{Plan};
ghost use Rattle.vme_model.specs.History.{shown as shown_after};
ghost use Rattle.vme_wiring.specs.Boards.{OfParts, parts_of, low_of};
ghost use Rattle.vme_wiring.specs.Waits.{is_quiet, is_requester_quiet, is_master_quiet, is_interrupter_quiet};

use crate::boards::Board;
use std::marker::Model;
use vme_model::{Cycle, Edge, Row, Version, Wire};

/// Whether the board's requester, if it has one, requests the bus, passes no grant on and does not
/// hold the bus. Source: Std 1014, chapter 3.
#[inline(always)]
pub fn is_requester_quiet(board: &Board) -> bool
    ensures { result ≡ is_requester_quiet (low_of board.now) board.now.row }
{
    match board.row.requester {
        Some(_) => {
            board.is_low(Wire::Br) && !board.is_low(Wire::BgOut) && !board.is_low(Wire::Bbsy)
        }
        None => true,
    }
}

/// Whether the board does not hold the bus, its address group is off and its strobes are high.
/// Source: Std 1014, chapters 2 and 3.
#[inline(always)]
pub fn is_master_quiet(board: &Board) -> bool
    ensures { result ≡ is_master_quiet (low_of board.now) }
{
    !board.is_low(Wire::Bbsy)
        && !board.is_low(Wire::Addr)
        && !board.is_low(Wire::AddressStrobe)
        && !board.is_low(Wire::DataStrobe)
}

/// Whether the board answers nothing, and its interrupter, if it has one, passes no acknowledge on.
/// Source: Std 1014, chapters 2 and 4.
#[inline(always)]
pub fn is_interrupter_quiet(board: &Board) -> bool
    ensures { result ≡ is_interrupter_quiet (low_of board.now) board.now.row }
{
    !board.is_low(Wire::Dtack)
        && match board.row.interrupter {
            Some(_) => !board.is_low(Wire::IackOut),
            None => true,
        }
}

/// Whether none of the board's own wires keeps it from waiting.
#[inline(always)]
fn is_quiet(board: &Board) -> bool
    ensures { result ≡ is_quiet (low_of board.now) board.now.row }
{
    is_requester_quiet(board) && is_master_quiet(board) && is_interrupter_quiet(board)
}

/// A board, and whether it is quiet: none of its own wires keeps it from waiting.
///
/// A clause sees it as its board.
#[derive(Clone, Copy)]
pub struct Placed {
    board: Board,
    quiet: bool,
}

impl Model for Placed {
    ghost use Rattle.std.specs.Prelude.{◌≡◌};
    ghost use Rattle.std.proofs.Common.{sym};
    ghost use Rattle.vme_wiring.specs.declared.boards.Board.{Board as BoardValue};
    ghost use Rattle.vme_wiring.specs.Boards.{low_of};
    ghost use Rattle.vme_wiring.specs.Waits.{is_quiet};

    ghost Value = { BoardValue };

    ghost view = { λ x. x.board };

    ghost invariant = { λ x. x.quiet ≡ is_quiet (low_of x.board) x.board.row };

    ghost inverse = { λ b. record { board = b; quiet = is_quiet (low_of b) b.row } };

    ghost inverse_ok = { λ x h i. record { board = x.board; quiet = sym h i } };
}

impl Placed {
    /// The board of a row, before any edge.
    pub fn new(row: Row, version: Version) -> Placed
        ensures { (p : Plan) → result ≡ parts_of version p [] row }
    {
        let board = Board::new(row, version);
        let quiet = is_quiet(&board);
        Placed { board, quiet }
    }

    /// The board that stands there.
    #[inline(always)]
    pub fn board(&self) -> &Board
        ensures { result.now ≡ self.now }
    {
        &self.board
    }

    /// Whether none of the board's own wires keeps it from waiting.
    #[inline(always)]
    pub fn is_quiet(&self) -> bool
        ensures { result ≡ is_quiet (low_of self.now) self.now.row }
    {
        self.quiet
    }

    /// Takes in an edge of the board, given what was shown just before it.
    #[inline(always)]
    pub fn note(&mut self, edge: Edge, shown: Option<Cycle>)
        ensures { OfParts self.old (λ version p h r. shown ≡ shown_after p h
            → self.new ≡ parts_of version p (edge ∷ h) r) }
    {
        self.board.note(edge, shown);
        self.quiet = is_quiet(&self.board);
    }
}
