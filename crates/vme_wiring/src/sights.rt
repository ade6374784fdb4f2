//! What a driver sees of a wiring, and what an edge delivers.
ghost use Rattle.std.specs.Prelude.{◌≡◌};
ghost use Rattle.std.specs.Option.{option_copied};
ghost use Rattle.vme_model.specs.Plan.{board_of};
ghost use Rattle.vme_model.specs.Views.{pins};
ghost use Rattle.vme_model.specs.Deliveries.{delivery, delivered_by};
ghost use Rattle.vme_wiring.specs.Asked.{seen_by};

use crate::boards::Board;
use crate::wirings::Wiring;
use vme_histories::delivered_by;
use vme_model::{Delivery, Driver, Edge, Pins, Row, Wire};

impl Wiring {
    ghost use Rattle.vme_wiring.specs.Wired.{OfHistory};

    /// What a board reads on its pins.
    pub(crate) fn pins_at(&self, board: &Board) -> Pins
        ensures { result ≡ seen_by self.now.chains self.now.shared board.now.row }
    {
        let mut pins = self.shared;
        pins.grant_in = self.chains.grant_in(&board.row);
        pins.iack_in = self.chains.iack_in(&board.row);
        pins
    }

    /// What a driver reads on its pins. Source: profile.
    pub fn pins(&self, driver: Driver) -> Pins
        ensures { OfHistory self.now (λ _ p h. result ≡ pins p h driver) }
    {
        match driver {
            Driver::Controller => self.shared,
            Driver::Slot(slot) => match self.board(slot) {
                Some(board) => self.pins_at(board),
                None => self.shared,
            },
        }
    }

    /// The row of the driver's board; none for the controller, and for a slot without a board.
    fn row(&self, driver: Driver) -> Option<&Row>
        ensures { OfHistory self.now (λ _ p _. option_copied result ≡ board_of p driver) }
    {
        match driver {
            Driver::Controller => None,
            Driver::Slot(slot) => match self.board(slot) {
                Some(board) => Some(&board.row),
                None => None,
            },
        }
    }

    /// What an edge delivers, if it delivers. Source: Std 1014, chapter 4.
    #[inline(always)]
    pub fn delivery(&self, edge: Edge) -> Option<Delivery>
        ensures { OfHistory self.now (λ _ p h. result ≡ delivery p h edge) }
    {
        if !(edge.fall && edge.wire.is_same(Wire::Dtack)) {
            return None;
        }
        delivered_by(self.shared.shown, self.addressing, self.row(edge.driver))
    }
}
