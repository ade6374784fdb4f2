//! The parts of the board that an edge's driver stands on.
ghost use Rattle.std.specs.Prelude.{◌≡◌, Some, true};
ghost use Rattle.vme_model.specs.declared.boards.Row.{Row as RowValue};
ghost use Rattle.vme_model.specs.Plan.{board_of, interrupts_on};
ghost use Rattle.vme_model.specs.Witnesses.{requester_of, interrupter_of};
ghost use Rattle.vme_explain.specs.Witnessed.{is_driver};

use vme_bus::Bus;
use vme_model::{Driver, InterrupterRow, RequesterRow, Row};

/// The board that a driver stands on; none for the controller.
pub(crate) fn board_of(bus: &Bus, driver: Driver) -> Option<Row>
    ensures row { result ≡ board_of bus.now.plan driver }
    ensures slot { (r : RowValue) → result ≡ Some r → is_driver driver ≡ true }
{
    bus.plan().accepted();
    match driver {
        Driver::Controller => None,
        Driver::Slot(slot) => bus.plan().row(slot).copied(),
    }
}

/// Its requester.
pub(crate) fn requester_of(bus: &Bus, driver: Driver) -> Option<RequesterRow>
    ensures { result ≡ requester_of bus.now driver }
{
    board_of(bus, driver)?.requester
}

/// Its interrupter.
pub(crate) fn interrupter_of(bus: &Bus, driver: Driver) -> Option<InterrupterRow>
    ensures { result ≡ interrupter_of bus.now driver }
{
    board_of(bus, driver)?.interrupter
}

/// Whether the board has an interrupter on that level.
pub(crate) fn interrupts_on(row: &Row, level: u8) -> bool
    ensures { result ≡ interrupts_on level row.now }
{
    matches!(row.interrupter, Some(interrupter) if interrupter.level == level)
}
