//! What no clause says: that a region, a plan, a trace and the list of what was delivered are made
//! if there is memory for them.
use crate::boards::{FIRST, SECOND, fall, interrupter, requester, rise};
use std::test::*;
use vme_arena::Region;
use vme_backplane::{Backplane, Trace};
use vme_model::{ArbiterKind, Cycle, Delivery, Driver, Edge, Levels, Row, Version, Wire};
use vme_slots::Plan;

const CONTROLLER: Driver = Driver::Controller;

/// A request on level 4 is acknowledged and answered.
fn answered() -> [Edge; 11] {
    let acknowledge = Edge {
        value: Some(Cycle::Acknowledge(4)),
        ..fall(FIRST, Wire::Addr)
    };
    [
        fall(SECOND, Wire::Irq),
        fall(FIRST, Wire::Br),
        fall(CONTROLLER, Wire::Bg(3)),
        fall(FIRST, Wire::Bbsy),
        rise(FIRST, Wire::Br),
        rise(CONTROLLER, Wire::Bg(3)),
        acknowledge,
        fall(FIRST, Wire::AddressStrobe),
        fall(FIRST, Wire::DataStrobe),
        fall(CONTROLLER, Wire::Iack),
        fall(SECOND, Wire::Dtack),
    ]
}

const FROM_THE_SECOND: Delivery = Delivery {
    handler: 1,
    level: 4,
    answered_by: 2,
    status: 65,
};

/// A master that handles level 4.
fn handler() -> Row {
    Row {
        handler: Levels::IRQ4,
        ..requester(1, 3, 2)
    }
}

/// `acceptance/failing-calls` refuses each of this test's calls for memory in turn.
#[test]
fn a_status_is_delivered_once(rt: HostRuntime) -> Result<(), Fail> {
    let mut region = Region::new(rt.alloc(), Trace::bytes(100))?;
    let rows = [handler(), interrupter(2, 4, 65)];
    let plan = Plan::new(rt.alloc(), 3, &rows, &[], ArbiterKind::Sgl)?;
    let trace = Trace::on(rt.alloc(), &mut region.rest(), 100)?;
    let mut backplane = Backplane::new(plan, trace, Version::One);
    backplane.run(&answered());
    assert!(rt; backplane.deliveries(rt.alloc())?.as_slice() == [FROM_THE_SECOND].as_slice());
    Ok(())
}
