//! Reading moments, finding an order of their edges, and writing it.
ghost use Rattle.std.specs.Prelude.{◌≡◌};
ghost use Rattle.vme_engines.specs.Streams.{ReadNothing, WroteNothing, streams};
ghost use Rattle.vme_ordering.specs.Ordering.{LentText, OrdersInput};

use crate::lines::{write_edges, write_head};
use crate::{Form, OrderingFault};
use std::alloc::Global;
use std::io::{Read, Write};
use vme_engines::{EngineFault, Status, plan_of};
use vme_moments::{Moments, Slacks, read_moments};
use vme_order::{OrderFault, longest, next_places};
use vme_slots::Plan;
use vme_trace::{Fault, flush};

impl From<EngineFault> for OrderingFault {
    ghost from_gives = { λ fault given. given ≡ OrderingFault.Engine fault };

    fn from(fault: EngineFault) -> Self {
        OrderingFault::Engine(fault)
    }
}

/// The fault of a search, as users see it.
fn fault_of(fault: OrderFault) -> OrderingFault {
    match fault {
        OrderFault::TooManyOrders => OrderingFault::TooManyOrders,
        OrderFault::NoMemory => OrderingFault::Engine(EngineFault::NoMemory),
    }
}

/// The first slot without a board whose board is named with a slack.
fn unknown_slot(plan: &Plan, slacks: &Slacks) -> Option<u8> {
    for slot in 1..22u8 {
        if slacks.names(slot) && !plan.has_board(slot) {
            return Some(slot);
        }
    }
    None
}

/// The places of the longest legal beginning, and those that can come next after it.
#[derive(Drop)]
struct Found {
    order: Vec<u32>,
    next: Vec<u32>,
}

impl Found {
    /// The status of what was found.
    fn status(&self) -> Status {
        if self.next.is_empty() {
            Status::Done
        } else {
            Status::SomeRefused
        }
    }
}

/// Finds the longest legal beginning, and what can come next after it.
fn find(
    alloc: Global,
    plan: &Plan,
    moments: &Moments,
    slacks: &Slacks,
) -> Result<Found, OrderFault> {
    let order = longest(alloc, plan, moments.version, &moments.seen, slacks)?;
    let next = next_places(alloc, &moments.seen, slacks, &order)?;
    Ok(Found { order, next })
}

/// Writes what was found.
fn write<W: Write>(
    form: Form,
    moments: &Moments,
    found: &Found,
    out: &mut W,
) -> Result<(), Fault> {
    write_head(form, moments.version, out)?;
    write_edges(form, 0, &moments.seen, &found.order, out)?;
    write_edges(form, found.order.len(), &moments.seen, &found.next, out)?;
    flush(out)
}

/// Finds the first order of the edges that the rules allow, on the plan of a scenario, and writes it.
///
/// The status is `Done` where there is one. Where there is none, it writes the longest legal
/// beginning, and of those of its length the least, and after it the edges that could come next, each
/// of which is refused there; the status is `SomeRefused`.
///
/// Errors: F2, the faults of the scenario and F3; those of the moments, read to their end; F5. At
/// these nothing is written. X8 where the output cannot be written.
pub fn order<R: Read, W: Write>(
    alloc: Global,
    scenario: &[u8],
    moments: &mut R,
    slacks: &Slacks,
    form: Form,
    out: &mut W,
) -> Result<Status, OrderingFault>
    ensures { let s = streams (R.remaining moments.old) (R.remaining moments.new)
        (W.contents out.old) (W.contents out.new) in
        LentText scenario.now (ReadNothing s × WroteNothing s) (OrdersInput form slacks.now s)
        result }
{
    let plan = plan_of(alloc, scenario)?;
    match unknown_slot(&plan, slacks) {
        Some(slot) => return Err(OrderingFault::NoBoard(slot)),
        None => {}
    }
    let moments = match read_moments(alloc, moments) {
        Ok(moments) => moments,
        Err(fault) => return Err(OrderingFault::Moments(fault)),
    };
    let found = match find(alloc, &plan, &moments, slacks) {
        Ok(found) => found,
        Err(fault) => return Err(fault_of(fault)),
    };
    match write(form, &moments, &found, out) {
        Ok(()) => Ok(found.status()),
        Err(fault) => Err(OrderingFault::Engine(EngineFault::Trace(fault))),
    }
}
