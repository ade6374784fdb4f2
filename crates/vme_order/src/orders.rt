//! Reading moments, finding an order of their edges, and writing it.
ghost use Rattle.std.specs.Prelude.{◌≡◌, ◌<◌, All, IfErr, IsTrue, MatchOption, OnErr, OnOk, length};
ghost use Rattle.std.specs.Io.KnownBytes.{Appends};
ghost use Rattle.vme_model.specs.Signals.{is_well_formed};
ghost use Rattle.vme_trace.specs.Writing.{AppendsFront};
ghost use Rattle.vme_reading.specs.Streams.{ReadNothing, WroteNothing, streams};
ghost use Rattle.vme_order.specs.Ordering.{IsFirstEmpty, LentText, NamesBoards, OrdersInput, found_text, status_of};
ghost use Rattle.vme_order.specs.Faults.{engine_fault, moments_fault, output_fault, search_fault};

use crate::lines::{write_edges, write_head};
use crate::{Form, OrderingFault};
use std::alloc::Global;
use std::io::{Read, Write};
use vme_bus::Bus;
use vme_model::Driver;
use vme_moments::{Moments, MomentsFault, Slacks, read_moments};
use vme_order_search::{Found, OrderFault, OrderProgress, longest};
use vme_reading::{EngineFault, Status, plan_of};
use vme_slots::Plan;
use vme_trace::{Fault, flush};

impl From<EngineFault> for OrderingFault {
    ghost from_gives = { λ fault given. given ≡ engine_fault fault };

    fn from(fault: EngineFault) -> Self {
        OrderingFault::Engine(fault)
    }
}

impl From<MomentsFault> for OrderingFault {
    ghost from_gives = { λ fault given. given ≡ moments_fault fault };

    fn from(fault: MomentsFault) -> Self {
        OrderingFault::Moments(fault)
    }
}

impl From<OrderFault> for OrderingFault {
    ghost from_gives = { λ fault given. given ≡ search_fault fault };

    fn from(fault: OrderFault) -> Self {
        match fault {
            OrderFault::TooManyOrders => OrderingFault::TooManyOrders,
            OrderFault::NoMemory => OrderingFault::Engine(EngineFault::NoMemory),
        }
    }
}

impl From<Fault> for OrderingFault {
    ghost from_gives = { λ fault given. given ≡ output_fault fault };

    fn from(fault: Fault) -> Self {
        OrderingFault::Engine(EngineFault::Trace(fault))
    }
}

/// The first slot that is named with a slack of its own and has no board.
fn first_empty(plan: &Plan, slacks: &Slacks) -> Option<u8>
    ensures { MatchOption result (NamesBoards slacks.now plan.now)
        (IsFirstEmpty slacks.now plan.now) }
{
    for slot in 0..22u8 {
        if slacks.names(Driver::Slot(slot)) && !plan.has_board(slot) {
            return Some(slot);
        }
    }
    None
}

/// The status if this was found.
fn status_of(moments: &Moments, found: &Found) -> Status
    ensures { result ≡ status_of moments.now.seen.items found.now.order.items }
{
    if found.order.len() == moments.seen.len() {
        Status::Done
    } else {
        Status::SomeRefused
    }
}

/// Writes what was found on a plan.
///
/// # Errors
/// X8 if that failed; a prefix of the text was written then.
fn write<W: Write>(
    form: Form,
    plan: Plan,
    moments: &Moments,
    found: &Found,
    out: &mut W,
) -> Result<(), Fault>
    requires formed { All (λ s. IsTrue (is_well_formed s.edge)) moments.now.seen.items }
    requires order { All (λ p. p < length moments.now.seen.items) found.now.order.items }
    requires next { All (λ p. p < length moments.now.seen.items) found.now.next.items }
    ensures ok { OnOk result (Appends (W.contents out.old) (W.contents out.new)
        (found_text form moments.now.version plan moments.now.seen.items
        found.now.order.items found.now.next.items)) }
    ensures front { OnErr result (AppendsFront (W.contents out.old) (W.contents out.new)
        (found_text form moments.now.version plan moments.now.seen.items
        found.now.order.items found.now.next.items)) }
    ensures fault { IfErr result (λ fault. fault ≡ Fault.Write) }
{
    let bus = &mut Bus::new(plan, moments.version);
    let made = found.order.len();
    write_head(form, moments.version, out)?;
    write_edges(form, bus, 0, &moments.seen, &found.order, out)?;
    write_edges(form, bus, made, &moments.seen, &found.next, out)?;
    flush(out)
}

/// Finds the first order of the edges that the rules allow, on a plan, and writes it.
fn order_on<R: Read, W: Write, P: OrderProgress>(
    alloc: Global,
    plan: Plan,
    moments: &mut R,
    slacks: &Slacks,
    form: Form,
    out: &mut W,
    progress: &mut P,
) -> Result<Status, OrderingFault>
    requires { NamesBoards slacks.now plan }
    ensures { OrdersInput form slacks.now
        (streams (R.remaining moments.old) (R.remaining moments.new)
        (W.contents out.old) (W.contents out.new)) plan result }
{
    let moments = read_moments(alloc, moments)?;
    let found = longest(
        alloc,
        &plan,
        moments.version,
        &moments.seen,
        slacks,
        progress,
    )?;
    write(form, plan, &moments, &found, out)?;
    Ok(status_of(&moments, &found))
}

/// Finds the first order of the edges that the rules allow, on the plan of a scenario, and writes
/// it.
///
/// The status is `Done` if there is one. Otherwise it writes the longest legal beginning, and of
/// several the least, and after it the edges that could come next, each of which is refused there.
/// The status is `SomeRefused` then. `progress` hears how far the search came.
///
/// # Errors
/// F2 and the faults of the scenario; a slot that has a slack of its own and no board; the faults
/// of the moments, which are read to their end; F5 and F3. In these cases nothing is written. X8 if
/// the output cannot be written; a prefix of the text was written then.
pub fn order<R: Read, W: Write, P: OrderProgress>(
    alloc: Global,
    scenario: &[u8],
    moments: &mut R,
    slacks: &Slacks,
    form: Form,
    out: &mut W,
    progress: &mut P,
) -> Result<Status, OrderingFault>
    ensures { let s = streams (R.remaining moments.old) (R.remaining moments.new)
        (W.contents out.old) (W.contents out.new) in
        LentText scenario.now (ReadNothing s × WroteNothing s) (OrdersInput form slacks.now s)
        result }
{
    let plan = plan_of(alloc, scenario)?;
    if let Some(slot) = first_empty(&plan, slacks) {
        return Err(OrderingFault::NoBoard(slot));
    }
    order_on(alloc, plan, moments, slacks, form, out, progress)
}
