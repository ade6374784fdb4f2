//! The one reading of two traces side by side: a judge takes the edges of both piece by piece.
ghost use Rattle.std.specs.Prelude.{◌≡◌, ◌⊎◌, ◌+◌, ◌<◌, ◌^◌, ◌++◌, ℕ, List, [], Option, None, Bool, Ok, Err, true, false, not, length, OnOk, IfOk, IfErr};
ghost use Rattle.vme_model.specs.declared.signals.Edge.{Edge as EdgeValue};
ghost use Rattle.vme_model.specs.declared.signals.Version.{Version as VersionValue};
ghost use Rattle.vme_model.specs.Plan.{Plan as PlanValue};
ghost use Rattle.vme_model.specs.Locality.{AreWellFormed};
ghost use Rattle.vme_reading.specs.Begun.{HasCome, IsUntouched};
ghost use Rattle.vme_reading.specs.Streams.{Streams, streams, ReadNothing};
ghost use Rattle.vme_reading.specs.Pairs.{EitherMeets, LentPair, MeetsFault, ReadsPair};
ghost use Rattle.vme_reading.specs.Sides.{AreUnderWay, goes_on, next_turn};
ghost use Rattle.vme_reading.specs.Steps.{piece_size};

use crate::EngineFault;
use crate::pieces::buffer_of;
use crate::plans::plan_of;
use crate::traces::Input;
use std::alloc::Global;
use std::io::Read;
use thiserror::Error;
use vme_model::{Edge, Version};
use vme_slots::Plan;
use vme_trace::Fault;

/// What a command does with the edges of two traces that are read side by side.
pub trait Pair: Drop {
    /// What is asked of it.
    type Task;

    /// How many edges of the first trace it took.
    ghost first_count: { Self → ℕ };

    /// How many edges of the second trace it took.
    ghost second_count: { Self → ℕ };

    /// It was asked this, began on a plan for two traces of these versions, and took these edges of
    /// the first since and these of the second; whether it has learnt that each has ended.
    ghost stands: { Self.Task → PlanValue → VersionValue → VersionValue → List EdgeValue → Bool
        → List EdgeValue → Bool → Self → Type 0 };

    /// Begins on a plan for two traces of these versions, before their first edges.
    fn begin(task: &Self::Task, plan: Plan, first: Version, second: Version) -> Self
        ensures first_count { first_count result ≡ 0 }
        ensures second_count { second_count result ≡ 0 }
        ensures stands { stands task.now plan first second [] false [] false result };

    /// Whether further edges of the first trace are to come before further ones of the second.
    ///
    /// The answer decides how many edges it has to keep, and nothing else. The first piece of
    /// either trace comes unasked.
    fn wants_first(&self) -> bool;

    /// Takes the next edges of the first trace. X6 is its only fault.
    fn take_first(&mut self, edges: &[Edge]) -> Result<(), Fault>
        requires count { first_count self.old + length edges.now < 2 ^ 64 }
        requires well_formed { AreWellFormed edges.now }
        ensures first_count { OnOk result
            (first_count self.new ≡ first_count self.old + length edges.now) }
        ensures second_count { OnOk result (second_count self.new ≡ second_count self.old) }
        ensures takes { OnOk result ((task : Self.Task) (p : PlanValue) (v : VersionValue)
            (w : VersionValue) (es : List EdgeValue) (fs : List EdgeValue) (over : Bool)
            → stands task p v w es false fs over self.old
            → stands task p v w (es ++ edges.now) false fs over self.new) }
        ensures fault { IfErr result (λ fault. fault ≡ Fault.Memory) };

    /// Takes the next edges of the second trace. X6 is its only fault.
    fn take_second(&mut self, edges: &[Edge]) -> Result<(), Fault>
        requires count { second_count self.old + length edges.now < 2 ^ 64 }
        requires well_formed { AreWellFormed edges.now }
        ensures first_count { OnOk result (first_count self.new ≡ first_count self.old) }
        ensures second_count { OnOk result
            (second_count self.new ≡ second_count self.old + length edges.now) }
        ensures takes { OnOk result ((task : Self.Task) (p : PlanValue) (v : VersionValue)
            (w : VersionValue) (es : List EdgeValue) (ended : Bool) (fs : List EdgeValue)
            → stands task p v w es ended fs false self.old
            → stands task p v w es ended (fs ++ edges.now) false self.new) }
        ensures fault { IfErr result (λ fault. fault ≡ Fault.Memory) };

    /// Learns that the first trace has ended, without a fault.
    fn end_first(&mut self)
        ensures first_count { first_count self.new ≡ first_count self.old }
        ensures second_count { second_count self.new ≡ second_count self.old }
        ensures ends { (task : Self.Task) (p : PlanValue) (v : VersionValue) (w : VersionValue)
            (es : List EdgeValue) (fs : List EdgeValue) (over : Bool)
            → stands task p v w es false fs over self.old
            → stands task p v w es true fs over self.new };

    /// Learns that the second trace has ended, without a fault.
    fn end_second(&mut self)
        ensures first_count { first_count self.new ≡ first_count self.old }
        ensures second_count { second_count self.new ≡ second_count self.old }
        ensures ends { (task : Self.Task) (p : PlanValue) (v : VersionValue) (w : VersionValue)
            (es : List EdgeValue) (ended : Bool) (fs : List EdgeValue)
            → stands task p v w es ended fs false self.old
            → stands task p v w es ended fs true self.new };
}

/// Why two traces could not be read.
#[derive(PartialEq, Eq, Debug, Drop, Error)]
pub enum PairFault {
    /// There is no plan, or no memory, and nothing was read.
    #[error("{0}")]
    Engine(EngineFault),
    /// The first trace has a fault, or could not be read.
    #[error("{0}")]
    First(Fault),
    /// The second trace has a fault, or could not be read; the first is whole.
    #[error("{0}")]
    Second(Fault),
}

/// Which trace is read next.
#[derive(Clone, Copy)]
pub(crate) enum Turn {
    First,
    Second,
}

/// Which of two traces is read next: the first, if it is wanted or the second has ended.
fn turn_of(is_wanted: bool, first_goes_on: bool, second_goes_on: bool) -> Option<Turn>
    ensures { result ≡ next_turn is_wanted first_goes_on second_goes_on }
{
    if first_goes_on && (is_wanted || !second_goes_on) {
        return Some(Turn::First);
    }
    if second_goes_on {
        return Some(Turn::Second);
    }
    None
}

/// Hands the last piece of the first trace to a judge, and whether the trace ends with it.
///
/// # Errors
/// What the read of the piece answered; X6.
fn hand_first<J: Pair>(judge: &mut J, input: &Input) -> Result<(), Fault>
    requires count { J.first_count judge.old + length input.now.edges.items < 2 ^ 64 }
    requires well_formed { AreWellFormed input.now.edges.items }
    ensures unfaulted { OnOk result (input.now.more ≡ Ok (goes_on input.now.more)) }
    ensures first_count { OnOk result
        (J.first_count judge.new ≡ J.first_count judge.old + length input.now.edges.items) }
    ensures second_count { OnOk result (J.second_count judge.new ≡ J.second_count judge.old) }
    ensures takes { OnOk result ((task : J.Task) (p : PlanValue) (v : VersionValue)
        (w : VersionValue) (es : List EdgeValue) (fs : List EdgeValue) (over : Bool)
        → J.stands task p v w es false fs over judge.old
        → J.stands task p v w (es ++ input.now.edges.items) (not (goes_on input.now.more)) fs
        over judge.new) }
    ensures fault { IfErr result (λ fault.
        (input.now.more ≡ Err fault) ⊎ (fault ≡ Fault.Memory)) }
{
    let more = input.more?;
    judge.take_first(&input.edges)?;
    if !more {
        judge.end_first();
    }
    Ok(())
}

/// Hands the last piece of the second trace to a judge, and whether the trace ends with it.
///
/// # Errors
/// What the read of the piece answered; X6.
fn hand_second<J: Pair>(judge: &mut J, input: &Input) -> Result<(), Fault>
    requires count { J.second_count judge.old + length input.now.edges.items < 2 ^ 64 }
    requires well_formed { AreWellFormed input.now.edges.items }
    ensures unfaulted { OnOk result (input.now.more ≡ Ok (goes_on input.now.more)) }
    ensures first_count { OnOk result (J.first_count judge.new ≡ J.first_count judge.old) }
    ensures second_count { OnOk result
        (J.second_count judge.new ≡ J.second_count judge.old + length input.now.edges.items) }
    ensures takes { OnOk result ((task : J.Task) (p : PlanValue) (v : VersionValue)
        (w : VersionValue) (es : List EdgeValue) (ended : Bool) (fs : List EdgeValue)
        → J.stands task p v w es ended fs false judge.old
        → J.stands task p v w es ended (fs ++ input.now.edges.items)
        (not (goes_on input.now.more)) judge.new) }
    ensures fault { IfErr result (λ fault.
        (input.now.more ≡ Err fault) ⊎ (fault ≡ Fault.Memory)) }
{
    let has_more = input.more?;
    judge.take_second(&input.edges)?;
    if !has_more {
        judge.end_second();
    }
    Ok(())
}

/// The fault that is reported if the second trace has this one. The first is read to its end, and
/// its own fault comes before.
fn reported_fault<A: Read>(
    fault: Fault,
    input: &mut Input,
    buffer: &mut [u8],
    first: &mut A,
) -> PairFault
    requires room { length buffer.old ≡ piece_size }
    ensures { (from : Option (List ℕ)) (v : VersionValue) (es : List EdgeValue) (t : Streams)
        → HasCome from (A.remaining first.old) v es input.old → MeetsFault t fault
        → EitherMeets (streams from (A.remaining first.new) None None) t result }
{
    match input.read_out(buffer, first) {
        Ok(()) => PairFault::Second(fault),
        Err(earlier) => PairFault::First(earlier),
    }
}

/// Reads two traces up to their header lines, and hands the edges that came with these to a judge.
fn begin_both<J: Pair, A: Read, B: Read>(
    task: &J::Task,
    plan: Plan,
    buffer: &mut [u8],
    one: &mut Input,
    first: &mut A,
    other: &mut Input,
    second: &mut B,
) -> Result<J, PairFault>
    requires room { length buffer.old ≡ piece_size }
    requires one { IsUntouched one.old }
    requires other { IsUntouched other.old }
    ensures begun { IfOk result (λ judge.
        let s = streams (A.remaining first.old) (A.remaining first.new) None None in
        let t = streams (B.remaining second.old) (B.remaining second.new) None None in
        AreUnderWay (J.stands task.now plan) J.first_count J.second_count
        s t one.new other.new judge) }
    ensures fault { IfErr result (λ fault.
        let s = streams (A.remaining first.old) (A.remaining first.new) None None in
        let t = streams (B.remaining second.old) (B.remaining second.new) None None in
        EitherMeets s t fault) }
{
    let version = match one.begin(buffer, first) {
        Ok(version) => version,
        Err(fault) => return Err(PairFault::First(fault)),
    };
    let named = match other.begin(buffer, second) {
        Ok(named) => named,
        Err(fault) => return Err(reported_fault(fault, one, buffer, first)),
    };
    let mut judge = J::begin(task, plan, version, named);
    if let Err(fault) = hand_first(&mut judge, one) {
        return Err(PairFault::First(fault));
    }
    match hand_second(&mut judge, other) {
        Ok(()) => Ok(judge),
        Err(fault) => Err(reported_fault(fault, one, buffer, first)),
    }
}

/// Reads two traces that stand alone side by side, on a plan. Its frame is large.
#[inline(never)]
fn read_both<J: Pair, A: Read, B: Read>(
    alloc: Global,
    plan: Plan,
    task: &J::Task,
    buffer: &mut [u8],
    first: &mut A,
    second: &mut B,
) -> Result<J, PairFault>
    requires room { length buffer.old ≡ piece_size }
    ensures { let s = streams (A.remaining first.old) (A.remaining first.new) None None in
        let t = streams (B.remaining second.old) (B.remaining second.new) None None in
        ReadsPair (λ v w es fs. J.stands task.now plan v w es true fs true) s t result }
{
    let mut one = Input::new(alloc);
    let mut other = Input::new(alloc);
    let mut judge: J = begin_both(task, plan, buffer, &mut one, first, &mut other, second)?;
    'reads: while let Some(turn) = turn_of(judge.wants_first(), one.goes_on(), other.goes_on()) {
        match turn {
            Turn::First => {
                one.read_piece(buffer, first);
                if let Err(fault) = hand_first(&mut judge, &one) {
                    return Err(PairFault::First(fault));
                }
            }
            Turn::Second => {
                other.read_piece(buffer, second);
                if let Err(fault) = hand_second(&mut judge, &other) {
                    return Err(reported_fault(fault, &mut one, buffer, first));
                }
            }
        }
    }
    Ok(judge)
}

/// Reads two traces side by side, on the plan of a scenario, and gives the judge that took their
/// edges.
///
/// The first is read on while the judge wants it, and once the second has ended. The bytes of one
/// piece are kept, 69,632 at most, and of each trace the edges of its last piece. It makes at most
/// 16,777,216 reads of each.
///
/// # Errors
/// F2, the faults of the scenario and F3, before anything is read. X1 to X6 of the first trace. X1
/// to X6 of the second, if the first was read to its end and has no fault.
pub fn read_pair<J: Pair, A: Read, B: Read>(
    alloc: Global,
    scenario: &[u8],
    task: &J::Task,
    first: &mut A,
    second: &mut B,
) -> Result<J, PairFault>
    ensures { let s = streams (A.remaining first.old) (A.remaining first.new) None None in
        let t = streams (B.remaining second.old) (B.remaining second.new) None None in
        LentPair scenario.now (ReadNothing s × ReadNothing t)
        (λ p. ReadsPair (λ v w es fs. J.stands task.now p v w es true fs true) s t) result }
{
    let plan = match plan_of(alloc, scenario) {
        Ok(plan) => plan,
        Err(fault) => return Err(PairFault::Engine(fault)),
    };
    let mut buffer = match buffer_of(alloc) {
        Ok(buffer) => buffer,
        Err(fault) => return Err(PairFault::Engine(fault)),
    };
    read_both::<J, A, B>(alloc, plan, task, &mut buffer, first, second)
}
