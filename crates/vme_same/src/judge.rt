//! Reading two traces side by side, and finding whether they are the same.
ghost use Rattle.std.specs.Prelude.{◌≡◌, IfErr, IfOk, IsTrue, None, OnErr, OnOk};
ghost use Rattle.std.specs.Io.KnownBytes.{Appends};
ghost use Rattle.vme_trace.specs.Writing.{AppendsFront};
ghost use Rattle.vme_reading.specs.Pairs.{LentPair, ReadsPair};
ghost use Rattle.vme_reading.specs.Streams.{ReadNothing, streams};
ghost use Rattle.vme_same.specs.Comparing.{IsComparison};
ghost use Rattle.vme_same.specs.Formed.{is_formed_found};
ghost use Rattle.vme_same.specs.Kept.{Stands, lacks_first};
ghost use Rattle.vme_same.specs.Lines.{found_lines};

use crate::comparisons::Comparison;
use crate::lines::{first_line_of, second_line_of};
use crate::matching::Matching;
use std::alloc::Global;
use std::io::{Read, Write};
use vme_model::{Edge, Version};
use vme_reading::{Pair, PairFault, read_pair};
use vme_slots::Plan;
use vme_trace::{Fault, flush, put};

impl Pair for Matching {
    type Task = Global;

    ghost first_count = { λ now. now.first.judged };

    ghost second_count = { λ now. now.second.judged };

    ghost stands = { λ _ p v w es ended fs over now. Stands p v w es ended fs over now };

    fn begin(task: &Global, plan: Plan, first: Version, second: Version) -> Matching {
        Matching::new(*task, &plan, first, second)
    }

    fn wants_first(&self) -> bool
        ensures { result ≡ lacks_first self.now }
    {
        self.lacks_first()
    }

    fn take_first(&mut self, edges: &[Edge]) -> Result<(), Fault> {
        self.add_to_first(edges)
    }

    fn take_second(&mut self, edges: &[Edge]) -> Result<(), Fault> {
        self.add_to_second(edges)
    }

    fn end_first(&mut self) {
        self.close_first();
    }

    fn end_second(&mut self) {
        self.close_second();
    }
}

/// Reads two traces side by side, on the plan of a scenario, and finds whether they are the same
/// but for free swaps.
///
/// Both are read to their ends, whatever is found. One edge of the second trace after another comes
/// to the front of what is left of the first one, by free swaps with the edge before it, past at
/// most 200. If one does not, it is reported with what stops it, and with the first edge of its
/// driver that is left. Of each trace it makes at most 16,777,216 reads.
///
/// # Errors
/// F2, the faults of the scenario and F3, before anything is read. X1 to X6 of the first trace. X1
/// to X6 of the second one, if the first was read to its end and has no fault.
pub fn compare<A: Read, B: Read>(
    alloc: Global,
    scenario: &[u8],
    first: &mut A,
    second: &mut B,
) -> Result<Comparison, PairFault>
    ensures reads { let s = streams (A.remaining first.old) (A.remaining first.new) None None in
        let t = streams (B.remaining second.old) (B.remaining second.new) None None in
        LentPair scenario.now (ReadNothing s × ReadNothing t)
        (λ p. ReadsPair (λ v w es fs found. IsComparison p v w es fs found) s t) result }
    ensures formed { IfOk result (λ found. IsTrue (is_formed_found found)) }
{
    let matching = read_pair::<Matching, A, B>(alloc, scenario, &alloc, first, second)?;
    Ok(matching.outcome())
}

/// Writes what is found of two traces on a line, and has the writer hand on what it holds back. If
/// an edge of the second trace differs, a second line has what the first one has of its driver. Of
/// a refusal it writes only what comes behind the name of the file.
///
/// # Errors
/// X8 if the output cannot be written; then a prefix of the lines was written.
pub fn write_found<W: Write>(found: Comparison, out: &mut W) -> Result<(), Fault>
    requires { IsTrue (is_formed_found found) }
    ensures ok { OnOk result
        (Appends (W.contents out.old) (W.contents out.new) (found_lines found)) }
    ensures front { OnErr result
        (AppendsFront (W.contents out.old) (W.contents out.new) (found_lines found)) }
    ensures fault { IfErr result (λ fault. fault ≡ Fault.Write) }
{
    let first = first_line_of(&found);
    let second = second_line_of(&found);
    put(out, first.as_slice())?;
    put(out, second.as_slice())?;
    flush(out)
}
