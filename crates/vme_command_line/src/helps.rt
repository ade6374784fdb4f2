//! The help of the program and of each command.

pub(crate) const ABOUT: &str =
    "Simulates and checks the arbitration bus and the interrupt bus of a VMEbus backplane, edge by \
     edge.";

pub(crate) const OVERVIEW: &str =
    "Without a command, a scenario and after it a trace are read from standard input, and the trace
is replayed:
  cat board.toml tenure.vme | vmebus

A scenario is a TOML file that says which boards stand in which slots. A trace is the line
`vme 1` or `vme 2`, and then one edge per line, such as `1 br-` or `c bg3-`. docs/RULES.md has
the rules, docs/TRACES.md has scenarios and traces, docs/COMMANDS.md has what each command
prints, byte for byte, docs/FAULTS.md has the faults, and examples/ has scenarios and traces to
start from.

Exit status: 0 done; 1 a fault (one line on standard error), or a text such as this one, which
goes to standard error, too (`vmebus --help 2>&1 | less`); 2 some edge was refused, no order of
moments is legal, two traces differ, or a capture is impossible; 3 the limit of edges was reached,
or `--until` did not come to its event. Under `set -e` the statuses 2 and 3 end a script.

A code such as G13 or X2: `vmebus rule CODE` explains it.";

pub(crate) const REFUSED_EDGE: &str =
    "Which edge, 1 the first [default: the first that is refused]";

pub(crate) const PROGRESS: &str =
    "Reports on standard error how far the search came, at most once a second";

pub(crate) const REPLAY: &str =
    "Prints the verdict on each edge of a trace, and how many were accepted and refused";

pub(crate) const REPLAY_USAGE: &str = "vmebus replay <SCENARIO> <TRACE> [--full]";

pub(crate) const REPLAY_EXAMPLE: &str =
    "Each edge has a line with its number and its verdict, such as `5 E3 G13`:
  ok      accepted; `ok irq ..` says which status byte it delivers
  E1      there is no such board, or it has no such wire
  E2      the wire is already in that state
  E3 Gk   the guard of rule Gk does not hold
  E4 Sk   settling rule Sk does not hold
  E5      the trace is full
With --full each line has the edge as well: `5 3 bbsy- E3 G13`. The rules G1 to G26 and S1 to
S4 stand in docs/RULES.md. A refused edge changes nothing, and the replay goes on after it.
`vmebus explain` says why an edge is refused, `vmebus show` draws edges, and `vmebus summary`
counts them. The exit status is 2 if an edge was refused.

Examples:
  vmebus replay board.toml tenure.vme
  vmebus replay board.toml tenure.vme --full

A code such as G13 or X2: `vmebus rule CODE` explains it.";

pub(crate) const CHECK: &str =
    "Prints whether every edge of each trace is allowed, or which is the first that is not";

pub(crate) const CHECK_USAGE: &str = "vmebus check <SCENARIO> <TRACE>...";

pub(crate) const CHECK_EXAMPLE: &str =
    "It prints `legal N`, with the number of edges, or `illegal N VERDICT` for the first refused
edge, and reads no further. `vmebus replay --help` lists the verdicts, docs/RULES.md has the
rules that they name, and `vmebus explain` says why that edge is refused. The exit status is 2
if an edge was refused.

If there are several traces, each begins at power-up, and each has such a line, which begins
with the name of its file: `tenure.vme: legal 94`. If one of them has a fault, the fault is
reported, and the others are still checked. The exit status is 1 then, even if an edge was
refused.

Examples:
  vmebus check board.toml tenure.vme
  vmebus check board.toml drawn-1.vme drawn-2.vme drawn-3.vme

A code such as G13 or X2: `vmebus rule CODE` explains it.";

pub(crate) const EXPLAIN: &str = "Says why an edge of a trace is accepted or refused";

pub(crate) const EXPLAIN_USAGE: &str = "vmebus explain <SCENARIO> <TRACE> [--edge <N>]";

pub(crate) const EXPLAIN_EXAMPLE: &str =
    "It prints the number of the edge, the edge and its verdict, and then each condition that was
tested: `holds ..` or `fails ..`, and below it the wires that it depends on, with the edge that
moved each of them last. N counts refused edges too. Without --edge it explains the first edge
that is refused, or prints `legal N` if none is. It reads no further than that edge. The exit
status is 0 if the edge is accepted, 2 if it is refused, and 1 at a fault. docs/COMMANDS.md has
each line, and docs/RULES.md the rules.

At G1 to G26 and S1 to S4 ` (profile)` follows a condition that is stricter than the standard, and
the others are the standard's; `vmebus rule NAME` prints the source of each. One mark is coarse:
`the arbiter picks level N` has it, but an arbiter that breaks its own policy breaks the standard.
A settling rule is tested only if all conditions before it hold. No source was compared with the
text of the standard: look it up before you rely on it.

Example:
  vmebus explain board.toml tenure.vme --edge 8

A code such as G13 or X2: `vmebus rule CODE` explains it.";

pub(crate) const SHRINK: &str =
    "Prints a short trace in which an edge of a trace is accepted or refused in the same way";

pub(crate) const SHRINK_USAGE: &str = "vmebus shrink <SCENARIO> <TRACE> [--edge <N>] [--progress]";

pub(crate) const SHRINK_EXAMPLE: &str =
    "It leaves out edges before edge N as long as edge N has the same answer: its verdict, with the
conditions that fail if it is refused, or the events that it brings if it is accepted. The
trace that it prints ends with edge N, and every edge before that is needed. There may be a
shorter one with the same answer. N counts refused edges too. Without --edge it takes the first
edge that is refused, or prints `legal N` if none is. It reads no further than that edge. The
exit status is 0 if the edge is accepted, 2 if it is refused, and 1 at a fault.
docs/COMMANDS.md says which edges are left out.

With --progress it reports on standard error what it tries to leave out, at most once a second:
`trying stretches of S, at edge P of N` if N edges are left and up to S of them, which end with
the P-th, are left out next.

Example:
  vmebus shrink board.toml tenure.vme --edge 8 > short.vme

A code such as G13 or X2: `vmebus rule CODE` explains it.";

pub(crate) const RULE: &str = "Prints the rules, or explains one rule or another code";

pub(crate) const RULE_USAGE: &str = "vmebus rule [NAME]";

pub(crate) const RULE_EXAMPLE: &str =
    "It prints a line for each rule: its name, its edge, and the rule in a sentence. With NAME it
prints the line of that rule, and a line for each of its conditions: the chapter of the
standard that asks for it, or `profile` if it is stricter than the standard, and why. NAME is
E1, E2, G1 to G26, S1 to S4 or E5; of these E1, E2 and E5 have no source. No source was compared
with the text of the standard: look it up before you rely on it. docs/RULES.md has the guards, and
says which sources are from memory. docs/COMMANDS.md has each line.

If NAME is another code that the program prints, E3, E4 or that of a fault such as X2, it prints
what the code means, what usually causes it, and what to do. docs/FAULTS.md says more of faults.

Examples:
  vmebus rule G13
  vmebus rule X2

A code such as G13 or X2: `vmebus rule CODE` explains it.";

pub(crate) const STATE: &str =
    "Prints where the bus stands after a trace, or after its first edges";

pub(crate) const STATE_USAGE: &str = "vmebus state <SCENARIO> <TRACE> [--after <N>]";

pub(crate) const STATE_EXAMPLE: &str =
    "It prints who holds the bus, where a grant stands, what the address lines show, who requests
the bus, which interrupts are pending, the wires that each driver holds low, and all edges that
would be accepted next. `since N` is the number of an edge in the trace. With --after it reads
no further than the N-th edge; N counts refused edges too, and 0 is power-up. The exit status
is 0, or 1 at a fault. docs/COMMANDS.md has each line.

Example:
  vmebus state board.toml tenure.vme --after 4

A code such as G13 or X2: `vmebus rule CODE` explains it.";

pub(crate) const SHOW: &str =
    "Draws a timing picture of a trace, a row for each wire and a column for each edge";

pub(crate) const SHOW_USAGE: &str =
    "vmebus show <SCENARIO> <TRACE> [--from <A>] [--to <B>] [--color]";

pub(crate) const SHOW_EXAMPLE: &str =
    "Each wire that an edge of A to B moves, or tries to move, has a row, such as
`2 bbsy  --\\__x_/-`:
  \\ /     an accepted fall, an accepted rise
  x       a refused edge of this wire
  _ -     another edge, while the wire is low, while it is high
Four rows below them show the state after each edge: `grant at` is the slot at which a grant
waits, `holder` the slot that drives BBSY* low, `shown` the target of an access or the level of
an acknowledge, and `verdict` is `x` refused, `!` a status byte delivered, or `.` accepted.
Slots are `1` to `9`, then `A` for 10 to `L` for 21; the levels of an acknowledge are `a` for 1
to `g` for 7. It reads no further than edge B. The exit status is 2 if one of the edges 1 to B
is refused, 0 if none is, and 1 at a fault. docs/COMMANDS.md has each line.

Example:
  vmebus show board.toml tenure.vme --from 1 --to 8

A code such as G13 or X2: `vmebus rule CODE` explains it.";

pub(crate) const CYCLES: &str =
    "Prints a line for each cycle, each tenure and each refused edge of a trace";

pub(crate) const CYCLES_USAGE: &str = "vmebus cycles <SCENARIO> <TRACE>";

pub(crate) const CYCLES_EXAMPLE: &str =
    "A cycle or a tenure goes from edge A to edge Z, and S is the slot of its board:
  A..Z S access T answered at I
          it accessed slot T, which answered with edge I
  A..Z S acknowledge L status B from Q asked I
          it acknowledged level L, and slot Q, which had requested that with edge I, answered B
  A..Z S access T bus error, A..Z S acknowledge L bus error
          nobody answered, and the bus timer ended the cycle
  A..Z S tenure asked R cycles C
          it requested the bus with edge R, held it from A to Z, and began C cycles
  N refused EDGE VERDICT
          edge N was refused, with the verdict of `vmebus replay`
All these numbers count refused edges too. A line is printed at edge Z. What has not ended by
the end of the trace has `A..` in place of `A..Z`. The last line,
`cycles C tenures T refused R`, counts the lines of each kind that ended. The exit status is 2
if an edge was refused, 0 if none was, and 1 at a fault. docs/COMMANDS.md has each line.

Example:
  vmebus cycles board.toml tenure.vme

A code such as G13 or X2: `vmebus rule CODE` explains it.";

pub(crate) const SUMMARY: &str =
    "Counts what traces exercised, who waited for the bus and who held it";

pub(crate) const SUMMARY_USAGE: &str = "vmebus summary <SCENARIO> <TRACE>...";

pub(crate) const SUMMARY_EXAMPLE: &str =
    "It prints how many edges were accepted and refused, in all and by each rule, by which rules
none was accepted, and which events came, how often, and which never did. For each board it
prints how often it requested the bus, how many edges it waited for it and held it, and how
often it answered. `first N` and `since N` are numbers of edges in the trace; N counts refused
edges too. The exit status is 2 if an edge was refused, 0 if none was, and 1 at a fault. If the
only trace has a fault, nothing is printed.

If there are several traces, each begins at power-up. It names those in which an edge was
refused, and reports those that have a fault. Then it prints how many have none, the sums over
these, and the greatest of their longest waits and holds, without numbers of edges. If all have
a fault, it prints no sums. docs/COMMANDS.md has each line.

Examples:
  vmebus summary board.toml tenure.vme
  vmebus summary board.toml drawn-1.vme drawn-2.vme drawn-3.vme

A code such as G13 or X2: `vmebus rule CODE` explains it.";

pub(crate) const RACES: &str =
    "Prints which edges could have come in another order, and with which outcome";

pub(crate) const RACES_USAGE: &str = "vmebus races <SCENARIO> <TRACE> [--edge <N> | --other <N>]";

pub(crate) const RACES_EXAMPLE: &str =
    "It judges the edges as `vmebus replay` does. Each accepted edge then changes places with the
accepted edge before it, and with the next one before that, as long as this changes nothing:
both edges are accepted in both orders, they deliver the same, and the bus stands the same
after them. If edge N comes to stand right behind edge I, would be accepted before edge I, and
may not change places with it, the two race:
  N EDGE races I EDGE OUTCOME
OUTCOME is the verdict on edge I after edge N, such as `E3 G11`, or `other` if edge I is accepted
and the bus stands differently after both. The last line, `accepted A races R waits W free F`,
counts the accepted edges, those that race, those that wait (each would be refused before the
edge that stops it), and those that could come at least one place earlier. N and I count refused
edges too. The exit status is 2 if an edge was refused, 0 if none was, and 1 at a fault; races
do not change it. docs/COMMANDS.md describes each line.

With --edge it prints one line about edge N: `N EDGE`, then ` free since S` if edge N could have
come as early as just before edge S, and then what stops it there:
  races I EDGE OUTCOME        as above
  waits for I EDGE VERDICT    before edge I, edge N would have this verdict
  begins                      no edge is before it
  far                         it has passed 200 edges
With --other it prints the trace of the other order of edge N's race. It ends with edge N and
then edge I. If edge N does not race, that is a fault. With either option no edge after edge N is
judged, and with --edge the exit status is 2 only if edge N is refused.

Examples:
  vmebus races board.toml tenure.vme
  vmebus races board.toml tenure.vme --other 8 > other.vme

A code such as G13 or X2: `vmebus rule CODE` explains it.";

pub(crate) const RACES_EDGE: &str =
    "Print how much earlier edge N could have come, 1 the first [default: print all races]";

pub(crate) const SAME: &str =
    "Says whether two traces have the same edges, in orders that make no difference";

pub(crate) const SAME_USAGE: &str = "vmebus same <SCENARIO> <TRACE> <OTHER>";

pub(crate) const SAME_EXAMPLE: &str =
    "It takes the edges of OTHER one by one, finds the first such edge that is left in TRACE, and
moves it to the front there, past one edge at a time, as long as this changes nothing: no
verdict, no delivery, and not where the bus stands. Then it takes that edge out of TRACE. If all
edges of both are used up, it prints `same N`, with the number of edges. Otherwise it prints the
first of these lines that applies:
  refused FILE N VERDICT
          edge N of this file is refused
  differ version
          the first lines of the files differ
  differ N EDGE missing
          no such edge is left in TRACE
  differ N EDGE far
          more than 200 edges that are left in TRACE stand before it
  differ N EDGE waits for I EDGE VERDICT
          edge N of OTHER would be refused before edge I of TRACE, with this verdict
  differ N EDGE races I EDGE OUTCOME
          edge N of OTHER could come before edge I of TRACE, with this outcome: see `races`
  differ N EDGE left
          OTHER has ended, and edge N of TRACE is left
Below `missing`, `far`, `waits for` and `races` comes a second line, which begins with four blanks:
the first edge of the same driver that is left in TRACE, with its number there, or `none`.
`differ` is no proof that the traces are not the same: other swaps may still join them. Both
files are read side by side, to their ends. The exit status is 0 if the traces are the same, 2 if
they are not, and 1 after a fault. docs/COMMANDS.md describes each line.

Example:
  vmebus same board.toml tenure.vme other.vme

A code such as G13 or X2: `vmebus rule CODE` explains it.";

pub(crate) const ORDER: &str =
    "Prints a legal order of edges that were seen at the same moments, if there is one";

pub(crate) const ORDER_USAGE: &str =
    "vmebus order <SCENARIO> <MOMENTS> [--slack <S>] [--where] [--progress]";

pub(crate) const ORDER_EXAMPLE: &str =
    "A clocked design moves several wires at once, and does not say in which order. MOMENTS is a
trace with lines `@N` between its edges. An edge was seen at the moment of the last `@N` above
it, such as the number of the clock. Edges of one moment may have been made in any order; those
of a later moment were made after them.

With --slack an edge may have been made up to S moments before it was seen. S is a number for
all drivers, or a list of drivers with a number each, such as `c=2,5=1`; the others have 0.
Edges that one board made at different moments keep their order. So do those of the arbiter, of
the IACK driver, and of the bus timer.

If the rules allow some order of all edges, the first of these is printed as a trace, and the
exit status is 0. It leaves the edges as they are listed as far as the rules let them. If no
order is allowed, the longest beginning that is allowed is printed, and after it each edge that
could come next. All of these are refused there, and `vmebus explain` says why the first of
them is. The exit status is 2 then, and 1 at a fault. With --where each edge of that trace has
a line with its number, its line in MOMENTS, its moment and, if it is refused, its verdict.
docs/COMMANDS.md has each line, and docs/RTL.md says how to print moments.

With --progress it reports on standard error how far the search came, at most once a second:
`trying length K of N, beginnings B` if it keeps B legal beginnings of K - 1 edges and makes them
longer. If none of them reaches N, it may start once more at length 1, and keeps more of them.

Example:
  vmebus order board.toml seen.vme --slack c=2 > tenure.vme

A code such as G13 or X2: `vmebus rule CODE` explains it.";

pub(crate) const PROBE: &str =
    "Says who may have driven what an analyser saw, and whether the rules allow it";

pub(crate) const PROBE_USAGE: &str = "vmebus probe <SCENARIO> <CAPTURE> [--skew <S>]";

pub(crate) const PROBE_EXAMPLE: &str =
    "An analyser sees the lines that all boards share, and perhaps some pins of the daisy chains. It
does not see who drives them. CAPTURE has these lines, in this order:
  vme 1               or `vme 2`: the version of the rules
  pin 4 BG3IN         this pin of slot 4 is probed, too; one line for each such pin
  running             the bus was running at the beginning; otherwise it was at power-up
  low BR3             this line or pin was low then; one line for each
  @120                a moment, a number that may not fall; below it come its changes
  BR3-                BR3* fell; BR3+ if it rose. So for BR0 to BR3, IRQ1 to IRQ7, BBSY, DS, DTACK,
                      BERR and BCLR, and for a pin, as in 4 BG3IN-
  AS- r3              AS* fell, and the address was that of slot 3; `AS- r` if the slot is not
                      known, `AS- i6` for an acknowledge of level 6; AS+ if it rose
  DTACK- 64           DTACK* fell with the status byte 64; DTACK- if the byte is not known
The changes happened in the order of their lines. DS is low while DS0* or DS1* is.

With --skew a change at most S behind the one before it belongs to the same sample, and the changes
of a sample have no order but those of one line or pin. S is the greatest difference of delay of two
channels of the analyser, in its moments. With --skew 0 the changes below one `@N` have no order. A
sample has at most 12 changes. It is printed when the first change behind it has been read; a fault
before that leaves it out.

For each change it prints `@N CHANGE by D ..`: N is its moment, and each D a driver that may have
made it, c or a slot. At the end of the capture come these lines:
  possible E                 a bus that keeps the rules can show its E changes
  holder D ..                who may have the bus, or none
  grant bgN at S, ..         where a grant may stand; none if there may be none
  shown V by D ..            what AS* fell with, and who may drive it; none while AS* is high
  BR3 low by D ..            who may drive a request line that is low; so for IRQ1 to IRQ7
  may come CHANGE by D ..    a change that may come next, and who may make it
If no such bus can show a change, these lines come in their place, and nothing is read after it;
of a sample, the changes that could be made come first:
  @N CHANGE by none
      D RULE CONDITION       for each driver D of that line or pin: its rule, and the first
                             condition that does not hold. So `1 G17 DTACK* is high` says
                             that DTACK* was still low
  impossible @N              or `impossible @N by our rules alone` if one of these conditions is
                             marked ` (profile)`: it is stricter than the standard
If it cannot have begun with those `low` lines, the only line is `impossible running`. `by` may name
a driver too many. It is meant never to leave one out, nor `impossible` to be wrong: docs/PROBE.md
says how far this is proved, and describes captures and each line. The exit status is 0 if the
capture is possible, 2 if it is impossible, and 1 at a fault; what was judged before a fault is
printed.

Example:
  vmebus probe board.toml hang.cap --skew 0

A code such as G13 or X2: `vmebus rule CODE` explains it.";

pub(crate) const SEEDS_PROGRESS: &str =
    "Reports on standard error which seed it tries, at most once a second; needs --seeds";

pub(crate) const DRIVE: &str =
    "Prints a trace that the drivers of a scenario make in turn, or one that is drawn at random";

pub(crate) const DRIVE_USAGE: &str =
    "vmebus drive <SCENARIO> --edges <N> [--seed <S> [--until <EVENT> [--of <D>] [--after <N>]]] \
     [--version <V>]
       vmebus drive <SCENARIO> --edges <N> --seeds <S..T> --until <EVENT> [--of <D>] [--after <N>] \
     [--progress] [--version <V>]";

pub(crate) const DRIVE_EXAMPLE: &str =
    "In each round the controller and then each board makes one of the edges that are open to it.
The trace ends with the given number of edges, and then the exit status is 3, or after a round
in which nobody could make one, and then it is 0.

With --seed there are no rounds: each edge is drawn at random from all edges that would be
accepted, of all drivers. A seed always draws the same trace. The exit status is 3 after the
given number of edges, and 0 if nobody could make another one.

With --until the trace ends as soon as EVENT comes. The exit status is 0 if it came, and
otherwise 3. EVENT is a situation that an accepted edge brings about,
  grant-passed late-request overtaken early-release overlap full-burst bus-clear rivals delivery
  iack-passed answered-again spurious bus-error, and in version 2 withdrawn grant-timeout
or a condition that refuses an edge, which is then the last of the trace: a rule and the one of its
conditions that fails, as `vmebus explain` prints it, with N for a level; a rule such as G13 for any
of its conditions; or a settling rule such as S2. `vmebus rule G13` prints the conditions of G13.
If the edge has a settling rule, that rule may fail as well, and a rule such as G7 may end with it.
docs/COMMANDS.md says what each event is, and which six conditions never refuse an edge alone,
so that they are no EVENT.

With --of only edges of that driver count, and with --after only those with at least N edges
before them. So you get tests of one board, and not all of them from power-up. If the scenario
lacks what EVENT needs, such as a board there, nothing is drawn, and the exit status is 1.

With --seeds it tries the seeds S to T in order. The first that reaches EVENT within the given
number of edges is printed on standard error, as `seed S`, and its trace on standard output.
The exit status is 0 then. If no seed reaches it, `no seed` is printed on standard error,
nothing on standard output, and the exit status is 3. With --progress it reports on standard
error which seed it tries, as `trying seed S`, at most once a second, and how many edges it has
drawn of a long one.

Examples:
  vmebus drive board.toml --edges 1000 > tenure.vme
  vmebus drive board.toml --edges 1000 --seed 7 > drawn.vme
  vmebus drive board.toml --edges 1000 --seed 7 --until \"G13 own br is low\" > refused.vme
  vmebus drive board.toml --edges 60 --seeds 0..1000 --until bus-error > error.vme
  vmebus drive board.toml --edges 200 --seeds 0..99 --until G13 --of 2 --after 20 > refused.vme

A code such as G13 or X2: `vmebus rule CODE` explains it.";

pub(crate) const RUN: &str =
    "Prints a trace that the drivers of a scenario make at the same time, a thread for each";

pub(crate) const RUN_USAGE: &str = "vmebus run <SCENARIO> --edges <N> --turns <T> [--version <V>]";

pub(crate) const RUN_EXAMPLE: &str =
    "Each driver gets the given number of turns, and in a turn it tries one of the edges that are
open to it. The exit status is 3 if as many edges were made as were asked for, and 0 if all
turns were spent before that, which is not an error. Two runs may differ; what each prints is
legal.

Example:
  vmebus run board.toml --edges 1000 --turns 100000 > tenure.vme

A code such as G13 or X2: `vmebus rule CODE` explains it.";
