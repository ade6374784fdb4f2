//! The texts of the codes that are no rules, word for word as the pages have them: docs/RULES.md
//! those of E3 and E4, and docs/FAULTS.md the others.

pub(crate) const E3: &str = "E3 Gk
The edge's own rule Gk refuses it, because a condition of the rule does not
hold. `vmebus explain` prints which conditions fail and the wires that they
depend on. `vmebus rule` with the name of the rule, such as `vmebus rule G13`,
prints all of its conditions, and whether the standard asks for each.
";

pub(crate) const E4: &str = "E4 Sk
The edge's own rule holds, but its settling rule Sk does not: an edge of another
driver has to happen first. `vmebus explain` prints the wires that the settling
rule depends on, and `vmebus rule` with its name, such as `vmebus rule S1`,
prints what it asks for.
";

pub(crate) const F1: &str = "F1 cannot read NAME
A scenario or trace file does not open, or a scenario cannot be read to its end.
Usually the name is misspelled, you may not read the file, or it is a folder:
`ls -l NAME` shows which. If NAME is `-`, standard input failed, or `-` was
written for it: write `/dev/stdin`.
";

pub(crate) const F2: &str = "F2 NAME is too long
A scenario has more than 1,048,576 bytes. Usually the trace was named in its
place: SCENARIO is the first file name, and TRACE the second.
";

pub(crate) const F3: &str = "F3 no memory
There is no memory for the command itself. Usually a limit of memory, such as
`ulimit -v`, is too low: raise it.
";

pub(crate) const F4: &str = "F4 word N is not UTF-8
The N-th argument after the program's name, counted from 1, is not UTF-8. If
there are several, it is the first. Usually a file name has another encoding,
such as Latin-1: rename the file, or read it from `/dev/stdin`.
";

pub(crate) const F5: &str = "F5 too many orders
From `order`: no legal order was found, and there are too many to say that there
is none. Usually drivers have more slack than the design has, a moment holds
many clocks, or an edge is listed at least 128 edges after one that waits for
it. Give less slack, each clock a moment of its own, and each edge a moment
closer to its time. From `probe --skew S`: a sample has more than 12 changes.
Usually S is too great, or the analyser too slow. Take the least S that is
right, or sample faster.
";

pub(crate) const F6: &str = "F6 more than 1048576 edges
Moments have at most 1,048,576 edges, refused ones included, and these have
more; the line is not reported. Usually the run is long: start another file at a
moment at which every wire is high or off.
";

pub(crate) const L3: &str = "L3 the boards could not be started
`run` has no memory for the list of its boards' records. Usually a limit of
memory, such as `ulimit -v`, is too low: raise it.
";

pub(crate) const L4: &str = "L4 the log of DRIVER differs at N
`run` compares the record that DRIVER (`c` or a slot) kept of its own edges with
the trace, and they differ from its edge N on, counted from 0. This is not
expected. No scenario should cause it: report it with the scenario and the
command.
";

pub(crate) const L6: &str = "L6 the history is refused at N
`run` judges its trace a second time, and edge N, counted from 0, was refused.
It is proved that this never happens. Suspect the machine or the build of the
program, and report it with the scenario and the command.
";

pub(crate) const P1: &str = "P1 slot 1 is empty
Slot 1 has no board, although the arbiter is on the board in slot 1. Usually the
boards begin with slot 2: describe a board in slot 1 too.
";

pub(crate) const P2: &str = "P2 N slots, at most 21
`slots` is above 21, the most that a backplane can have. Usually the number is
mistyped, or the scenario describes two backplanes: correct the number, or write
a scenario for each backplane.
";

pub(crate) const P3: &str = "P3 slot S is named twice
Two boards, two jumpers, or a board and a jumper have the same slot. Usually a
slot with a board has a jumper as well. Delete that jumper, since a board joins
the chains that it does not work, and give each board a slot of its own.
";

pub(crate) const P4: &str = "P4 slot S breaks chain C
Empty slot S does not join chain C, which is `bg0` to `bg3` or `iack`, and a
board in a higher slot works it. Usually the slot has no jumper, or a jumper
with too few chains. Give each empty slot a jumper with all five:
`chains = [\"bg0\", \"bg1\", \"bg2\", \"bg3\", \"iack\"]`.
";

pub(crate) const P5: &str = "P5 slot S requests a level that SGL does not serve
The arbiter is `\"sgl\"`, which serves level 3 alone, and the requester in slot S
is on another level. Write `level = 3`, or take another arbiter.
";

pub(crate) const P6: &str = "P6 interrupt level L has two handlers
Two boards handle interrupt level L, and a level can have one handler only.
Leave L in the `handler` of one board, and delete it from the other.
";

pub(crate) const P7: &str = "P7 the handler in slot S has no requester
A board has a handler and no requester. A handler acknowledges as a master, and
so it needs the bus. Give the board a `requester`.
";

pub(crate) const P8: &str = "P8 FIELD is out of range
A number in the scenario is out of its range, such as `level = 4` of a
requester, `burst = 0`, or a board beyond `slots`. If there are several, `slots`
is reported first, then the boards, and then the jumpers, in the order of the
file. Write a number in its range.
";

pub(crate) const P9: &str = "P9 no memory
Memory ran out while the backplane was made from the scenario. Usually a limit
of memory, such as `ulimit -v`, is too low: raise it.
";

pub(crate) const Q1: &str = "Q1 the scenario is not TOML
The scenario is not UTF-8, is not TOML, or is beyond a limit of TOML; the line
is not reported. Usually a word has no quotes, as in `arbiter = pri`, a table
has a key twice, `[board]` is written for `[[board]]`, or the trace was named in
its place. Correct the text, or convert it to UTF-8, and name SCENARIO before
TRACE.
";

pub(crate) const Q2: &str = "Q2 unknown key KEY
A table of the scenario has a key that it cannot have. Usually the key is
misspelled, as `[[boards]]` is, or it is a note, such as `name = \"cpu\"`, or it
is `burst` beside `release = \"ror\"`. Correct or delete the key, and write a note
as a comment, `# cpu`.
";

pub(crate) const Q3: &str = "Q3 missing key KEY
A table of the scenario lacks a key that it needs. Usually `slots` or `arbiter`
is written below `[[board]]`, so that it is a key of that board, or
`release = \"rwd\"` has no `burst` beside it. Write the key, and write all keys of
the top table first.
";

pub(crate) const Q4: &str = "Q4 bad value of KEY
The key has a value of another type than it needs, a word that is not in its
list, a number below 0 or above 255, or a handler level outside 1 to 7. Usually
a word is in capitals, as in `arbiter = \"PRI\"`, a number has quotes or a point,
a list has no brackets, as in `handler = 4`, or `[board]` is written for
`[[board]]`. Correct the value.
";

pub(crate) const Q6: &str = "Q6 no memory
Memory ran out while the scenario was read. Usually a limit of memory, such as
`ulimit -v`, is too low: raise it.
";

pub(crate) const X1: &str = "X1 the trace does not begin with vme 1 or vme 2
The first line of the trace is complete and not a header, or there is no byte at
all. Usually the header is missing or misspelled, another line is above it, or
the file has CRLF line ends, a byte order mark or the encoding UTF-16. Write
`vme 1` or `vme 2` as the whole first line, in ASCII, and end each line with a
line feed alone.
";

pub(crate) const X2: &str = "X2 line N is no edge
Line N is complete and does not spell an edge. Line 1 is the header, so that
line 2 has edge 1. Usually the line is empty, a comment, or has a second blank
or a carriage return, there is a time or no driver before the wire, or the
driver does not have that wire, as in `1 bg3-`. Write the driver, a blank, the
wire, and `-` or `+`, such as `2 br-`; a line `@N` is for `order` alone, and has
the number N without leading zeros.
";

pub(crate) const X3: &str = "X3 line N is over 64 bytes
Line N has more than 64 bytes before its line feed. Usually the file is not a
trace, or its lines end with carriage returns alone: name the trace, or turn the
carriage returns into line feeds.
";

pub(crate) const X4: &str = "X4 the trace is cut off
The input ends within a line: the last line has no line feed. Usually the
program that writes the trace was stopped, or does not end its last line. Let it
flush and end each line, or add the line feed, for example with
`echo >> trace.vme`.
";

pub(crate) const X5: &str = "X5 the trace cannot be read
A read of the trace failed, or the input was not at its end after 16,777,216
reads. Usually the trace is a folder, or a bench writes more than 16,777,215
lines one by one. Name the file in the folder, write several lines at once, or
take the library.
";

pub(crate) const X6: &str = "X6 no memory
Memory ran out while the trace was read. Usually a limit of memory, such as
`ulimit -v`, is too low: raise it.
";

pub(crate) const X8: &str = "X8 the output cannot be written
Standard output fails, or nobody reads it any more. Usually the disk is full:
free space, or write elsewhere. If a program such as `head` stopped reading,
nothing is wrong: what it read is right.
";

pub(crate) const X9: &str = "X9 the trace has M edges
The trace has no fault, but fewer edges than `--edge`, `--other`, `--after` or
the first edge of `show` asks for. Usually the number belongs to another trace.
Write a number up to M: refused edges count too.
";

pub(crate) const X10: &str = "X10 line N is of an earlier moment
The number of a moment is less than that of the moment before it. Usually the
files of several monitors were joined one after the other, a counter of clocks
wrapped, or one file has two runs. Merge the files by moment, take a wider
counter, and write a file for each run.
";

pub(crate) const X11: &str = "X11 edge N races with none
`races --other N` has no other order to print: edge N is refused, or it does not
race with an edge before it. Usually N is the earlier edge of the race, the
number I of a line `N EDGE races I`: ask for the later one. `races --edge N`
prints what stops the edge.
";

pub(crate) const X12: &str = "X12 line N is no pin of this backplane
Line N is a `pin` line of a slot without a board, or of a chain that an empty
slot below it does not join. Usually the number is mistyped, or the scenario
lacks the analyser, which is a board with a `slot` and nothing else. Correct the
line, or describe the board, and give each empty slot a jumper with all five
chains.
";

pub(crate) const X13: &str = "X13 line N is a wire that has a pin already
Line N is a `pin` line, and an earlier one is of the same wire. Usually the
output of a board and the input of the next one are both declared, such as
`1 BG3OUT` and `2 BG3IN`, or a line is there twice. Declare one pin of each
wire, and write all of its changes by that name.
";

pub(crate) const X14: &str = "X14 line N names a pin that is not probed
Line N is a `low` line or a change of a pin that has no `pin` line. Usually the
`pin` line is missing, or it has the name of the other end of the wire, such as
`1 BG3OUT` for `2 BG3IN`. Write a `pin` line for it above the first moment, and
spell the pin alike everywhere.
";

pub(crate) const X15: &str = "X15 line N changes nothing
Line N is a fall of what is low already, a rise of what is high already, or a
second `low` line of the same line or wire. Usually the analyser missed a pulse
between two of its samples, the `low` line of what was low at the beginning is
missing, or the file has levels and not changes. Sample more often, write that
`low` line, or leave out what does not change.
";

pub(crate) const X16: &str = "X16 line N is no line of a capture
Line N is complete and spells no line of a capture, or it stands where it may
not. Usually it is an edge with a driver, such as `2 br-`, it is empty or a
comment, or it has an `AS-` that does not say what is shown; or a change has no
moment above it, or `low` no `running`. Write the `pin` lines, `running` and the
`low` lines first, and below them the changes, such as `BR3-`, each below its
moment `@N`.
";

pub(crate) const X17: &str = "X17 line N stands before the first moment
Line N is an edge, and there is no moment above it. Usually the file is a trace,
which has an order already: `check` and `replay` read it. In moments, write a
line `@N` before the edges of each clock.
";
