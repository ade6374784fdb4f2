//! How often an input is read, and how often an interrupted call is tried: no clause counts them.
use crate::asserts::assert_same;
use std::alloc::AllocError;
use std::io::{self, ErrorKind, Read, Write};
use std::process::Abort;
use vme_check::check;
use vme_model::Edge;
use vme_reading::{EngineFault, LineForm, Status};
use vme_replay::{joined, replay};
use vme_trace::{Fault, Patient, Reader, flush, pump, put, read_piece};

/// The most reads of one input.
const MOST: u32 = 16_777_216;

/// The most tries of a call that is interrupted.
const TRIES: u32 = 65_536;

/// A reader that gives one byte at each read: a head, and after it some lines again and again, up
/// to `most` bytes in all.
#[derive(Drop)]
struct Drops<'a> {
    /// What is given again and again.
    lines: &'a [u8],
    /// What is given before that.
    next: &'a [u8],
    most: u32,
    reads: u32,
}

impl<'a> Drops<'a> {
    fn new(head: &'a [u8], lines: &'a [u8], most: u32) -> Drops<'a> {
        Drops {
            lines,
            next: head,
            most,
            reads: 0,
        }
    }
}

impl<'a> Read for Drops<'a> {
    fn read(&mut self, buf: &mut [u8]) -> io::Result<usize> {
        if self.reads >= self.most {
            return Ok(0);
        }
        self.reads += 1;
        if self.next.is_empty() {
            self.next = self.lines;
        }
        match (self.next, buf) {
            ([byte, rest @ ..], [first, ..]) => {
                *first = *byte;
                self.next = rest;
                Ok(1)
            }
            _ => Ok(0),
        }
    }
}

/// A writer that counts what it takes.
#[derive(Drop)]
struct Counting {
    bytes: u64,
}

impl Write for Counting {
    fn write(&mut self, buf: &[u8]) -> io::Result<usize> {
        self.bytes = self.bytes.saturating_add(buf.len() as u64);
        Ok(buf.len())
    }

    fn flush(&mut self) -> io::Result<()> {
        Ok(())
    }
}

/// One board that requests the bus at level 3.
const ONE_BOARD: &[u8] = b"slots = 1
arbiter = \"sgl\"

[[board]]
slot = 1
requester = { level = 3, release = \"rwd\", burst = 1 }
";

/// The scenario of one board, and the header line after it: 106 bytes.
const BOARD_AND_HEADER: &[u8] = b"slots = 1
arbiter = \"sgl\"

[[board]]
slot = 1
requester = { level = 3, release = \"rwd\", burst = 1 }
vme 1
";

/// The longest line: 13 bytes. There is no such board.
const NO_BOARD: &[u8] = b"21 addr- r21\n";

/// The lines of one tenure of the bus: 42 bytes.
const TENURE: &[u8] = b"1 br-\nc bg3-\n1 bbsy-\n1 br+\nc bg3+\n1 bbsy+\n";

/// What `joined` returns. It has no contract, so that it is not proved again for each device.
fn joined_from<R: Read, W: Write>(
    rt: &impl AllocGlobal,
    input: &mut R,
    out: &mut W,
) -> Result<Status, EngineFault> {
    joined(rt.alloc(), input, out)
}

/// What `replay` returns for a trace on the backplane of one board.
fn replayed_from<R: Read, W: Write>(
    rt: &impl AllocGlobal,
    trace: &mut R,
    out: &mut W,
) -> Result<Status, EngineFault> {
    replay(rt.alloc(), ONE_BOARD, trace, LineForm::Short, out)
}

/// What `check` returns for a trace on the backplane of one board.
fn checked_from<R: Read, W: Write>(
    rt: &impl AllocGlobal,
    trace: &mut R,
    out: &mut W,
) -> Result<Status, EngineFault> {
    check(rt.alloc(), ONE_BOARD, trace, out)
}

/// Whether an engine gave up reading.
fn is_unread(answer: &Result<Status, EngineFault>) -> bool {
    matches!(answer, Err(EngineFault::Trace(Fault::Read)))
}

#[test]
fn a_scenario_without_end_is_read_so_often(rt: HostRuntime) {
    let mut input = Drops::new(b"", b"#\n", u32::MAX);
    let mut out = Counting { bytes: 0 };
    let answer = joined_from(&rt, &mut input, &mut out);
    assert!(&rt; is_unread(&answer));
    assert_same(&rt, (input.reads, out.bytes), (MOST, 0));
}

// After the header line there are 1,290,554 whole lines of 13 bytes, and a part of another one.
#[test]
fn a_trace_without_end_is_read_so_often(rt: HostRuntime) {
    let mut trace = Drops::new(b"vme 1\n", NO_BOARD, u32::MAX);
    let mut out = Counting { bytes: 0 };
    let answer = replayed_from(&rt, &mut trace, &mut out);
    assert!(&rt; is_unread(&answer));
    assert_same(&rt, (trace.reads, out.bytes), (MOST, 13_084_990));
}

// The reads of the scenario count too, so there are 1,290,546 whole lines after it.
#[test]
fn a_trace_without_end_after_its_scenario_is_read_so_often(rt: HostRuntime) {
    let mut input = Drops::new(BOARD_AND_HEADER, NO_BOARD, u32::MAX);
    let mut out = Counting { bytes: 0 };
    let answer = joined_from(&rt, &mut input, &mut out);
    assert!(&rt; is_unread(&answer));
    assert_same(&rt, (input.reads, out.bytes), (MOST, 13_084_902));
}

// Ten thousand tenures of six edges each.
#[test]
fn a_long_trace_is_read_to_its_end(rt: HostRuntime) {
    let mut trace = Drops::new(b"vme 1\n", TENURE, 420_006);
    let mut out = Vec::new(rt.alloc());
    let answer = checked_from(&rt, &mut trace, &mut out);
    assert!(&rt; matches!(answer, Ok(Status::Done)));
    assert_same(&rt, out.as_slice(), b"legal 60000\n".as_slice());
}

/// A writer that counts how often it is flushed.
#[derive(Drop)]
struct Flushes {
    count: u32,
}

impl Write for Flushes {
    fn write(&mut self, buf: &[u8]) -> io::Result<usize> {
        Ok(buf.len())
    }

    fn flush(&mut self) -> io::Result<()> {
        self.count = self.count.saturating_add(1);
        Ok(())
    }
}

// A flush after the byte that ends the header line, after each of the 42 other bytes, and after the
// closing line.
#[test]
fn each_short_piece_is_handed_on(rt: HostRuntime) {
    let mut out = Flushes { count: 0 };
    let mut trace = Drops::new(b"vme 1\n", TENURE, 48);
    let answer = replayed_from(&rt, &mut trace, &mut out);
    assert!(&rt; matches!(answer, Ok(Status::Done)));
    assert_same(&rt, out.count, 44);
    let mut out = Flushes { count: 0 };
    let mut input = Drops::new(BOARD_AND_HEADER, TENURE, 148);
    let answer = joined_from(&rt, &mut input, &mut out);
    assert!(&rt; matches!(answer, Ok(Status::Done)));
    assert_same(&rt, out.count, 44);
}

// A check writes its one line at its end.
#[test]
fn a_check_is_handed_on_once(rt: HostRuntime) {
    let mut out = Flushes { count: 0 };
    let mut trace = Drops::new(b"vme 1\n", TENURE, 48);
    let answer = checked_from(&rt, &mut trace, &mut out);
    assert!(&rt; matches!(answer, Ok(Status::Done)));
    assert_same(&rt, out.count, 1);
}

// 147,006 bytes are two pieces of 69,632 bytes and a short one. There is a flush after the first
// piece, after the last one, and after the closing line.
#[test]
fn a_whole_piece_is_held_back(rt: HostRuntime) -> Result<(), AllocError> {
    let mut text = Vec::new(rt.alloc());
    text.extend_from_slice(b"vme 1\n")?;
    for _tenure in 0..3_500 {
        text.extend_from_slice(TENURE)?;
    }
    let mut out = Flushes { count: 0 };
    let answer = replayed_from(&rt, &mut text.as_slice(), &mut out);
    assert!(&rt; matches!(answer, Ok(Status::Done)));
    assert_same(&rt, out.count, 3);
    Ok(())
}

/// A text behind a reader or a writer, whose first calls are interrupted.
#[derive(Drop)]
struct Interrupted<'a> {
    left: u32,
    /// What is left to read.
    text: &'a [u8],
    /// How many bytes were written.
    bytes: usize,
}

impl<'a> Interrupted<'a> {
    fn new(left: u32, text: &'a [u8]) -> Interrupted<'a> {
        Interrupted {
            left,
            text,
            bytes: 0,
        }
    }

    /// Whether the next call goes through.
    fn goes_through(&mut self) -> io::Result<()> {
        if self.left > 0 {
            self.left -= 1;
            return Err(io::Error::from(ErrorKind::Interrupted));
        }
        Ok(())
    }
}

impl<'a> Read for Interrupted<'a> {
    fn read(&mut self, buf: &mut [u8]) -> io::Result<usize> {
        self.goes_through()?;
        self.text.read(buf)
    }
}

impl<'a> Write for Interrupted<'a> {
    fn write(&mut self, buf: &[u8]) -> io::Result<usize> {
        self.goes_through()?;
        self.bytes = self.bytes.saturating_add(buf.len());
        Ok(buf.len())
    }

    fn flush(&mut self) -> io::Result<()> {
        self.goes_through()
    }
}

/// How often a read is interrupted, what it returns, and how many interruptions are left.
const INTERRUPTED: [(u32, Result<usize, Fault>, u32); 4] = [
    (0, Ok(0), 0),
    (TRIES - 1, Ok(0), 0),
    (TRIES, Err(Fault::Read), 0),
    (u32::MAX, Err(Fault::Read), u32::MAX - TRIES),
];

#[test]
fn an_interrupted_read_is_tried_so_often(rt: HostRuntime) {
    for (times, want, left) in INTERRUPTED {
        let mut input = Interrupted::new(times, b"");
        let answer = read_piece(&mut input, &mut [0; 512]);
        assert_same(&rt, (answer, input.left), (want, left));
    }
}

/// How often a write is interrupted, what it returns, how many interruptions are left, and how many
/// bytes were taken.
const INTERRUPTED_WRITES: [(u32, Result<(), Fault>, u32, usize); 4] = [
    (0, Ok(()), 0, 5),
    (TRIES - 1, Ok(()), 0, 5),
    (TRIES, Err(Fault::Write), 0, 0),
    (u32::MAX, Err(Fault::Write), u32::MAX - TRIES, 0),
];

#[test]
fn an_interrupted_write_is_tried_so_often(rt: HostRuntime) {
    for (times, want, left, bytes) in INTERRUPTED_WRITES {
        let mut out = Patient(Interrupted::new(times, b""));
        let answer = put(&mut out, b"1 ok\n");
        assert_same(&rt, (answer, out.0.left, out.0.bytes), (want, left, bytes));
    }
}

// A flush takes no byte. It is tried equally often whether the writer is patient or not.
#[test]
fn an_interrupted_flush_is_tried_so_often(rt: HostRuntime) {
    for (times, want, left, _) in INTERRUPTED_WRITES {
        let mut out = Interrupted::new(times, b"");
        let answer = flush(&mut out);
        assert_same(&rt, (answer, out.left, out.bytes), (want, left, 0));
        let mut out = Patient(Interrupted::new(times, b""));
        let answer = flush(&mut out);
        assert_same(&rt, (answer, out.0.left, out.0.bytes), (want, left, 0));
    }
}

/// The report of one tenure on a writer that is interrupted `times` times: the answer, the
/// interruptions left, and the bytes taken.
fn reported(rt: &impl AllocGlobal, times: u32) -> (Result<Status, EngineFault>, u32, usize) {
    let mut trace = Drops::new(b"vme 1\n", TENURE, 48);
    let mut out = Patient(Interrupted::new(times, b""));
    let answer = replayed_from(rt, &mut trace, &mut out);
    (answer, out.0.left, out.0.bytes)
}

// Six lines of five bytes, and `accepted 6 refused 0` with its line feed.
#[test]
fn an_interrupted_report_is_tried_so_often(rt: HostRuntime) {
    let (answer, left, bytes) = reported(&rt, TRIES - 1);
    assert!(&rt; matches!(answer, Ok(Status::Done)));
    assert_same(&rt, (left, bytes), (0, 51));
    let (answer, left, bytes) = reported(&rt, u32::MAX);
    assert!(&rt; matches!(answer, Err(EngineFault::Trace(Fault::Write))));
    assert_same(&rt, (left, bytes), (u32::MAX - TRIES, 0));
}

// The text of a scenario is read to its end.
#[test]
fn an_interrupted_scenario_is_tried_so_often(rt: HostRuntime) {
    let mut text = Vec::new(rt.alloc());
    let mut input = Patient(Interrupted::new(TRIES - 1, ONE_BOARD));
    let answer = input.read_to_end(&mut text);
    assert!(&rt; matches!(answer, Ok(100)));
    assert_same(&rt, text.as_slice(), ONE_BOARD);
    let mut text = Vec::new(rt.alloc());
    let mut input = Patient(Interrupted::new(u32::MAX, ONE_BOARD));
    let answer = input.read_to_end(&mut text);
    assert!(&rt; matches!(answer, Err(error) if error.kind() == ErrorKind::TimedOut));
    assert_same(&rt, (input.0.left, text.len()), (u32::MAX - TRIES, 0));
}

/// What an input of a scenario and a header line returns if it is interrupted `times` times, and
/// how many bytes are written.
fn joined_so(rt: &impl AllocGlobal, times: u32) -> (Result<Status, EngineFault>, u64) {
    let mut input = Interrupted::new(times, BOARD_AND_HEADER);
    let mut out = Counting { bytes: 0 };
    let answer = joined_from(rt, &mut input, &mut out);
    (answer, out.bytes)
}

// `accepted 0 refused 0` and a line feed are 21 bytes.
#[test]
fn an_interrupted_input_is_tried_so_often(rt: HostRuntime) {
    let (answer, bytes) = joined_so(&rt, TRIES - 1);
    assert!(&rt; matches!(answer, Ok(Status::Done)));
    assert_same(&rt, bytes, 21);
    let (answer, bytes) = joined_so(&rt, TRIES);
    assert!(&rt; matches!(answer, Err(EngineFault::CannotRead)));
    assert_same(&rt, bytes, 0);
}

/// What a read of a trace returns if it is interrupted `times` times. The trace has no header line.
fn pumped(rt: &impl AllocGlobal, times: u32) -> Result<bool, Fault> {
    let mut edges: Vec<Edge> = Vec::new(rt.alloc());
    pump(
        &mut Reader::new(),
        &mut Interrupted::new(times, b""),
        &mut edges,
    )
}

#[test]
fn an_interrupted_trace_is_tried_so_often(rt: HostRuntime) {
    assert_same(&rt, pumped(&rt, TRIES - 1), Err(Fault::Header));
    assert_same(&rt, pumped(&rt, TRIES), Err(Fault::Read));
}
