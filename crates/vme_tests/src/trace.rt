//! What no clause says: printed texts, outside examples of the format, and that calls succeed.
use crate::boards::edge;
use crate::devices::{Narrow, Pieces};
use vme_model::{Cycle, Driver, Edge, Version, Wire};
use vme_trace::{Fault, Reader, parse, pump, put, write};

/// Two boards ask for an interrupt at one level; the handler serves both.
const TWO_SERVED: &[u8] =
    b"vme 1\n2 irq-\n3 irq-\n1 br-\nc bg3-\n1 bbsy-\n1 br+\nc bg3+\n1 addr- i4\n1 as-\n1 ds-\nc iack-\n3 dtack-\n2 dtack-\n1 ds+\n2 dtack+\n2 irq+\n1 addr+\n1 as+\n1 addr- i4\n1 as-\nc iack+\n1 as-\n1 ds-\nc iack-\n2 iackout-\n3 dtack-\n";

fn board_edge(slot: u8, wire: Wire, fall: bool, value: Option<Cycle>) -> Edge {
    Edge {
        value,
        ..edge(Driver::Slot(slot), wire, fall)
    }
}

#[test]
fn reads_a_line_in_two_pieces(rt: HostRuntime) {
    let mut edges = Vec::new(rt.alloc());
    let mut reader = Reader::new();
    assert_eq!(rt; reader.version(), None);
    assert_eq!(rt; reader.feed(b"vme 1\n1 b", &mut edges), Ok(()));
    assert_eq!(rt; reader.version(), Some(Version::One));
    assert_eq!(rt; reader.feed(b"r-\n", &mut edges), Ok(()));
    assert_eq!(rt;
        edges.as_slice(),
        [board_edge(1, Wire::Br, true, None)].as_slice()
    );
    assert_eq!(rt; reader.feed(b"c bg", &mut edges), Ok(()));
    assert_eq!(rt; reader.finish(), Err(Fault::CutOff));
    assert_eq!(rt; reader.feed(b"3-\n", &mut edges), Err(Fault::Failed));
    assert_eq!(rt; reader.finish(), Err(Fault::Failed));
    let mut input = Pieces::new(b"c bg3-\n", 512);
    assert_eq!(rt;
        pump(&mut reader, &mut input, &mut edges),
        Err(Fault::Failed)
    );
    assert_eq!(rt; input.reads(), 0);
    assert_eq!(rt; edges.len(), 1);
}

#[test]
fn any_cut_reads_the_same(rt: HostRuntime) {
    let mut whole = Vec::new(rt.alloc());
    assert_eq!(rt; parse(TWO_SERVED, &mut whole), Ok(Version::One));
    assert_eq!(rt; whole.len(), 26);
    for place in 0..TWO_SERVED.len() {
        let (front, rest) = TWO_SERVED.split_at(place);
        let mut edges = Vec::new(rt.alloc());
        let mut reader = Reader::new();
        assert_eq!(rt; reader.feed(front, &mut edges), Ok(()));
        assert_eq!(rt; reader.feed(rest, &mut edges), Ok(()));
        assert_eq!(rt; reader.finish(), Ok(()));
        assert_eq!(rt; edges.as_slice(), whole.as_slice(), "cut at {place}");
    }
    let mut edges = Vec::new(rt.alloc());
    let mut input = Pieces::new(TWO_SERVED, 1);
    let mut reader = Reader::new();
    for _ in 0..TWO_SERVED.len() {
        assert_eq!(rt; pump(&mut reader, &mut input, &mut edges), Ok(true));
    }
    assert_eq!(rt; pump(&mut reader, &mut input, &mut edges), Ok(false));
    assert_eq!(rt;
        pump(&mut reader, &mut input, &mut edges),
        Err(Fault::Failed)
    );
    assert_eq!(rt; edges.as_slice(), whole.as_slice());
}

#[test]
fn writes_what_was_read(rt: HostRuntime) {
    let mut edges = Vec::new(rt.alloc());
    assert_eq!(rt; parse(TWO_SERVED, &mut edges), Ok(Version::One));
    if edges.iter().all(|edge| edge.is_well_formed()) {
        let mut text = Vec::new(rt.alloc());
        assert_eq!(rt; write(Version::One, edges.as_slice(), &mut text), Ok(()));
        assert_eq!(rt; text.as_slice(), TWO_SERVED);
    }
}

#[test]
fn refuses_what_is_no_trace(rt: HostRuntime) {
    let long = [b'a'; 65];
    for (text, want) in [
        (b"".as_slice(), Fault::Header),
        (b"vme 1", Fault::CutOff),
        (b"vme 3\n", Fault::Header),
        (b"vme 1\r\n", Fault::Header),
        (b" vme 1\n", Fault::Header),
        (b"\n", Fault::Header),
        (&long[..64], Fault::CutOff),
        (&long, Fault::TooLong { n: 1 }),
    ] {
        let mut edges = Vec::new(rt.alloc());
        assert_eq!(rt; parse(text, &mut edges), Err(want));
        assert_eq!(rt; edges.len(), 0);
    }
}

#[test]
fn refuses_a_line_that_is_no_edge(rt: HostRuntime) {
    let line = Err(Fault::Line { n: 2 });
    let long = Err(Fault::TooLong { n: 2 });
    for (text, want) in [
        (b"\n".as_slice(), line),
        (b"01 br-\n", line),
        (b"22 br-\n", line),
        (b"0 br-\n", line),
        (b"1  br-\n", line),
        (b"1 br-\r\n", line),
        (b"1 br- \n", line),
        (b"1 BR-\n", line),
        (b"1 addr-\n", line),
        (b"1 addr- i8\n", line),
        (b"1 addr- i0\n", line),
        (b"1 addr- r0\n", line),
        (b"1 addr- r22\n", line),
        (b"1 addr- r05\n", line),
        (b"1 addr+ r1\n", line),
        (b"1 br- i1\n", line),
        (b"c br-\n", line),
        (b"c bg4-\n", line),
        (b"1 bg3-\n", line),
        (b"vme 1\n", line),
        (
            b"aaaaaaaaaaaaaaaaaaaaaaaaaaaaaaaaaaaaaaaaaaaaaaaaaaaaaaaaaaaaaaaa\n",
            line,
        ),
        (
            b"aaaaaaaaaaaaaaaaaaaaaaaaaaaaaaaaaaaaaaaaaaaaaaaaaaaaaaaaaaaaaaaaa",
            long,
        ),
        (
            b"aaaaaaaaaaaaaaaaaaaaaaaaaaaaaaaaaaaaaaaaaaaaaaaaaaaaaaaaaaaaaaaaa\n",
            long,
        ),
        (b"1 br-", Err(Fault::CutOff)),
        (b"21 addr- r21\n", Ok(())),
        (b"c bclr+\n", Ok(())),
    ] {
        let mut edges = Vec::new(rt.alloc());
        let mut reader = Reader::new();
        assert_eq!(rt; reader.feed(b"vme 1\n", &mut edges), Ok(()));
        let found = reader.feed(text, &mut edges);
        let found = if found.is_ok() {
            reader.finish()
        } else {
            found
        };
        assert_eq!(rt; found, want);
    }
}

#[test]
fn reads_the_longest_line(rt: HostRuntime) {
    let mut edges = Vec::new(rt.alloc());
    assert_eq!(rt;
        parse(b"vme 2\n21 addr- r21\n7 addr- i6\n", &mut edges),
        Ok(Version::Two)
    );
    let access = board_edge(21, Wire::Addr, true, Some(Cycle::Access(21)));
    let acknowledge = board_edge(7, Wire::Addr, true, Some(Cycle::Acknowledge(6)));
    assert_eq!(rt; edges.as_slice(), [access, acknowledge].as_slice());
}

#[test]
fn keeps_the_edges_before_a_fault(rt: HostRuntime) {
    let mut edges = Vec::new(rt.alloc());
    let mut reader = Reader::new();
    let fault = reader.feed(b"vme 2\n1 br-\n1 bg3-\n1 br+\n", &mut edges);
    assert_eq!(rt; fault, Err(Fault::Line { n: 3 }));
    assert_eq!(rt; reader.version(), Some(Version::Two));
    assert_eq!(rt;
        edges.as_slice(),
        [board_edge(1, Wire::Br, true, None)].as_slice()
    );
}

#[test]
fn a_read_that_fails_is_the_last(rt: HostRuntime) {
    let mut edges = Vec::new(rt.alloc());
    let mut reader = Reader::new();
    let mut input = Pieces::new(b"vme 1\n1 br-\n", 6)
        .interrupted_at(1)
        .failing_at(4);
    assert_eq!(rt; pump(&mut reader, &mut input, &mut edges), Ok(true));
    assert_eq!(rt; pump(&mut reader, &mut input, &mut edges), Ok(true));
    assert_eq!(rt; pump(&mut reader, &mut input, &mut edges), Err(Fault::Read));
    assert_eq!(rt;
        pump(&mut reader, &mut input, &mut edges),
        Err(Fault::Failed)
    );
    assert_eq!(rt; edges.len(), 1);
}

#[test]
fn a_write_that_fails_leaves_a_front(rt: HostRuntime) {
    let mut out = Narrow::new(rt.alloc(), 5, 9);
    let edge = board_edge(1, Wire::Br, true, None);
    if edge.is_well_formed() {
        assert_eq!(rt; write(Version::One, &[edge], &mut out), Err(Fault::Write));
    }
    assert_eq!(rt; out.taken(), b"vme 1\n1 b".as_slice());
    assert_eq!(rt; put(&mut out, b"r-"), Err(Fault::Write));
}

#[test]
fn faults_have_their_texts(rt: HostRuntime) -> Result<(), std::alloc::AllocError> {
    for (fault, want) in [
        (
            Fault::Header,
            "X1 the trace does not begin with vme 1 or vme 2",
        ),
        (Fault::Line { n: 3 }, "X2 line 3 is no edge"),
        (Fault::TooLong { n: 4 }, "X3 line 4 is over 64 bytes"),
        (Fault::CutOff, "X4 the trace is cut off"),
        (Fault::Read, "X5 the trace cannot be read"),
        (Fault::Memory, "X6 no memory"),
        (Fault::Failed, "X7 the reader is used up"),
        (Fault::Write, "X8 the output cannot be written"),
    ] {
        assert_eq!(rt; format!(in rt.alloc(); "{fault}")?.as_str(), want);
    }
    Ok(())
}
