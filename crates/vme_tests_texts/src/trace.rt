//! What no clause says: what failing readers and writers lead to, and that calls succeed.
use crate::asserts::assert_same;
use crate::devices::{Narrow, Pieces};
use std::process::Abort;
use std::test::Fail;
use vme_model::{Driver, Edge, Version, Wire};
use vme_trace::{Fault, Reader, parse, pump, put, write};

/// Slot 1 requests the bus.
const REQUEST: Edge = Edge {
    driver: Driver::Slot(1),
    wire: Wire::Br,
    fall: true,
    value: None,
};

/// Asserts what the reader returns for one read of the input.
fn assert_pumped(
    rt: &impl Abort,
    reader: &mut Reader,
    input: &mut Pieces,
    edges: &mut Vec<Edge>,
    want: Result<bool, Fault>,
) {
    assert_same(rt, pump(reader, input, edges), want);
}

fn assert_edges(rt: &impl Abort, edges: &[Edge], want: &[Edge]) {
    assert_same(rt, edges, want);
}

#[test]
fn a_read_that_fails_is_the_last(rt: HostRuntime) {
    let mut edges = Vec::new(rt.alloc());
    let mut reader = Reader::new();
    let mut input = Pieces::new(b"vme 1\n1 br-\n", 6)
        .interrupted_at(1)
        .failing_at(4);
    for want in [Ok(true), Ok(true), Err(Fault::Read), Err(Fault::Failed)] {
        assert_pumped(&rt, &mut reader, &mut input, &mut edges, want);
    }
    assert_same(&rt, edges.len(), 1);
}

/// Asserts that an edge that can be spelled cannot be written to this writer.
fn assert_not_written(rt: &impl Abort, edge: Edge, out: &mut Narrow) {
    if edge.is_well_formed() {
        assert_same(rt, write(Version::One, &[edge], out), Err(Fault::Write));
    }
}

#[test]
fn a_write_that_fails_leaves_a_front(rt: HostRuntime) {
    let mut out = Narrow::new(rt.alloc(), 5, 9);
    assert_not_written(&rt, REQUEST, &mut out);
    assert_same(&rt, out.taken(), b"vme 1\n1 b".as_slice());
    assert_same(&rt, put(&mut out, b"r-"), Err(Fault::Write));
}

/// Each way to read needs memory for a list of edges. `acceptance/failing-calls` refuses each
/// request in turn.
#[test]
fn each_reading_finds_memory(rt: HostRuntime) -> Result<(), Fail> {
    let text: &[u8] = b"vme 1\n1 br-\n";
    let mut parsed = Vec::new(rt.alloc());
    parse(text, &mut parsed)?;
    let mut fed = Vec::new(rt.alloc());
    Reader::new().feed(text, &mut fed)?;
    let mut pumped = Vec::new(rt.alloc());
    pump(&mut Reader::new(), &mut { text }, &mut pumped)?;
    assert_edges(&rt, &fed, &parsed);
    assert_edges(&rt, &pumped, &parsed);
    Ok(())
}

/// The other faults are printed in cases.
#[test]
fn a_used_up_reader_has_its_text(rt: HostRuntime) -> Result<(), Fail> {
    assert!(rt;
        format!(in rt.alloc(); "{}", Fault::Failed)?.as_str() == "X7 the reader is used up"
    );
    Ok(())
}
