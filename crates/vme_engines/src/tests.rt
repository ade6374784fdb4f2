//! What no clause says: the happy path of each engine, and devices that fail.
use crate::{EngineFault, Status, joined};
use std::io;
use std::io::{Read, Write};
use std::test::Fail;
use vme_trace::Fault;

/// Gives a byte per read, and fails at a read.
#[derive(Drop)]
struct Drip<'a> {
    rest: &'a [u8],
    reads: u32,
    fails_at: u32,
}

impl Read for Drip<'_> {
    fn read(&mut self, buf: &mut [u8]) -> io::Result<usize> {
        self.reads = self.reads.saturating_add(1);
        if self.reads == self.fails_at {
            return Err(io::Error::from(io::ErrorKind::Other));
        }
        match self.rest.split_first() {
            Some((first, rest)) if !buf.is_empty() => {
                buf[0] = *first;
                self.rest = rest;
                Ok(1)
            }
            _ => Ok(0),
        }
    }
}

/// Takes some bytes, and then fails.
#[derive(Drop)]
struct Tight {
    taken: Vec<u8>,
    room: usize,
}

impl Write for Tight {
    fn write(&mut self, buf: &[u8]) -> io::Result<usize> {
        if self.room == 0 {
            return Err(io::Error::from(io::ErrorKind::Other));
        }
        let count = buf.len().min(self.room);
        self.taken.extend_from_slice(&buf[..count])?;
        self.room -= count;
        Ok(count)
    }

    fn flush(&mut self) -> io::Result<()> {
        Ok(())
    }
}

/// One board that requests the bus at level 3.
const ONE_BOARD: &[u8] = b"slots = 1
arbiter = \"sgl\"

[[board]]
slot = 1
requester = { level = 3, release = \"rwd\", burst = 1 }
";

/// One tenure of the bus.
const TENURE: &[u8] = b"vme 1
1 br-
c bg3-
1 bbsy-
1 br+
c bg3+
1 bbsy+
";

const REPORT: &[u8] = b"1 ok
2 ok
3 ok
4 ok
5 ok
6 ok
accepted 6 refused 0
";

/// The two in one input.
const BOTH: &[u8] = b"slots = 1
arbiter = \"sgl\"

[[board]]
slot = 1
requester = { level = 3, release = \"rwd\", burst = 1 }
vme 1
1 br-
c bg3-
1 bbsy-
1 br+
c bg3+
1 bbsy+
";

#[test]
fn joins_a_tenure(rt: HostRuntime) -> Result<(), Fail> {
    let mut out = Vec::new(rt.alloc());
    let mut input = BOTH;
    assert!(rt; joined(rt.alloc(), &mut input, &mut out) == Ok(Status::Done));
    assert!(rt; out.as_slice() == REPORT);
    Ok(())
}

#[test]
fn joins_byte_by_byte(rt: HostRuntime) -> Result<(), Fail> {
    let mut out = Vec::new(rt.alloc());
    let mut input = Drip {
        rest: BOTH,
        reads: 0,
        fails_at: 0,
    };
    assert!(rt; joined(rt.alloc(), &mut input, &mut out) == Ok(Status::Done));
    assert!(rt; out.as_slice() == REPORT);
    Ok(())
}

#[test]
fn a_failing_read_before_the_trace_is_no_scenario(rt: HostRuntime) -> Result<(), Fail> {
    let mut out = Vec::new(rt.alloc());
    let mut input = Drip {
        rest: BOTH,
        reads: 0,
        fails_at: 13,
    };
    assert!(rt; joined(rt.alloc(), &mut input, &mut out) == Err(EngineFault::CannotRead));
    assert!(rt; out.is_empty());
    Ok(())
}

#[test]
fn no_header_line_is_no_trace(rt: HostRuntime) -> Result<(), Fail> {
    let cases: [&[u8]; 6] = [b"", b"slots = 1\n", b"vme 1", b"vme 1\r\n", b" vme 1\n", b"vme 3\n"];
    for case in cases {
        let mut out = Vec::new(rt.alloc());
        let mut input = case;
        let answer = joined(rt.alloc(), &mut input, &mut out);
        assert!(rt; answer == Err(EngineFault::Trace(Fault::Header)), "{case:?}");
        assert!(rt; out.is_empty());
    }
    Ok(())
}

#[test]
fn a_full_device_cuts_the_report(rt: HostRuntime) -> Result<(), Fail> {
    let mut input = BOTH;
    let mut out = Tight {
        taken: Vec::new(rt.alloc()),
        room: 7,
    };
    assert!(rt; joined(rt.alloc(), &mut input, &mut out) == Err(EngineFault::Trace(Fault::Write)));
    assert!(rt; out.taken.as_slice() == b"1 ok\n2 ".as_slice());
    Ok(())
}
