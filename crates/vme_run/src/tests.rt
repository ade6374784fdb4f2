//! That the boards run: the traces of two scenarios.
use crate::run;
use std::process::Abort;
use std::test::*;
use vme_engines::{Status, check};
use vme_model::Version;

const ONE_BOARD: &str =
    "slots = 1\narbiter = \"sgl\"\n\n[[board]]\nslot = 1\nrequester = { level = 3, release = \"rwd\", burst = 1 }\n";

const TWO_BOARDS: &str =
    "slots = 2\narbiter = \"sgl\"\n\n[[board]]\nslot = 1\nrequester = { level = 3, release = \"rwd\", burst = 1 }\n\n[[board]]\nslot = 2\nrequester = { level = 3, release = \"rwd\", burst = 1 }\n";

/// One edge can be made at power-up: the request.
#[test]
fn one_edge(rt: HostRuntime) -> Result<(), Fail> {
    let mut out = Vec::new(rt.alloc());
    let status = run(
        &rt,
        rt.alloc(),
        ONE_BOARD.as_bytes(),
        1,
        1,
        &mut out,
        Version::One,
    )?;
    assert!(rt; out.as_slice() == b"vme 1\n1 br-\n".as_slice());
    assert!(rt; status == Status::Limit);
    Ok(())
}

/// What two boards write is a legal trace, and more than its header.
#[test]
fn two_boards(rt: HostRuntime) -> Result<(), Fail> {
    let mut out = Vec::new(rt.alloc());
    let text = TWO_BOARDS.as_bytes();
    run(&rt, rt.alloc(), text, 50, 10_000, &mut out, Version::Two)?;
    assert!(rt; out.as_slice().starts_with(b"vme 2\n"));
    assert!(rt; out.len() > 12);
    let mut verdict = Vec::new(rt.alloc());
    let checked = check(rt.alloc(), text, &mut out.as_slice(), &mut verdict)?;
    assert!(rt; checked == Status::Done);
    assert!(rt; verdict.as_slice().starts_with(b"legal "));
    Ok(())
}
