//! What no clause says of `show`: worked examples to the byte, and its colors.
use std::process::Abort;
use vme_engines::{EngineFault, Status, show};

/// A stretch of a trace on a plan, and its picture.
#[derive(Drop)]
struct Shown {
    scenario: &'static [u8],
    trace: &'static [u8],
    from: u64,
    to: u64,
    picture: &'static [u8],
}

/// A request that comes after the grant was passed on.
const LATE: Shown = Shown {
    scenario: b"slots = 4
arbiter = \"sgl\"
board = [
  { slot = 1 },
  { slot = 2, requester = { level = 3, release = \"rwd\", burst = 1 } },
  { slot = 3, requester = { level = 3, release = \"rwd\", burst = 1 } },
  { slot = 4, requester = { level = 3, release = \"rwd\", burst = 1 } },
]
",
    trace: b"vme 1
4 br-
c bg3-
2 bgout-
2 br-
3 br-
3 bgout-
3 bbsy-
2 bbsy-
4 bbsy-
3 br+
c bg3+
3 bbsy+
2 bgout+
c bg3-
3 bbsy+
c bg3-
2 bbsy-
",
    from: 1,
    to: 60,
    picture: b"edges 1 to 17
                    1
           12345678901234567
c bg3      -\\________/--x-\\_
2 br       ---\\_____________
2 bgout    --\\_________/----
2 bbsy     -------x--------\\
3 br       ----\\____/-------
3 bgout    -----x-----------
3 bbsy     ------\\____x__/--
4 br       \\________________
4 bbsy     --------x--------
grant at   .bcccc.........b.
holder     ......cccccccc..b
shown      .................
verdict    .....x.xx..x.x...
",
};

/// Two boards that can interrupt at one level, and one that handles it.
const TWO_INTERRUPTERS: &[u8] = b"slots = 3
arbiter = \"sgl\"
board = [
  { slot = 1, requester = { level = 3, release = \"rwd\", burst = 2 }, handler = [4] },
  { slot = 2, interrupter = { level = 4, kind = \"roak\", status = 65 } },
  { slot = 3, interrupter = { level = 4, kind = \"roak\", status = 66 } },
]
";

/// Both ask, and the one nearer to the controller is served first.
const SERVED: &[u8] = b"vme 1
2 irq-
3 irq-
1 br-
c bg3-
1 bbsy-
1 br+
c bg3+
1 addr- i4
1 as-
1 ds-
c iack-
3 dtack-
2 dtack-
1 ds+
2 dtack+
2 irq+
1 addr+
1 as+
1 addr- i4
1 as-
c iack+
1 as-
1 ds-
c iack-
2 iackout-
3 dtack-
1 ds+
3 dtack+
3 irq+
1 addr+
1 as+
";

/// The rest of that trace, from where an acknowledge is shown.
const INTERRUPTERS: Shown = Shown {
    scenario: TWO_INTERRUPTERS,
    trace: SERVED,
    from: 8,
    to: 31,
    picture: b"edges 8 to 31
             1         2         3
           890123456789012345678901
c iack     ---\\_________/--\\_______
1 addr     \\________/-\\__________/-
1 as       -\\________/-x-\\________/
1 ds       --\\___/--------\\___/----
2 irq      ________/---------------
2 iackout  -----------------\\______
2 dtack    -----\\_/----------------
3 irq      _____________________/--
3 dtack    ----x-------------\\_/---
grant at   ........................
holder     aaaaaaaaaaaaaaaaaaaaaaaa
shown      444444444..44444444444..
verdict    ....x!......x.....!.....
",
};

/// A request that is withdrawn, and a grant that is timed out.
const WITHDRAWN: Shown = Shown {
    scenario: b"slots = 2
arbiter = \"sgl\"
board = [
  { slot = 1, requester = { level = 3, release = \"rwd\", burst = 1 } },
  { slot = 2, requester = { level = 3, release = \"rwd\", burst = 1 } },
]
",
    trace: b"vme 2
2 br-
c bg3-
2 br+
c bg3+
1 bgout-
2 bgout-
2 br-
c bg3+
1 br-
c bg3-
1 bgout+
c bg3-
2 bgout+
c bg3-
1 bbsy-
1 br+
c bg3+
1 bbsy+
c bg3-
1 bgout-
2 bbsy-
",
    from: 1,
    to: 60,
    picture: b"edges 1 to 21
                    1         2
           123456789012345678901
c bg3      -\\_x___/-x-x-\\__/-\\__
1 br       --------\\______/-----
1 bgout    ----\\_____/--------\\_
1 bbsy     --------------\\__/---
2 br       \\_/---\\______________
2 bgout    -----\\______/--------
2 bbsy     --------------------\\
grant at   .aaab........a....ab.
holder     ..............aaa...b
shown      .....................
verdict    ...x.....x.x.........
",
};

/// A refused take and an answer, in color.
const COLORED: Shown = Shown {
    scenario: TWO_INTERRUPTERS,
    trace: SERVED,
    from: 11,
    to: 13,
    picture: b"edges 11 to 13

           123
c iack     \\__
2 dtack    --\\
3 dtack    -\x1b[31mx\x1b[0m-
grant at   ...
holder     aaa
shown      444
verdict    .\x1b[31mx\x1b[0m\x1b[32m!\x1b[0m
",
};

/// Asserts what is written of a stretch, and how that ends.
fn assert_shown(
    rt: &(impl Abort + AllocGlobal),
    shown: &Shown,
    color: bool,
    wanted: Result<Status, EngineFault>,
) {
    assert!(rt; 1 <= shown.from && shown.from <= shown.to);
    assert!(rt; shown.to - shown.from < 200);
    let mut out = Vec::new(rt.alloc());
    let mut trace = shown.trace;
    let answer = show(
        rt.alloc(),
        shown.scenario,
        &mut trace,
        shown.from,
        shown.to,
        color,
        &mut out,
    );
    assert!(rt; answer == wanted);
    assert!(rt; out.as_slice() == shown.picture);
}

#[test]
fn shows_worked_examples(rt: HostRuntime) {
    for shown in [LATE, INTERRUPTERS, WITHDRAWN] {
        assert_shown(&rt, &shown, false, Ok(Status::SomeRefused));
    }
}

#[test]
fn colors_what_is_refused_and_what_is_delivered(rt: HostRuntime) {
    assert_shown(&rt, &COLORED, true, Ok(Status::SomeRefused));
}
