//! A line that two drivers pull.
use crate::OrLine;

#[test]
fn a_line_is_low_until_its_last_driver_lets_go(rt: HostRuntime) {
    let mut line = OrLine::new();
    assert!(rt; !line.is_low());
    line.pull();
    line.pull();
    line.release();
    assert!(rt; line.is_low());
    line.release();
    assert!(rt; !line.is_low());
}
