//! A grant and an acknowledge that ripple along their chains, and a line that two drivers pull.
use vme_chain::Chain;
use vme_iack::IackChain;
use vme_lines::OrLine;

#[test]
fn a_grant_ripples(rt: HostRuntime) {
    let mut chain = Chain::new(&[1, 3, 21]);
    assert!(rt; chain.is_clear());
    chain.fall(0);
    assert!(rt; chain.is_in_low(1) && !chain.is_in_low(2) && !chain.is_in_low(3));
    chain.fall(1);
    assert!(rt; chain.is_in_low(2) && chain.is_in_low(3) && !chain.is_in_low(4));
    chain.rise(0);
    assert!(rt; !chain.is_in_low(1) && chain.is_in_low(2));
    chain.fall(2);
    assert!(rt; chain.is_in_low(21) && !chain.is_past_end() && !chain.is_in_low(22));
    chain.fall(3);
    assert!(rt; chain.is_past_end() && chain.is_in_low(22));
    assert_eq!(rt; chain.low_count(), 3);
    assert_eq!(rt; chain.output_of(21), 3);
    assert!(rt; !chain.is_clear());
}

#[test]
fn an_acknowledge_passes_every_board(rt: HostRuntime) {
    let mut chain = IackChain::new(&[2, 5]);
    assert!(rt; chain.is_clear());
    chain.fall(0);
    assert!(rt; chain.is_in_low(2) && !chain.is_in_low(5));
    chain.fall(1);
    assert!(rt; chain.is_in_low(5) && !chain.is_past_end());
    chain.fall(2);
    assert!(rt; chain.is_past_end());
    assert_eq!(rt; chain.low_count(), 3);
    chain.rise(0);
    assert!(rt; !chain.is_in_low(1) && !chain.is_in_low(2) && chain.is_in_low(5));
    assert_eq!(rt; chain.output_of(5), 2);
    assert!(rt; !chain.is_clear());
}

#[test]
fn a_chain_that_no_board_works_ends_at_the_controller(rt: HostRuntime) {
    let mut chain = IackChain::new(&[]);
    assert!(rt; !chain.is_past_end());
    chain.fall(0);
    assert!(rt; chain.is_past_end());
    chain.rise(0);
    assert!(rt; chain.is_clear());
}

#[test]
fn a_line_is_low_until_its_last_driver_lets_go(rt: HostRuntime) {
    let mut line = OrLine::new();
    assert!(rt; !line.is_low());
    line.pull();
    line.pull();
    line.release();
    assert!(rt; line.is_low());
    line.release();
    assert!(rt; !line.is_low());
}
