//! An acknowledge that two boards pass on.
use crate::IackChain;

#[test]
fn an_acknowledge_passes_every_board(rt: HostRuntime) {
    let mut chain = IackChain::new(&[2, 5]);
    assert!(rt; chain.is_clear());
    chain.fall(0);
    assert!(rt; chain.is_in_low(2) && !chain.is_in_low(5));
    chain.fall(1);
    assert!(rt; chain.is_in_low(5) && !chain.is_past_end());
    chain.fall(2);
    assert!(rt; chain.is_past_end());
    assert_eq!(rt; chain.low_count(), 3);
    chain.rise(0);
    assert!(rt; !chain.is_in_low(1) && !chain.is_in_low(2) && chain.is_in_low(5));
    assert_eq!(rt; chain.output_of(5), 2);
    assert!(rt; !chain.is_clear());
}

#[test]
fn a_chain_that_no_board_works_ends_at_the_controller(rt: HostRuntime) {
    let mut chain = IackChain::new(&[]);
    assert!(rt; !chain.is_past_end());
    chain.fall(0);
    assert!(rt; chain.is_past_end());
    chain.rise(0);
    assert!(rt; chain.is_clear());
}
