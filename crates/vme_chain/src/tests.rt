//! A grant that ripples along a chain.
use crate::Chain;

#[test]
fn a_grant_ripples(rt: HostRuntime) {
    let mut chain = Chain::new(&[1, 3, 21]);
    assert!(rt; chain.is_clear());
    chain.fall(0);
    assert!(rt; chain.is_in_low(1) && !chain.is_in_low(2) && !chain.is_in_low(3));
    chain.fall(1);
    assert!(rt; chain.is_in_low(2) && chain.is_in_low(3) && !chain.is_in_low(4));
    chain.rise(0);
    assert!(rt; !chain.is_in_low(1) && chain.is_in_low(2));
    chain.fall(2);
    assert!(rt; chain.is_in_low(21) && !chain.is_past_end() && !chain.is_in_low(22));
    chain.fall(3);
    assert!(rt; chain.is_past_end() && chain.is_in_low(22));
    assert_eq!(rt; chain.low_count(), 3);
    assert_eq!(rt; chain.output_of(21), 3);
    assert!(rt; !chain.is_clear());
}
