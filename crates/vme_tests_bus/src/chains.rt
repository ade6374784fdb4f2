//! A grant and an acknowledge that travel along their chains, and a line that two drivers pull.
use vme_chain::Chain;
use vme_iack::IackChain;
use vme_lines::OrLine;

/// Whether the inputs of these three slots are low.
fn inputs(chain: &Chain, slots: [u8; 3]) -> [bool; 3] {
    let [first, second, third] = slots;
    [
        chain.is_in_low(first),
        chain.is_in_low(second),
        chain.is_in_low(third),
    ]
}

fn iack_inputs(chain: &IackChain, slots: [u8; 3]) -> [bool; 3] {
    let [first, second, third] = slots;
    [
        chain.is_in_low(first),
        chain.is_in_low(second),
        chain.is_in_low(third),
    ]
}

#[test]
fn a_grant_ripples(rt: HostRuntime) {
    let mut chain = Chain::new(&[1, 3, 21]);
    assert!(rt; chain.is_clear());
    chain.fall(0);
    assert!(rt; inputs(&chain, [1, 2, 3]) == [true, false, false]);
    chain.fall(1);
    assert!(rt; inputs(&chain, [2, 3, 4]) == [true, true, false]);
    chain.rise(0);
    assert!(rt; inputs(&chain, [1, 2, 2]) == [false, true, true]);
    chain.fall(2);
    assert!(rt; inputs(&chain, [21, 22, 22]) == [true, false, false] && !chain.is_past_end());
    chain.fall(3);
    assert!(rt; chain.is_past_end() && chain.is_in_low(22));
    assert!(rt; chain.low_count() == 3 && chain.output_of(21) == 3 && !chain.is_clear());
}

#[test]
fn an_acknowledge_passes_every_board(rt: HostRuntime) {
    let mut chain = IackChain::new(&[2, 5]);
    assert!(rt; chain.is_clear());
    chain.fall(0);
    assert!(rt; iack_inputs(&chain, [2, 5, 5]) == [true, false, false]);
    chain.fall(1);
    assert!(rt; chain.is_in_low(5) && !chain.is_past_end());
    chain.fall(2);
    assert!(rt; chain.is_past_end() && chain.low_count() == 3);
    chain.rise(0);
    assert!(rt; iack_inputs(&chain, [1, 2, 5]) == [false, false, true]);
    assert!(rt; chain.output_of(5) == 2 && !chain.is_clear());
}

#[test]
fn a_chain_that_no_board_works_ends_at_the_controller(rt: HostRuntime) {
    let mut chain = IackChain::new(&[]);
    assert!(rt; !chain.is_past_end());
    chain.fall(0);
    assert!(rt; chain.is_past_end());
    chain.rise(0);
    assert!(rt; chain.is_clear());
}

#[test]
fn a_line_is_low_until_its_last_driver_lets_go(rt: HostRuntime) {
    let mut line = OrLine::new();
    assert!(rt; !line.is_low());
    line.pull();
    line.pull();
    line.release();
    assert!(rt; line.is_low());
    line.release();
    assert!(rt; !line.is_low());
}
