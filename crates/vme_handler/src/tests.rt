//! What a handler wants.
use crate::Handler;
use bitflags::Flags;
use vme_model::Levels;

#[test]
fn wants_the_highest_that_it_handles(rt: HostRuntime) {
    let low = Levels::of(2).with(5).with(6);
    assert_eq!(rt; Handler::new(Levels::of(5).with(2)).wants(low), Some(5));
    assert_eq!(rt; Handler::new(Levels::of(7)).wants(low), None);
    assert_eq!(rt; Handler::new(Levels::empty()).wants(low), None);
    assert_eq!(rt; Handler::new(Levels::of(6)).wants(Levels::empty()), None);
}
