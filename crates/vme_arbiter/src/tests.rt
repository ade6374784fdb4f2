//! A run of picks for each policy.
use crate::{AnyPolicy, Policy, Pri, Rrs, Sgl};
use bitflags::Flags;
use vme_model::{ArbiterKind, BusLevels};

#[test]
fn picks(rt: HostRuntime) {
    let all = BusLevels::of_lines([true; 4]);
    let low_two = BusLevels::of_lines([true, true, false, false]);
    assert_eq!(rt; Sgl.pick(all, 0), Some(3));
    assert_eq!(rt; Sgl.pick(low_two, 0), None);
    assert_eq!(rt; Pri.pick(low_two, 3), Some(1));
    assert_eq!(rt; Rrs.pick(all, 0), Some(3));
    assert_eq!(rt; Rrs.pick(all, 3), Some(2));
    assert_eq!(rt; Rrs.pick(low_two, 1), Some(0));
    assert_eq!(rt; Rrs.pick(BusLevels::empty(), 1), None);
}

#[test]
fn any_policy_is_its_kind(rt: HostRuntime) {
    let all = BusLevels::of_lines([true; 4]);
    let pri = AnyPolicy::from(ArbiterKind::Pri);
    let rrs = AnyPolicy::from(ArbiterKind::Rrs);
    let sgl = AnyPolicy::from(ArbiterKind::Sgl);
    assert_eq!(rt; pri.pick(all, 2), Some(3));
    assert_eq!(rt; rrs.pick(all, 2), Some(1));
    assert_eq!(rt; sgl.pick(all, 2), Some(3));
}
