//! The text of a field of a plan that no scenario brings out of range: the others are in
//! `acceptance/cases/scenario-faults`.
use std::test::Fail;
use vme_slots::{Field, PlanError};

#[test]
fn chains_out_of_range_are_printed(rt: HostRuntime) -> Result<(), Fail> {
    let refusal = PlanError::OutOfRange {
        field: Field::JumperChains,
    };
    let text = format!(in rt.alloc(); "{refusal}")?;
    assert!(rt; text.as_str() == "P8 jumper.chains is out of range");
    Ok(())
}
