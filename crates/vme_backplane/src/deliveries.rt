//! What was delivered, found by making the edges once more.
ghost use Rattle.std.specs.Prelude.{◌≡◌, IfOk};
ghost use Rattle.vme_model.specs.Verdict.{IsLegal};
ghost use Rattle.vme_model.specs.Deliveries.{delivered, followed_by};

use std::alloc::{AllocError, Global};
use vme_model::{Delivery, Version};
use vme_slots::Plan;
use vme_store::Store;
use vme_wiring::Wiring;

/// Appends a delivery, if there is one.
fn append(given: &mut Vec<Delivery>, delivery: Option<Delivery>) -> Result<(), AllocError>
    ensures { IfOk result (λ _. given.new.items ≡ followed_by given.old.items delivery) }
{
    match delivery {
        Some(delivery) => Ok(given.push(delivery)?),
        None => Ok(()),
    }
}

/// What the stored edges delivered, in the order of time.
///
/// # Errors
/// `AllocError` if memory runs out.
#[tactic(auto, using(crate::proofs::Replayed::all_made))]
pub fn deliveries(
    alloc: Global,
    version: Version,
    plan: &Plan,
    store: &Store<'_>,
) -> Result<Vec<Delivery>, AllocError>
    requires { IsLegal version plan.now store.now.history }
    ensures { IfOk result (λ v. v.items ≡ delivered plan.now store.now.history) }
{
    let mut given = Vec::new(alloc);
    let mut wiring = Wiring::new(plan, version);
    for place in 0..store.len() {
        let edge = store.edge_at(place);
        append(&mut given, wiring.delivery(edge))?;
        wiring.note(edge);
    }
    Ok(given)
}
