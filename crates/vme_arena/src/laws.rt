//! What holds for carving, for every region and every list of sizes. The function is a law: a call
//! costs nothing, and gives the facts to the prover.
ghost use Rattle.vme_arena.specs.Stretch.{CarvedWithin, CarvedApart};

/// The stretches that are carved one after another from a rest lie within it and begin at multiples
/// of 16, and no two of them overlap.
pub fn carved_stretches_are_apart()
    ensures within { CarvedWithin }
    ensures apart { CarvedApart }
{}
