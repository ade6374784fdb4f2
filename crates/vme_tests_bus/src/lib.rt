//! The tests of the texts of a plan's refusals, of the memory of a backplane, and of both judges
//! compared, over their public calls alone.
//!
//! The proof of a body grows with the square of the number of its live variables. So cases stand in
//! tables, and what is asserted for a case stands in a small function.
#![tactic(auto)]

#[cfg(test)]
mod asserts;
#[cfg(test)]
mod backplane;
#[cfg(test)]
mod boards;
#[cfg(test)]
mod judges;
#[cfg(test)]
mod slots;
