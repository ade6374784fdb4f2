//! The tests of memory and of what threads do with it, over public calls alone: the arena, the
//! store of edges and the lock.
//!
//! The proof of a body grows with the square of the number of its live variables. So cases stand in
//! tables, and what is asserted for a case stands in a small function.
#![tactic(auto)]

#[cfg(test)]
mod arena;
#[cfg(test)]
mod asserts;
#[cfg(test)]
mod boards;
#[cfg(test)]
mod gates;
#[cfg(test)]
mod lock;
#[cfg(test)]
mod store;
#[cfg(test)]
mod waiting;
