//! The tests of what is read and written, over public calls alone: traces and reports on devices
//! that fail, and the texts of faults that no case prints.
//!
//! The proof of a body grows with the square of the number of its live variables. So cases stand in
//! tables, and what is asserted for a case stands in a small function.
#![tactic(auto)]

#[cfg(test)]
mod asserts;
#[cfg(test)]
mod devices;
#[cfg(test)]
mod engines;
#[cfg(test)]
mod reads;
#[cfg(test)]
mod trace;
