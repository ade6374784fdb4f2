//! The tests of all libraries, over their public calls alone: worked examples, printed texts, devices and memory that
//! fail, threads. They stand in one crate, since a crate with tests is proved twice.
//!
//! The proof of a body grows with the square of what lives in it. So cases stand in tables, and what is asserted of a case
//! stands in a small function.
#![tactic(auto)]

#[cfg(test)]
mod arena;
#[cfg(test)]
mod asserts;
#[cfg(test)]
mod backplane;
#[cfg(test)]
mod boards;
#[cfg(test)]
mod chains;
#[cfg(test)]
mod devices;
#[cfg(test)]
mod drawn;
#[cfg(test)]
mod engines;
#[cfg(test)]
mod explains;
#[cfg(test)]
mod gates;
#[cfg(test)]
mod lock;
#[cfg(test)]
mod opens;
#[cfg(test)]
mod parts;
#[cfg(test)]
mod reads;
#[cfg(test)]
mod run;
#[cfg(test)]
mod running;
#[cfg(test)]
mod scenario;
#[cfg(test)]
mod shown;
#[cfg(test)]
mod slots;
#[cfg(test)]
mod store;
#[cfg(test)]
mod summed;
#[cfg(test)]
mod trace;
#[cfg(test)]
mod words;
#[cfg(test)]
mod worked;
