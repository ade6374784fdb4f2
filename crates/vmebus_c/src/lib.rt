//! The bus for C: a record of numbers that the caller owns, and functions that judge one edge at a
//! time on it.
#![tactic(auto)]

mod asked;
mod bits;
mod exports;
pub mod laws;
mod lists;
mod named;
mod numbers;
mod opens;
mod played;
mod rooms;
mod verdicts;
