//! The command `match`.
//!
//! - [`answer_match`]: where the rules of the system that the input describes occur.
//! - [`laws`]: an accepted model has one answer.
#![tactic(auto)]

mod answer;
mod fault;
pub mod laws;
mod matches;

pub use answer::answer_match;
