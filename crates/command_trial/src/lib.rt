//! The command `trial`.
//!
//! - [`answer_trial`]: where the rules of a model that is made occur, and how a run of it ends.
//! - [`laws`]: right answers have one status.
#![tactic(auto)]

mod answer;
mod counting;
pub mod laws;
mod model;
mod summary;

pub use answer::answer_trial;
