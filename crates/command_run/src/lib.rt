//! The command `run`.
//!
//! - [`answer_run`]: a run of the system that a model describes.
//! - [`laws`]: right answers have one status, and with one worker there is one.
#![tactic(auto)]

mod answer;
mod counting;
pub mod laws;
mod predicates;
mod text;
mod watching;

pub use answer::answer_run;
