//! The command `replay`.
//!
//! - [`answer_replay`]: whether the journal that stands in front of a model is a run of its system.
//! - [`laws`]: the answers of `replay` are settled, and there is one to each input.
#![tactic(auto)]

mod answer;
pub mod laws;
mod text;

pub use answer::answer_replay;
