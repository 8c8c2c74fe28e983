//! The command `compose`.
//!
//! - [`answer_compose`]: the listing of the composition of what the input lists.
//! - [`laws`]: a text is that listing exactly where the field says so; right answers have one status.
#![tactic(auto)]

mod answer;
mod composition;
pub mod laws;
mod operands;

pub use answer::answer_compose;
