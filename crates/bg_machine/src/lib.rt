//! The machine that evaluates expressions of the model language: it runs their code on a stack of bigraphs, and what is
//! left is the value of what the expression expands to, or its first refusal.
//!
//! - [`evaluate`]: the value of an expression by its code, from what was [`Met`] before.
//! - [`enter`]: the number of a control, which enters the signature where it is new.
//! - [`whole`]: the bigraph of a whole expression, without idle edges. [`numbers_below`]: numbers in a row.
//! - [`laws`]: that the code of an expression comes to the value of its expansion.
#![tactic(auto)]

mod ending;
mod entering;
mod evaluation;
mod forms;
pub mod laws;
mod machine;
mod met;
mod operators;
mod running;

pub use ending::{numbers_below, whole};
pub use entering::enter;
pub use evaluation::evaluate;
pub use met::Met;
