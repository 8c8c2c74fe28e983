//! Expressions of the model language: their definition, what they expand to, and the bigraph that they come to. The
//! crates `bg_code` and `bg_machine` find that bigraph.
//!
//! - `specs/Expressions`: an expression, its names looked up; `specs/Terms`: a term, each reference replaced by its
//!   definition and each argument by its value.
//! - `specs/Expansion`: `expand`, the term of an expression; `specs/Values`: `value`, the bigraph of a term, or its
//!   first refusal.
//! - `specs/Numbering`, `specs/Order`: how the nodes and edges of a value are numbered, and in which order its nodes
//!   stand.
//! - `specs/Trees`: the expression that a tree of the grammar is.
//! - [`laws`]: what is proved of them.
#![tactic(auto)]

pub mod laws;
mod shape;

pub use shape::{BinaryOperation, ControlEntry, Shape};
