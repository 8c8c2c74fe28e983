//! The grammar of the model language: from tokens to the tree of their derivation.
//!
//! - [`parse`]: the tree of the tokens, or their first fault ([`SyntaxFault`]).
//! - [`tokens_have_one_tree`], [`steps_determine_models`], [`models_are_derivation_trees`]: what the tokens and the
//!   steps of a tree determine.
//!
//! The types of the trees stand in `bg_trees`.
#![tactic(auto)]

mod fault;
mod laws;
mod parsing;
mod read;
mod reader;
mod symbol;
mod table;

pub use fault::{SyntaxFault, TOO_DEEP, UNEXPECTED};
pub use laws::{models_are_derivation_trees, steps_determine_models, tokens_have_one_tree};
pub use parsing::parse;
pub use symbol::Symbol;
