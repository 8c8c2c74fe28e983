//! The statements of a model: what each defines behind those before it, or its first refusal.
//!
//! - [`Uses::of`]: what statements define, in the order of the text, with the parameters of a block: controls, bigraphs,
//!   rules, parameters, and the signature reached.
//! - [`Uses`]: what the block refers to: the host of `init`, rules and predicates, each for some values of the formals.
//! - [`laws`]: definitions stay sound, and what expressions come to is valid.
//! - [`RuleValue`], [`Whole`]: what a rule comes to, and the bigraph of a whole expression.
#![tactic(auto)]

mod bigraphs;
mod controls;
mod definitions;
pub mod laws;
mod names;
mod parameters;
mod rule_code;
mod rule_values;
mod rules;
mod statements;
mod uses;

pub use rule_values::{RuleValue, Whole};
pub use uses::{NameSpaces, Uses};
