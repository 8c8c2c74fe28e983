//! What is written of the occurrences of a system's rules.
//!
//! - [`write_rule`]: a rule and its occurrences, each with its decomposition where they are explained.
//! - [`write_excess_line`]: that a rule has more occurrences than are asked for.
//! - [`laws`]: each system has one text of all occurrences.
#![tactic(auto)]

pub mod laws;
mod lines;
mod occurrence;
mod rule_text;

pub use lines::write_excess_line;
pub use rule_text::write_rule;
