//! Worked cases: small bigraphs on which the definitions are computed, and what they show of them.
//!
//! There is no code here, and nothing stands on this crate. The laws say why occurrences are defined as they are:
//! - [`each_local_condition_is_needed`]: there is none that the others imply.
//! - [`each_clause_of_a_pattern_is_needed`]: without it what occurs is not determined, or not found by the conditions.
//! - [`the_empty_bigraph_decomposes_each_host_once`]: so that a pattern has a node is a choice.
//! - [`valid_parts_are_needed`]: rows that are no bigraph make a host in which nothing occurs.
#![tactic(auto)]

mod laws;

pub use laws::{
    each_clause_of_a_pattern_is_needed, each_local_condition_is_needed,
    the_empty_bigraph_decomposes_each_host_once, valid_parts_are_needed,
};
