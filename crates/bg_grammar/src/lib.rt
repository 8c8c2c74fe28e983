//! Grammars as data: what they derive, the tables by which one token tells the alternative, and the machine that reads
//! by such a table.
//!
//! There is no code here: a parser of a grammar is written elsewhere, and shows that it goes as the machine does. These
//! are the laws that make that worth showing. They hold for every grammar and every plan that the test `fits` passes,
//! and for every greatest depth.
#![tactic(auto)]

mod laws;

pub use laws::{
    derivations_are_trees, some_sentence_of_each_symbol, steps_determine_trees,
    the_machine_accepts, the_machine_stops,
};
