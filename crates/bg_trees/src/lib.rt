//! Trees of models: a type for each symbol of the grammar, by its name and the prefix `Syn`.
//!
//! A symbol with one alternative is a struct, whose fields are the parts in order. One with several is an enum, whose
//! variants hold the parts. A symbol with the alternative `none` whose others end in the symbol itself is a vector of
//! items. A token is its number, counted from 0. A part is boxed where its type leads back to the type that holds it.
#![tactic(auto)]

pub mod arithmetic;
pub mod expressions;
pub mod models;
pub mod names;
pub mod statements;

/// The tree of a model.
pub type Tree = models::SynModel;
