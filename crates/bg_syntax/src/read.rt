//! A function for each symbol of the grammar.
mod arithmetic;
mod expressions;
mod models;
mod names;
mod statements;
