//! Controls as their statements define them, and the binary operations of the language.
use bg_base::{Ident, Kind};

/// A control as its statement defines it: its word, its arity (the number of ports of its nodes) and its kind. Its
/// arguments are yet to come.
#[derive(Debug, Drop)]
pub struct Shape {
    pub word: Ident,
    pub arity: u32,
    pub kind: Kind,
}

/// A control that is visible: how many formals it has, and its shape.
#[derive(Debug, Drop)]
pub struct ControlEntry {
    pub formals: u32,
    pub shape: Shape,
}

/// The operations on two bigraphs: `*`, `+`, `||` and `|`.
#[derive(Clone, Copy, Debug, PartialEq, Eq)]
pub enum BinaryOperation {
    Composition,
    Tensor,
    Parallel,
    Merge,
}
