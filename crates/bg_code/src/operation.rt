//! What the machine does at a time.
use crate::Arguments;
use bg_base::Ident;
use bg_lists::Rows;
use bg_terms::BinaryOperation;

/// An operation of a machine with a stack of bigraphs. `at` is the token at which a refusal of it has its place.
#[derive(Debug, Drop)]
pub enum Operation {
    /// Puts a node of the control with that number; `ports` are the names of its ports.
    Node {
        at: u32,
        control: u32,
        arguments: Arguments,
        ports: Rows<Ident>,
    },
    /// Evaluates the definition with that number.
    Reference {
        at: u32,
        definition: u32,
        arguments: Arguments,
    },
    /// Puts outer names with nothing on them.
    Names {
        at: u32,
        names: Rows<Ident>,
    },
    /// Puts an identity.
    Identity {
        at: u32,
        width: u64,
        names: Rows<Ident>,
    },
    /// Puts one region with so many sites.
    Merger {
        at: u32,
        width: u64,
    },
    /// Puts one empty region.
    Barren(u32),
    /// Puts the bigraph without regions.
    Empty(u32),
    /// Counts one more of the terms that an evaluation may have: brackets. At the limit it refuses at that token.
    Count(u32),
    /// A nesting or a closure begins, one deeper than the one around it. At the limit of the depth it refuses at that
    /// token.
    Enter(u32),
    /// It ends.
    Leave,
    /// Takes the next number of an edge, for a closure that begins here and closes its name behind its operand.
    Open,
    /// Closes the name, by the number that was taken last.
    Close {
        at: u32,
        name: Ident,
    },
    /// Nests the bigraph on top in the one below it.
    Nest {
        at: u32,
        is_atom: bool,
    },
    /// Puts what the operation makes of the two on top.
    Join {
        operation: BinaryOperation,
        at: u32,
    },
}
