//! Expressions of the model language as code: operations in the order in which a machine takes them.
//!
//! - [`Visible`]: what an expression is read in: the text, its tokens and formals, the controls and the bigraphs.
//! - [`code_of`]: the code of the expression that a tree of the grammar is, or the first name that cannot stand.
//! - [`word_at`]: the identifier that a token spells.
//! - [`Operation`]: what the machine does at a time.
//! - [`Arguments`]: formulas in a row, by [`arguments_of`]; [`argument_count`]: how many.
#![tactic(auto)]

mod arguments;
mod lowering;
mod operation;
mod visible;
mod words;

pub use arguments::{Arguments, argument_count, arguments_of};
pub use lowering::code_of;
pub use operation::Operation;
pub use visible::Visible;
pub use words::word_at;
