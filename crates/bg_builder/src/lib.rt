//! Bigraphs in the making on a stack, where the two topmost ones are put together in place: a chain of many small operands
//! costs no more than their rows.
//!
//! - [`BigStack`]: the stack. `push`, `push_ion` and `push_atom` put a bigraph on top, `finish` gives the topmost one.
//! - `compose`, `tensor`, `parallel`, `merge`, `nest`, `close`: what `bg_algebra` gives, where the numbers of the topmost
//!   bigraph follow those of the second one (`two_follow`), or its edges lie behind the one that closes
//!   (`lies_behind`).
//! - [`compose`]: the composition of two bigraphs whose numbers lie in any order.
#![tactic(auto)]

mod big_stack;
mod closing;
mod composing;
mod composition;
mod finishing;
mod frames;
mod inside;
mod lists;
mod numbering;
mod products;
mod pushing;
mod tables;
mod tails;

pub use big_stack::BigStack;
pub use composition::compose;
