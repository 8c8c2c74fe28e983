//! Lists as the engine keeps them, and the general laws of lists and orders that every crate above cites.
//!
//! - [`Rows`]: a list of rows that numbers of 32 bits can number; [`copies`]: copies of all items of a slice.
//! - [`Duplicate`]: a copy that takes an allocator.
//! - [`mark_at`], [`set_mark`]: what is known of the rows of a list, one by one.
//! - [`merged`]: two ascending lists as one, whose items are [`Numbered`].
//! - [`OutOfMemory`] and [`Mem`]: the one answer whose cause no contract tells.
#![tactic(auto)]

mod duplicate;
mod marks;
mod memory;
mod merging;
mod rows;

pub use duplicate::Duplicate;
pub use marks::{mark_at, set_mark};
pub use memory::{Mem, OutOfMemory};
pub use merging::{Numbered, merged};
pub use rows::{Rows, copies};
