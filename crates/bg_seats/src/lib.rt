//! The history of a host that threads share: one word, and those who have seen it.
//!
//! - [`HistoryTable`]: the word, which counts the entries of the history.
//! - [`Pass`]: what a worker knows of the history, and its worker number, [`worker`].
//! - [`Turn`]: the history whole; who has it may record an entry.
#![tactic(auto)]

mod knowledge;
mod rule;
mod steps;
mod table;

pub use table::{HistoryTable, Pass, Turn, worker};
