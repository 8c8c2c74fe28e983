//! The texts of journals, of ends of runs and of hosts; and whether a journal is a run.
//!
//! - [`write_journal`]: appends the text of a journal; [`write_step`]: that of a rule and a map.
//! - [`read_journal`]: the journal whose text the bytes begin with, or the first line that is not of the form
//!   ([`JournalFault`]).
//! - [`write_end`]: appends the line of the end of a run.
//! - [`write_host`]: appends the text of a host.
//! - [`replay`]: whether a journal is a run of a system, a [`Replay`], or [`Why`] an entry of it is not taken.
//! - [`laws`]: what acceptance and refusal of a journal mean of the whole text, and that a journal comes to one thing.
#![tactic(auto)]

mod ending;
mod entry;
mod fault;
mod host;
pub mod laws;
mod outcome;
mod reading;
mod replaying;
mod writing;

pub use ending::write_end;
pub use fault::JournalFault;
pub use host::write_host;
pub use outcome::{Replay, Why};
pub use reading::read_journal;
pub use replaying::replay;
pub use writing::{write_journal, write_step};
