//! Watchers: who is told of the entries of a run, and writes a line.
//!
//! - [`Watcher`]: who is told, and what it answers, an [`Answer`].
//! - [`Tally`], [`LastRule`], [`Peak`], [`Budget`]: the kinds of watchers.
//! - [`tell_all`]: tells a list of watchers of entries, and writes their lines.
#![tactic(auto)]

mod budget;
mod last_rule;
mod lines;
mod peak;
mod tally;
mod telling;
mod watcher;

pub use budget::Budget;
pub use last_rule::LastRule;
pub use peak::Peak;
pub use tally::Tally;
pub use telling::tell_all;
pub use watcher::{Answer, Watcher};
