//! Runs of a system by workers.
//!
//! - [`run`]: a run by so many workers on a shared host, finished on the calling thread: a [`FinishedRun`].
#![tactic(auto)]

mod finishing;
mod running;
mod teams;

pub use finishing::FinishedRun;
pub use running::run;
