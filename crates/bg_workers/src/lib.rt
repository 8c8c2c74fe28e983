//! Workers: how they pick their steps, how they run at once on a host that they share, and the run that one of them draws.
//!
//! - [`work`]: a worker on a shared host, up to its end, [`Ended`]. [`work_following`]: one that keeps a host of its own.
//! - [`run_workers`], [`run_following`]: as many at once as there are members of a team, each a [`Member`] or a
//!   [`FollowMember`].
//! - [`draw`]: the run that a generator draws from a host on, a [`DrawnRun`].
#![tactic(auto)]

mod drawing;
mod ends;
mod following;
pub mod laws;
mod team;
mod working;

pub use bg_cond::Picker;
pub use drawing::{DrawnRun, draw};
pub use ends::{Ended, FollowMember, Member};
pub use following::work_following;
pub use team::{run_following, run_workers};
pub use working::work;
