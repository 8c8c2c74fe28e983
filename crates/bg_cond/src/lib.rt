//! Conditions of rules, and the steps of a system that are legal.
//!
//! - [`occurs_somewhere`]: whether a pattern occurs in a host.
//! - [`enabled`]: whether the conditions of a rule hold at an occurrence of its redex.
//! - [`first_class`], [`steps`]: the first class with a rule that is enabled, and the steps of its rules.
//! - [`judge`], [`judge_in`]: whether a step is legal, or why not; [`judge_alone`], [`judge_beside`]: in two parts.
//! - [`take_step`], [`take_step_in_place`]: what a legal step makes of the host. [`End`]: how a run ends.
//! - [`Board`]: a host that workers share, under a [`HostName`]; what they see of it, a [`View`], what they find, a
//!   [`Found`], what becomes of that, a [`Commit`], and what is left, a [`Closed`].
//! - [`Finder`], [`Gate`]: how workers find legal steps, and who is told of their moments. [`Follower`]: who finds them at a
//!   host of its own. [`Picker`]: a generator of words, and the places in a list that they pick.
#![tactic(auto)]

mod asking;
mod board;
mod commits;
mod enabling;
mod ending;
mod finder;
mod follower;
mod gate;
mod holding;
mod judging;
pub mod laws;
mod legal;
mod listed;
mod notes;
mod picker;
mod piece;
mod pieces;
mod plain_host;
mod sides;
mod stepping;
mod verdict;

pub use asking::enabled;
pub use board::{Board, HostName};
pub use commits::{Closed, Commit, Found, View};
pub use ending::End;
pub use finder::{Finder, MOST_CANDIDATES, PlainFinder};
pub use follower::Follower;
pub use gate::{Gate, Moment, OpenGate};
pub use judging::{judge, judge_alone, judge_beside, judge_in};
pub use legal::{first_class, steps, steps_in};
pub use listed::occurs_somewhere;
pub use picker::Picker;
pub use pieces::{context_piece, parameter_piece};
pub use stepping::{take_step, take_step_in_place};
pub use verdict::Verdict;
