//! A host that follows what others commit to a shared one, so that its legal steps are found without an index made anew.
//!
//! - [`Replica`]: a host of its own at a version, brought to what the entries of a history lead to.
//! - [`KeptMatches`]: all occurrences of the redexes of a system's rules, kept from one reaction to the next.
//! - [`KeptFinder`]: who judges and takes steps at a replica, and lists and picks the legal ones, as a follower and as a finder.
#![tactic(auto)]

mod keeping;
mod kept_finder;
mod kept_matches;
mod listing;
mod picking;
mod replica;

pub use kept_finder::KeptFinder;
pub use kept_matches::KeptMatches;
pub use replica::Replica;
