//! Reaction: what a rule does to a host.
//!
//! - [`instantiate`]: copies of the parts of a parameter, as the map of a rule asks.
//! - [`Instance`]: these copies, and the number that is free after them.
//! - [`react`]: the redex at an occurrence replaced by the reactum. [`ReactFault`]: why a reaction does not take place.
#![tactic(auto)]

mod count;
mod instance;
mod parts;
mod reaction;

pub use bg_rules::ReactFault;
pub use instance::{Instance, instantiate};
pub use reaction::react;
