//! Patterns, where they occur in a host, and how a host reacts there.
//!
//! - [`first_unsolid`], [`unsolid_clause`]: the clause of a solid bigraph that fails, without memory and with it.
//! - [`Pattern`]: what occurs in a host.
//! - [`Rule`] and [`Condition`]: what a reaction replaces, and where it may.
//! - [`sides_agree`] and [`map_fits`]: what a rule asks of its sides.
//! - [`Host`]: a bigraph that rules change. [`System`] and [`Predicate`]: what a model describes.
//! - [`images`]: the image of a node and of a link where a map lists the images of a pattern's nodes; what is met going
//!   up from a place.
//! - [`RuleFault`], [`ReactFault`], [`ListFault`]: why a call gives no result.
//! - [`laws`]: occurrences are decompositions. [`reaction_laws`]: a reaction at an occurrence has one result.
#![tactic(auto)]

mod condition;
mod fault;
mod host;
pub mod images;
pub mod laws;
mod pattern;
mod predicate;
pub mod reaction_laws;
mod rule;
mod solid;
mod solid_indexed;
mod system;

pub use condition::{Condition, Side};
pub use fault::{ListFault, ReactFault, RuleFault};
pub use host::Host;
pub use pattern::{NotSolid, Pattern};
pub use predicate::Predicate;
pub use rule::{Rule, map_fits, sides_agree};
pub use solid::first_unsolid;
pub use solid_indexed::unsolid_clause;
pub use system::System;
