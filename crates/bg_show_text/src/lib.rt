//! The listing of a system: its public text.
//!
//! - [`write_system`]: appends the listing of a system.
#![tactic(auto)]

mod rule_listing;
mod show;

pub use show::write_system;
