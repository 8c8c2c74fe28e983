//! A host that workers share, each on a thread of its own.
//!
//! - [`HostParts`]: what a shared host is made of, with all its memory.
//! - [`SharedHost`]: the host under its name; workers look at it, commit steps to it, and at the end it is closed.
//! - [`Core`]: the value behind its lock.
#![tactic(auto)]

mod host;
mod locked;
mod parts;

pub use host::SharedHost;
pub use locked::Core;
pub use parts::HostParts;
