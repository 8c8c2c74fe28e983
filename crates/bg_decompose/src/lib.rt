//! How a host is a context, with a pattern in it, with a parameter in the pattern.
//!
//! - [`Decomposition`]: a map of the pattern, the images of its edges, the context and the parameter.
//! - [`split`]: the decomposition of a host at an occurrence. [`join`]: what a decomposition makes.
//! - [`recompose`]: what its parts make round another bigraph.
//! - [`laws`]: a decomposition joins to its host.
#![tactic(auto)]

mod context;
mod decomposition;
mod joining;
pub mod laws;
mod marks;
mod parameter;
mod splitting;

pub use decomposition::Decomposition;
pub use joining::{join, recompose};
pub use splitting::split;
