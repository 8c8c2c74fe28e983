//! From the statements and the block of a model to the system that it describes.
//!
//! - [`read`]: the system that a text describes, or its first refusal, from its bytes on.
//! - [`elaborate`]: the system of a model, or its first refusal, a [`ModelFault`] with its [`Detail`].
//! - [`choice`]: the choice with a number, of one value from each list.
//! - [`laws`]: what a model comes to is a system, and a text has one reading.
#![tactic(auto)]

mod blocks;
mod choices;
mod elaboration;
mod fault;
pub mod laws;
mod occurring;
mod reading;
mod references;
mod systems;

pub use choices::choice;
pub use elaboration::elaborate;
pub use fault::{Detail, ModelFault};
pub use reading::read;
