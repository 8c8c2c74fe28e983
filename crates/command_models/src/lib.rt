//! The commands `check` and `show`.
//!
//! - [`answer_check`]: how much there is of everything in a model.
//! - [`answer_show`]: the listing of the system that a model describes.
//! - [`laws`]: right answers to one input have one status.
#![tactic(auto)]

mod answers;
mod counts;
pub mod laws;

pub use answers::{answer_check, answer_show};
