//! What all answers of the program share.
//!
//! - [`Status`]: what a whole answer says by its number; [`Reply`]: a status and a text.
//! - [`Refusal`]: why an input is refused, and its line; [`Failure`]: why a command answers nothing of its own.
//! - [`system_of`]: the system that a model describes, or its refusal at a line and a column.
#![tactic(auto)]

mod described;
mod failure;
mod refusal;
mod reply;
mod status;

pub use described::system_of;
pub use failure::Failure;
pub use refusal::Refusal;
pub use reply::Reply;
pub use status::Status;
