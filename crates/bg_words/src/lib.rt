//! What the words of the command line ask for.
//!
//! - [`request`]: what the words ask for, a [`Request`], or why they ask for nothing, a [`WordsFault`].
#![tactic(auto)]

mod asking;
mod command;
mod fault;
mod numbers;
mod options;
mod words;

pub use asking::Request;
pub use command::Command;
pub use fault::WordsFault;
pub use words::request;
