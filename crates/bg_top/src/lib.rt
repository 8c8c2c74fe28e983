//! The top call: from the words of the command line and the bytes of the input to the text of the answer.
#![tactic(auto)]

pub mod laws;
mod top;

pub use bg_answers::{Refusal, Status};
pub use bg_words::{Command, Request};
pub use top::{MOST_BYTES, NO_MEMORY, READ_FAILURE, WRITE_FAILURE, engine};
