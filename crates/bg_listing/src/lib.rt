//! The exact reader and writer of listings: the public texts of signatures and concrete bigraphs.
//!
//! - [`read_signature`], [`read_big`]: the value whose listing stands at a [`Cursor`], or the code and the line of the
//!   refusal ([`ListingFault`]).
//! - [`write_signature`], [`write_big`]: append the listing of a value.
//! - [`read_number`], [`read_label`], [`write_number`], [`write_size`], [`write_label`]: numbers and labels alone, for
//!   the other texts; [`write_count`], [`write_numbers`]: a line that counts, and a line of numbers.
//! - [`signatures_have_one_text`], [`bigraphs_have_one_text`]: no text is the listing of two values.
//! - [`laws`]: what acceptance and refusal mean of the whole text.
#![tactic(auto)]

mod at_offset;
mod bytes;
mod chain;
mod cursor;
mod fault;
mod first_pass;
mod label;
pub mod laws;
mod lines;
mod names;
mod number;
mod read;
mod rows;
mod write;
mod writing;

pub use at_offset::{read_label, read_number};
pub use cursor::Cursor;
pub use fault::{BAD_LINE, DUPLICATE_LABEL, ListingFault, TOO_MANY};
pub use read::{bigraphs_have_one_text, read_big, read_signature, signatures_have_one_text};
pub use write::{
    write_big, write_count, write_label, write_number, write_numbers, write_signature, write_size,
};
