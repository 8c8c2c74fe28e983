//! Tokens of the model language, and places in a text.
//!
//! - [`tokens`]: the tokens of a text, or the code and the offset of its first refusal ([`LexFault`]).
//! - [`place_of`]: the line and the column of an offset ([`Position`]).
#![tactic(auto)]

mod fault;
mod lex;
mod number;
mod piece;
mod place;
mod runs;
mod spelling;
mod text;
mod token;

pub use fault::{BAD_BYTE, DECIMAL_NUMBER, LexFault, NUMBER_TOO_LARGE, OPEN_STRING};
pub use lex::tokens;
pub use place::{Position, place_of};
pub use token::{Token, TokenKind};
