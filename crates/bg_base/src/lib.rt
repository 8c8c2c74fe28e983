//! Bigraphs as lists of rows: their types, their signature, and when they are valid.
//!
//! - [`Ident`], [`Text`], [`Name`], [`Value`], [`Label`]: what things are called.
//! - [`Place`], [`Link`], [`NodeRow`], [`InnerRow`], [`Big`]: a concrete bigraph, row by row.
//! - [`find_node`], [`find_node_at`], [`has_edge`], [`find_inner`], [`has_outer`], [`reach`]: look-up in a valid bigraph, by
//!   number or by name.
//! - [`Climbable`], [`AtFoothold`], [`marked_value`], [`no_marks`]: climbs that leave marks.
//! - [`Signature`], [`Control`], [`Kind`]: the controls that nodes may have.
//! - [`Map`], [`Step`], [`Entry`], [`Journal`]: steps of a run.
//! - [`limits`]: how large things may be.
#![tactic(auto)]

mod big;
mod check;
mod climbing;
mod history;
mod labels;
mod laws;
pub mod limits;
mod links;
mod look_up;
mod names;
mod signature;
mod text;

pub use big::{Big, InnerRow, NodeRow};
pub use check::{CheckFault, Part};
pub use climbing::{AtFoothold, Climbable, marked_value, no_marks};
pub use history::{Entry, Journal, Map, Step};
pub use labels::{Label, Value};
pub use laws::{
    equal_bigraphs_are_the_same, equal_signatures_are_the_same, named_rows_are_first_faults,
};
pub use links::{LinkVec, PortLinks};
pub use look_up::{find_inner, find_node, find_node_at, has_edge, has_outer, reach};
pub use names::{Link, Name, Place};
pub use signature::{Control, Kind, Signature, SignatureFault};
pub use text::{Ident, Text, is_ident, is_text, is_text_byte, is_word_byte};
