//! The algebra of concrete bigraphs: how large bigraphs are made of small ones (Milner, chapters 2 and 3).
//!
//! - [`compose`]: composition, which puts one bigraph into the sites of another and joins their links.
//!   [`faces_agree`] and [`supports_apart`] are its conditions.
//! - [`tensor`], [`parallel`], [`merge`]: products. [`nest`]: nesting. [`close`]: a name made an edge.
//! - [`lean`]: idle edges dropped. [`rename`]: nodes and edges numbered anew.
//! - [`ion`], [`atom`], [`identity`], [`idle`], [`merger`], [`barren`], [`empty`]: elementary bigraphs.
//! - [`laws`]: the laws of these operations, as contracts of calls that do nothing.
//! - [`AlgebraFault`]: why an operation gives no bigraph.
#![tactic(auto)]

mod closing;
mod composition;
mod conditions;
mod elementary;
mod fault;
mod halves;
mod idle_edges;
pub mod laws;
mod nesting;
mod products;
mod regions;
mod renumbering;

pub use closing::close;
pub use composition::compose;
pub use conditions::{faces_agree, supports_apart};
pub use elementary::{atom, barren, empty, identity, idle, ion, merger};
pub use fault::AlgebraFault;
pub use idle_edges::lean;
pub use nesting::nest;
pub use products::{merge, parallel, tensor};
pub use renumbering::rename;
