//! The link graph of a bigraph: what is tied to what.
//!
//! - [`Links`], [`PortRow`], [`Point`]: edges, names and nodes with the links of their ports; [`links_of`] takes them
//!   from a bigraph, and [`is_closed`] tells an edge from an outer name.
//! - [`Wiring`]: the links with the points of each kept at hand.
//! - [`compose_links`], [`tensor_links`], [`share_links`]: the link part of composition and of products.
//! - [`name_set`], [`sorted_edges`], [`both_inner`], [`shared_names`], [`link_through`], [`links_through`],
//!   [`inner_through`]: their parts.
//! - [`laws`]: a link that is not there has no points.
#![tactic(auto)]

mod composition;
mod graph;
mod groups;
pub mod laws;
mod points;
mod products;
mod through;
mod wiring;

pub use composition::{compose_links, sorted_edges};
pub use graph::{Links, Point, PortRow, is_closed, links_of};
pub use products::{both_inner, name_set, share_links, shared_names, tensor_links};
pub use through::{inner_through, link_through, links_through};
pub use wiring::Wiring;
