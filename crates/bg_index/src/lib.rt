//! Hosts with what lies where and what is tied to what kept at hand.
//!
//! - [`IndexedHost`]: a host whose nodes are found by number, with the nodes in each place, the points of each link and
//!   the nodes of each control kept beside them, each list ascending.
//! - [`IndexedEmbeddings`]: the occurrences of a pattern in such a host, one after the other.
#![tactic(auto)]

mod arrivals;
mod bundles;
mod causes;
mod children;
mod commit;
mod commit_controls;
mod commit_links;
mod commit_nodes;
mod controls;
mod edge_sets;
mod embeddings;
mod entries;
mod going;
mod growth;
mod idle;
mod indexed_host;
mod keys;
mod late;
mod laws;
mod leaving;
mod leaving_points;
mod link_names;
mod making;
mod moves;
mod new_rows;
mod parts;
mod planning;
mod plans;
mod point_arrivals;
mod reading;
mod room;
mod sets;
mod spans;
mod tied_points;
mod touched;
mod used;

pub use causes::{Causes, Relinked};
pub use embeddings::IndexedEmbeddings;
pub use indexed_host::IndexedHost;
pub use laws::steps_leave_an_index;
pub use touched::Touched;
