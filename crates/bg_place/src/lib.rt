//! The place forest of a bigraph: what lies in what.
//!
//! - [`Places`], [`ParentRow`]: regions, sites and nodes, each with its parent; [`places_of`] takes them from a
//!   bigraph.
//! - [`Forest`]: the places with their children kept at hand.
//! - [`compose_places`]: the place part of composition; [`place_through`] and [`sites_through`], of which it is made.
//! - [`tensor_places`]: the place part of the tensor product, and of the parallel product.
//! - [`climbs_reach_regions`], [`depths_count_from_regions`], [`places_not_there_are_empty`]: laws. No climb is cut
//!   off;
//!   depths count from the regions; what is not there has no children and no sites.
#![tactic(auto)]

mod climb;
mod composition;
mod forest;
mod graph;
mod groups;
mod laws;
mod products;
mod subtree;

pub use composition::{compose_places, place_through, sites_through};
pub use forest::Forest;
pub use graph::{ParentRow, Places, places_of};
pub use laws::{climbs_reach_regions, depths_count_from_regions, places_not_there_are_empty};
pub use products::tensor_places;
