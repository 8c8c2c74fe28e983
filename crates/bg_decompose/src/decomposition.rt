//! Decompositions.
use bg_base::{Big, Map};
use bg_lists::Rows;

/// A host as a context, with a pattern in it, with a parameter in the pattern (Milner, chapter 8).
#[derive(Debug, Drop)]
pub struct Decomposition {
    /// For each node of the pattern, in the order of its rows, the number of the host's node that is its image.
    pub map: Map,
    /// For each edge of the pattern, in their order, the number of the host's edge that is its image.
    pub images: Rows<u32>,
    /// What is outside of the pattern: it has a site for each region of the pattern.
    pub context: Big,
    /// What is inside of the pattern: it has a region for each site of the pattern, and each of its ports is tied to an
    /// outer name of its own.
    pub parameter: Big,
}
