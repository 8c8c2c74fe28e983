//! The rows of the bigraphs on a stack.
use bg_base::{NodeRow, Place};
use std::alloc::Global;

/// The nodes, the edges and the sites of all bigraphs on a stack, those of each behind those of the one below it.
#[derive(Drop)]
pub(crate) struct Lists {
    pub(crate) nodes: Vec<NodeRow>,
    pub(crate) edges: Vec<u32>,
    pub(crate) sites: Vec<Place>,
}

impl Lists {
    /// No row. Takes no memory.
    pub(crate) fn new(alloc: Global) -> Lists {
        Lists {
            nodes: Vec::new(alloc),
            edges: Vec::new(alloc),
            sites: Vec::new(alloc),
        }
    }
}
