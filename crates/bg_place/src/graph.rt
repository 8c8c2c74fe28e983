//! The places of a bigraph, row by row.
ghost use Rattle.std.specs.Prelude.{◌≡◌, ◌<◌, ◌-◌, ◌^◌, length, map, IfOk, None, MatchOption};
ghost use Rattle.std.specs.List.Sorted.{IsStrictlySortedBy};
ghost use Rattle.bg_place.specs.Places as defined;
ghost use Rattle.bg_place.specs.Rows.{parent_cmp, IsRowAt};

use bg_base::{Big, NodeRow, Place};
use bg_lists::{Duplicate, Mem, Numbered, Rows};
use std::alloc::Global;

/// A node and where it lies.
#[derive(Clone, Copy, Debug, PartialEq, Eq)]
pub struct ParentRow {
    pub node: u32,
    pub parent: Place,
}

/// The place part of a bigraph: the number of its regions, the place of each site, and the nodes with their parents,
/// which ascend by node where the bigraph is valid.
#[derive(Debug, Drop)]
pub struct Places {
    pub regions: u32,
    pub sites: Rows<Place>,
    pub parents: Rows<ParentRow>,
}

impl Duplicate for ParentRow {
    fn copy(&self, _alloc: Global) -> Mem<ParentRow> {
        Ok(*self)
    }
}

impl Numbered for ParentRow {
    ghost number = { λ row. row.node };

    fn number(&self) -> u32 {
        self.node
    }
}

/// The place part of the bigraph. Costs time and memory in proportion to its nodes and sites.
pub fn places_of(alloc: Global, big: &Big) -> Mem<Places>
    ensures { IfOk result (λ places. places ≡ defined.places_of big.now) }
{
    Ok(Places {
        regions: big.regions,
        sites: big.sites.copy(alloc)?,
        parents: Rows::from_vec(parent_rows(alloc, big.nodes.as_slice())?),
    })
}

/// The nodes with their parents. Costs time and memory in proportion to them.
pub fn parent_rows(alloc: Global, nodes: &[NodeRow]) -> Mem<Vec<ParentRow>>
    ensures { IfOk result (λ rows. rows.items ≡ map defined.parent_row nodes.now) }
{
    let mut rows = Vec::with_capacity(alloc, nodes.len())?;
    for row in nodes {
        rows.push(ParentRow {
            node: row.id,
            parent: row.parent,
        })?;
    }
    Ok(rows)
}

/// The position of the node's row, in rows that ascend by node.
pub fn position(rows: &[ParentRow], node: u32) -> Option<usize>
    requires ascending { IsStrictlySortedBy parent_cmp rows.now }
    ensures { MatchOption result (defined.row_of rows.now node ≡ None) (λ at. IsRowAt rows.now node at) }
{
    match rows.binary_search_by_key(&node, |row| row.node) {
        Ok(at) => Some(at),
        Err(_) => None,
    }
}
