//! Nodes that come to lie in places, by their places.
ghost use Rattle.std.specs.Prelude.{◌≡◌, ◌++◌, map, IfOk, OnOk};
ghost use Rattle.bg_index.specs.Arriving.{move_row, arriving};
ghost use Rattle.bg_place.specs.Places as defined;
ghost use Rattle.bg_place.specs.Rows as row;

use crate::plans::Move;
use bg_base::{NodeRow, Place};
use bg_lists::Mem;
use bg_place::ParentRow;
use std::alloc::Global;
use std::marker::Model;

/// Nodes, each with the place in which it comes to lie, put in order by their places; beside them their numbers alone. A
/// contract sees the nodes with their places.
#[derive(Drop)]
pub struct NodesByPlace {
    rows: Vec<ParentRow>,
    nodes: Vec<u32>,
}

impl Model for NodesByPlace {
    ghost use Rattle.std.specs.Prelude.{List};
    ghost use Rattle.bg_place.specs.declared.graph.ParentRow.{ParentRow as RowOfParent};
    ghost use Rattle.bg_place.specs.Rows.{IsGroups};

    ghost Value = { List RowOfParent };

    ghost view = { λ placed. placed.rows.items };

    ghost invariant = { λ placed. IsGroups placed.rows.items placed.nodes.items };
}

impl NodesByPlace {
    /// The nodes that move and then the new ones, by their places; those of one place stay in their order. Costs time
    /// n log n in their number.
    pub fn of(alloc: Global, moves: &[Move], new: &[NodeRow]) -> Mem<NodesByPlace>
        ensures { IfOk result (λ incoming. row.HasGroups incoming (arriving moves.now new.now)) }
    {
        let mut rows = rows_of(alloc, moves, new)?;
        rows.sort_by_key(|row| rank(row.parent))?;
        let nodes = nodes_of(alloc, &rows)?;
        Ok(NodesByPlace { rows, nodes })
    }

    /// The nodes that come to lie in the place, in their order. Takes no memory; logarithmic.
    pub fn in_place(&self, place: Place) -> &[u32]
        ensures { result.now ≡ defined.numbers_in place self.now }
    {
        let wanted = rank(place);
        let start = self.rows.partition_point(|row| rank(row.parent) < wanted);
        let rest = &self.rows[start..];
        let count = rest.partition_point(|row| rank(row.parent) <= wanted);
        &self.nodes[start..start + count]
    }
}

/// The position of a place among all places.
fn rank(place: Place) -> u64
    ensures { result ≡ row.place_rank place }
{
    match place {
        Place::Node(node) => node as u64 * 2,
        Place::Region(region) => region as u64 * 2 + 1,
    }
}

/// The numbers of the rows.
fn nodes_of(alloc: Global, rows: &[ParentRow]) -> Mem<Vec<u32>>
    ensures { IfOk result (λ made. made.items ≡ map defined.node_number rows.now) }
{
    let mut made = Vec::with_capacity(alloc, rows.len())?;
    for row in rows {
        made.push(row.node)?;
    }
    Ok(made)
}

/// The nodes that move and then the new ones, each with its place.
fn rows_of(alloc: Global, moves: &[Move], new: &[NodeRow]) -> Mem<Vec<ParentRow>>
    ensures { IfOk result (λ made. made.items ≡ arriving moves.now new.now) }
{
    let mut made = move_rows(alloc, moves)?;
    push_rows(new, &mut made)?;
    Ok(made)
}

/// The nodes that move, each with its place.
fn move_rows(alloc: Global, moves: &[Move]) -> Mem<Vec<ParentRow>>
    ensures { IfOk result (λ made. made.items ≡ map move_row moves.now) }
{
    let mut made = Vec::with_capacity(alloc, moves.len())?;
    for step in moves {
        made.push(ParentRow {
            node: step.node,
            parent: step.place,
        })?;
    }
    Ok(made)
}

/// Puts the nodes of the rows, each with its place, behind the others.
fn push_rows(new: &[NodeRow], made: &mut Vec<ParentRow>) -> Mem<()>
    ensures { OnOk result (made.new.items ≡ made.old.items ++ map defined.parent_row new.now) }
{
    for row in new {
        made.push(ParentRow {
            node: row.id,
            parent: row.parent,
        })?;
    }
    Ok(())
}
