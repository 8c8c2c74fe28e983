//! The nodes that lie in a node. Each is climbed from until that node, a region or a row that is known, and the rows on
//! the way are marked, so that none is climbed from twice.
ghost use Rattle.std.specs.Prelude.{◌≡◌, ◌<◌, length, map, filter, None, Some, MatchOption, IfOk};
ghost use Rattle.std.specs.List.Sorted.{IsStrictlySortedBy};
ghost use Rattle.bg_place.specs.Places as defined;
ghost use Rattle.bg_base.specs.Climbing.{AreMarks};
ghost use Rattle.bg_place.specs.Rows.{parent_cmp, IsRowOf, ClimbsEnd, lies_in, lies_at};

use crate::ParentRow;
use crate::graph::position;
use bg_base::{AtFoothold, Climbable, Place, marked_value, no_marks};
use bg_lists::Mem;
use std::alloc::Global;

/// The row of the node, and its position.
fn row_at(rows: &[ParentRow], node: u32) -> Option<(usize, ParentRow)>
    requires ascending { IsStrictlySortedBy parent_cmp rows.now }
    ensures { MatchOption result (defined.row_of rows.now node ≡ None) (λ found. IsRowOf rows.now node found.0 found.1) }
{
    match position(rows, node) {
        Some(at) => Some((at, rows[at])),
        None => None,
    }
}

/// Rows, of which some lie in the node `upper`.
#[derive(Drop)]
struct Within<'a> {
    rows: &'a [ParentRow],
    upper: u32,
}

impl<'a> Climbable for Within<'a> {
    type Foothold = Place;

    type Value = bool;

    ghost is_foothold = { λ within _. IsStrictlySortedBy parent_cmp within.rows.now × ClimbsEnd within.rows.now };

    ghost value = { λ within place. lies_in within.rows.now within.upper place };

    ghost value_at = { λ within at. lies_at within.rows.now within.upper at };

    ghost height = { λ within place. length (defined.climb within.rows.now (length within.rows.now) place) };

    fn find(&self, place: Place) -> AtFoothold<bool, Place> {
        let Place::Node(node) = place else {
            return AtFoothold::Value(false);
        };
        if node == self.upper {
            return AtFoothold::Value(true);
        }
        match row_at(self.rows, node) {
            Some((at, row)) => AtFoothold::Row {
                at,
                above: row.parent,
            },
            None => AtFoothold::Value(false),
        }
    }
}

/// The node and all that lie in it, by these marks.
fn collect_within(
    alloc: Global,
    rows: &[ParentRow],
    marks: &mut [Option<bool>],
    node: u32,
) -> Mem<Vec<u32>>
    requires ascending { IsStrictlySortedBy parent_cmp rows.now }
    requires settled { ClimbsEnd rows.now }
    requires marks { AreMarks (lies_at rows.now node) marks.old }
    ensures { IfOk result (λ nodes. nodes.items ≡ map defined.node_number (filter (λ row. defined.is_within rows.now node row.node) rows.now)) }
{
    let within = Within { rows, upper: node };
    let mut nodes = Vec::new(alloc);
    for row in rows {
        if marked_value(&within, marks, Place::Node(row.node)) {
            nodes.push(row.node)?;
        }
    }
    Ok(nodes)
}

/// The node and all that lie in it, where no climb needs more moves than there are rows.
pub fn nodes_within(alloc: Global, rows: &[ParentRow], node: u32) -> Mem<Vec<u32>>
    requires ascending { IsStrictlySortedBy parent_cmp rows.now }
    requires settled { ClimbsEnd rows.now }
    ensures { IfOk result (λ nodes. nodes.items ≡ map defined.node_number (filter (λ row. defined.is_within rows.now node row.node) rows.now)) }
{
    let mut marks = no_marks(alloc, rows.len())?;
    let nodes = collect_within(alloc, rows, &mut marks, node)?;
    Ok(nodes)
}
