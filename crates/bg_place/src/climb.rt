//! Climbs from a place to its region.
ghost use Rattle.std.specs.Prelude.{◌≡◌, ◌==◌, ◌<◌, ◌^◌, length};
ghost use Rattle.std.specs.List.{list_any};
ghost use Rattle.std.specs.List.Sorted.{IsStrictlySortedBy};
ghost use Rattle.bg_place.specs.Places as defined;
ghost use Rattle.bg_place.specs.Rows.{parent_cmp};

use crate::ParentRow;
use crate::graph::position;
use bg_base::Place;

/// Where the node lies, in rows that ascend by node, or `None` where it has no row.
pub fn parent_in(rows: &[ParentRow], node: u32) -> Option<Place>
    requires ascending { IsStrictlySortedBy parent_cmp rows.now }
    ensures { result ≡ defined.parent_in rows.now node }
{
    match position(rows, node) {
        Some(at) => Some(rows[at].parent),
        None => None,
    }
}

/// How deep lies what lies in the place: the number of nodes that are met from the place upwards.
pub fn depth_in(rows: &[ParentRow], start: Place) -> u32
    requires ascending { IsStrictlySortedBy parent_cmp rows.now }
    requires few { length rows.now < 2 ^ 32 }
    ensures { result ≡ length (defined.climb rows.now (length rows.now) start) }
{
    let mut place = start;
    let mut moves = rows.len();
    let mut count = 0;
    while let Place::Node(node) = place {
        if moves == 0 {
            return count;
        }
        moves -= 1;
        count += 1;
        let Some(parent) = parent_in(rows, node) else {
            return count;
        };
        place = parent;
    }
    count
}

/// Whether the node is met from the place upwards.
pub fn meets(rows: &[ParentRow], start: Place, wanted: u32) -> bool
    requires ascending { IsStrictlySortedBy parent_cmp rows.now }
    ensures { result ≡ list_any (λ node. node == wanted) (defined.climb rows.now (length rows.now) start) }
{
    let mut place = start;
    let mut moves = rows.len();
    while let Place::Node(node) = place {
        if moves == 0 {
            return false;
        }
        if node == wanted {
            return true;
        }
        moves -= 1;
        let Some(parent) = parent_in(rows, node) else {
            return false;
        };
        place = parent;
    }
    false
}

/// Whether `lower` lies in `upper`, directly or not.
pub fn is_above(rows: &[ParentRow], upper: u32, lower: u32) -> bool
    requires ascending { IsStrictlySortedBy parent_cmp rows.now }
    ensures { result ≡ defined.is_above rows.now upper lower }
{
    match parent_in(rows, lower) {
        Some(parent) => meets(rows, parent, upper),
        None => false,
    }
}
