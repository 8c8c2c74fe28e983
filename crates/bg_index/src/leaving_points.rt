//! Points on nodes that are gone are left out of a list.
ghost use Rattle.std.specs.Prelude.{◌≡◌, ◌==◌, ◌+◌, ◌≤◌, ◌++◌, not, length, take, drop, filter, vec_capacity};
ghost use Rattle.std.specs.List.Sorted.{IsStrictlySortedBy};
ghost use Rattle.std.specs.Ordering.{nat_cmp};
ghost use Rattle.bg_link.specs.Rows.{point_cmp};
ghost use Rattle.bg_index.specs.Leaving.{is_before, is_up_to};
ghost use Rattle.bg_index.specs.Plans.{points_left};
ghost use Rattle.bg_rewriting.specs.Keeping.{stays_at};

use crate::idle::is_staying;
use crate::leaving::is_cheaper_singly;
use bg_link::Point;

/// Leaves the points on nodes that are gone out of a list that ascends: node by node where that costs less, each by two searches
/// and moving up what stands behind its points, else by a pass over all.
pub fn leave_points(points: &mut Vec<Point>, gone: &[u32])
    requires ascend { IsStrictlySortedBy point_cmp points.old.items }
    requires gone_ascends { IsStrictlySortedBy nat_cmp gone.now }
    ensures kept { points.new.items ≡ points_left gone.now points.old.items }
    ensures capacity { vec_capacity points.new ≡ vec_capacity points.old }
{
    if is_cheaper_singly(gone.len(), behind_first(points, gone), points.len()) {
        take_nodes(points, gone);
    } else {
        points.retain(|point| is_staying(point, gone));
    }
}

/// How many points stand behind those of the first of these nodes, or are its. Logarithmic.
fn behind_first(points: &[Point], gone: &[u32]) -> usize {
    match gone.first() {
        Some(first) => points.len() - points.partition_point(|point| is_before(point, *first)),
        None => 0,
    }
}

/// Takes the points of these nodes out, node by node.
fn take_nodes(points: &mut Vec<Point>, gone: &[u32])
    requires ascend { IsStrictlySortedBy point_cmp points.old.items }
    ensures kept { points.new.items ≡ points_left gone.now points.old.items }
    ensures capacity { vec_capacity points.new ≡ vec_capacity points.old }
{
    for node in gone {
        take_node(points, *node);
    }
}

/// Takes the points of a node out, which stand together.
fn take_node(points: &mut Vec<Point>, node: u32)
    requires ascend { IsStrictlySortedBy point_cmp points.old.items }
    ensures kept { points.new.items ≡ filter (stays_at (λ other. not (other == node))) points.old.items }
    ensures capacity { vec_capacity points.new ≡ vec_capacity points.old }
{
    let start = points.partition_point(|point| is_before(point, node));
    let end = points.partition_point(|point| is_up_to(point, node));
    take_part(points, start, end);
}

/// Takes the points out that stand from there up to there.
fn take_part(points: &mut Vec<Point>, start: usize, end: usize)
    requires ordered { start ≤ end }
    requires inside { end ≤ length points.old.items }
    ensures kept { points.new.items ≡ take start points.old.items ++ drop end points.old.items }
    ensures capacity { vec_capacity points.new ≡ vec_capacity points.old }
{
    points.drain(start..end);
}

/// Whether the point is a port of a node below that.
fn is_before(point: &Point, node: u32) -> bool
    ensures { result ≡ is_before node point.now }
{
    match point {
        Point::Port { node: own, .. } => *own < node,
        Point::Inner(_) => false,
    }
}

/// Whether the point is a port of that node or of one below.
fn is_up_to(point: &Point, node: u32) -> bool
    ensures { result ≡ is_up_to node point.now }
{
    match point {
        Point::Port { node: own, .. } => *own <= node,
        Point::Inner(_) => false,
    }
}
