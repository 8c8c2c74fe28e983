//! The points of a link, with the nodes kept beside them of which they are ports.
ghost use Rattle.std.specs.Prelude.{◌≡◌, ◌≤◌, ◌+◌, ◌++◌, length, IfOk, OnOk, vec_capacity};
ghost use Rattle.std.specs.List.Sorted.{IsStrictlySortedBy};
ghost use Rattle.std.specs.Ordering.{nat_cmp};
ghost use Rattle.bg_index.specs.Commits.{CanTake};
ghost use Rattle.bg_index.specs.Plans.{points_left};
ghost use Rattle.bg_index.specs.PortNodes.{HasRoomBeside, nodes_on};

use crate::leaving::leave_out_all;
use crate::leaving_points::leave_points;
use crate::sets::number_set;
use crate::touched::note_points;
use bg_link::Point;
use bg_lists::Mem;
use std::alloc::Global;
use std::marker::Model;

/// The points of a link, and the nodes of the ports among them, ascending, each once. A contract sees the points, and for how
/// many points and nodes there is memory.
#[derive(Drop)]
pub struct TiedPoints {
    points: Vec<Point>,
    nodes: Vec<u32>,
}

impl Model for TiedPoints {
    ghost use Rattle.std.specs.Prelude.{◌≡◌, vec_capacity};
    ghost use Rattle.bg_index.specs.PortNodes.{KeptPoints, nodes_on};

    ghost Value = { KeptPoints };

    ghost view = { λ tied. record { items = tied.points.items; point_capacity = vec_capacity tied.points; node_capacity = vec_capacity tied.nodes } };

    ghost invariant = { λ tied. tied.nodes.items ≡ nodes_on tied.points.items };
}

impl TiedPoints {
    /// These points, with their nodes. Costs time n log n, and memory n, in their number.
    pub fn of(alloc: Global, points: Vec<Point>) -> Mem<TiedPoints>
        ensures { IfOk result (λ made. made.items ≡ points.items) }
    {
        let nodes = nodes_of(alloc, &points)?;
        Ok(TiedPoints { points, nodes })
    }

    /// The points. Takes no memory.
    pub fn as_slice(&self) -> &[Point]
        ensures value { result.now ≡ self.now.items }
    {
        self.points.as_slice()
    }

    /// The nodes of the ports among the points, ascending, each once. Takes no memory.
    pub fn nodes(&self) -> &[u32]
        ensures value { result.now ≡ nodes_on self.now.items }
    {
        self.nodes.as_slice()
    }

    /// Room for these points and their nodes besides. Costs moving what has to lie elsewhere.
    pub fn make_room(&mut self, arriving: &TiedPoints) -> Mem<()>
        ensures items { self.new.items ≡ self.old.items }
        ensures points { self.old.point_capacity ≤ self.new.point_capacity }
        ensures nodes { self.old.node_capacity ≤ self.new.node_capacity }
        ensures room { OnOk result (HasRoomBeside self.new arriving.now.items) }
    {
        self.points.reserve(arriving.points.len())?;
        self.nodes.reserve(arriving.nodes.len())?;
        Ok(())
    }

    /// Takes the points on nodes that are gone out, and puts those that arrive behind, for which there is room. Takes no memory.
    /// Costs, for each node that is gone, two searches and moving up what stands behind its points, and where that is more, a
    /// look at each point; and putting those that arrive behind.
    pub fn change(&mut self, gone: &[u32], arriving: TiedPoints)
        requires take { CanTake self.old arriving.items }
        requires gone_ascends { IsStrictlySortedBy nat_cmp gone.now }
        ensures { self.new.items ≡ points_left gone.now self.old.items ++ arriving.items }
    {
        let TiedPoints { points, nodes } = arriving;
        leave_points(&mut self.points, gone);
        leave_out_all(&mut self.nodes, gone);
        put_points(&mut self.points, points);
        put_nodes(&mut self.nodes, nodes);
    }
}

/// Puts points behind the others, where there is room for them.
fn put_points(points: &mut Vec<Point>, mut more: Vec<Point>)
    requires room { length points.old.items + length more.items ≤ vec_capacity points.old }
    ensures items { points.new.items ≡ points.old.items ++ more.items }
{
    let _put = points.append(&mut more);
}

/// Puts nodes behind the others, where there is room for them.
fn put_nodes(nodes: &mut Vec<u32>, mut more: Vec<u32>)
    requires room { length nodes.old.items + length more.items ≤ vec_capacity nodes.old }
    ensures items { nodes.new.items ≡ nodes.old.items ++ more.items }
{
    let _put = nodes.append(&mut more);
}

/// The nodes of the ports among the points, ascending, each once.
fn nodes_of(alloc: Global, points: &[Point]) -> Mem<Vec<u32>>
    ensures { IfOk result (λ nodes. nodes.items ≡ nodes_on points.now) }
{
    let mut nodes = Vec::new(alloc);
    note_points(points, &mut nodes)?;
    let set = number_set(nodes);
    Ok(set)
}
