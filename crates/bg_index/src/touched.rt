//! What a reaction touches: the nodes that are gone, and those that are new or changed.
ghost use Rattle.std.specs.Prelude.{◌≡◌, ◌↔◌, ◌++◌, ◌<◌, ℕ, IfOk, OnOk, length, map};
ghost use Rattle.std.specs.List.Sorted.{IsStrictlySortedBy};
ghost use Rattle.std.specs.Ordering.{nat_cmp};
ghost use Rattle.bg_lists.specs.Lists.{Mem as Member};
ghost use Rattle.bg_index.specs.declared.entries.NodeEntry.{NodeEntry as NodeEntryValue};
ghost use Rattle.bg_index.specs.declared.plans.LinkKey.TheVariants.{Name as NameKey};
ghost use Rattle.bg_index.specs.declared.plans.Move.{Move as MoveValue};
ghost use Rattle.bg_index.specs.Noting as noting;
ghost use Rattle.bg_index.specs.PortNodes as defined;
ghost use Rattle.bg_index.specs.Noting.{noted};
ghost use Rattle.bg_index.specs.Plans.{points_left};
ghost use Rattle.bg_index.specs.Telling.{names_bundled};

use crate::IndexedHost;
use crate::entries::NodeEntry;
use crate::idle::is_staying;
use crate::plans::{Bundle, Move, Nest, Plan};
use crate::sets::number_set;
use bg_base::Place;
use bg_link::Point;
use bg_lists::Mem;
use std::alloc::Global;

/// What a reaction touches. Both lists ascend. `gone` has exactly the nodes that were there before and are not there now;
/// `changed` exactly those that are there now and are new, or whose row, children, or points of one of their links are
/// others than before.
#[derive(Drop)]
pub struct Touched {
    pub gone: Vec<u32>,
    pub changed: Vec<u32>,
}

/// What a reaction of the host by the plan touches. Costs time n log n, and memory n, in the number of nodes that the plan
/// names and of the points of the links that get others.
pub fn touched_by(alloc: Global, host: &IndexedHost, plan: &Plan) -> Mem<Touched>
    requires gone_ascends { IsStrictlySortedBy nat_cmp plan.now.gone.items }
    requires named { (at : ℕ) → Member at (names_bundled plan.now.bundles.items) → at < length host.now.big.outer }
    ensures gone { IfOk result (λ touched. touched.gone.items ≡ plan.now.gone.items) }
    ensures ascending { IfOk result (λ touched. IsStrictlySortedBy nat_cmp touched.changed.items) }
    ensures noted { IfOk result (λ touched. (node : ℕ) → (Member node touched.changed.items ↔ Member node (noted host.now.big plan.now))) }
{
    let gone = Vec::from_slice(alloc, &plan.gone)?;
    let changed = changed_of(alloc, host, plan)?;
    Ok(Touched { gone, changed })
}

/// The nodes that a plan makes, moves, gives other children or other points of a link, ascending. Costs time n log n, and
/// memory n, in the number of these and of the points of the links.
fn changed_of(alloc: Global, host: &IndexedHost, plan: &Plan) -> Mem<Vec<u32>>
    requires gone_ascends { IsStrictlySortedBy nat_cmp plan.now.gone.items }
    requires named { (at : ℕ) → Member at (names_bundled plan.now.bundles.items) → at < length host.now.big.outer }
    ensures ascending { IfOk result (λ changed. IsStrictlySortedBy nat_cmp changed.items) }
    ensures noted { IfOk result (λ changed. (node : ℕ) → (Member node changed.items ↔ Member node (noted host.now.big plan.now))) }
{
    let nodes = noted_of(alloc, host, plan)?;
    Ok(number_set(nodes))
}

/// The nodes that a plan makes, moves, gives other children or other points of a link, some of them more than once.
fn noted_of(alloc: Global, host: &IndexedHost, plan: &Plan) -> Mem<Vec<u32>>
    requires gone_ascends { IsStrictlySortedBy nat_cmp plan.now.gone.items }
    requires named { (at : ℕ) → Member at (names_bundled plan.now.bundles.items) → at < length host.now.big.outer }
    ensures { IfOk result (λ nodes. nodes.items ≡ noted host.now.big plan.now) }
{
    let mut nodes = Vec::new(alloc);
    note_entries(&plan.entries, &mut nodes)?;
    note_moves(&plan.moves, &mut nodes)?;
    note_nests(&plan.nests, &mut nodes)?;
    note_bundles(host, &plan.gone, &plan.bundles, &mut nodes)?;
    Ok(nodes)
}

/// Puts the numbers of new nodes behind the others.
fn note_entries(entries: &[NodeEntry], nodes: &mut Vec<u32>) -> Mem<()>
    ensures { OnOk result (nodes.new.items ≡ nodes.old.items ++ map (λ (entry : NodeEntryValue). entry.row.id) entries.now) }
{
    for entry in entries {
        nodes.push(entry.row.id)?;
    }
    Ok(())
}

/// Puts the nodes that move behind the others.
pub fn note_moves(moves: &[Move], nodes: &mut Vec<u32>) -> Mem<()>
    ensures { OnOk result (nodes.new.items ≡ nodes.old.items ++ map (λ (move : MoveValue). move.node) moves.now) }
{
    for moved in moves {
        nodes.push(moved.node)?;
    }
    Ok(())
}

/// Puts the nodes that get other children behind the others.
pub fn note_nests(nests: &[Nest], nodes: &mut Vec<u32>) -> Mem<()>
    ensures { OnOk result (nodes.new.items ≡ nodes.old.items ++ noting.nests_noted nests.now) }
{
    for nest in nests {
        note_place(nest.place, nodes)?;
    }
    Ok(())
}

/// Puts the place behind the others, where it is a node.
fn note_place(place: Place, nodes: &mut Vec<u32>) -> Mem<()>
    ensures { OnOk result (nodes.new.items ≡ nodes.old.items ++ noting.place_noted place) }
{
    if let Place::Node(node) = place {
        nodes.push(node)?;
    }
    Ok(())
}

/// Puts the nodes behind the others that have a port on a link whose points are others.
fn note_bundles(
    host: &IndexedHost,
    gone: &[u32],
    bundles: &[Bundle],
    nodes: &mut Vec<u32>,
) -> Mem<()>
    requires gone_ascends { IsStrictlySortedBy nat_cmp gone.now }
    requires named { (at : ℕ) → Member at (names_bundled bundles.now) → at < length host.now.big.outer }
    ensures { OnOk result (nodes.new.items ≡ nodes.old.items ++ noting.bundles_noted host.now.big gone.now bundles.now) }
{
    for bundle in bundles {
        note_bundle(host, gone, bundle, nodes)?;
    }
    Ok(())
}

/// Puts the nodes behind the others that are to have a port on the link.
fn note_bundle(host: &IndexedHost, gone: &[u32], bundle: &Bundle, nodes: &mut Vec<u32>) -> Mem<()>
    requires gone_ascends { IsStrictlySortedBy nat_cmp gone.now }
    requires named { (at : ℕ) → bundle.now.key ≡ NameKey at → at < length host.now.big.outer }
    ensures { OnOk result (nodes.new.items ≡ nodes.old.items ++ defined.port_nodes (noting.points_bundled host.now.big gone.now bundle.now)) }
{
    note_staying(host.points_at(bundle.key), gone, nodes)?;
    note_points(bundle.arriving.as_slice(), nodes)?;
    Ok(())
}

/// Puts the nodes of the ports behind the others that are not gone.
fn note_staying(points: &[Point], gone: &[u32], nodes: &mut Vec<u32>) -> Mem<()>
    requires gone_ascends { IsStrictlySortedBy nat_cmp gone.now }
    ensures { OnOk result (nodes.new.items ≡ nodes.old.items ++ defined.port_nodes (points_left gone.now points.now)) }
{
    for point in points {
        if is_staying(point, gone) {
            note_point(point, nodes)?;
        }
    }
    Ok(())
}

/// Puts the nodes of the ports behind the others.
pub fn note_points(points: &[Point], nodes: &mut Vec<u32>) -> Mem<()>
    ensures { OnOk result (nodes.new.items ≡ nodes.old.items ++ defined.port_nodes points.now) }
{
    for point in points {
        note_point(point, nodes)?;
    }
    Ok(())
}

/// Puts the node of the point behind the others, where it is a port.
fn note_point(point: &Point, nodes: &mut Vec<u32>) -> Mem<()>
    ensures { OnOk result (nodes.new.items ≡ nodes.old.items ++ defined.port_node point.now) }
{
    if let Point::Port { node, .. } = point {
        nodes.push(*node)?;
    }
    Ok(())
}
