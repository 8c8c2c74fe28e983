//! Room for what a plan puts behind, taken before anything is changed.
ghost use Rattle.std.specs.Prelude.{◌≡◌, ◌≤◌, ◌+◌, ◌^◌, ◌==◌, ◌∷◌, [], ℕ, List, OnOk, IfOk, filter, length, map, vec_len, vec_capacity};
ghost use Rattle.std.specs.List.Sorted.{IsNonDecreasingBy, IsStrictlySortedBy};
ghost use Rattle.slab.specs.Slab.{get, HasRoomFor};
ghost use Rattle.bg_lists.specs.Lists.{At, Mem as Member};
ghost use Rattle.bg_base.specs.declared.big.NodeRow.{NodeRow as NodeRowValue};
ghost use Rattle.bg_index.specs.declared.entries.EdgeEntry.{EdgeEntry as EdgeEntryValue};
ghost use Rattle.bg_index.specs.declared.entries.NameEntry.{NameEntry as NameEntryValue};
ghost use Rattle.bg_index.specs.declared.entries.NodeEntry.{NodeEntry as NodeEntryValue};
ghost use Rattle.bg_index.specs.Commits.{AreBeside, AreFrom, ArePointsRoomier, AreRoomy, AreRoomier, HasRoomy, IsEdgeRoomier, IsNameRoomier, edge_key};
ghost use Rattle.bg_index.specs.Arriving.{rows_in};
ghost use Rattle.bg_index.specs.Indexed.{AreSorted, IsIndex, control_cmp, edge_cmp, host_of};
ghost use Rattle.bg_index.specs.Plans.{EdgesHaveRoom, HasRoom, NamesHaveRoom};
ghost use Rattle.bg_index.specs.PortNodes.{HasRoomBeside};
ghost use Rattle.bg_rules.specs.Lookups.{nodes_with};

use crate::controls::control_at;
use crate::entries::{ControlEntry, EdgeEntry, Index, NameEntry, NodeEntry, Slot};
use crate::plans::{Bundle, LinkKey, Plan};
use crate::tied_points::TiedPoints;
use bg_lists::{Mem, OutOfMemory};
use slab::Slab;
use std::alloc::Global;

/// Room for all that the plan puts behind. What is seen does not change, also where there is no memory. Costs time n log n
/// in the number of new nodes, with a search of the control of each among those of the host and of each link that gets points,
/// and moving what has to lie elsewhere; memory in proportion to the new nodes, edges and points.
pub fn make_room(alloc: Global, index: &mut Index, plan: &Plan) -> Mem<()>
    requires index { IsIndex index.old }
    ensures index { IsIndex index.new }
    ensures same { host_of index.new ≡ host_of index.old }
    ensures room { OnOk result (HasRoom index.new plan.now) }
{
    make_points(&mut index.edges, &mut index.names, &plan.bundles)?;
    let more_nodes = plan.entries.len();
    let more_edges = plan.used.len();
    make_lists(
        &mut index.nodes,
        &mut index.slots,
        &mut index.edges,
        more_nodes,
        more_edges,
    )?;
    make_controls(alloc, &mut index.controls, &plan.entries)?;
    Ok(())
}

/// Room for the points that arrive at links.
fn make_points(
    edges: &mut Vec<EdgeEntry>,
    names: &mut Vec<NameEntry>,
    bundles: &[Bundle],
) -> Mem<()>
    requires ascending { IsStrictlySortedBy edge_cmp edges.old.items }
    ensures edges { AreFrom edge_key IsEdgeRoomier edges.old.items edges.new.items }
    ensures names { AreBeside IsNameRoomier names.old.items names.new.items }
    ensures edge_room { OnOk result (EdgesHaveRoom edges.new.items bundles.now) }
    ensures name_room { OnOk result (NamesHaveRoom names.new.items bundles.now) }
{
    for bundle in bundles {
        make_bundle(edges, names, bundle)?;
    }
    Ok(())
}

/// Room for the points that arrive at a link.
fn make_bundle(edges: &mut Vec<EdgeEntry>, names: &mut Vec<NameEntry>, bundle: &Bundle) -> Mem<()>
    requires ascending { IsStrictlySortedBy edge_cmp edges.old.items }
    ensures edges { AreFrom edge_key IsEdgeRoomier edges.old.items edges.new.items }
    ensures names { AreBeside IsNameRoomier names.old.items names.new.items }
    ensures edge_room { OnOk result (EdgesHaveRoom edges.new.items (bundle.now ∷ [])) }
    ensures name_room { OnOk result (NamesHaveRoom names.new.items (bundle.now ∷ [])) }
{
    match bundle.key {
        LinkKey::Edge(edge) => make_edge(edges, edge, &bundle.arriving),
        LinkKey::Name(at) => make_name(names, at, &bundle.arriving),
    }
}

/// Room for these points at the edge.
fn make_edge(edges: &mut Vec<EdgeEntry>, edge: u32, arriving: &TiedPoints) -> Mem<()>
    requires ascending { IsStrictlySortedBy edge_cmp edges.old.items }
    ensures edges { AreFrom edge_key IsEdgeRoomier edges.old.items edges.new.items }
    ensures room { OnOk result ((entry : EdgeEntryValue) → Member entry edges.new.items → entry.edge ≡ edge → HasRoomBeside entry.points arriving.now.items) }
{
    match edges.binary_search_by_key(&edge, |entry| entry.edge) {
        Ok(at) => make_edge_points(&mut edges[at], arriving),
        Err(_) => Ok(()),
    }
}

/// Room for these points at the edge.
fn make_edge_points(entry: &mut EdgeEntry, arriving: &TiedPoints) -> Mem<()>
    ensures edge { entry.new.edge ≡ entry.old.edge }
    ensures points { IsEdgeRoomier entry.old entry.new }
    ensures room { OnOk result (HasRoomBeside entry.new.points arriving.now.items) }
{
    entry.points.make_room(arriving)
}

/// Room for these points at the outer name at the position.
fn make_name(names: &mut Vec<NameEntry>, at: u32, arriving: &TiedPoints) -> Mem<()>
    ensures names { AreBeside IsNameRoomier names.old.items names.new.items }
    ensures room { OnOk result ((entry : NameEntryValue) → At entry at names.new.items → HasRoomBeside entry.points arriving.now.items) }
{
    match names.get_mut(at as usize) {
        Some(entry) => make_name_points(entry, arriving),
        None => Ok(()),
    }
}

/// Room for these points at the outer name.
fn make_name_points(entry: &mut NameEntry, arriving: &TiedPoints) -> Mem<()>
    ensures points { ArePointsRoomier entry.old.points entry.new.points }
    ensures room { OnOk result (HasRoomBeside entry.new.points arriving.now.items) }
{
    entry.points.make_room(arriving)
}

/// Room for so many more nodes and edges; 32 bits tell where in the slab a node goes.
fn make_lists(
    nodes: &mut Slab<NodeEntry>,
    slots: &mut Vec<Slot>,
    edges: &mut Vec<EdgeEntry>,
    more_nodes: usize,
    more_edges: usize,
) -> Mem<()>
    ensures nodes { (key : ℕ) → get nodes.new key ≡ get nodes.old key }
    ensures slots { slots.new.items ≡ slots.old.items }
    ensures edges { edges.new.items ≡ edges.old.items }
    ensures room { OnOk result (HasRoomFor nodes.new more_nodes) }
    ensures few { OnOk result (nodes.new.capacity ≤ 2 ^ 32) }
    ensures slot_room { OnOk result (vec_len slots.new + more_nodes ≤ vec_capacity slots.new) }
    ensures edge_room { OnOk result (vec_len edges.new + more_edges ≤ vec_capacity edges.new) }
{
    nodes.reserve(more_nodes)?;
    if nodes.capacity() > u32::MAX as usize {
        return Err(OutOfMemory);
    }
    slots.reserve(more_nodes)?;
    edges.reserve(more_edges)?;
    Ok(())
}

/// Room in the list of each control for the new entries that have it.
fn make_controls(alloc: Global, controls: &mut Vec<ControlEntry>, entries: &[NodeEntry]) -> Mem<()>
    requires ascending { IsStrictlySortedBy control_cmp controls.old.items }
    ensures sorted { (rows : List NodeRowValue) → AreSorted rows controls.old.items → AreSorted rows controls.new.items }
    ensures room { OnOk result (AreRoomy (rows_in entries.now) (rows_in entries.now) controls.new.items) }
{
    let wanted = controls_wanted(alloc, entries)?;
    make_each(alloc, controls, entries, &wanted)
}

/// Room in the list of each control of the entries for as many nodes as want it.
fn make_each(
    alloc: Global,
    controls: &mut Vec<ControlEntry>,
    entries: &[NodeEntry],
    wanted: &[u32],
) -> Mem<()>
    requires ascending { IsStrictlySortedBy control_cmp controls.old.items }
    requires rise { IsNonDecreasingBy (λ (control : ℕ). control) wanted.now }
    requires counts { (control : ℕ) → length (filter (λ other. other == control) wanted.now) ≡ length (nodes_with control (rows_in entries.now)) }
    ensures sorted { (rows : List NodeRowValue) → AreSorted rows controls.old.items → AreSorted rows controls.new.items }
    ensures room { OnOk result (AreRoomy (rows_in entries.now) (rows_in entries.now) controls.new.items) }
{
    for entry in entries {
        let control = entry.row.control;
        make_control(alloc, controls, control, equal_to(wanted, control).len())?;
    }
    Ok(())
}

/// The controls of the entries, in order, each as often as an entry has it.
fn controls_wanted(alloc: Global, entries: &[NodeEntry]) -> Mem<Vec<u32>>
    ensures rise { IfOk result (λ wanted. IsNonDecreasingBy (λ (control : ℕ). control) wanted.items) }
    ensures counts { IfOk result (λ wanted. (control : ℕ) → length (filter (λ other. other == control) wanted.items)
        ≡ length (nodes_with control (rows_in entries.now))) }
{
    let mut wanted = controls_in(alloc, entries)?;
    wanted.sort_by_key(|control| *control)?;
    Ok(wanted)
}

/// The controls of the entries.
fn controls_in(alloc: Global, entries: &[NodeEntry]) -> Mem<Vec<u32>>
    ensures { IfOk result (λ made. made.items ≡ map (λ (entry : NodeEntryValue). entry.row.control) entries.now) }
{
    let mut made = Vec::with_capacity(alloc, entries.len())?;
    for entry in entries {
        made.push(entry.row.control)?;
    }
    Ok(made)
}

/// Those of the numbers, which rise, that are this one. By two binary searches.
fn equal_to(numbers: &[u32], number: u32) -> &[u32]
    requires rise { IsNonDecreasingBy (λ (n : ℕ). n) numbers.now }
    ensures { result.now ≡ filter (λ other. other == number) numbers.now }
{
    let start = numbers.partition_point(|other| *other < number);
    let rest = &numbers[start..];
    let count = rest.partition_point(|other| *other <= number);
    &numbers[start..start + count]
}

/// Room for so many more nodes in the list of the control.
fn make_control(
    alloc: Global,
    controls: &mut Vec<ControlEntry>,
    control: u32,
    more: usize,
) -> Mem<()>
    requires ascending { IsStrictlySortedBy control_cmp controls.old.items }
    ensures ascending { IsStrictlySortedBy control_cmp controls.new.items }
    ensures roomier { AreRoomier controls.old.items controls.new.items }
    ensures sorted { (rows : List NodeRowValue) → AreSorted rows controls.old.items → AreSorted rows controls.new.items }
    ensures room { OnOk result (HasRoomy control more controls.new.items) }
{
    let at = control_at(alloc, controls, control)?;
    reserve_nodes(&mut controls[at], more)?;
    Ok(())
}

/// Room for so many more nodes.
fn reserve_nodes(entry: &mut ControlEntry, more: usize) -> Mem<()>
    ensures control { entry.new.control ≡ entry.old.control }
    ensures nodes { entry.new.nodes.items ≡ entry.old.nodes.items }
    ensures count { vec_len entry.new.nodes ≡ vec_len entry.old.nodes }
    ensures capacity { vec_capacity entry.old.nodes ≤ vec_capacity entry.new.nodes }
    ensures room { OnOk result (vec_len entry.new.nodes + more ≤ vec_capacity entry.new.nodes) }
{
    entry.nodes.reserve(more)?;
    Ok(())
}
