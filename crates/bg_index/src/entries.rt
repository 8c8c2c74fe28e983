//! How a host is kept: its nodes in a slab and found by number; beside them what lies in each region, what is tied to
//! each edge and outer name, and the nodes of each control.
ghost use Rattle.std.specs.Prelude.{◌≡◌, ◌==◌, Some, None, find, length, option_copied, slice_get, MatchOption};
ghost use Rattle.std.specs.Option.{option_and_then};
ghost use Rattle.std.specs.List.{position_or_len};
ghost use Rattle.std.specs.List.Sorted.{IsStrictlySortedBy};
ghost use Rattle.std.specs.Ordering.{is_eq};
ghost use Rattle.slab.specs.Slab.{get};
ghost use Rattle.bg_lists.specs.Lists.{At};
ghost use Rattle.bg_base.specs.Order.{name_cmp};
ghost use Rattle.bg_index.specs.declared.entries.Slot.{Slot as SlotValue};
ghost use Rattle.bg_index.specs.declared.entries.EdgeEntry.{EdgeEntry as EdgeValue};
ghost use Rattle.bg_index.specs.declared.entries.ControlEntry.{ControlEntry as ControlValue};
ghost use Rattle.bg_index.specs.Indexed.{slot_cmp, edge_cmp, control_cmp};

use crate::tied_points::TiedPoints;
use bg_base::{Name, NodeRow, reach};
use bg_lists::Rows;
use slab::Slab;

/// Where in the slab the entry of a node is kept.
#[derive(Clone, Copy)]
pub struct Slot {
    pub node: u32,
    pub at: u32,
}

/// A node: its row, and the nodes that lie in it.
#[derive(Drop)]
pub struct NodeEntry {
    pub row: NodeRow,
    pub children: Vec<u32>,
}

/// A region: the nodes that lie in it.
#[derive(Drop)]
pub struct RegionEntry {
    pub children: Vec<u32>,
}

/// An edge and the points that are tied to it.
#[derive(Drop)]
pub struct EdgeEntry {
    pub edge: u32,
    pub points: TiedPoints,
}

/// An outer name, by its position: the points that are tied to it.
#[derive(Drop)]
pub struct NameEntry {
    pub points: TiedPoints,
}

/// A control and the nodes that have it.
#[derive(Drop)]
pub struct ControlEntry {
    pub control: u32,
    pub nodes: Vec<u32>,
}

/// The parts of an indexed host. The slots ascend by node and are the only way to the nodes; the edges ascend by number
/// and the controls by theirs; the names stand beside the outer names.
pub struct Index {
    pub nodes: Slab<NodeEntry>,
    pub slots: Vec<Slot>,
    pub regions: Vec<RegionEntry>,
    pub edges: Vec<EdgeEntry>,
    pub outer: Rows<Name>,
    pub names: Vec<NameEntry>,
    pub controls: Vec<ControlEntry>,
    pub next_node: u32,
    pub next_edge: u32,
}

// One step for whoever holds it, and not one for each list.
impl Drop for Index {
    fn drop(self) {
        let Index {
            nodes: _,
            slots: _,
            regions: _,
            edges: _,
            outer: _,
            names: _,
            controls: _,
            next_node: _,
            next_edge: _,
        } = self;
    }
}

/// The slot of the node, in slots that ascend by node. Costs what [`find_slot_at`] does.
pub fn find_slot(slots: &[Slot], node: u32) -> Option<Slot>
    requires ascending { IsStrictlySortedBy slot_cmp slots.now }
    ensures { result ≡ find (λ (slot : SlotValue). slot.node == node) slots.now }
{
    match find_slot_at(slots, node) {
        Some((_, slot)) => Some(slot),
        None => None,
    }
}

/// The slot of the node, and how many come before it, in slots that ascend by node. Takes no memory; constant time where the
/// numbers of the nodes are in a row from 0, and never more than logarithmic in the number of slots.
pub fn find_slot_at(slots: &[Slot], node: u32) -> Option<(usize, Slot)>
    requires ascending { IsStrictlySortedBy slot_cmp slots.now }
    ensures { MatchOption result (find (λ (slot : SlotValue). slot.node == node) slots.now ≡ None)
        (λ found. At found.1 found.0 slots.now × (find (λ (slot : SlotValue). slot.node == node) slots.now ≡ Some found.1)) }
{
    let last = slots.last()?;
    let (from, to) = reach(slots.len(), last.node, node);
    let (at, slot) = find_within(&slots[from..to], node)?;
    Some((from + at, slot))
}

/// The slot of the node, and how many come before it, in slots that ascend by node, each of which is looked at alike.
fn find_within(slots: &[Slot], node: u32) -> Option<(usize, Slot)>
    requires ascending { IsStrictlySortedBy slot_cmp slots.now }
    ensures { MatchOption result (find (λ (slot : SlotValue). slot.node == node) slots.now ≡ None)
        (λ found. At found.1 found.0 slots.now × (find (λ (slot : SlotValue). slot.node == node) slots.now ≡ Some found.1)) }
{
    match slots.binary_search_by_key(&node, |slot| slot.node) {
        Ok(at) => Some((at, slots[at])),
        Err(_) => None,
    }
}

/// The entry of the node whose slot has that many before it.
pub fn entry_at<'a>(nodes: &'a Slab<NodeEntry>, slots: &[Slot], at: usize) -> Option<&'a NodeEntry>
    ensures { option_copied result ≡ option_and_then (λ (slot : SlotValue). get nodes.now slot.at) (slice_get slots.now at) }
{
    match slots.get(at) {
        Some(slot) => nodes.get(slot.at as usize),
        None => None,
    }
}

/// The entry of the edge, in entries that ascend by edge.
pub fn find_edge(edges: &[EdgeEntry], edge: u32) -> Option<&EdgeEntry>
    requires ascending { IsStrictlySortedBy edge_cmp edges.now }
    ensures { option_copied result ≡ find (λ (entry : EdgeValue). entry.edge == edge) edges.now }
{
    match edges.binary_search_by_key(&edge, |entry| entry.edge) {
        Ok(at) => Some(&edges[at]),
        Err(_) => None,
    }
}

/// The entry of the control, in entries that ascend by control.
pub fn find_control(controls: &[ControlEntry], control: u32) -> Option<&ControlEntry>
    requires ascending { IsStrictlySortedBy control_cmp controls.now }
    ensures { option_copied result ≡ find (λ (entry : ControlValue). entry.control == control) controls.now }
{
    match controls.binary_search_by_key(&control, |entry| entry.control) {
        Ok(at) => Some(&controls[at]),
        Err(_) => None,
    }
}

/// The entry of the outer name, in entries beside outer names that ascend.
pub fn find_name<'a>(outer: &[Name], names: &'a [NameEntry], name: &Name) -> Option<&'a NameEntry>
    requires ascending { IsStrictlySortedBy name_cmp outer.now }
    requires beside { length names.now ≡ length outer.now }
    ensures { option_copied result ≡ slice_get names.now (position_or_len (λ other. is_eq (name_cmp other name.now)) outer.now) }
{
    match outer.binary_search(name) {
        Ok(at) => name_at(names, at),
        Err(_) => None,
    }
}

fn name_at(names: &[NameEntry], at: usize) -> Option<&NameEntry>
    ensures { option_copied result ≡ slice_get names.now at }
{
    names.get(at)
}
