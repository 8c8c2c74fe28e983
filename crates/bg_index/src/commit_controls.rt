//! The nodes of each control, as nodes are taken out and put behind. Takes no memory.
ghost use Rattle.std.specs.Prelude.{◌≡◌, ◌+◌, ◌<◌, ◌++◌, ◌∷◌, [], true, ℕ, List, vec_len, vec_capacity};
ghost use Rattle.std.specs.List.Sorted.{IsStrictlySortedBy};
ghost use Rattle.std.specs.Ordering.{nat_cmp};
ghost use Rattle.bg_lists.specs.Lists.{Mem};
ghost use Rattle.bg_index.specs.declared.entries.ControlEntry.{ControlEntry as ControlValue};
ghost use Rattle.bg_index.specs.Arriving.{rows_in};
ghost use Rattle.bg_index.specs.Commits.{AreFrom, AreHeld, AreRoomy, HasMore, HasRoomy, IsLessened, IsTakenOut, IsThinned, IsWithout, control_key};
ghost use Rattle.bg_index.specs.Indexed.{AreSorted, control_cmp, rows_of};
ghost use Rattle.bg_rules.specs.Instantiation.{is_among};

use crate::entries::{ControlEntry, NodeEntry, Slot, find_slot};
use crate::leaving::leave_out;
use bg_base::NodeRow;
use slab::Slab;

/// Takes the gone nodes out of the lists of their controls, by two look-ups each. No other control is looked at.
pub fn take_out(
    nodes: &Slab<NodeEntry>,
    slots: &[Slot],
    controls: &mut Vec<ControlEntry>,
    gone: &[u32],
)
    requires held { AreHeld nodes.now slots.now }
    requires sorted { AreSorted (rows_of nodes.now slots.now) controls.old.items }
    requires ascending { IsStrictlySortedBy nat_cmp gone.now }
    ensures { AreFrom control_key (IsTakenOut gone.now) controls.old.items controls.new.items }
{
    for node in gone {
        take_out_node(nodes, slots, controls, *node, gone);
    }
}

/// Takes a gone node out of the list of its control.
fn take_out_node(
    nodes: &Slab<NodeEntry>,
    slots: &[Slot],
    controls: &mut Vec<ControlEntry>,
    node: u32,
    gone: &[u32],
)
    requires held { AreHeld nodes.now slots.now }
    requires ascending { IsStrictlySortedBy control_cmp controls.old.items }
    requires nodes_ascend { (entry : ControlValue) → Mem entry controls.old.items → IsStrictlySortedBy nat_cmp entry.nodes.items }
    requires gone_ascends { IsStrictlySortedBy nat_cmp gone.now }
    requires among { is_among node gone.now ≡ true }
    ensures { (first : List ControlValue) (done : List ℕ) → AreSorted (rows_of nodes.now slots.now) first
        → AreFrom control_key (IsLessened gone.now done) first controls.old.items
        → AreFrom control_key (IsLessened gone.now (done ++ node ∷ [])) first controls.new.items }
{
    if let Some(slot) = find_slot(slots, node) {
        if let Some(entry) = nodes.get(slot.at as usize) {
            take_out_of(controls, entry.row.control, node, gone);
        }
    }
}

/// Takes a gone node out of the list of the control.
fn take_out_of(controls: &mut Vec<ControlEntry>, control: u32, node: u32, gone: &[u32])
    requires ascending { IsStrictlySortedBy control_cmp controls.old.items }
    requires nodes_ascend { (entry : ControlValue) → Mem entry controls.old.items → IsStrictlySortedBy nat_cmp entry.nodes.items }
    requires gone_ascends { IsStrictlySortedBy nat_cmp gone.now }
    requires among { is_among node gone.now ≡ true }
    ensures { AreFrom control_key (IsWithout gone.now control node) controls.old.items controls.new.items }
{
    match controls.binary_search_by_key(&control, |entry| entry.control) {
        Ok(at) => leave_node(&mut controls[at], node, gone),
        Err(_) => {}
    }
}

/// Leaves a gone node out of the list.
fn leave_node(entry: &mut ControlEntry, node: u32, gone: &[u32])
    requires nodes_ascend { IsStrictlySortedBy nat_cmp entry.old.nodes.items }
    requires gone_ascends { IsStrictlySortedBy nat_cmp gone.now }
    requires among { is_among node gone.now ≡ true }
    ensures control { entry.new.control ≡ entry.old.control }
    ensures thinned { IsThinned gone.now entry.old.nodes.items entry.new.nodes.items }
    ensures out { Mem node entry.new.nodes.items → ⊥ }
    ensures capacity { vec_capacity entry.new.nodes ≡ vec_capacity entry.old.nodes }
{
    leave_out(&mut entry.nodes, node, gone);
}

/// Puts the nodes of new entries behind the others of their controls, where there is room for them.
pub fn put_in(controls: &mut Vec<ControlEntry>, entries: &[NodeEntry])
    requires ascending { IsStrictlySortedBy control_cmp controls.old.items }
    requires room { AreRoomy (rows_in entries.now) (rows_in entries.now) controls.old.items }
    ensures { AreFrom control_key (HasMore (rows_in entries.now)) controls.old.items controls.new.items }
{
    for entry in entries {
        put_node(controls, &entry.row);
    }
}

/// Puts the node of a row behind the others of its control, where there is room for it.
fn put_node(controls: &mut Vec<ControlEntry>, row: &NodeRow)
    requires ascending { IsStrictlySortedBy control_cmp controls.old.items }
    requires room { HasRoomy row.now.control 1 controls.old.items }
    ensures { AreFrom control_key (HasMore (row.now ∷ [])) controls.old.items controls.new.items }
{
    match controls.binary_search_by_key(&row.control, |entry| entry.control) {
        Ok(at) => push_node(&mut controls[at], row.id),
        Err(_) => {}
    }
}

/// Puts the node behind the others.
fn push_node(entry: &mut ControlEntry, node: u32)
    requires room { vec_len entry.old.nodes < vec_capacity entry.old.nodes }
    ensures control { entry.new.control ≡ entry.old.control }
    ensures nodes { entry.new.nodes.items ≡ entry.old.nodes.items ++ node ∷ [] }
    ensures capacity { vec_capacity entry.new.nodes ≡ vec_capacity entry.old.nodes }
{
    entry.nodes.push_reserved(node);
}
