//! Nodes are taken out, moved, given other children, and put behind the others. Takes no memory.
ghost use Rattle.std.specs.Prelude.{◌≡◌, ◌≢◌, ◌+◌, ◌<◌, ◌≤◌, ◌^◌, ◌==◌, ◌∷◌, ◌++◌, [], ℕ, List, None, true, not, length, take, drop, filter, vec_len, vec_capacity};
ghost use Rattle.std.specs.List.Sorted.{IsStrictlySortedBy};
ghost use Rattle.std.specs.Ordering.{nat_cmp};
ghost use Rattle.slab.specs.Slab.{Slab as SlabValue, get, slab_len, HasRoomFor};
ghost use Rattle.bg_lists.specs.Lists.{Mem};
ghost use Rattle.bg_index.specs.declared.entries.NodeEntry.{NodeEntry as NodeEntryValue};
ghost use Rattle.bg_index.specs.declared.entries.Slot.{Slot as SlotValue};
ghost use Rattle.bg_index.specs.Commits.{AreBeside, AreHeld, AreLeft, AreNodesAfter, ArePushed, IsFilled, IsMoved, IsPut, IsRegionFilled, LeadOn, entry_cmp};
ghost use Rattle.bg_index.specs.Indexed.{slot_cmp};
ghost use Rattle.bg_index.specs.Making.{IsPushed};
ghost use Rattle.bg_index.specs.Plans.{move_cmp};
ghost use Rattle.bg_rules.specs.Instantiation.{is_among};

use crate::entries::{NodeEntry, RegionEntry, Slot, find_slot};
use crate::leaving::{is_cheaper_singly, stays};
use crate::plans::{Move, Nest};
use bg_base::Place;
use slab::Slab;

/// Takes the gone nodes out, moves others, sets what lies in places, and puts the entries behind.
pub fn change_nodes(
    nodes: &mut Slab<NodeEntry>,
    slots: &mut Vec<Slot>,
    regions: &mut Vec<RegionEntry>,
    gone: &[u32],
    moves: &[Move],
    nests: Vec<Nest>,
    entries: Vec<NodeEntry>,
)
    requires held { AreHeld nodes.old slots.old.items }
    requires gone_ascends { IsStrictlySortedBy nat_cmp gone.now }
    requires moves_ascend { IsStrictlySortedBy move_cmp moves.now }
    requires new_ascend { IsStrictlySortedBy entry_cmp entries.items }
    requires above { (slot : SlotValue) (entry : NodeEntryValue) → Mem slot slots.old.items → Mem entry entries.items → slot.node < entry.row.id }
    requires room { HasRoomFor nodes.old (length entries.items) }
    requires few { nodes.old.capacity ≤ 2 ^ 32 }
    requires slot_room { vec_len slots.old + length entries.items ≤ vec_capacity slots.old }
    ensures nodes { AreNodesAfter nodes.old slots.old.items gone.now moves.now nests.items entries.items nodes.new slots.new.items }
    ensures regions { AreBeside (IsRegionFilled nests.items) regions.old.items regions.new.items }
{
    drop_nodes(nodes, slots, gone);
    move_nodes(nodes, slots, moves);
    set_nests(nodes, slots, regions, nests);
    push_entries(nodes, slots, entries);
}

/// Takes these nodes out.
fn drop_nodes(nodes: &mut Slab<NodeEntry>, slots: &mut Vec<Slot>, gone: &[u32])
    requires held { AreHeld nodes.old slots.old.items }
    requires ascending { IsStrictlySortedBy nat_cmp gone.now }
    ensures slots { slots.new.items ≡ filter (λ (slot : SlotValue). not (is_among slot.node gone.now)) slots.old.items }
    ensures left { (slot : SlotValue) → Mem slot slots.new.items → get nodes.new slot.at ≡ get nodes.old slot.at }
    ensures count { slab_len nodes.new ≤ slab_len nodes.old }
    ensures capacity { nodes.new.capacity ≡ nodes.old.capacity }
    ensures slots_count { vec_len slots.new ≤ vec_len slots.old }
    ensures slots_capacity { vec_capacity slots.new ≡ vec_capacity slots.old }
{
    take_entries(nodes, slots, gone);
    keep_slots(slots, gone);
}

/// Takes the entries of these nodes out of the slab.
fn take_entries(nodes: &mut Slab<NodeEntry>, slots: &[Slot], gone: &[u32])
    requires held { AreHeld nodes.old slots.now }
    ensures left { AreLeft nodes.old slots.now gone.now nodes.new }
    ensures count { slab_len nodes.new ≤ slab_len nodes.old }
    ensures capacity { nodes.new.capacity ≡ nodes.old.capacity }
{
    for node in gone {
        take_node(nodes, slots, *node);
    }
}

/// Takes the entry of the node out of the slab.
fn take_node(nodes: &mut Slab<NodeEntry>, slots: &[Slot], node: u32)
    requires ascending { IsStrictlySortedBy slot_cmp slots.now }
    ensures left { (first : SlabValue NodeEntryValue) (gone : List ℕ) → AreHeld first slots.now → is_among node gone ≡ true
        → AreLeft first slots.now gone nodes.old → AreLeft first slots.now gone nodes.new }
    ensures count { slab_len nodes.new ≤ slab_len nodes.old }
    ensures capacity { nodes.new.capacity ≡ nodes.old.capacity }
{
    if let Some(slot) = find_slot(slots, node) {
        take_entry(nodes, slot.at as usize);
    }
}

/// Takes the entry out that is kept there.
fn take_entry(nodes: &mut Slab<NodeEntry>, at: usize)
    ensures vacated { get nodes.new at ≡ None }
    ensures others { (other : ℕ) → other ≢ at → get nodes.new other ≡ get nodes.old other }
    ensures count { slab_len nodes.new ≤ slab_len nodes.old }
    ensures capacity { nodes.new.capacity ≡ nodes.old.capacity }
{
    let _taken = nodes.try_remove(at);
}

/// Keeps the slots of the nodes that are none of these: takes the others out one by one where that costs less, else passes over
/// all.
fn keep_slots(slots: &mut Vec<Slot>, gone: &[u32])
    requires slots_ascend { IsStrictlySortedBy slot_cmp slots.old.items }
    requires ascending { IsStrictlySortedBy nat_cmp gone.now }
    ensures kept { slots.new.items ≡ filter (λ (slot : SlotValue). not (is_among slot.node gone.now)) slots.old.items }
    ensures count { vec_len slots.new ≤ vec_len slots.old }
    ensures capacity { vec_capacity slots.new ≡ vec_capacity slots.old }
{
    if is_cheaper_singly(gone.len(), behind_first(slots, gone), slots.len()) {
        take_slots(slots, gone);
    } else {
        slots.retain(|slot| stays(gone, slot.node));
    }
}

/// How many slots stand behind that of the first of these nodes, or are that. Logarithmic.
fn behind_first(slots: &[Slot], gone: &[u32]) -> usize {
    match gone.first() {
        Some(first) => slots.len() - slots.partition_point(|slot| slot.node < *first),
        None => 0,
    }
}

/// Takes the slots of these nodes out one by one.
fn take_slots(slots: &mut Vec<Slot>, gone: &[u32])
    requires slots_ascend { IsStrictlySortedBy slot_cmp slots.old.items }
    ensures kept { slots.new.items ≡ filter (λ (slot : SlotValue). not (is_among slot.node gone.now)) slots.old.items }
    ensures count { vec_len slots.new ≤ vec_len slots.old }
    ensures capacity { vec_capacity slots.new ≡ vec_capacity slots.old }
{
    for node in gone {
        take_slot(slots, *node);
    }
}

/// Takes the slot of the node out.
fn take_slot(slots: &mut Vec<Slot>, node: u32)
    requires slots_ascend { IsStrictlySortedBy slot_cmp slots.old.items }
    ensures kept { slots.new.items ≡ filter (λ (slot : SlotValue). not (slot.node == node)) slots.old.items }
    ensures count { vec_len slots.new ≤ vec_len slots.old }
    ensures capacity { vec_capacity slots.new ≡ vec_capacity slots.old }
{
    match slots.binary_search_by_key(&node, |slot| slot.node) {
        Ok(at) => take_slot_at(slots, at),
        Err(_) => {}
    }
}

/// Takes the slot out that stands there.
fn take_slot_at(slots: &mut Vec<Slot>, at: usize)
    requires inside { at < length slots.old.items }
    ensures taken { slots.new.items ≡ take at slots.old.items ++ drop (at + 1) slots.old.items }
    ensures count { vec_len slots.new ≤ vec_len slots.old }
    ensures capacity { vec_capacity slots.new ≡ vec_capacity slots.old }
{
    let _taken = slots.remove(at);
}

/// Moves nodes into other places.
fn move_nodes(nodes: &mut Slab<NodeEntry>, slots: &[Slot], moves: &[Move])
    requires held { AreHeld nodes.old slots.now }
    requires ascending { IsStrictlySortedBy move_cmp moves.now }
    ensures moved { LeadOn (IsMoved moves.now) nodes.old nodes.new slots.now }
    ensures count { slab_len nodes.new ≡ slab_len nodes.old }
    ensures capacity { nodes.new.capacity ≡ nodes.old.capacity }
{
    for step in moves {
        move_node(nodes, slots, step.node, step.place);
    }
}

/// Moves the node into another place.
fn move_node(nodes: &mut Slab<NodeEntry>, slots: &[Slot], node: u32, place: Place)
    requires held { AreHeld nodes.old slots.now }
    ensures put { LeadOn (IsPut node place) nodes.old nodes.new slots.now }
    ensures count { slab_len nodes.new ≡ slab_len nodes.old }
    ensures capacity { nodes.new.capacity ≡ nodes.old.capacity }
{
    if let Some(slot) = find_slot(slots, node) {
        if let Some(entry) = nodes.get_mut(slot.at as usize) {
            entry.row.parent = place;
        }
    }
}

/// Sets what lies in places.
fn set_nests(
    nodes: &mut Slab<NodeEntry>,
    slots: &[Slot],
    regions: &mut Vec<RegionEntry>,
    nests: Vec<Nest>,
)
    requires held { AreHeld nodes.old slots.now }
    ensures nodes { LeadOn (IsFilled nests.items) nodes.old nodes.new slots.now }
    ensures regions { AreBeside (IsRegionFilled nests.items) regions.old.items regions.new.items }
    ensures count { slab_len nodes.new ≡ slab_len nodes.old }
    ensures capacity { nodes.new.capacity ≡ nodes.old.capacity }
{
    for nest in nests {
        set_nest(nodes, slots, regions, nest);
    }
}

/// Sets what lies in a place.
fn set_nest(nodes: &mut Slab<NodeEntry>, slots: &[Slot], regions: &mut Vec<RegionEntry>, nest: Nest)
    requires held { AreHeld nodes.old slots.now }
    ensures nodes { LeadOn (IsFilled (nest ∷ [])) nodes.old nodes.new slots.now }
    ensures regions { AreBeside (IsRegionFilled (nest ∷ [])) regions.old.items regions.new.items }
    ensures count { slab_len nodes.new ≡ slab_len nodes.old }
    ensures capacity { nodes.new.capacity ≡ nodes.old.capacity }
{
    match nest.place {
        Place::Node(node) => fill_node(nodes, slots, node, nest),
        Place::Region(region) => fill_region(regions, region, nest),
    }
}

/// Fills the node of the nest with what is to lie in it.
fn fill_node(nodes: &mut Slab<NodeEntry>, slots: &[Slot], node: u32, nest: Nest)
    requires held { AreHeld nodes.old slots.now }
    requires place { nest.place ≡ Place.Node node }
    ensures nodes { LeadOn (IsFilled (nest ∷ [])) nodes.old nodes.new slots.now }
    ensures count { slab_len nodes.new ≡ slab_len nodes.old }
    ensures capacity { nodes.new.capacity ≡ nodes.old.capacity }
{
    if let Some(slot) = find_slot(slots, node) {
        if let Some(entry) = nodes.get_mut(slot.at as usize) {
            entry.children = nest.children;
        }
    }
}

/// Fills the region of the nest with what is to lie in it.
fn fill_region(regions: &mut Vec<RegionEntry>, region: u32, nest: Nest)
    requires place { nest.place ≡ Place.Region region }
    ensures { AreBeside (IsRegionFilled (nest ∷ [])) regions.old.items regions.new.items }
{
    if let Some(entry) = regions.get_mut(region as usize) {
        entry.children = nest.children;
    }
}

/// Puts entries behind the others.
fn push_entries(nodes: &mut Slab<NodeEntry>, slots: &mut Vec<Slot>, entries: Vec<NodeEntry>)
    requires held { AreHeld nodes.old slots.old.items }
    requires ascend { IsStrictlySortedBy entry_cmp entries.items }
    requires above { (slot : SlotValue) (entry : NodeEntryValue) → Mem slot slots.old.items → Mem entry entries.items → slot.node < entry.row.id }
    requires room { HasRoomFor nodes.old (length entries.items) }
    requires few { nodes.old.capacity ≤ 2 ^ 32 }
    requires slot_room { vec_len slots.old + length entries.items ≤ vec_capacity slots.old }
    ensures { ArePushed nodes.old slots.old.items entries.items nodes.new slots.new.items }
{
    for entry in entries {
        push_entry(nodes, slots, entry);
    }
}

/// Puts an entry behind the others.
fn push_entry(nodes: &mut Slab<NodeEntry>, slots: &mut Vec<Slot>, entry: NodeEntry)
    requires room { HasRoomFor nodes.old 1 }
    requires few { nodes.old.capacity ≤ 2 ^ 32 }
    requires slot_room { vec_len slots.old < vec_capacity slots.old }
    ensures pushed { IsPushed nodes.old slots.old.items entry nodes.new slots.new.items }
    ensures count { slab_len nodes.new ≡ slab_len nodes.old + 1 }
    ensures capacity { nodes.new.capacity ≡ nodes.old.capacity }
    ensures slots_count { vec_len slots.new ≡ vec_len slots.old + 1 }
    ensures slots_capacity { vec_capacity slots.new ≡ vec_capacity slots.old }
{
    let node = entry.row.id;
    let at = nodes.insert_reserved(entry);
    slots.push_reserved(Slot {
        node,
        at: at as u32,
    });
}
