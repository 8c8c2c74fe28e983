//! Instances: copies of the parts of a parameter.
ghost use Rattle.std.specs.Prelude.{◌≡◌, ◌<◌, ◌≤◌, ◌+◌, ◌^◌, ◌++◌, [], length, map as mapped, IfOk, OnOk, MatchOption};
ghost use Rattle.std.specs.List.{All, IsDistinct};
ghost use Rattle.std.specs.List.Sorted.{IsStrictlySortedBy};
ghost use Rattle.std.specs.Ordering.{eq_by_cmp};
ghost use Rattle.bg_lists.specs.Lists.{sort};
ghost use Rattle.bg_lists.specs.Orders.{before};
ghost use Rattle.bg_base.specs.declared.big.NodeRow.{NodeRow as RowOfNode};
ghost use Rattle.bg_base.specs.Bigraph.{IsValid, IsGround, node_cmp};
ghost use Rattle.bg_rules.specs.Instantiation as defined;
ghost use Rattle.bg_react.specs.Copying as copying;

use crate::parts::Parts;
use bg_base::{Big, NodeRow, Place};
use bg_lists::{Duplicate, Mem, OutOfMemory, Rows};
use std::alloc::Global;
use std::collections::BTreeSet;

/// Copies of the parts of a parameter, one region for each, and the number that the next new node will get after them.
#[derive(Debug, Drop)]
pub struct Instance {
    pub big: Big,
    pub next: u32,
}

/// The instance of a parameter (Milner, chapter 8): region `i` has a copy of what lies in region `map[i]` of the
/// parameter. The first copy of a part keeps the numbers of its nodes; each later copy takes the next free numbers,
/// from `next` on, in the order of the originals. A copy shares the links of the original. It refuses only for want of
/// memory. Costs time n log n, and memory n, in the number of nodes and ports of the parameter, of the entries of the
/// map, and of the nodes and ports of the instance.
pub fn instantiate(alloc: Global, parameter: &Big, map: &[u32], next: u32) -> Mem<Instance>
    requires ground { IsGround parameter.now }
    requires no_edges { parameter.now.edges ≡ [] }
    requires regions { All (λ region. region < parameter.now.regions) map.now }
    requires below { All (λ (row : RowOfNode). row.id < next) parameter.now.nodes }
    requires room { defined.next_after parameter.now map.now next < 2 ^ 32 }
    ensures big { IfOk result (λ instance. instance.big ≡ defined.instantiate parameter.now map.now next) }
    ensures next { IfOk result (λ instance. instance.next ≡ defined.next_after parameter.now map.now next) }
{
    let parts = Parts::of(alloc, parameter)?;
    let instance = instance_of(alloc, &parts, map, next)?;
    Ok(instance)
}

/// The instance of the parameter that has these parts.
pub(crate) fn instance_of(alloc: Global, parts: &Parts<'_>, map: &[u32], next: u32) -> Mem<Instance>
    requires ground { IsGround parts.now }
    requires no_edges { parts.now.edges ≡ [] }
    requires regions { All (λ region. region < parts.now.regions) map.now }
    requires below { All (λ (row : RowOfNode). row.id < next) parts.now.nodes }
    requires room { defined.next_after parts.now map.now next < 2 ^ 32 }
    ensures big { IfOk result (λ instance. instance.big ≡ defined.instantiate parts.now map.now next) }
    ensures next { IfOk result (λ instance. instance.next ≡ defined.next_after parts.now map.now next) }
{
    let Some(regions) = width_of(map) else {
        return Err(OutOfMemory);
    };
    let Copies { rows, free } = copies_of(alloc, parts, map, next)?;
    let big = Big {
        nodes: sorted_rows(rows)?,
        edges: Rows::from_vec(Vec::new(alloc)),
        sites: Rows::from_vec(Vec::new(alloc)),
        inner: Rows::from_vec(Vec::new(alloc)),
        regions,
        outer: parts.parameter().outer.copy(alloc)?,
    };
    Ok(Instance { big, next: free })
}

/// The number of entries, where 32 bits can hold it.
fn width_of(map: &[u32]) -> Option<u32>
    ensures { MatchOption result (2 ^ 32 ≤ length map.now) (λ width. width ≡ length map.now) }
{
    if map.len() < 4_294_967_296 {
        Some(map.len() as u32)
    } else {
        None
    }
}

/// The rows by number, where their numbers differ. Takes no memory.
fn sorted_rows(mut rows: Vec<NodeRow>) -> Mem<Rows<NodeRow>>
    requires apart { IsDistinct (eq_by_cmp node_cmp) rows.items }
    ensures { IfOk result (λ sorted. sorted ≡ sort (before node_cmp) rows.items) }
{
    rows.sort_unstable_by_key(|row| row.id);
    Rows::try_from_vec(rows)
}

/// The rows of copies, one copy after the other, and the number that is free after them.
#[derive(Drop)]
struct Copies {
    rows: Vec<NodeRow>,
    free: u32,
}

/// The copies that the entries ask for, in their order.
fn copies_of(alloc: Global, parts: &Parts<'_>, map: &[u32], next: u32) -> Mem<Copies>
    requires valid { IsValid parts.now }
    requires few { length map.now < 2 ^ 32 }
    requires room { defined.next_after parts.now map.now next < 2 ^ 32 }
    ensures rows { IfOk result (λ copies. copies.rows.items ≡ defined.copies_from parts.now map.now next 0 map.now) }
    ensures free { IfOk result (λ copies. copies.free ≡ defined.next_after parts.now map.now next) }
{
    let mut copies = Copies {
        rows: Vec::new(alloc),
        free: next,
    };
    let mut seen = BTreeSet::new(alloc);
    for (at, region) in map.iter().enumerate() {
        let is_new = seen.insert(*region)?;
        push_copy(alloc, parts.part(*region), is_new, at as u32, &mut copies)?;
    }
    Ok(copies)
}

/// Appends a copy of the part, in that region.
fn push_copy(
    alloc: Global,
    part: &[NodeRow],
    is_new: bool,
    region: u32,
    copies: &mut Copies,
) -> Mem<()>
    requires ascending { IsStrictlySortedBy node_cmp part.now }
    requires room { copies.old.free + copying.late_count part.now is_new < 2 ^ 32 }
    ensures rows { OnOk result (copies.new.rows.items ≡ copies.old.rows.items ++ copying.copy_of part.now is_new copies.old.free region) }
    ensures free { OnOk result (copies.new.free ≡ copies.old.free + copying.late_count part.now is_new) }
{
    if is_new {
        return push_first_copy(alloc, part, region, &mut copies.rows);
    }
    push_late_copy(alloc, part, copies.free, region, &mut copies.rows)?;
    copies.free += part.len() as u32;
    Ok(())
}

/// Appends the copy that keeps the numbers.
fn push_first_copy(alloc: Global, part: &[NodeRow], region: u32, rows: &mut Vec<NodeRow>) -> Mem<()>
    ensures { OnOk result (rows.new.items ≡ rows.old.items ++ mapped (copying.first_copy region) part.now) }
{
    for row in part {
        rows.push(first_copy(alloc, row, region)?)?;
    }
    Ok(())
}

fn first_copy(alloc: Global, row: &NodeRow, region: u32) -> Mem<NodeRow>
    ensures { IfOk result (λ copy. copy ≡ copying.first_copy region row.now) }
{
    Ok(NodeRow {
        id: row.id,
        control: row.control,
        parent: first_place(row.parent, region),
        links: row.links.copy(alloc)?,
    })
}

fn first_place(place: Place, region: u32) -> Place
    ensures { result ≡ copying.first_place region place }
{
    match place {
        Place::Node(_) => place,
        Place::Region(_) => Place::Region(region),
    }
}

/// Appends the copy whose nodes have the numbers from `free` on.
fn push_late_copy(
    alloc: Global,
    part: &[NodeRow],
    free: u32,
    region: u32,
    rows: &mut Vec<NodeRow>,
) -> Mem<()>
    requires ascending { IsStrictlySortedBy node_cmp part.now }
    requires room { free + length part.now < 2 ^ 32 }
    ensures { OnOk result (rows.new.items ≡ rows.old.items ++ mapped (copying.late_copy part.now free region) part.now) }
{
    for row in part {
        rows.push(late_copy(alloc, part, free, row, region)?)?;
    }
    Ok(())
}

fn late_copy(alloc: Global, part: &[NodeRow], free: u32, row: &NodeRow, region: u32) -> Mem<NodeRow>
    requires ascending { IsStrictlySortedBy node_cmp part.now }
    requires room { free + length part.now < 2 ^ 32 }
    ensures { IfOk result (λ copy. copy ≡ copying.late_copy part.now free region row.now) }
{
    Ok(NodeRow {
        id: late_number(part, free, row.id),
        control: row.control,
        parent: late_place(part, free, row.parent, region),
        links: row.links.copy(alloc)?,
    })
}

fn late_place(part: &[NodeRow], free: u32, place: Place, region: u32) -> Place
    requires ascending { IsStrictlySortedBy node_cmp part.now }
    requires room { free + length part.now < 2 ^ 32 }
    ensures { result ≡ copying.late_place part.now free region place }
{
    match place {
        Place::Node(node) => Place::Node(late_number(part, free, node)),
        Place::Region(_) => Place::Region(region),
    }
}

fn late_number(part: &[NodeRow], free: u32, node: u32) -> u32
    requires ascending { IsStrictlySortedBy node_cmp part.now }
    requires room { free + length part.now < 2 ^ 32 }
    ensures { result ≡ free + copying.rank_in part.now node }
{
    free + rank_of(part, node) as u32
}

/// How many nodes of the part come before the node; all of them where it is not there.
fn rank_of(part: &[NodeRow], node: u32) -> usize
    requires ascending { IsStrictlySortedBy node_cmp part.now }
    ensures rank { result ≡ copying.rank_in part.now node }
    ensures within { result ≤ length part.now }
{
    match part.binary_search_by_key(&node, |row| row.id) {
        Ok(rank) => rank,
        Err(_) => part.len(),
    }
}
