//! Whether a bigraph is valid under a signature.
ghost use Rattle.std.specs.Prelude.{IsErrAnd, true, MatchOption, ◌↔◌, ◌≡◌, ◌-◌, ◌^◌, ◌<◌, ◌≤◌, length, map, IfOk, OnOk, IsTrue, Some, None, slice_get, is_some, find};
ghost use Rattle.std.specs.Option.{option_copied};
ghost use Rattle.std.specs.List.{list_all};
ghost use Rattle.std.specs.Ordering.{nat_cmp};
ghost use Rattle.bg_base.specs.Order.{name_cmp};
ghost use Rattle.bg_base.specs.Bigraph as rule;
ghost use Rattle.bg_base.specs.Bigraph.{IsValidUnder};
ghost use Rattle.bg_base.specs.Faults as fault;
ghost use Rattle.bg_base.specs.Lookup.{IsFirstRow, IsRowIndex, IsLookup, IsSortedCopy, AreRooted, TellsRoot, has_root};
ghost use Rattle.bg_base.specs.Climbing.{node_at};
ghost use Rattle.bg_base.specs.Faults.{IsAnswer, IsMalformed};

use crate::{
    AtFoothold, Big, Climbable, Control, InnerRow, Kind, Link, Name, NodeRow, Place, Signature,
    marked_value, no_marks,
};
use bg_lists::{Mem, OutOfMemory, copies};
use std::alloc::{AllocError, AllocFailed, Global};
use std::collections::BTreeMap;
use thiserror::Error;

/// A part of a bigraph: one of its lists of rows.
#[derive(Clone, Copy, Debug, PartialEq, Eq)]
pub enum Part {
    Sites,
    Inner,
    Outer,
    Edges,
    Nodes,
}

/// Why a bigraph is not valid under a signature.
#[derive(Clone, Copy, Debug, PartialEq, Eq, Error)]
pub enum CheckFault {
    /// The first row that breaks a rule: the least code of the rules that it breaks (3 to 7, see docs/REFUSALS.md),
    /// its part, and its position in that part, counted from 0.
    #[error("row {row} of the {part:?} breaks rule {code}")]
    Malformed { code: u8, part: Part, row: u32 },
    /// There was no memory to check with.
    #[error("out of memory")]
    OutOfMemory,
}

impl From<OutOfMemory> for CheckFault {
    ghost use Rattle.std.specs.Prelude.{◌≡◌};
    ghost use Rattle.bg_base.specs.declared.check.CheckFault.TheVariants.{OutOfMemory};

    ghost from_gives = { λ _ fault. fault ≡ OutOfMemory };

    fn from(_error: OutOfMemory) -> CheckFault {
        CheckFault::OutOfMemory
    }
}

/// What is kept at hand to look things up in a bigraph whose rows may be out of order: where the first row of each
/// node stands, and the edges and the outer names in order.
#[derive(Drop)]
struct Lookup {
    nodes: BTreeMap<u32, u32>,
    edges: Vec<u32>,
    outer: Vec<Name>,
}

/// Where the first row of each node stands.
fn index_of(alloc: Global, rows: &[NodeRow]) -> Mem<BTreeMap<u32, u32>>
    requires { length rows.now < 2 ^ 32 }
    ensures { IfOk result (λ index. IsRowIndex index rows.now) }
{
    let mut index = BTreeMap::new(alloc);
    let mut at = rows.len();
    while at > 0 {
        at -= 1;
        index.insert(rows[at].id, at as u32)?;
    }
    Ok(index)
}

/// The numbers in order.
fn sorted_numbers(alloc: Global, numbers: &[u32]) -> Mem<Vec<u32>>
    ensures { IfOk result (λ sorted. IsSortedCopy nat_cmp numbers.now sorted.items) }
{
    let mut sorted = Vec::from_slice(alloc, numbers)?;
    sorted.sort_unstable();
    Ok(sorted)
}

/// The names in order.
fn sorted_names(alloc: Global, names: &[Name]) -> Mem<Vec<Name>>
    ensures { IfOk result (λ sorted. IsSortedCopy name_cmp names.now sorted.items) }
{
    let mut sorted = copies(alloc, names)?;
    sorted.sort_unstable();
    Ok(sorted)
}

fn lookup_of(alloc: Global, big: &Big) -> Mem<Lookup>
    ensures { IfOk result (λ lookup. IsLookup big.now lookup.nodes lookup.edges.items lookup.outer.items) }
{
    Ok(Lookup {
        nodes: index_of(alloc, big.nodes.as_slice())?,
        edges: sorted_numbers(alloc, big.edges.as_slice())?,
        outer: sorted_names(alloc, big.outer.as_slice())?,
    })
}

/// The first row of the node.
fn find_row<'a>(big: &'a Big, lookup: &Lookup, node: u32) -> Option<&'a NodeRow>
    requires { IsRowIndex lookup.now.nodes big.now.nodes }
    ensures { option_copied result ≡ rule.row_of big.entry.now.nodes node }
{
    match lookup.nodes.get(&node) {
        Some(at) => big.nodes.as_slice().get(*at as usize),
        None => None,
    }
}

/// Whether the place is there.
fn has_place(big: &Big, lookup: &Lookup, place: Place) -> bool
    requires { IsRowIndex lookup.now.nodes big.now.nodes }
    ensures { result ≡ rule.has_place big.now place }
{
    match place {
        Place::Node(node) => find_row(big, lookup, node).is_some(),
        Place::Region(region) => region < big.regions,
    }
}

/// Whether the edge is among these, which are in order.
fn has_edge(sorted: &[u32], edge: u32, edges: &[u32]) -> bool
    requires { IsSortedCopy nat_cmp edges.now sorted.now }
    ensures { result ≡ is_some (rule.edge_of edges.now edge) }
{
    sorted.binary_search(&edge).is_ok()
}

/// Whether the name is among these, which are in order.
fn has_name(sorted: &[Name], name: &Name, names: &[Name]) -> bool
    requires { IsSortedCopy name_cmp names.now sorted.now }
    ensures { result ≡ is_some (rule.outer_of names.now name.now) }
{
    sorted.binary_search(name).is_ok()
}

/// Whether the link is there.
fn has_link(big: &Big, lookup: &Lookup, link: &Link) -> bool
    requires { IsLookup big.now lookup.now.nodes lookup.now.edges.items lookup.now.outer.items }
    ensures { result ≡ rule.has_link big.now link.now }
{
    match link {
        Link::Edge(edge) => has_edge(lookup.edges.as_slice(), *edge, big.edges.as_slice()),
        Link::Outer(name) => has_name(lookup.outer.as_slice(), name, big.outer.as_slice()),
    }
}

/// Whether all links are there.
fn has_links(big: &Big, lookup: &Lookup, links: &[Link]) -> bool
    requires { IsLookup big.now lookup.now.nodes lookup.now.edges.items lookup.now.outer.items }
    ensures { result ≡ list_all (rule.has_link big.now) links.now }
{
    links.iter().all(|link| has_link(big, lookup, link))
}

fn is_atomic_kind(kind: Kind) -> bool
    ensures { result ≡ rule.is_atomic_kind kind }
{
    match kind {
        Kind::Normal => false,
        Kind::Atomic => true,
    }
}

/// Whether the number is that of an atomic control.
fn is_atomic_control(signature: &Signature, control: u32) -> bool
    ensures { result ≡ rule.is_atomic_control signature.now control }
{
    match signature.controls().get(control as usize) {
        Some(found) => is_atomic_kind(found.kind),
        None => false,
    }
}

/// Whether the place is a node of an atomic control.
fn is_atomic(signature: &Signature, big: &Big, lookup: &Lookup, place: Place) -> bool
    requires { IsRowIndex lookup.now.nodes big.now.nodes }
    ensures { result ≡ rule.is_atomic signature.now big.now place }
{
    match place {
        Place::Node(node) => match find_row(big, lookup, node) {
            Some(row) => is_atomic_control(signature, row.control),
            None => false,
        },
        Place::Region(_) => false,
    }
}

/// The arity of the control of this number, 0 where there is none.
fn arity_of(signature: &Signature, control: u32) -> u32
    ensures { result ≡ rule.arity_of signature.now control }
{
    match signature.controls().get(control as usize) {
        Some(found) => found.arity,
        None => 0,
    }
}

fn site_code(signature: &Signature, big: &Big, lookup: &Lookup, place: Place) -> u8
    requires { IsRowIndex lookup.now.nodes big.now.nodes }
    ensures { result ≡ fault.site_code signature.now big.now place }
{
    if !has_place(big, lookup, place) {
        4
    } else if is_atomic(signature, big, lookup, place) {
        6
    } else {
        0
    }
}

/// The first site that breaks a rule, and the least code of those that it breaks.
fn first_site(
    signature: &Signature,
    big: &Big,
    lookup: &Lookup,
    sites: &[Place],
) -> Option<(u32, u8)>
    requires index { IsRowIndex lookup.now.nodes big.now.nodes }
    requires few { length sites.now < 2 ^ 32 }
    ensures { result ≡ fault.first_fault (map (fault.site_code signature.now big.now) sites.now) }
{
    for (at, place) in sites.iter().enumerate() {
        let code = site_code(signature, big, lookup, *place);
        if code != 0 {
            return Some((at as u32, code));
        }
    }
    None
}

/// Whether the name comes after the one before it.
fn name_rises(last: Option<&Name>, name: &Name) -> bool
    ensures { result ≡ fault.rises name_cmp (option_copied last.entry) name.now }
{
    match last {
        None => true,
        Some(last) => last.cmp(name).is_lt(),
    }
}

/// Whether the number comes after the one before it.
fn number_rises(last: Option<u32>, number: u32) -> bool
    ensures { result ≡ fault.rises nat_cmp last number }
{
    match last {
        None => true,
        Some(last) => last.cmp(&number).is_lt(),
    }
}

fn inner_code(big: &Big, lookup: &Lookup, last: Option<&Name>, row: &InnerRow) -> u8
    requires { IsLookup big.now lookup.now.nodes lookup.now.edges.items lookup.now.outer.items }
    ensures { result ≡ fault.inner_code big.now (option_copied last.entry) row.now }
{
    if !name_rises(last, &row.name) {
        3
    } else if !has_link(big, lookup, &row.link) {
        4
    } else {
        0
    }
}

/// The first inner name that breaks a rule, and the least code of those that it breaks.
fn first_inner(big: &Big, lookup: &Lookup, rows: &[InnerRow]) -> Option<(u32, u8)>
    requires lookup { IsLookup big.now lookup.now.nodes lookup.now.edges.items lookup.now.outer.items }
    requires few { length rows.now < 2 ^ 32 }
    ensures { result ≡ fault.first_fault (fault.codes_from (λ row. row.name) (fault.inner_code big.now) None rows.now) }
{
    let mut last = None;
    for (at, row) in rows.iter().enumerate() {
        let code = inner_code(big, lookup, last, row);
        if code != 0 {
            return Some((at as u32, code));
        }
        last = Some(&row.name);
    }
    None
}

/// The first outer name that does not ascend.
fn first_outer(names: &[Name]) -> Option<(u32, u8)>
    requires { length names.now < 2 ^ 32 }
    ensures { result ≡ fault.first_fault (fault.codes_from (λ name. name) fault.outer_code None names.now) }
{
    let mut last = None;
    for (at, name) in names.iter().enumerate() {
        if !name_rises(last, name) {
            return Some((at as u32, 3));
        }
        last = Some(name);
    }
    None
}

/// The first edge that does not ascend.
fn first_edge(edges: &[u32]) -> Option<(u32, u8)>
    requires { length edges.now < 2 ^ 32 }
    ensures { result ≡ fault.first_fault (fault.codes_from (λ edge. edge) fault.edge_code None edges.now) }
{
    let mut last = None;
    for (at, edge) in edges.iter().enumerate() {
        if !number_rises(last, *edge) {
            return Some((at as u32, 3));
        }
        last = Some(*edge);
    }
    None
}

/// The first row of the node, and its position.
fn row_at<'a>(big: &'a Big, lookup: &Lookup, node: u32) -> Option<(u32, &'a NodeRow)>
    requires { IsRowIndex lookup.now.nodes big.now.nodes }
    ensures { MatchOption result (rule.row_of big.entry.now.nodes node ≡ None)
        (λ found. IsFirstRow big.entry.now.nodes node found.0 found.1.now) }
{
    match lookup.nodes.get(&node) {
        Some(at) => match big.nodes.as_slice().get(*at as usize) {
            Some(row) => Some((*at, row)),
            None => None,
        },
        None => None,
    }
}

/// The nodes of a bigraph, whose roots are looked for.
#[derive(Drop)]
struct Roots<'a> {
    big: &'a Big,
    lookup: &'a Lookup,
}

/// A place, and how many moves are left for the climb from it, since rows that are no bigraph may lead round.
#[derive(Clone, Copy)]
struct Foothold {
    place: Place,
    moves: u32,
}

impl<'a> Climbable for Roots<'a> {
    type Foothold = Foothold;

    type Value = bool;

    ghost is_foothold = { λ roots foothold. IsRowIndex roots.lookup.now.nodes roots.big.now.nodes × TellsRoot roots.big.now foothold.moves foothold.place };

    ghost value = { λ roots foothold. has_root roots.big.now foothold.place };

    ghost value_at = { λ roots at. rule.is_rooted roots.big.now (node_at roots.big.now.nodes at) };

    ghost height = { λ roots foothold. foothold.moves };

    fn find(&self, foothold: Foothold) -> AtFoothold<bool, Foothold> {
        let Place::Node(node) = foothold.place else {
            return AtFoothold::Value(has_place(self.big, self.lookup, foothold.place));
        };
        if foothold.moves == 0 {
            return AtFoothold::Value(false);
        }
        match row_at(self.big, self.lookup, node) {
            Some((at, row)) => AtFoothold::Row {
                at: at as usize,
                above: Foothold {
                    place: row.parent,
                    moves: foothold.moves - 1,
                },
            },
            None => AtFoothold::Value(false),
        }
    }
}

/// Whether the node has a root; the rows on the way are marked then, so that none is climbed from twice.
fn is_rooted(big: &Big, lookup: &Lookup, marks: &mut [Option<bool>], node: u32) -> bool
    requires index { IsRowIndex lookup.now.nodes big.now.nodes }
    requires marks { AreRooted big.now marks.old }
    ensures value { result ≡ rule.is_rooted big.now node }
    ensures marks { AreRooted big.now marks.new }
{
    let roots = Roots { big, lookup };
    let start = Foothold {
        place: Place::Node(node),
        moves: big.nodes.len(),
    };
    marked_value(&roots, marks, start)
}

/// Whether the control, the parent and the links of the node are there.
fn is_known(signature: &Signature, big: &Big, lookup: &Lookup, row: &NodeRow) -> bool
    requires { IsLookup big.now lookup.now.nodes lookup.now.edges.items lookup.now.outer.items }
    ensures { result ≡ fault.is_known signature.now big.now row.now }
{
    row.control < signature.len()
        && has_place(big, lookup, row.parent)
        && has_links(big, lookup, row.links.as_slice())
}

fn node_code(
    signature: &Signature,
    big: &Big,
    lookup: &Lookup,
    marks: &mut [Option<bool>],
    last: Option<u32>,
    row: &NodeRow,
) -> u8
    requires lookup { IsLookup big.now lookup.now.nodes lookup.now.edges.items lookup.now.outer.items }
    requires marks { AreRooted big.now marks.old }
    ensures value { result ≡ fault.node_code signature.now big.now last row.now }
    ensures marks { AreRooted big.now marks.new }
{
    if !number_rises(last, row.id) {
        3
    } else if !is_known(signature, big, lookup, row) {
        4
    } else if row.links.len() != arity_of(signature, row.control) {
        5
    } else if is_atomic(signature, big, lookup, row.parent) {
        6
    } else if !is_rooted(big, lookup, marks, row.id) {
        7
    } else {
        0
    }
}

/// The first node that breaks a rule, and the least code of those that it breaks.
fn first_node(
    signature: &Signature,
    big: &Big,
    lookup: &Lookup,
    marks: &mut [Option<bool>],
    rows: &[NodeRow],
) -> Option<(u32, u8)>
    requires lookup { IsLookup big.now lookup.now.nodes lookup.now.edges.items lookup.now.outer.items }
    requires marks { AreRooted big.now marks.old }
    requires few { length rows.now < 2 ^ 32 }
    ensures { result ≡ fault.first_fault (fault.codes_from (λ row. row.id) (fault.node_code signature.now big.now) None rows.now) }
{
    let mut last = None;
    for (at, row) in rows.iter().enumerate() {
        let code = node_code(signature, big, lookup, marks, last, row);
        if code != 0 {
            return Some((at as u32, code));
        }
        last = Some(row.id);
    }
    None
}

#[tactic(auto, unfolding(crate::specs::Faults::sites_fault))]
fn sites_fault(signature: &Signature, big: &Big, lookup: &Lookup) -> Option<(u32, u8)>
    requires { IsRowIndex lookup.now.nodes big.now.nodes }
    ensures { result ≡ fault.sites_fault signature.now big.now }
{
    first_site(signature, big, lookup, big.sites.as_slice())
}

#[tactic(auto, unfolding(crate::specs::Faults::inner_fault))]
fn inner_fault(big: &Big, lookup: &Lookup) -> Option<(u32, u8)>
    requires { IsLookup big.now lookup.now.nodes lookup.now.edges.items lookup.now.outer.items }
    ensures { result ≡ fault.inner_fault big.now }
{
    first_inner(big, lookup, big.inner.as_slice())
}

#[tactic(auto, unfolding(crate::specs::Faults::outer_fault))]
fn outer_fault(big: &Big) -> Option<(u32, u8)>
    ensures { result ≡ fault.outer_fault big.now }
{
    first_outer(big.outer.as_slice())
}

#[tactic(auto, unfolding(crate::specs::Faults::edges_fault))]
fn edges_fault(big: &Big) -> Option<(u32, u8)>
    ensures { result ≡ fault.edges_fault big.now }
{
    first_edge(big.edges.as_slice())
}

#[tactic(auto, unfolding(crate::specs::Faults::nodes_fault))]
fn nodes_fault(
    signature: &Signature,
    big: &Big,
    lookup: &Lookup,
    marks: &mut [Option<bool>],
) -> Option<(u32, u8)>
    requires lookup { IsLookup big.now lookup.now.nodes lookup.now.edges.items lookup.now.outer.items }
    requires marks { AreRooted big.now marks.old }
    ensures { result ≡ fault.nodes_fault signature.now big.now }
{
    first_node(signature, big, lookup, marks, big.nodes.as_slice())
}

/// Judges the parts of the bigraph one after the other. It takes no memory, so its answer is the fault of the bigraph
/// and nothing else.
#[tactic(auto, unfolding(crate::specs::Faults::fault_of))]
fn judge(
    signature: &Signature,
    big: &Big,
    lookup: &Lookup,
    marks: &mut [Option<bool>],
) -> Option<(Part, u32, u8)>
    requires lookup { IsLookup big.now lookup.now.nodes lookup.now.edges.items lookup.now.outer.items }
    requires marks { AreRooted big.now marks.old }
    ensures { result ≡ fault.fault_of signature.now big.now }
{
    if let Some((row, code)) = sites_fault(signature, big, lookup) {
        return Some((Part::Sites, row, code));
    }
    if let Some((row, code)) = inner_fault(big, lookup) {
        return Some((Part::Inner, row, code));
    }
    if let Some((row, code)) = outer_fault(big) {
        return Some((Part::Outer, row, code));
    }
    if let Some((row, code)) = edges_fault(big) {
        return Some((Part::Edges, row, code));
    }
    if let Some((row, code)) = nodes_fault(signature, big, lookup, marks) {
        return Some((Part::Nodes, row, code));
    }
    None
}

/// The fault as an answer.
fn answer_of(first: Option<(Part, u32, u8)>) -> Result<(), CheckFault>
    ensures { result ≡ fault.answer_of first }
{
    match first {
        None => Ok(()),
        Some((part, row, code)) => Err(CheckFault::Malformed { code, part, row }),
    }
}

impl Big {
    /// Whether the bigraph is valid under the signature. Where it is not, `Malformed` names the first row, in the
    /// order sites, inner names, outer names, edges, nodes, that breaks a rule, and the least code of the rules that
    /// it breaks: 3 for a row that does not ascend, 4 for a control, place or link that is not there, 5 for a wrong
    /// number of ports, 6 for a child of an atomic control, 7 for a node without a root (docs/REFUSALS.md).
    /// Things are there by membership, also while rows are out of order; a number that stands twice means its first
    /// row. Takes time n log n and memory n in the number of rows and links; all memory is taken before the first row
    /// is judged.
    pub fn check(&self, alloc: Global, signature: &Signature) -> Result<(), CheckFault>
        ensures answer { IsAnswer result (fault.fault_of signature.now self.now) }
        ensures valid { OnOk result (IsValidUnder signature.now self.now) }
        ensures malformed { IsErrAnd result IsMalformed → ¬ IsValidUnder signature.now self.now }
    {
        let lookup = lookup_of(alloc, self)?;
        let mut marks = no_marks(alloc, self.nodes.as_slice().len())?;
        answer_of(judge(signature, self, &lookup, &mut marks))
    }
}
