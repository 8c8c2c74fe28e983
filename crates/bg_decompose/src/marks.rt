//! Which nodes of a host are images of a pattern's nodes, or lie below one. Each node is climbed from until an image, a
//! region or a row that is known, and the rows on the way are marked, so that none is climbed from twice.
ghost use Rattle.std.specs.Prelude.{◌≡◌, true, filter, is_some, IfOk};
ghost use Rattle.std.specs.List.Sorted.{IsSorted};
ghost use Rattle.std.specs.Ordering.{nat_cmp};
ghost use Rattle.bg_base.specs.Bigraph.{IsValid, has_place, row_of};
ghost use Rattle.bg_base.specs.Climbing.{node_at, depth};
ghost use Rattle.bg_base.specs.Lookup.{IsSortedCopy};
ghost use Rattle.bg_rules.specs.Instantiation.{is_among};
ghost use Rattle.bg_decompose.specs.Marks as mark;
ghost use Rattle.bg_decompose.specs.Marks.{AreMarked};

use bg_base::{AtFoothold, Big, Climbable, NodeRow, Place, find_node_at, marked_value, no_marks};
use bg_lists::{Duplicate, Mem, Rows};
use std::alloc::Global;

/// The numbers in order.
pub(crate) fn in_order(alloc: Global, numbers: &[u32]) -> Mem<Vec<u32>>
    ensures { IfOk result (λ sorted. IsSortedCopy nat_cmp numbers.now sorted.items) }
{
    let mut sorted = Vec::from_slice(alloc, numbers)?;
    sorted.sort_unstable();
    Ok(sorted)
}

/// Whether the number is one of these, which are in order.
pub(crate) fn has(sorted: &[u32], number: u32) -> bool
    requires sorted { IsSorted nat_cmp sorted.now }
    ensures { result ≡ is_among number sorted.now }
{
    sorted.binary_search(&number).is_ok()
}

/// A host, of whose nodes some are images, and others lie below one.
#[derive(Drop)]
struct Covered<'a> {
    host: &'a Big,
    images: &'a [u32],
}

impl<'a> Climbable for Covered<'a> {
    type Foothold = Place;

    type Value = bool;

    ghost is_foothold = { λ covered place. IsValid covered.host.now × IsSorted nat_cmp covered.images.now × (has_place covered.host.now place ≡ true) };

    ghost value = { λ covered place. mark.lies_covered covered.host.now covered.images.now place };

    ghost value_at = { λ covered at. mark.is_covered covered.host.now covered.images.now (node_at covered.host.now.nodes at) };

    ghost height = { λ covered place. depth covered.host.now place };

    fn find(&self, place: Place) -> AtFoothold<bool, Place> {
        let Place::Node(node) = place else {
            return AtFoothold::Value(false);
        };
        if has(self.images, node) {
            return AtFoothold::Value(true);
        }
        match find_node_at(&self.host.nodes, node) {
            Some((at, row)) => AtFoothold::Row {
                at,
                above: row.parent,
            },
            None => AtFoothold::Value(false),
        }
    }
}

/// Whether the node is an image or lies below one; the rows on the way are marked then.
fn is_covered(host: &Big, images: &[u32], marks: &mut [Option<bool>], node: u32) -> bool
    requires valid { IsValid host.now }
    requires there { is_some (row_of host.now.nodes node) ≡ true }
    requires sorted { IsSorted nat_cmp images.now }
    requires marks { AreMarked host.now images.now marks.old }
    ensures value { result ≡ mark.is_covered host.now images.now node }
    ensures marks { AreMarked host.now images.now marks.new }
{
    let covered = Covered { host, images };
    marked_value(&covered, marks, Place::Node(node))
}

/// The nodes that are no images and lie below none.
fn nodes_outside(
    alloc: Global,
    host: &Big,
    images: &[u32],
    marks: &mut [Option<bool>],
) -> Mem<Rows<NodeRow>>
    requires valid { IsValid host.now }
    requires sorted { IsSorted nat_cmp images.now }
    requires marks { AreMarked host.now images.now marks.old }
    ensures { IfOk result (λ rows. rows ≡ filter (mark.is_outside host.now images.now) host.now.nodes) }
{
    let mut made = Vec::new(alloc);
    let rows = host.nodes.as_slice();
    for row in rows {
        if !is_covered(host, images, marks, row.id) {
            made.push(row.copy(alloc)?)?;
        }
    }
    Rows::try_from_vec(made)
}

/// The nodes that are no images and lie below one.
fn nodes_inside(
    alloc: Global,
    host: &Big,
    images: &[u32],
    marks: &mut [Option<bool>],
) -> Mem<Vec<NodeRow>>
    requires valid { IsValid host.now }
    requires sorted { IsSorted nat_cmp images.now }
    requires marks { AreMarked host.now images.now marks.old }
    ensures value { IfOk result (λ rows. rows.items ≡ filter (mark.is_inside host.now images.now) host.now.nodes) }
    ensures marks { AreMarked host.now images.now marks.new }
{
    let mut made = Vec::new(alloc);
    let rows = host.nodes.as_slice();
    for row in rows {
        if !has(images, row.id) && is_covered(host, images, marks, row.id) {
            made.push(row.copy(alloc)?)?;
        }
    }
    Ok(made)
}

/// The nodes of a host that lie outside of the images, and those that lie inside.
#[derive(Drop)]
pub(crate) struct Sides {
    pub(crate) outside: Rows<NodeRow>,
    pub(crate) inside: Vec<NodeRow>,
}

/// The nodes above or beside the images, and those below them.
pub(crate) fn sides_of(alloc: Global, host: &Big, map: &[u32]) -> Mem<Sides>
    requires valid { IsValid host.now }
    ensures outside { IfOk result (λ sides. sides.outside ≡ filter (mark.is_outside host.now map.now) host.now.nodes) }
    ensures inside { IfOk result (λ sides. sides.inside.items ≡ filter (mark.is_inside host.now map.now) host.now.nodes) }
{
    let images = in_order(alloc, map)?;
    let mut marks = no_marks(alloc, host.nodes.as_slice().len())?;
    let inside = nodes_inside(alloc, host, images.as_slice(), &mut marks)?;
    let outside = nodes_outside(alloc, host, images.as_slice(), &mut marks)?;
    Ok(Sides { outside, inside })
}
