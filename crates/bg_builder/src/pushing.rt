//! A bigraph put on top of a stack.
ghost use Rattle.std.specs.Prelude.{◌≡◌, ◌∷◌, ◌++◌, [], map, reverse, IfOk, OnOk};
ghost use Rattle.bg_base.specs.Bigraph.{IsValid};
ghost use Rattle.bg_base.specs.Elementary as elementary;
ghost use Rattle.bg_base.specs.Order.{name_cmp};
ghost use Rattle.bg_base.specs.declared.names.Link.TheVariants.{Outer};
ghost use Rattle.bg_base.specs.declared.names.Place.TheVariants.{Node};
ghost use Rattle.bg_builder.specs.Frames.{laid_rows, AreKept, IsLaid, stack_of, IsStack};
ghost use Rattle.bg_lists.specs.Orders.{set_of};

use crate::frames::{Frame, put_one};
use crate::lists::Lists;
use crate::tables::{inner_tree, name_tree, outer_tree};
use bg_base::{Big, Link, LinkVec, Name, NodeRow, Place, PortLinks};
use bg_lists::{Duplicate, Mem, Rows};
use std::alloc::Global;
use std::collections::BTreeMap;

/// The bigraph on top.
pub(crate) fn put_big(
    alloc: Global,
    lists: &mut Lists,
    frames: &mut Vec<Frame>,
    big: Big,
) -> Mem<()>
    requires kept { AreKept (laid_rows lists.old) (reverse frames.old.items) }
    requires valid { IsValid big }
    ensures { OnOk result (IsStack lists.new frames.new.items (big ∷ stack_of lists.old frames.old.items)) }
{
    let frame = lay(alloc, lists, big)?;
    put_one(frames, frame)?;
    Ok(())
}

/// The rows of the bigraph behind all others.
fn lay(alloc: Global, lists: &mut Lists, big: Big) -> Mem<Frame>
    requires valid { IsValid big }
    ensures { IfOk result (λ frame. IsLaid (laid_rows lists.new) frame (laid_rows lists.old) big) }
{
    let Big {
        nodes,
        edges,
        sites,
        inner,
        regions,
        outer,
    } = big;
    let frame = Frame {
        nodes: lists.nodes.len(),
        edges: lists.edges.len(),
        sites: lists.sites.len(),
        inner: inner_tree(alloc, inner.into_vec())?,
        outer: outer_tree(alloc, outer.into_vec())?,
        regions,
    };
    lists.nodes.append(&mut nodes.into_vec())?;
    lists.edges.append(&mut edges.into_vec())?;
    lists.sites.append(&mut sites.into_vec())?;
    Ok(frame)
}

/// A node with a site in it on top.
pub(crate) fn put_ion(
    alloc: Global,
    lists: &mut Lists,
    frames: &mut Vec<Frame>,
    control: u32,
    node: u32,
    names: Rows<Name>,
) -> Mem<()>
    requires kept { AreKept (laid_rows lists.old) (reverse frames.old.items) }
    ensures { OnOk result (IsStack lists.new frames.new.items (elementary.ion control node names ∷ stack_of lists.old frames.old.items)) }
{
    let frame = lay_ion(alloc, lists, control, node, names)?;
    put_one(frames, frame)?;
    Ok(())
}

/// A node with nothing in it on top.
pub(crate) fn put_atom(
    alloc: Global,
    lists: &mut Lists,
    frames: &mut Vec<Frame>,
    control: u32,
    node: u32,
    names: Rows<Name>,
) -> Mem<()>
    requires kept { AreKept (laid_rows lists.old) (reverse frames.old.items) }
    ensures { OnOk result (IsStack lists.new frames.new.items (elementary.atom control node names ∷ stack_of lists.old frames.old.items)) }
{
    let frame = lay_node(alloc, lists, control, node, names)?;
    put_one(frames, frame)?;
    Ok(())
}

/// The rows of a node with a site in it behind all others.
fn lay_ion(
    alloc: Global,
    lists: &mut Lists,
    control: u32,
    node: u32,
    names: Rows<Name>,
) -> Mem<Frame>
    ensures { IfOk result (λ frame. IsLaid (laid_rows lists.new) frame (laid_rows lists.old) (elementary.lone_node control node names (Node node ∷ []))) }
{
    let frame = lay_node(alloc, lists, control, node, names)?;
    lists.sites.push(Place::Node(node))?;
    Ok(frame)
}

/// The rows of a node with nothing in it behind all others.
fn lay_node(
    alloc: Global,
    lists: &mut Lists,
    control: u32,
    node: u32,
    names: Rows<Name>,
) -> Mem<Frame>
    ensures { IfOk result (λ frame. IsLaid (laid_rows lists.new) frame (laid_rows lists.old) (elementary.lone_node control node names [])) }
{
    let frame = Frame {
        nodes: lists.nodes.len(),
        edges: lists.edges.len(),
        sites: lists.sites.len(),
        inner: BTreeMap::new(alloc),
        outer: name_tree(alloc, names.as_slice())?,
        regions: 1,
    };
    let links = open_links(alloc, names)?;
    lists.nodes.push(NodeRow {
        id: node,
        control,
        parent: Place::Region(0),
        links: PortLinks::from_small_vec(links),
    })?;
    Ok(frame)
}

/// The names as links. Moves them.
fn open_links(alloc: Global, names: Rows<Name>) -> Mem<LinkVec>
    ensures { IfOk result (λ links. links.items ≡ map Outer names) }
{
    let mut links = LinkVec::new(alloc);
    for name in names.into_vec() {
        links.push(Link::Outer(name))?;
    }
    Ok(links)
}
