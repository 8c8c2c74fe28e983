//! A name of the topmost bigraph of a stack closed.
ghost use Rattle.std.specs.Prelude.{◌≡◌, ◌≤◌, ◌∷◌, ◌++◌, true, length, take, drop, reverse, IfOk, OnOk};
ghost use Rattle.bg_base.specs.Bigraph.{IsValid};
ghost use Rattle.bg_base.specs.Products as product;
ghost use Rattle.bg_builder.specs.Frames.{laid_rows, rows_below, top_of, AreKept, BeginsWithin, IsLaid, stack_of, IsStack};
ghost use Rattle.bg_builder.specs.Numbers.{lies_behind};
ghost use Rattle.bg_builder.specs.Stack.{top, under, top_behind};

use crate::frames::{Frame, put_one, take_one};
use crate::lists::Lists;
use crate::tables::{inner_closed, names_without};
use crate::tails::close_nodes;
use bg_base::Name;
use bg_lists::Mem;
use std::alloc::Global;

/// The topmost bigraph with the name made the edge, in its place.
#[tactic(auto, using(crate::proofs::Stacked::one_there))]
pub(crate) fn put_closed(
    alloc: Global,
    lists: &mut Lists,
    frames: &mut Vec<Frame>,
    name: &Name,
    edge: u32,
) -> Mem<()>
    requires kept { AreKept (laid_rows lists.old) (reverse frames.old.items) }
    requires new { top_behind edge (stack_of lists.old frames.old.items) ≡ true }
    ensures { OnOk result (IsStack lists.new frames.new.items
        (product.close (top (stack_of lists.old frames.old.items)) name.now edge ∷ under (stack_of lists.old frames.old.items))) }
{
    let Some(f) = take_one(frames) else {
        unreachable!();
    };
    let whole = closed(alloc, lists, f, name, edge)?;
    put_one(frames, whole)?;
    Ok(())
}

/// The topmost bigraph with the name made the edge, in front of all edges.
fn closed(alloc: Global, lists: &mut Lists, f: Frame, name: &Name, edge: u32) -> Mem<Frame>
    requires within { BeginsWithin (laid_rows lists.old) f }
    requires valid { IsValid (top_of (laid_rows lists.old) f) }
    requires new { lies_behind edge (top_of (laid_rows lists.old) f) ≡ true }
    ensures { IfOk result (λ whole. IsLaid (laid_rows lists.new) whole (rows_below (laid_rows lists.old) f)
        (product.close (top_of (laid_rows lists.old) f) name.now edge)) }
{
    close_nodes(alloc, &mut lists.nodes, f.nodes, name, edge)?;
    put_edge(&mut lists.edges, f.edges, edge)?;
    Ok(Frame {
        nodes: f.nodes,
        edges: f.edges,
        sites: f.sites,
        inner: inner_closed(alloc, f.inner, name, edge)?,
        outer: names_without(f.outer, name),
        regions: f.regions,
    })
}

/// Puts the edge in front of those from that place on.
fn put_edge(edges: &mut Vec<u32>, start: usize, edge: u32) -> Mem<()>
    requires within { start ≤ length edges.old.items }
    ensures { OnOk result (edges.new.items ≡ take start edges.old.items ++ edge ∷ drop start edges.old.items) }
{
    edges.insert(start, edge)?;
    Ok(())
}
