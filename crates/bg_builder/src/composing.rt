//! Composition and nesting of the two topmost bigraphs of a stack.
ghost use Rattle.std.specs.Prelude.{◌≡◌, ◌∷◌, [], true, length, map, reverse, IfOk, OnOk};
ghost use Rattle.std.specs.List.Sorted.{IsStrictlySortedBy};
ghost use Rattle.bg_base.specs.Bigraph.{inner_cmp};
ghost use Rattle.bg_base.specs.Composition as composition;
ghost use Rattle.bg_base.specs.Products as product;
ghost use Rattle.bg_builder.specs.Frames.{laid_rows, rows_below, top_of, AreKept, AreTwo, IsLaid, stack_of, IsStack};
ghost use Rattle.bg_builder.specs.Inside as inside;
ghost use Rattle.bg_builder.specs.Stack.{top, second, others, two_follow};

use crate::frames::{Frame, put_one, take_two};
use crate::inside::{link_rows, place_rows};
use crate::lists::Lists;
use crate::tables::{inner_list, inner_under, outer_of_both};
use crate::tails::{items_between, link_nodes, place_nodes, put_through};
use bg_base::{InnerRow, NodeRow, Place};
use bg_lists::Mem;
use std::alloc::Global;

/// The composition of the two topmost bigraphs, the topmost one below, in their place.
#[tactic(auto, using(crate::proofs::Stacked::two_there, crate::proofs::Stacked::two_of))]
pub(crate) fn put_composed(alloc: Global, lists: &mut Lists, frames: &mut Vec<Frame>) -> Mem<()>
    requires kept { AreKept (laid_rows lists.old) (reverse frames.old.items) }
    requires follow { two_follow (stack_of lists.old frames.old.items) ≡ true }
    requires faces { composition.FacesAgree (second (stack_of lists.old frames.old.items)) (top (stack_of lists.old frames.old.items)) }
    ensures { OnOk result (IsStack lists.new frames.new.items
        (composition.compose (second (stack_of lists.old frames.old.items)) (top (stack_of lists.old frames.old.items)) ∷ others (stack_of lists.old frames.old.items))) }
{
    let Some((g, f)) = take_two(frames) else {
        unreachable!();
    };
    let whole = put_under(alloc, lists, g, f)?;
    put_one(frames, whole)?;
    Ok(())
}

/// The topmost bigraph, `f`, through the sites and the inner names of the second one.
fn put_under(alloc: Global, lists: &mut Lists, g: Frame, f: Frame) -> Mem<Frame>
    requires two { AreTwo (laid_rows lists.old) f g }
    ensures { IfOk result (λ whole. IsLaid (laid_rows lists.new) whole (rows_below (rows_below (laid_rows lists.old) f) g)
        (composition.compose (top_of (rows_below (laid_rows lists.old) f) g) (top_of (laid_rows lists.old) f))) }
{
    let inner = inner_list(alloc, g.inner)?;
    let names = inner.as_slice();
    let sites = items_between(&lists.sites, g.sites, f.sites);
    place_nodes(&mut lists.nodes, f.nodes, sites);
    link_nodes(alloc, &mut lists.nodes, f.nodes, names)?;
    put_through(&mut lists.sites, g.sites, f.sites);
    Ok(Frame {
        nodes: g.nodes,
        edges: g.edges,
        sites: g.sites,
        inner: inner_under(alloc, f.inner, names)?,
        outer: g.outer,
        regions: g.regions,
    })
}

/// Puts the rows into these sites, and ties their ports by these inner names.
pub(crate) fn put_rows(
    alloc: Global,
    rows: &mut [NodeRow],
    sites: &[Place],
    inner: &[InnerRow],
) -> Mem<()>
    requires { IsStrictlySortedBy inner_cmp inner.now }
    ensures { OnOk result (rows.new ≡ map (inside.row_by inner.now) (map (inside.row_at sites.now) rows.old)) }
{
    place_rows(rows, sites);
    link_rows(alloc, rows, inner)?;
    Ok(())
}

/// The nesting of the topmost bigraph in the second one, in their place.
#[tactic(auto, using(crate::proofs::Stacked::two_there, crate::proofs::Stacked::two_of))]
pub(crate) fn put_nested(lists: &mut Lists, frames: &mut Vec<Frame>) -> Mem<()>
    requires kept { AreKept (laid_rows lists.old) (reverse frames.old.items) }
    requires follow { two_follow (stack_of lists.old frames.old.items) ≡ true }
    requires no_inner { (second (stack_of lists.old frames.old.items)).inner ≡ [] }
    requires widths { (top (stack_of lists.old frames.old.items)).regions ≡ length (second (stack_of lists.old frames.old.items)).sites }
    ensures { OnOk result (IsStack lists.new frames.new.items
        (product.nest (second (stack_of lists.old frames.old.items)) (top (stack_of lists.old frames.old.items)) ∷ others (stack_of lists.old frames.old.items))) }
{
    let Some((f, g)) = take_two(frames) else {
        unreachable!();
    };
    let whole = put_inside(lists, f, g)?;
    put_one(frames, whole)?;
    Ok(())
}

/// The topmost bigraph through the sites of the second one, which has no inner names.
fn put_inside(lists: &mut Lists, f: Frame, g: Frame) -> Mem<Frame>
    requires two { AreTwo (laid_rows lists.old) g f }
    requires no_inner { (top_of (rows_below (laid_rows lists.old) g) f).inner ≡ [] }
    ensures { IfOk result (λ whole. IsLaid (laid_rows lists.new) whole (rows_below (rows_below (laid_rows lists.old) g) f)
        (product.nest (top_of (rows_below (laid_rows lists.old) g) f) (top_of (laid_rows lists.old) g))) }
{
    let sites = items_between(&lists.sites, f.sites, g.sites);
    place_nodes(&mut lists.nodes, g.nodes, sites);
    put_through(&mut lists.sites, f.sites, g.sites);
    Ok(Frame {
        nodes: f.nodes,
        edges: f.edges,
        sites: f.sites,
        inner: g.inner,
        outer: outer_of_both(f.outer, g.outer)?,
        regions: f.regions,
    })
}
